// Who waits at the callers' variable, who of them was woken, and who is to come first.
ghost use Rattle.std.specs.Prelude.{◌≡◌, ◌≤◌, ◌+◌, ◌-◌, ◌^◌, min, true, false, None};
ghost use Rattle.std.specs.Duration.{as_nanos};
ghost use Rattle.pool_state.specs.Waits.{IsSent, SleepOnlyUndue, WaitAsBefore, AllAreWoken, count_of};
ghost use Rattle.pool_state.specs.Waits.{waiting_if, after_wait, one_if};

use std::time::Duration;

/// A caller that was woken comes first, at the latest, once in so many nanoseconds. In between, who
/// has the lock takes what is idle: nobody then waits for a thread that has yet to wake up.
const BETWEEN_TURNS: u32 = 1_000_000;

/// Whom a step is to wake at the callers' variable.
#[derive(Clone, Copy)]
pub enum Wake {
    Nobody,
    One,
    All,
}

/// Whom to wake once the lock is free. It can't be let go: `Shared::wake` uses it up.
pub struct ToWake {
    pub callers: Wake,
    /// All workers who rest.
    pub workers: bool,
    /// The slot of the caller in line that was notified.
    pub told: Option<u32>,
    /// All who stand in line.
    pub all_in_line: bool,
}

impl ToWake {
    /// After a refusal, or a reading.
    pub fn nobody() -> ToWake
        ensures callers { result.callers ≡ Wake.Nobody }
        ensures workers { result.workers ≡ false }
        ensures told { result.told ≡ None }
        ensures in_line { result.all_in_line ≡ false }
    {
        ToWake::workers_if(false)
    }

    /// The one in line at this slot, which was notified.
    pub fn told(told: Option<u32>) -> ToWake
        ensures callers { result.callers ≡ Wake.Nobody }
        ensures workers { result.workers ≡ false }
        ensures told { result.told ≡ told }
        ensures in_line { result.all_in_line ≡ false }
    {
        ToWake {
            callers: Wake::Nobody,
            workers: false,
            told,
            all_in_line: false,
        }
    }

    /// The workers, if something was ordered.
    pub fn workers_if(ordered: bool) -> ToWake
        ensures callers { result.callers ≡ Wake.Nobody }
        ensures workers { result.workers ≡ ordered }
        ensures told { result.told ≡ None }
        ensures in_line { result.all_in_line ≡ false }
    {
        ToWake {
            callers: Wake::Nobody,
            workers: ordered,
            told: None,
            all_in_line: false,
        }
    }
}

/// A caller who waits at the callers' variable, and is counted there. Only a look makes one. It can't
/// be let go: its next look, or its giving up, uses it up.
pub struct Waiting {
    /// Since when somebody waited as it began to: if it waits again, that moment stays.
    pub since: Duration,
    pub(crate) of_a_look: (),
}

/// How many wait at the callers' variable, how many of them were woken, and since when somebody
/// waits, there or in line.
#[derive(Clone, Copy)]
pub struct Waiters {
    /// Callers who wait for a connection, or were woken and have not looked again.
    pub callers: u64,
    /// Wakes that were sent to these, and not taken.
    pub woken: u64,
    /// Whether the maker of the pool may sleep there, and was not woken since it looked.
    pub maker_sleeps: bool,
    /// The same of those who drain; and how many do.
    pub drain_sleeps: bool,
    pub drains: u64,
    /// Since this moment there has been a caller waiting, without a break. It means nothing if
    /// nobody waits.
    pub since: Duration,
    /// Whether one who was woken is to come first: callers that come now give way for a while.
    pub has_turn: bool,
    /// Before this moment nobody is given such a turn.
    next_turn: Duration,
}

impl Waiters {
    /// Nobody waits yet.
    pub fn nobody() -> Waiters
        ensures callers { result.callers ≡ 0 }
        ensures woken { result.woken ≡ 0 }
        ensures maker { result.maker_sleeps ≡ false }
        ensures drain { result.drain_sleeps ≡ false }
        ensures drains { result.drains ≡ 0 }
        ensures since { as_nanos result.since ≡ 0 }
        ensures turn { result.has_turn ≡ false }
    {
        Waiters {
            callers: 0,
            woken: 0,
            maker_sleeps: false,
            drain_sleeps: false,
            drains: 0,
            since: Duration::ZERO,
            has_turn: false,
            next_turn: Duration::ZERO,
        }
    }

    /// How many wait there, those who drain among them.
    pub fn count(&self) -> u64
        ensures { result ≡ count_of self.now }
    {
        self.callers.saturating_add(self.drains)
    }

    /// One caller more waits, if it does, and somebody since this moment.
    pub fn begin_if(&mut self, waits: bool, since: Duration)
        ensures after { self.new ≡ waiting_if waits since self.old }
        ensures at_least { self.old.callers ≤ self.new.callers }
        ensures at_most { self.new.callers ≤ self.old.callers + one_if waits }
        ensures rest { self.new
            ≡ record self.old { callers = self.new.callers; since = self.new.since } }
    {
        if waits {
            self.callers = self.callers.saturating_add(1);
            self.since = since;
        }
    }

    /// One caller has the lock again: it waits no more, and has taken a wake, if one was sent.
    pub fn end(&mut self)
        ensures { self.new ≡ after_wait self.old }
    {
        self.callers = self.callers.saturating_sub(1);
        self.woken = self.woken.saturating_sub(1);
    }

    /// If a step left something for a caller at this moment, counts the wake that is to be sent,
    /// and gives a turn. All are woken if somebody sleeps who does not wait for a connection, and
    /// might have that wake.
    pub fn wake_if(&mut self, due: bool, now: Duration) -> Wake
        requires { self.old.woken ≤ self.old.callers }
        ensures sent { IsSent due result self.old self.new }
        ensures within { self.new.woken ≤ self.old.callers }
        ensures sleepers { SleepOnlyUndue due self.old self.new }
        ensures waits { WaitAsBefore self.old self.new }
    {
        if !due {
            return Wake::Nobody;
        }
        self.give_turn(now);
        if self.maker_sleeps || self.drain_sleeps {
            return self.wake_all();
        }
        if self.woken < self.callers {
            self.woken += 1;
            return Wake::One;
        }
        Wake::Nobody
    }

    /// Counts all as woken, which are to be woken then.
    pub fn wake_all(&mut self) -> Wake
        ensures counted { AllAreWoken self.old self.new }
        ensures sent { result ≡ Wake.All }
    {
        self.woken = self.callers;
        self.maker_sleeps = false;
        self.drain_sleeps = false;
        Wake::All
    }

    // Where somebody waits, one that is woken at this moment is to come first, if none was for a
    // while. (How long that is comes by chance, so that callers who keep time with it are not left
    // out each time.)
    fn give_turn(&mut self, now: Duration)
        ensures { self.new ≡ record self.old {
          has_turn = self.new.has_turn;
          next_turn = self.new.next_turn;
        } }
    {
        if self.callers == 0 || now.as_nanos() < self.next_turn.as_nanos() {
            return;
        }
        self.has_turn = true;
        let length = now.subsec_nanos() % BETWEEN_TURNS;
        self.next_turn = now.saturating_add(Duration::from_nanos(u64::from(length)));
    }

    /// It came, or did not in time: nobody gives way any more.
    pub fn end_turn(&mut self)
        ensures { self.new ≡ record self.old { has_turn = false } }
    {
        self.has_turn = false;
    }
}
