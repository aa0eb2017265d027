// The machine of a pool: what each step does, in place.
ghost use Rattle.std.specs.Prelude.{◌≡◌, ◌+◌, ◌*◌, ◌<◌, ◌≤◌, None, max, map, length, option_map};
ghost use Rattle.std.specs.Prelude.{slice_get, string_bytes, nat_lt, vec_len, vec_capacity, IfOk};
ghost use Rattle.std.specs.Duration.{as_nanos};

use crate::schedule::Job;
pub use crate::schedule::{LimitSettings, Limits};
use crate::steps::Steps;
pub use answers::{Gone, Refusal, Released, Returned, Take};
use idle::{Idle, IdleConnection};
pub use leftover::Leftover;
use lent::LentConnection;
use on_order::OnOrder;
use roster::Roster;
use std::alloc::{AllocError, Allocator, Global};
use std::marker::{Brand, Model};
use std::sync::ledger::{Blank, Ledger};
use std::time::Duration;

pub mod answers;
pub mod idle;
pub mod leftover;
pub mod lent;
pub mod on_order;
mod reaping;
pub mod roster;

/// Which connections there are, and which openings are pending.
///
/// `T` is what the owner keeps of a connection. No step drops one: each comes back in an answer.
/// All memory is taken at the creation: no step takes any. A moment is a `Duration` since the pool
/// was made; a step with an earlier one counts as at the latest so far.
#[derive(Drop)]
pub struct Core<T, A: Allocator = Global> {
    latest: Duration,
    idle: Idle<T, A>,
    lent: Roster<LentConnection, A>,
    on_order: OnOrder<A>,
    last_error: Option<String>,
}

impl<T, A: Allocator> Model for Core<T, A> {
    ghost use Rattle.pool_machine.specs.Picture.{Picture};

    ghost Value = { Picture T };

    ghost use Rattle.pool_machine.specs.CoreParts.{view_of, IsWhole};

    ghost view = { view_of };

    ghost invariant = { IsWhole };
}

impl<T, A: Allocator> Core<T, A> {
    ghost use Rattle.pool_machine.specs.Limits.{seen_limits};
    ghost use Rattle.pool_machine.specs.Connections.{id_of_idle, id_of_lent, since_of, birth_in};
    ghost use Rattle.pool_machine.specs.Lending.{next_to_lend};
    ghost use Rattle.std.specs.Prelude.{IsTrue};
    ghost use Rattle.pool_machine.specs.Picture.{IsSound, HoldsNothing};
    ghost use Rattle.pool_machine.specs.Table.{first_picture};

    /// A core whose ids are counted from 0, made at the moment `now`, with nothing but the openings
    /// that are wanted. The error comes only if its memory is refused.
    pub fn new(alloc: A, limits: Limits, now: Duration) -> Result<Core<T, A>, AllocError>
    where
        T: Drop,
        A: Copy,
        ensures { IfOk result (λ core. core ≡ first_picture (seen_limits limits) (as_nanos now) 0) }
    {
        Core::with_first_id(alloc, limits, now, 0)
    }

    /// The same, with its ids counted from `first_id`.
    pub fn with_first_id(
        alloc: A,
        limits: Limits,
        now: Duration,
        first_id: u64,
    ) -> Result<Core<T, A>, AllocError>
    where
        T: Drop,
        A: Copy,
        ensures { IfOk result
            (λ core. core ≡ first_picture (seen_limits limits) (as_nanos now) first_id) }
    {
        let room = limits.max_size() as usize;
        let idle = Idle::new(alloc, room)?;
        let lent = Roster::new(alloc, room)?;
        let on_order = OnOrder::new(alloc, limits, now, first_id)?;
        Ok(Core {
            latest: now,
            idle,
            lent,
            on_order,
            last_error: None,
        })
    }

    /// How many connections there are, idle and lent.
    pub fn connections(&self) -> u32
        ensures value { result ≡ self.now.connections }
        ensures sound { IsSound self.now }
    {
        let _max_size = self.on_order.limits().max_size();
        self.count() as u32
    }

    /// How many connections are idle.
    pub fn idle(&self) -> u32
        ensures value { result ≡ length self.now.idle }
        ensures sound { IsSound self.now }
    {
        let _max_size = self.on_order.limits().max_size();
        self.idle.len() as u32
    }

    /// How many openings are ordered and not admitted.
    pub fn pending(&self) -> u32
        ensures value { result ≡ self.now.on_order.pending }
        ensures sound { IsSound self.now }
    {
        self.on_order.pending()
    }

    /// Whether `close` was called: then nothing is idle, and nothing on order.
    pub fn is_closed(&self) -> bool
        ensures value { result ≡ self.now.on_order.closed }
        ensures empty { IsTrue result → HoldsNothing self.now }
        ensures sound { IsSound self.now }
    {
        self.on_order.is_closed()
    }

    /// The id that the next opening is given. Each that was given is below it.
    pub fn next_id(&self) -> u64
        ensures value { result ≡ self.now.on_order.next_id }
        ensures sound { IsSound self.now }
    {
        self.on_order.next_id()
    }

    /// The limits that the core was made with.
    pub fn limits(&self) -> Limits
        ensures value { seen_limits result ≡ self.now.on_order.limits }
        ensures sound { IsSound self.now }
    {
        self.on_order.limits()
    }

    /// Since when the connection is idle that is lent next; None if none is idle.
    pub fn next_idle_since(&self) -> Option<Duration>
        ensures value { option_map as_nanos result ≡ option_map since_of
            (next_to_lend self.now.on_order.limits.order self.now.idle) }
        ensures sound { IsSound self.now }
    {
        let next = self.idle.next(self.on_order.limits().order());
        next.map(|entry| entry.since())
    }

    /// When the connection was admitted that is lent and has the id; None if none has.
    pub fn lent_birth(&self, id: u64) -> Option<Duration>
        ensures value { option_map as_nanos result ≡ birth_in id self.now.lent }
        ensures sound { IsSound self.now }
    {
        self.lent.get(id).map(|loan| loan.birth())
    }

    /// The latest moment so far.
    pub fn latest(&self) -> Duration
        ensures value { as_nanos result ≡ self.now.latest }
        ensures sound { IsSound self.now }
    {
        self.latest
    }

    /// The id of the idle connection at a place, from the oldest.
    pub fn idle_id(&self, place: u32) -> Option<u64>
        ensures { result ≡ option_map id_of_idle (slice_get self.now.idle place) }
    {
        self.idle.id_at(place)
    }

    /// The ids of the lent connections, in the order of their takes.
    pub fn lent_ids<B: Allocator>(&self, alloc: B) -> Result<Vec<u64, B>, AllocError>
        ensures { IfOk result (λ ids. ids.items ≡ map id_of_lent self.now.lent) }
    {
        self.lent.ids(alloc)
    }

    /// The idle connections.
    pub fn idle_ones(&self) -> &Idle<T, A>
        ensures { result.now.items ≡ self.now.idle }
    {
        &self.idle
    }

    /// The lent connections.
    pub fn lent_ones(&self) -> &Roster<LentConnection, A>
        ensures { result.now.items ≡ self.now.lent }
    {
        &self.lent
    }

    // How many connections there are.
    fn count(&self) -> usize
        ensures value { result ≡ self.now.connections }
        ensures sound { IsSound self.now }
    {
        let _max_size = self.on_order.limits().max_size();
        self.idle.len() + self.lent.len()
    }
}

impl<T, A: Allocator> Core<T, A> {
    ghost use Rattle.pool_machine.specs.CoreSteps.{IsTake, IsBegin, IsNumbering, IsAdmission};
    ghost use Rattle.pool_machine.specs.CoreSteps.{IsFailedOpening, IsFailedCheck, IsReturn};
    ghost use Rattle.pool_machine.specs.CoreSteps.{IsReap, IsTelling, IsClose};

    /// Lends the idle connection that is next in the order of the limits, and tops up; if none is
    /// idle, orders one if `or_order` says so and there is room.
    #[inline(always)]
    pub fn take(&mut self, now: Duration, or_order: bool) -> Take<T>
        ensures { IsTake now or_order result self.old self.new }
    {
        self.latest = later(self.latest, now);
        let order = self.on_order.limits().order();
        match self.idle.take(order) {
            Some(entry) => {
                let (id, birth) = (entry.id(), entry.birth());
                self.lent.add(LentConnection::new(id, birth));
                let ordered = self
                    .on_order
                    .top_up(self.idle.len(), self.lent.len(), self.latest);
                Take::Found {
                    id,
                    birth,
                    value: entry.into_value(),
                    ordered,
                }
            }
            None => {
                let connections = self.idle.len() + self.lent.len();
                let ordered = self
                    .on_order
                    .order_missed(or_order, connections, self.latest);
                Take::Empty { ordered }
            }
        }
    }

    /// What a worker is to do at the moment `now`: the least opening, or the reap that is due
    /// before it.
    pub fn begin(&mut self, now: Duration) -> Job
        ensures { IsBegin now result self.old self.new }
    {
        self.latest = later(self.latest, now);
        self.on_order.begin(self.latest)
    }

    /// Gives an id to the connection of an opening in work with these tries. It is refused if the
    /// core is closed, if no such opening is in work, or if the next id would be `u64::MAX`.
    pub fn number(&mut self, tries: u32) -> Result<u64, Refusal>
        ensures { IsNumbering tries result self.old self.new }
    {
        self.on_order.number(tries)
    }

    /// Takes in a connection that was numbered, as the newest idle one. It is refused, and the
    /// value comes back, if the core is closed or if the id does not await its admission.
    pub fn admit(&mut self, now: Duration, id: u64, value: T) -> Result<(), (Refusal, T)>
        ensures { IsAdmission now id value result self.old self.new }
    {
        match self.on_order.admit(id) {
            Ok(()) => {
                self.latest = later(self.latest, now);
                self.idle
                    .add(IdleConnection::new(id, self.latest, self.latest, value));
                self.last_error = None;
                Ok(())
            }
            Err(why) => Err((why, value)),
        }
    }

    /// Puts off an opening in work that failed, records the text, and says when the opening is due
    /// again. It is refused if the core is closed or if no opening with these tries is in work.
    pub fn fail(
        &mut self,
        now: Duration,
        tries: u32,
        text: Option<String>,
    ) -> Result<Duration, Refusal>
        ensures { IsFailedOpening now tries text result self.old self.new }
    {
        let latest = later(self.latest, now);
        match self.on_order.fail(latest, tries) {
            Ok(due) => {
                self.latest = latest;
                keep_text(&mut self.last_error, text);
                Ok(due)
            }
            Err(why) => Err(why),
        }
    }

    /// Closes a lent connection whose check failed, records the text, and tops up. It is refused if
    /// the id is not lent.
    pub fn fail_check(
        &mut self,
        now: Duration,
        id: u64,
        text: Option<String>,
    ) -> Result<Gone, Refusal>
        ensures { IsFailedCheck now id text result self.old self.new }
    {
        match self.lent.remove(id) {
            Some(loan) => {
                self.latest = later(self.latest, now);
                let age = self.latest.saturating_sub(loan.birth());
                let ordered = self
                    .on_order
                    .top_up(self.idle.len(), self.lent.len(), self.latest);
                keep_text(&mut self.last_error, text);
                Ok(Gone { age, ordered })
            }
            None => Err(Refusal::NotLent),
        }
    }

    /// Takes back a lent connection: it is the newest idle one, or comes back to be closed if it is
    /// broken, if it is as old as `max_lifetime`, or if the core is closed; then the core tops up.
    /// It is refused, and the value comes back, if the id is not lent.
    #[inline(always)]
    pub fn put_back(
        &mut self,
        now: Duration,
        id: u64,
        value: T,
        broken: bool,
    ) -> Result<Returned<T>, (Refusal, T)>
        ensures { IsReturn now id value broken result self.old self.new }
    {
        match self.lent.remove(id) {
            Some(loan) => {
                let latest = later(self.latest, now);
                self.latest = latest;
                let birth = loan.birth();
                let age = latest.saturating_sub(birth);
                let limits = self.on_order.limits();
                if broken || limits.is_too_old(age) || self.on_order.is_closed() {
                    let ordered = self
                        .on_order
                        .top_up(self.idle.len(), self.lent.len(), latest);
                    Ok(Returned::Closed {
                        value,
                        age,
                        ordered,
                    })
                } else {
                    self.idle.add(IdleConnection::new(id, birth, latest, value));
                    Ok(Returned::Kept)
                }
            }
            None => Err((Refusal::NotLent, value)),
        }
    }

    /// Closes the idle connections that are idle too long or too old: they stand in the caller's
    /// list then, oldest first. The others keep their order. It tops up, also if it closed none,
    /// and returns how many openings it ordered.
    ///
    /// `out` is to be empty, with room for `max_size`. `steps` counts each look at an idle
    /// connection and each move of one: at most two for each there is. If `max_lifetime` is not
    /// set, at most one more than two for each that is closed; and none if `idle_timeout` is not
    /// set either.
    pub fn reap<L: Ledger>(
        &mut self,
        now: Duration,
        out: &mut Vec<Released<T>>,
        steps: &mut Steps<L>,
    ) -> u32
        requires empty { vec_len out.old ≡ 0 }
        requires room { self.old.on_order.limits.max_size ≤ vec_capacity out.old }
        ensures step { IsReap now out.new.items result self.old self.new }
        ensures two_for_each { steps.new ≤ steps.old + 2 * length self.old.idle }
        ensures two_for_each_closed { self.old.on_order.limits.max_lifetime ≡ None
            → steps.new ≤ steps.old + (2 * length out.new.items + 1) }
        ensures none_without_limits { self.old.on_order.limits.max_lifetime ≡ None
            → self.old.on_order.limits.idle_timeout ≡ None → steps.new ≡ steps.old }
    {
        self.latest = later(self.latest, now);
        self.idle
            .reap(&self.on_order.limits(), self.latest, out, steps);
        self.on_order
            .top_up(self.idle.len(), self.lent.len(), self.latest)
    }

    /// The same, for a caller that counts no steps.
    pub fn reap_uncounted(&mut self, now: Duration, out: &mut Vec<Released<T>>) -> u32
        requires empty { vec_len out.old ≡ 0 }
        requires room { self.old.on_order.limits.max_size ≤ vec_capacity out.old }
        ensures { IsReap now out.new.items result self.old self.new }
    {
        self.reap_from::<Brand>(now, out, Blank::new(1))
    }

    // A reap with a count of its own, in the ledger that the blank stands for.
    fn reap_from<L: Ledger>(
        &mut self,
        now: Duration,
        out: &mut Vec<Released<T>>,
        blank: Blank,
    ) -> u32
        requires name { blank.name ≡ L.name }
        requires parts { blank.parts ≡ L.parts }
        requires some { 0 < L.parts }
        requires empty { vec_len out.old ≡ 0 }
        requires room { self.old.on_order.limits.max_size ≤ vec_capacity out.old }
        ensures { IsReap now out.new.items result self.old self.new }
    {
        let mut steps: Steps<L> = Steps::new(blank);
        self.reap(now, out, &mut steps)
    }

    /// The latest text recorded since the last admission, if it was not returned yet: each is
    /// returned once.
    pub fn take_error(&mut self) -> Option<String>
        ensures { IsTelling result self.old self.new }
    {
        self.last_error.take()
    }

    /// Hands out all idle values, and forgets all openings, for good. Lent connections stay lent.
    pub fn close(&mut self) -> Leftover<T, A>
        ensures { IsClose result self.old self.new }
    {
        let left = self.idle.close();
        self.on_order.close();
        left
    }
}

// Whether the first is the lesser. Their parts are compared, so it costs less than to compare their
// lengths in nanoseconds.
pub fn is_before(a: Duration, b: Duration) -> bool
    ensures { result ≡ nat_lt (as_nanos a) (as_nanos b) }
{
    a.checked_sub(b).is_none()
}

// The later of two moments; the first one, where they are the same.
pub fn later(a: Duration, b: Duration) -> Duration
    ensures later { as_nanos result ≡ max (as_nanos a) (as_nanos b) }
    ensures first { as_nanos b ≤ as_nanos a → result ≡ a }
{
    if is_before(a, b) { b } else { a }
}

ghost use Rattle.pool_machine.specs.Seen.{or_text};

// A text takes the place of the last one; where there is none, that stays.
fn keep_text(last_error: &mut Option<String>, text: Option<String>)
    ensures { option_map string_bytes last_error.new
        ≡ or_text text (option_map string_bytes last_error.old) }
{
    if let Some(text) = text {
        *last_error = Some(text);
    }
}
