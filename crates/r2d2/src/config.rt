// The settings of a pool.
ghost use Rattle.std.specs.Prelude.{◌≡◌, ◌<◌, ◌≤◌, ◌↔◌, IsSome, IfSome, IfOk};
ghost use Rattle.std.specs.Option.{ForSome};
ghost use Rattle.std.specs.Duration.{as_nanos};
ghost use Rattle.pool_machine.specs.Limits.{seen_limits};

use crate::event::NopEventHandler;
use crate::{NopConnectionCustomizer, NopErrorHandler};
use pool_state::Tuning;
use r2d2_core::{Book, LendingOrder, LimitSettings, Limits};
use std::alloc::{AllocError, Global};
use std::fmt;
use std::marker::{Model, PhantomData};
use std::time::Duration;

/// The settings that a pool keeps: what each means is said at the setting of `Builder` of the same
/// name.
#[derive(Drop)]
pub struct Config<H, V, Z> {
    /// How many connections there are at most.
    pub max_size: u32,
    /// How many connections the pool tries to keep idle; None for `max_size`.
    pub min_idle: Option<u32>,
    /// How many threads open connections and close expired ones.
    pub thread_pool: usize,
    /// Whether a connection is checked before it is lent.
    pub test_on_check_out: bool,
    /// The age at which a connection is closed; None for never.
    pub max_lifetime: Option<Duration>,
    /// The idle time at which a connection is closed; None for never.
    pub idle_timeout: Option<Duration>,
    /// How long a caller waits for a connection.
    pub connection_timeout: Duration,
    /// How many records of what happened the pool keeps.
    pub journal_room: usize,
    /// The time from one look for expired connections to the next. Among the limits of the core it
    /// is `reap_every`.
    pub reaper_rate: Duration,
    /// Which of the idle connections is lent next.
    pub lending_order: LendingOrder,
    /// The handler of errors.
    pub error_handler: H,
    /// The handler of events.
    pub event_handler: V,
    /// What changes connections as they come and go.
    pub connection_customizer: Z,
}

impl<H, V, Z> Config<H, V, Z> {
    ghost use Rattle.r2d2.specs.Settings.{with_handlers, with_error_handler, with_event_handler};
    ghost use Rattle.r2d2.specs.Settings.{with_customizer};

    // The same settings with other handlers.
    fn with_handlers<G, W, Y>(
        &self,
        error_handler: G,
        event_handler: W,
        connection_customizer: Y,
    ) -> Config<G, W, Y>
        ensures { result
            ≡ with_handlers error_handler event_handler connection_customizer self.now }
    {
        Config {
            max_size: self.max_size,
            min_idle: self.min_idle,
            thread_pool: self.thread_pool,
            test_on_check_out: self.test_on_check_out,
            max_lifetime: self.max_lifetime,
            idle_timeout: self.idle_timeout,
            connection_timeout: self.connection_timeout,
            journal_room: self.journal_room,
            reaper_rate: self.reaper_rate,
            lending_order: self.lending_order,
            error_handler,
            event_handler,
            connection_customizer,
        }
    }

    /// The same settings, and another handler of errors.
    fn with_error_handler<G>(self, error_handler: G) -> Config<G, V, Z>
    where
        H: Drop,
        ensures { result ≡ with_error_handler error_handler self }
    {
        let bare = self.with_handlers((), (), ());
        bare.with_handlers(
            error_handler,
            self.event_handler,
            self.connection_customizer,
        )
    }

    /// The same settings, and another handler of events.
    fn with_event_handler<W>(self, event_handler: W) -> Config<H, W, Z>
    where
        V: Drop,
        ensures { result ≡ with_event_handler event_handler self }
    {
        let bare = self.with_handlers((), (), ());
        bare.with_handlers(
            self.error_handler,
            event_handler,
            self.connection_customizer,
        )
    }

    /// The same settings, and another customizer.
    fn with_customizer<Y>(self, customizer: Y) -> Config<H, V, Y>
    where
        Z: Drop,
        ensures { result ≡ with_customizer customizer self }
    {
        let bare = self.with_handlers((), (), ());
        bare.with_handlers(self.error_handler, self.event_handler, customizer)
    }
}

impl<H: fmt::Debug, V: fmt::Debug, Z: fmt::Debug> fmt::Debug for Config<H, V, Z> {
    fn fmt<W: fmt::Write>(&self, f: &mut fmt::Formatter<W>) -> fmt::Result {
        f.debug_struct("Config")
            .field("max_size", &self.max_size)
            .field("min_idle", &self.min_idle)
            .field("test_on_check_out", &self.test_on_check_out)
            .field("max_lifetime", &self.max_lifetime)
            .field("idle_timeout", &self.idle_timeout)
            .field("connection_timeout", &self.connection_timeout)
            .field("error_handler", &self.error_handler)
            .field("event_handler", &self.event_handler)
            .field("connection_customizer", &self.connection_customizer)
            .finish()
    }
}

/// Gathers the settings of a pool, and builds it. Begin with `Builder::new()`.
///
/// `H` handles errors, `V` events, and `Z` changes connections as they come and go. A setting that
/// may not be zero asks for that as a condition, which the checker proves of each call: a literal
/// shows it by itself, and a number that comes from outside has to be tested before. Each setting
/// says how.
///
/// `Pool::build` of `r2d2_async` makes a pool for tasks of the same settings.
#[derive(Drop)]
pub struct Builder<M, H = NopErrorHandler, V = NopEventHandler, Z = NopConnectionCustomizer> {
    settings: Settings<H, V, Z>,
    manager: PhantomData<M>,
}

/// All that is set at a builder.
#[derive(Drop)]
pub struct Settings<H, V, Z> {
    /// What a pool keeps as r2d2 does, and its handlers.
    pub config: Config<H, V, Z>,
    /// The settings that r2d2 has not.
    pub tuning: Tuning,
    /// The id of the first connection. It matters to the book that the pool begins with, and to
    /// nothing later.
    pub first_id: u64,
    /// Whether a handler of events was set.
    pub listens: bool,
}

impl<H, V, Z> Settings<H, V, Z> {
    ghost use Rattle.r2d2.specs.Settings.{without_handlers};

    /// The same settings without handlers: for what does not know the handlers' types.
    pub fn without_handlers(&self) -> Settings<(), (), ()>
        ensures { result ≡ without_handlers self.now }
    {
        Settings {
            config: self.config.with_handlers((), (), ()),
            tuning: self.tuning,
            first_id: self.first_id,
            listens: self.listens,
        }
    }
}

// Contracts see a builder as its settings.
impl<M, H, V, Z> Model for Builder<M, H, V, Z> {
    ghost use Rattle.r2d2.specs.declared.config.Settings.{Settings};
    ghost use Rattle.r2d2.specs.Settings.{AreAllPositive};

    ghost Value = { Settings H V Z };

    ghost view = { λ b. b.settings };

    ghost invariant = { λ b. AreAllPositive b.settings };
}

impl<M, H, V, Z> Builder<M, H, V, Z> {
    ghost use Rattle.r2d2.specs.Settings.{AreAllPositive};

    // A builder with these settings.
    fn over(settings: Settings<H, V, Z>) -> Builder<M, H, V, Z>
        requires { AreAllPositive settings }
        ensures { result ≡ settings }
    {
        Builder {
            settings,
            manager: PhantomData,
        }
    }
}

impl<M> Builder<M> {
    ghost use Rattle.r2d2.specs.Settings.{AreNew};

    /// A builder with the default of each setting, and with handlers and a customizer that do
    /// nothing.
    pub fn new() -> Self
        ensures { AreNew result }
    {
        Self::default()
    }
}

impl<M> Default for Builder<M> {
    ghost use Rattle.r2d2.specs.Settings.{AreNew};

    ghost is_default = { AreNew };

    /// The same as `new`.
    fn default() -> Self {
        let config = Config {
            max_size: 10,
            min_idle: None,
            thread_pool: 3,
            test_on_check_out: true,
            max_lifetime: Some(Duration::from_secs(1800)),
            idle_timeout: Some(Duration::from_secs(600)),
            connection_timeout: Duration::from_secs(30),
            journal_room: 0,
            reaper_rate: Duration::from_secs(30),
            lending_order: LendingOrder::NewestFirst,
            error_handler: NopErrorHandler,
            event_handler: NopEventHandler,
            connection_customizer: NopConnectionCustomizer,
        };
        Builder::over(Settings {
            config,
            tuning: Tuning::off(),
            first_id: 0,
            listens: false,
        })
    }
}

// What a manager, a handler and a customizer have to be is asked where a pool is built: each kind
// of pool asks for its own.
impl<M, H, V, Z> Builder<M, H, V, Z> {
    ghost use Rattle.std.specs.Prelude.{true, is_some};
    ghost use Rattle.r2d2.specs.Settings.{limits_in, limits_within, with_error_handler};
    ghost use Rattle.r2d2.specs.Settings.{with_event_handler, with_customizer, changed};
    ghost use Rattle.r2d2.specs.Settings.{IsTimeoutOfBook, AreAllPositive, BeginsWith};

    /// How many connections there are at most: idle ones, lent ones and those that are being opened
    /// together. The default is 10. A pool takes the memory for that many when it is built.
    ///
    /// A connection that the pool hands to its closing no longer counts, and another may be opened
    /// while it is still closed. So a server may see more than `max_size` for that long.
    ///
    /// It may not be 0. The test for a number from outside: `max_size > 0`.
    pub fn max_size(mut self, max_size: u32) -> Self
        requires { 0 < max_size }
        ensures { result ≡ record self { config = record self.config { max_size = max_size } } }
    {
        prove!(max_size > 0);
        self.settings.config.max_size = max_size;
        self
    }

    /// How many connections the pool tries to keep idle, as far as `max_size` leaves room for them.
    /// The default is None, which stands for `max_size`. With `Some(0)` none is kept ready: `build`
    /// opens none and does not wait, and a caller who finds none idle orders one and waits for it.
    ///
    /// It may not be above `max_size` when the pool is built. The test: `limits().is_some()` on the
    /// finished builder.
    pub fn min_idle(mut self, min_idle: Option<u32>) -> Self
        ensures { result ≡ record self { config = record self.config { min_idle = min_idle } } }
    {
        self.settings.config.min_idle = min_idle;
        self
    }

    /// How many threads of the pool's own open connections and close expired ones. The default is
    /// 3. It has no effect on a pool for tasks, whose user spawns its workers.
    ///
    /// It may not be 0. The test for a number from outside: `workers > 0`.
    pub fn thread_pool(mut self, workers: usize) -> Self
        requires { 0 < workers }
        ensures { result ≡ record self { config = record self.config { thread_pool = workers } } }
    {
        prove!(workers > 0);
        self.settings.config.thread_pool = workers;
        self
    }

    /// Whether a connection is checked by `ManageConnection::is_valid` each time before it is lent;
    /// by `check`, if it is lent to a task. The default is true. `try_get` of a pool for tasks,
    /// which waits for nothing, checks none.
    pub fn test_on_check_out(mut self, test_on_check_out: bool) -> Self
        ensures { result ≡ record self { config = record self.config { test_on_check_out = test_on_check_out } } }
    {
        self.settings.config.test_on_check_out = test_on_check_out;
        self
    }

    /// The age at which a connection is closed; None for never. The default is 30 minutes.
    ///
    /// It is enforced when a lent connection comes back, and for an idle one at the next look for
    /// expired ones. A look is due every 30 seconds, and is made when a worker is free. Until then
    /// the connection can still be lent.
    ///
    /// It may not be a length of zero. The test for one from outside: None, or `!age.is_zero()`.
    pub fn max_lifetime(mut self, max_lifetime: Option<Duration>) -> Self
        requires { ForSome max_lifetime (λ d. 0 < as_nanos d) }
        ensures { result ≡ record self { config = record self.config { max_lifetime = max_lifetime } } }
    {
        if let Some(age) = max_lifetime {
            prove!(!age.is_zero());
        }
        self.settings.config.max_lifetime = max_lifetime;
        self
    }

    /// How long a connection may be idle before it is closed; None for as long as it likes. The
    /// default is 10 minutes.
    ///
    /// It is enforced at the next look for expired ones. A look is due every 30 seconds, and is
    /// made when a worker is free. Until then the connection can still be lent, and its idle time
    /// starts anew when it comes back.
    ///
    /// It may not be a length of zero. The test for one from outside: None, or `!length.is_zero()`.
    pub fn idle_timeout(mut self, idle_timeout: Option<Duration>) -> Self
        requires { ForSome idle_timeout (λ d. 0 < as_nanos d) }
        ensures { result ≡ record self { config = record self.config { idle_timeout = idle_timeout } } }
    {
        if let Some(length) = idle_timeout {
            prove!(!length.is_zero());
        }
        self.settings.config.idle_timeout = idle_timeout;
        self
    }

    /// How long `get` waits for a connection before it returns a timeout. The default is 30
    /// seconds.
    ///
    /// It bounds two more things: `build` waits as long at most for the first connections, and an
    /// opening that failed is tried again after half of it at the latest, unless `max_retry_delay`
    /// is set.
    ///
    /// It may not be a length of zero. The test for one from outside: `!length.is_zero()`.
    pub fn connection_timeout(mut self, connection_timeout: Duration) -> Self
        requires { 0 < as_nanos connection_timeout }
        ensures { result ≡ record self { config = record self.config { connection_timeout = connection_timeout } } }
    {
        prove!(!connection_timeout.is_zero());
        self.settings.config.connection_timeout = connection_timeout;
        self
    }

    /// How many records of what happened the pool keeps for `Pool::journal`, the latest ones. The
    /// default is 0: none. The memory is taken when the pool is built, 40 bytes for each record,
    /// and building is refused if there is not as much.
    pub fn journal_room(mut self, records: usize) -> Self
        ensures { result ≡ record self { config = record self.config { journal_room = records } } }
    {
        self.settings.config.journal_room = records;
        self
    }

    /// The time from one look for expired connections to the next. The default is 30 seconds. Tests
    /// of this crate alone set it.
    ///
    /// It may not be a length of zero.
    pub(crate) fn reaper_rate(mut self, reaper_rate: Duration) -> Self
        requires { 0 < as_nanos reaper_rate }
        ensures { result ≡ record self { config = record self.config { reaper_rate = reaper_rate } } }
    {
        self.settings.config.reaper_rate = reaper_rate;
        self
    }

    /// The id of the first connection; each later one has the next. The default is 0. Tests of this
    /// crate alone set it.
    pub(crate) fn first_id(mut self, first_id: u64) -> Self
        ensures { result ≡ record self { first_id = first_id } }
    {
        self.settings.first_id = first_id;
        self
    }

    /// Which of the idle connections is lent next. The default is `NewestFirst`: few connections
    /// are kept in use, and the others reach their `idle_timeout` and are closed. Under
    /// `OldestFirst` each connection is used in its turn, so none is idle for long while the pool
    /// is busy, and few are closed. r2d2 always lends the newest first.
    pub fn lending_order(mut self, order: LendingOrder) -> Self
        ensures { result ≡ record self { config = record self.config { lending_order = order } } }
    {
        self.settings.config.lending_order = order;
        self
    }

    /// With `test_on_check_out`, how long a connection has to be idle before it is checked: one
    /// that came back, or was opened, less than this ago is lent without a check. The default is
    /// None: each is checked. r2d2 always checks.
    ///
    /// Half a second spares a busy pool nearly all checks; a caller may then get a connection whose
    /// server went away within it.
    pub fn test_if_idle_for(mut self, idle: Option<Duration>) -> Self
        ensures { result ≡ record self { tuning = record self.tuning { test_if_idle_for = idle } } }
    {
        self.settings.tuning.test_if_idle_for = idle;
        self
    }

    /// Whether a failed check applies to others: those that have been idle since before that check
    /// began are then closed too, each as a caller comes to it, and not checked. So if a server
    /// went away, a caller waits for one check, and not for one for each idle connection, whichever
    /// is lent first. A task's check has failed too if it was given up with the caller's time; one
    /// whose `Get` was dropped applies to no others. The default is false, as r2d2.
    pub fn evict_idle_on_failed_check(mut self, evicts: bool) -> Self
        ensures { result ≡ record self { tuning = record self.tuning { evict_idle_on_failed_check = evicts } } }
    {
        self.settings.tuning.evict_idle_on_failed_check = evicts;
        self
    }

    /// The longest time after which an opening that failed is tried again; None for half of
    /// `connection_timeout`, as in r2d2. The default is None: with a timeout of 30 seconds a pool
    /// may stay empty for up to 15 seconds after its server is back.
    ///
    /// Callers keep `connection_timeout`, and so do the pool's getter, Debug and `limits`. The
    /// limits in a report have twice this length in its place, since delays grow to half of it.
    ///
    /// It may not be a length of zero. The test for one from outside: None, or `!delay.is_zero()`.
    pub fn max_retry_delay(mut self, max_retry_delay: Option<Duration>) -> Self
        requires { ForSome max_retry_delay (λ d. 0 < as_nanos d) }
        ensures { result ≡ record self { tuning = record self.tuning { max_retry_delay = max_retry_delay } } }
    {
        if let Some(delay) = max_retry_delay {
            prove!(!delay.is_zero());
        }
        self.settings.tuning.max_retry_delay = max_retry_delay;
        self
    }

    /// By how much at most the lifetimes of connections differ, so that those that were opened
    /// together are not closed together: each connection's own is `max_lifetime` less a part of
    /// this length, which its id and the pool decide. The default is None, as r2d2: each lives for
    /// `max_lifetime`. A tenth of that spreads them well; with more than `max_lifetime` some are
    /// closed at each return.
    ///
    /// It is enforced when a lent connection comes back. An idle one is closed by the common limits
    /// alone.
    pub fn lifetime_jitter(mut self, lifetime_jitter: Option<Duration>) -> Self
        ensures { result ≡ record self { tuning = record self.tuning { lifetime_jitter = lifetime_jitter } } }
    {
        self.settings.tuning.lifetime_jitter = lifetime_jitter;
        self
    }

    /// How many callers wait for a connection at most; None for as many as come. One that finds
    /// none idle while so many wait gets `ErrorKind::QueueFull` at once: it orders none, and no
    /// event reports it. So does one whose connection failed its check. The default is None, as
    /// r2d2. In a pool for tasks None stands for 1,000, who stand in line.
    ///
    /// After `fair_queue` it changes how many the line has room for; with None there is no line.
    ///
    /// It may not be 0. The test for a number from outside: None, or `most > 0`.
    pub fn max_waiting(mut self, max_waiting: Option<u32>) -> Self
        requires { ForSome max_waiting (λ n. 0 < n) }
        ensures { result ≡ record self { tuning = record self.tuning { max_waiting = max_waiting } } }
    {
        if let Some(most) = max_waiting {
            prove!(most > 0);
        }
        self.settings.tuning.max_waiting = max_waiting;
        self
    }

    /// Callers wait in line, at most so many, and are served in the order in which they began to
    /// wait: what comes back is kept for the first of them, and no newcomer, nor `try_get`, takes
    /// it. One more than that gets `ErrorKind::QueueFull`, as by `max_waiting`, which this sets
    /// too: the later of the two calls counts. A caller keeps its place until its connection passed
    /// its check, and is one of so many until then.
    ///
    /// With None callers do not wait in line, and as many wait as come: who comes first to an idle
    /// connection has it. That is the default, as r2d2. A pool for tasks always has a line, with
    /// room for 1,000 if this is None.
    ///
    /// The memory for the line is taken when the pool is built. It costs time if connections are
    /// held for a few microseconds only, and spares some callers very long waits if many wait.
    ///
    /// It may not be 0. The test for a number from outside: None, or `most > 0`.
    pub fn fair_queue(mut self, callers: Option<u32>) -> Self
        requires { ForSome callers (λ n. 0 < n) }
        ensures { result ≡ record self { tuning = record self.tuning { max_waiting = callers; in_line = is_some callers } } }
    {
        if let Some(most) = callers {
            prove!(most > 0);
        }
        self.settings.tuning.max_waiting = callers;
        self.settings.tuning.in_line = callers.is_some();
        self
    }

    /// What handles each error of the manager and of the customizer. The default,
    /// `NopErrorHandler`, drops each in silence, so that only a caller's timeout says why no
    /// connection opens. `LoggingErrorHandler` writes each to a log.
    pub fn error_handler<G>(self, handler: G) -> Builder<M, G, V, Z>
    where
        H: Drop,
        ensures { result ≡ changed (with_error_handler handler self.config) self }
    {
        let config = self.settings.config.with_error_handler(handler);
        Builder::over(Settings {
            config,
            tuning: self.settings.tuning,
            first_id: self.settings.first_id,
            listens: self.settings.listens,
        })
    }

    /// What handles each event. The default, `NopEventHandler`, ignores them. A pool where none was
    /// set reads the clock less often, since nobody sees when a call began or ended.
    pub fn event_handler<W>(self, handler: W) -> Builder<M, H, W, Z>
    where
        V: Drop,
        ensures { result
            ≡ record (changed (with_event_handler handler self.config) self) { listens = true } }
    {
        let config = self.settings.config.with_event_handler(handler);
        Builder::over(Settings {
            config,
            tuning: self.settings.tuning,
            first_id: self.settings.first_id,
            listens: true,
        })
    }

    /// What changes connections as they come and go. The default, `NopConnectionCustomizer`, leaves
    /// them as they are.
    pub fn connection_customizer<Y>(self, customizer: Y) -> Builder<M, H, V, Y>
    where
        Z: Drop,
        ensures { result ≡ changed (with_customizer customizer self.config) self }
    {
        let config = self.settings.config.with_customizer(customizer);
        Builder::over(Settings {
            config,
            tuning: self.settings.tuning,
            first_id: self.settings.first_id,
            listens: self.settings.listens,
        })
    }

    /// The limits that building would use, with the lending order; None exactly if `min_idle` is
    /// above `max_size`. It is the last test to make before a pool is built from settings that come
    /// from outside. If `max_retry_delay` is set they have `connection_timeout` all the same, and
    /// the pool's own have twice that length in its place.
    pub fn limits(&self) -> Option<Limits>
        ensures legal { IsSome result ↔ ForSome self.now.config.min_idle
            (λ n. n ≤ self.now.config.max_size) }
        ensures given { IfSome result (λ limits. seen_limits limits ≡ limits_in self.now.config) }
    {
        self.limits_within(self.settings.config.connection_timeout)
    }

    // The connection timeout of a pool's book, to half of which its delays grow.
    fn timeout_of_book(&self) -> Duration
        ensures given { IsTimeoutOfBook self.now.config self.now.tuning result }
        ensures positive { 0 < as_nanos result }
    {
        self.settings
            .tuning
            .connection_timeout(self.settings.config.connection_timeout)
    }

    // The limits with this connection timeout.
    fn limits_within(&self, connection_timeout: Duration) -> Option<Limits>
        requires { 0 < as_nanos connection_timeout }
        ensures legal { IsSome result ↔ ForSome self.now.config.min_idle
            (λ n. n ≤ self.now.config.max_size) }
        ensures given { IfSome result
            (λ limits. seen_limits limits ≡ limits_within connection_timeout self.now.config) }
    {
        let config = &self.settings.config;
        LimitSettings {
            max_size: config.max_size,
            min_idle: config.min_idle,
            max_lifetime: config.max_lifetime,
            idle_timeout: config.idle_timeout,
            connection_timeout,
            reap_every: config.reaper_rate,
            order: config.lending_order,
        }
        .limits()
    }

    /// The settings, and a book that begins with them, in which nothing has happened: for a crate
    /// that builds pools of a kind of its own, as `r2d2_async` does.
    ///
    /// `alloc` gives the memory for `max_size` connections and the journal. `min_idle` may not be
    /// above `max_size`: `limits` is the test. The error is lack of memory; then the handlers are
    /// dropped.
    pub fn into_book<P: Drop>(
        self,
        alloc: Global,
    ) -> Result<(Settings<H, V, Z>, Book<P>), AllocError>
    where
        H: Drop,
        V: Drop,
        Z: Drop,
        requires { ForSome self.config.min_idle (λ n. n ≤ self.config.max_size) }
        ensures settings { IfOk result (λ made. made.0 ≡ self) }
        ensures positive { IfOk result (λ made. AreAllPositive made.0) }
        ensures takes { IfOk result (λ made. made.1.journal.takes ≡ 0) }
        ensures book { IfOk result (λ made. BeginsWith self made.1) }
    {
        let limits = self.limits_with_min_idle_up_to_max_size();
        let Builder { settings, .. } = self;
        let room = settings.config.journal_room;
        let book = Book::with_first_id(alloc, limits, Duration::ZERO, settings.first_id, room)?;
        Ok((settings, book))
    }

    // The limits of the book. Its name says what a run without proof has found not to hold where it
    // stops here.
    fn limits_with_min_idle_up_to_max_size(&self) -> Limits
        requires { ForSome self.now.config.min_idle (λ n. n ≤ self.now.config.max_size) }
        ensures { (timeout : _) × IsTimeoutOfBook self.now.config self.now.tuning timeout
            × (seen_limits result ≡ limits_within timeout self.now.config) }
    {
        let Some(limits) = self.limits_within(self.timeout_of_book()) else {
            unreachable!()
        };
        limits
    }
}

impl<M, H: fmt::Debug, V: fmt::Debug, Z: fmt::Debug> fmt::Debug for Builder<M, H, V, Z> {
    fn fmt<W: fmt::Write>(&self, f: &mut fmt::Formatter<W>) -> fmt::Result {
        let config = &self.settings.config;
        f.debug_struct("Builder")
            .field("max_size", &config.max_size)
            .field("min_idle", &config.min_idle)
            .field("test_on_check_out", &config.test_on_check_out)
            .field("max_lifetime", &config.max_lifetime)
            .field("idle_timeout", &config.idle_timeout)
            .field("connection_timeout", &config.connection_timeout)
            .field("error_handler", &config.error_handler)
            .field("event_handler", &config.event_handler)
            .field("connection_customizer", &config.connection_customizer)
            .finish()
    }
}
