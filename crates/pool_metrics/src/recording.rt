// The handler that counts and times, and what is read of it.
ghost use Rattle.std.specs.Prelude.{◌≡◌, ◌<◌, ◌↔◌, slice_index, unwrap_or, IsSome, IfSome};
ghost use Rattle.std.specs.Prelude.{IfOk};
ghost use Rattle.std.specs.Option.{IsNone};
ghost use Rattle.pool_metrics.specs.Heard.{IsShort};
ghost use Rattle.pool_metrics.specs.Longest.{IsLongestFirst};

use crate::buckets::{Scales, nanos_of};
use crate::closings::{Closings, Leaving};
use crate::errors::CountingErrorHandler;
use crate::heard::{Beginning, Heard, Latest, LatestError, Moment, Tally};
use crate::histogram::{Distribution, Histogram};
use crate::loans::{Loans, LongLoan};
use pool_reports::Waits;
use r2d2::event::{AcquireEvent, CheckinEvent, CheckoutEvent, ReleaseEvent, TimeoutEvent};
use r2d2::{HandleEvent, PoolRuntime};
use std::alloc::{AllocError, AllocGlobal};
use std::fmt;
use std::marker::Model;
use std::rt::Clock;
use std::sync::atomic::{AtomicBool, AtomicU64, Ordering};
use std::sync::{Arc, Mutex, Wait};
use std::time::{Duration, Instant, SystemTime};

/// Counts and times a pool's events. It is the pool's event handler, and what the service reads:
/// `try_clone` makes another one over the same counts. An event costs some atomic additions; a
/// checkout and a checkin also take a lock of the metrics' own, for as long as it takes to look
/// through what is lent, and so do a snapshot, `loans` and `lent_longer_than`. An error takes
/// another one, and so do a snapshot and `latest_error`.
///
/// Counted are events: for a connection that is dropped idle as the pool closes there is
/// none, and it is not counted as closed. Errors are counted by the handler that `around` makes.
#[derive(Drop)]
pub struct Metrics<R> {
    records: Arc<Records<R>>,
}

// Contracts see them as the bounds of their histograms: what these count, other threads change.
impl<R> Model for Metrics<R> {
    ghost use Rattle.std.specs.Prelude.{◌≡◌};
    ghost use Rattle.std.specs.Arc.{arc_value};
    ghost use Rattle.pool_metrics.specs.declared.buckets.Scales.{Scales};
    ghost use Rattle.pool_metrics.specs.Recording.{scales_of};

    ghost Value = { Scales };

    ghost view = { λ m. scales_of (arc_value m.records) };

    ghost invariant = { λ m. (arc_value m.records).timed_out_waits.scale
        ≡ (arc_value m.records).waits.scale };
}

#[derive(Drop)]
struct Records<R> {
    opened: AtomicU64,
    closed: Leaving,
    waits: Histogram,
    timed_out_waits: Histogram,
    uses: Histogram,
    ages: Histogram,
    openings: Histogram,
    /// Whether a manager reports how long its openings take.
    is_timed: AtomicBool,
    /// Whether a handler of errors reports each.
    hears_errors: AtomicBool,
    heard: Mutex<Heard>,
    lent: Mutex<Loans>,
    /// When the metrics were made; None if the clock could not be read.
    made: Option<Instant>,
    rt: R,
}

/// What was counted up to a time. Each count is read once, while others may go on counting.
#[derive(Clone, Copy, Debug)]
pub struct Snapshot {
    /// How many connections were opened.
    pub opened: u64,
    /// How many connections left the pool for each reason.
    pub closed: Closings,
    /// How many callers timed out.
    pub timeouts: u64,
    /// How many errors the manager and the customizer had; None unless a handler of errors that
    /// `Metrics::around` made has reported them.
    pub errors: Option<u64>,
    /// How long ago the latest of these errors came; None before the first one.
    pub latest_error: Option<Duration>,
    /// When it came, by the wall clock as it was then; None before the first one, and where that
    /// could not be read.
    pub latest_error_at: Option<SystemTime>,
    /// For how long that connection is lent that is lent for longest, of those that `Metrics` has
    /// room for; zero where none is lent.
    pub longest_loan: Duration,
    /// How long callers waited for what they were lent; its count is how many were lent.
    pub waits: Distribution,
    /// How long callers waited that got nothing: of each the timeout of its call, which is what is
    /// known.
    pub timed_out_waits: Distribution,
    /// How long connections were lent; its count is how many came back.
    pub uses: Distribution,
    /// How old connections were when they left the pool; its count is how many left.
    pub ages: Distribution,
    /// How long the manager took for each opening that succeeded; None unless it is a `Timed` one.
    pub openings: Option<Distribution>,
}

impl Snapshot {
    ghost use Rattle.std.specs.Prelude.{ℕ, ◌-◌, ◌^◌, min};
    ghost use Rattle.std.specs.Duration.{as_nanos};
    ghost use Rattle.pool_metrics.specs.Above.{IsPlaceFor};
    ghost use Rattle.pool_metrics.specs.Bounds.{bounds_of};

    /// How many callers waited for longer than the least bound of the histogram of waits that is
    /// not below `least`, or than the last bound if all are below it. Callers that timed out
    /// are not among them.
    pub fn waits_above(&self, least: Duration) -> Waits
        ensures place { let waits = self.now.waits in let bounds = bounds_of waits.scale in
            (place : ℕ) × IsPlaceFor (min (as_nanos least) (2 ^ 64 - 1)) bounds place
            × (as_nanos result.bound ≡ slice_index bounds place)
            × (result.longer ≡ slice_index waits.up_to 13 - slice_index waits.up_to place) }
        ensures all { result.all ≡ slice_index self.now.waits.up_to 13 }
    {
        self.waits.above(least)
    }
}

impl<R> Metrics<R> {
    ghost use Rattle.pool_metrics.specs.Bounds.{usual};
    ghost use Rattle.pool_metrics.specs.Recording.{HasBounds};

    /// Metrics of one pool, with memory for all that it may lend at a time: `max_size` is that of
    /// the pool. The error is lack of memory; none is asked for later. Its histograms have the
    /// bounds of `Scales::default`.
    pub fn new(rt: R, max_size: u32) -> Result<Metrics<R>, AllocError>
    where
        R: Clock + AllocGlobal + Drop,
        ensures { IfOk result (λ metrics. metrics ≡ usual) }
    {
        Metrics::with_bounds(rt, max_size, Scales::default())
    }

    /// The same, where the histograms have these bounds.
    pub fn with_bounds(rt: R, max_size: u32, scales: Scales) -> Result<Metrics<R>, AllocError>
    where
        R: Clock + AllocGlobal + Drop,
        ensures { IfOk result (λ metrics. metrics ≡ scales) }
    {
        let alloc = rt.alloc();
        let records = Records {
            opened: AtomicU64::new(0),
            closed: Leaving::new(),
            waits: Histogram::new(scales.waits),
            timed_out_waits: Histogram::new(scales.waits),
            uses: Histogram::new(scales.uses),
            ages: Histogram::new(scales.ages),
            openings: Histogram::new(scales.openings),
            is_timed: AtomicBool::new(false),
            hears_errors: AtomicBool::new(false),
            heard: Mutex::new(Heard::new()),
            lent: Mutex::new(Loans::new(alloc, max_size as usize)?),
            made: Instant::now(&rt).ok(),
            rt,
        };
        Ok(Metrics {
            records: Arc::new(alloc, records)?,
        })
    }

    /// The same counts again, for a builder, for a `Timed` manager, or for another thread. The
    /// error is lack of memory.
    pub fn try_clone(&self) -> Result<Metrics<R>, AllocError>
        ensures { IfOk result (λ metrics. metrics ≡ self.now) }
    {
        Ok(Metrics {
            records: Arc::try_clone(&self.records)?,
        })
    }

    /// A handler of errors, for the builder of the pool: it counts each error, and then passes it
    /// to this one, which may log it. From now on a snapshot says how many there were. The error
    /// is lack of memory.
    pub fn around<H: Drop>(&self, handler: H) -> Result<CountingErrorHandler<H, R>, AllocError>
        ensures { IfOk result (λ counting. counting ≡ handler) }
    {
        let metrics = self.try_clone()?;
        self.records.hears_errors.store(true, Ordering::SeqCst);
        Ok(CountingErrorHandler::new(handler, metrics))
    }

    /// What was counted so far.
    pub fn snapshot(&self) -> Snapshot
    where
        R: Clock + Wait,
        ensures bounds { HasBounds self.now result }
        ensures timeouts { result.timeouts ≡ slice_index result.timed_out_waits.up_to 13 }
        ensures latest { IsSome result.latest_error ↔ (0 < unwrap_or result.errors 0) }
        ensures at { IsNone result.latest_error → IsNone result.latest_error_at }
    {
        let records = &*self.records;
        // What ends is read before what begins it, so that no more are closed than were opened.
        let (closed, ages, uses) = (
            records.closed.read(),
            records.ages.read(),
            records.uses.read(),
        );
        let is_timed = records.is_timed.load(Ordering::SeqCst);
        let (timed_out_waits, errors) = (records.timed_out_waits.read(), records.errors());
        let latest = errors.and_then(|it| it.latest);
        Snapshot {
            closed,
            ages,
            uses,
            waits: records.waits.read(),
            openings: is_timed.then(|| records.openings.read()),
            opened: records.opened.load(Ordering::SeqCst),
            timeouts: timed_out_waits.count(),
            timed_out_waits,
            errors: errors.map(|it| it.count),
            latest_error: records.since(latest),
            latest_error_at: latest.and_then(|it| it.time),
            longest_loan: records.longest_loan(),
        }
    }

    /// The connections that are lent for longer than `length` now, those first that are lent for
    /// longest: what somebody forgot to give back. A connection is lent from its checkout event to
    /// its checkin event; the time is read while the first is handled, so it is never said to be
    /// lent for longer than it is. Where the clock can't be read, the latest time that could be
    /// read counts as now. The error is lack of memory for the list.
    pub fn lent_longer_than(&self, length: Duration) -> Result<Vec<LongLoan>, AllocError>
    where
        R: Clock + Wait + AllocGlobal,
        ensures longest_first { IfOk result (λ list. IsLongestFirst list.items) }
    {
        let records = &*self.records;
        let lent = records.lent.lock(&records.rt);
        lent.longer_than(records.rt.alloc(), nanos_of(length), records.moment())
    }

    /// All connections that are lent now, those first that are lent for longest: as
    /// `lent_longer_than`, with those that were lent just now. The error is lack of memory for the
    /// list.
    pub fn loans(&self) -> Result<Vec<LongLoan>, AllocError>
    where
        R: Clock + Wait + AllocGlobal,
        ensures longest_first { IfOk result (λ list. IsLongestFirst list.items) }
    {
        let records = &*self.records;
        let lent = records.lent.lock(&records.rt);
        lent.all(records.rt.alloc(), records.moment())
    }

    /// The latest error that a handler made by `around` reported, with its text; None before the
    /// first one. The error is lack of memory for a copy of the text.
    pub fn latest_error(&self) -> Result<Option<LatestError>, AllocError>
    where
        R: Wait + AllocGlobal,
        ensures short { IfOk result (λ told. IfSome told (λ it. IfSome it.text IsShort)) }
    {
        let records = &*self.records;
        let alloc = records.rt.alloc();
        records.heard.lock(&records.rt).told(alloc)
    }

    /// How many connections were lent that `lent_longer_than` knows nothing of, since there was no
    /// room to list them: none, if `max_size` was that of the pool, and these are the metrics of
    /// that pool alone.
    pub fn unlisted(&self) -> u64
    where
        R: Wait,
    {
        let records = &*self.records;
        records.lent.lock(&records.rt).unlisted()
    }

    /// The manager or the customizer failed now, with this error.
    pub(crate) fn count_error<E: fmt::Display>(&self, error: &E)
    where
        R: Clock + Wait + AllocGlobal,
    {
        let records = &*self.records;
        // The text is made before the lock is taken, and what was kept is dropped after it.
        let text = Beginning::of(records.rt.alloc(), error);
        drop(records.hear(text));
    }

    /// From now on openings are timed.
    pub(crate) fn expect_openings(&self) {
        self.records.is_timed.store(true, Ordering::SeqCst);
    }

    /// The time at which an opening begins; None if the clock can't be read.
    pub(crate) fn begin_opening(&self) -> Option<Instant>
    where
        R: Clock,
    {
        Instant::now(&self.records.rt).ok()
    }

    /// An opening that began then has succeeded now. It is not counted where the clock can't be
    /// read.
    pub(crate) fn end_opening(&self, begun: Option<Instant>)
    where
        R: Clock,
    {
        if let Some(Ok(length)) = begun.map(|begun| begun.elapsed(&self.records.rt)) {
            self.records.openings.observe(length);
        }
    }
}

impl<R> Records<R> {
    // The time since the metrics were made in nanoseconds; zero where the clock can't be read.
    fn moment(&self) -> u64
    where
        R: Clock,
        ensures { IsNone self.now.made → result ≡ 0 }
    {
        match &self.made {
            Some(made) => nanos_of(made.elapsed(&self.rt).unwrap_or(Duration::ZERO)),
            None => 0,
        }
    }

    // How long ago that time was.
    fn since(&self, moment: Option<Moment>) -> Option<Duration>
    where
        R: Clock,
        ensures { IsSome result ↔ IsSome moment }
    {
        let at = moment?;
        Some(Duration::from_nanos(self.moment().saturating_sub(at.nanos)))
    }
}

impl<R: Clock + Wait> Records<R> {
    // For how long that connection is lent that is lent for longest.
    fn longest_loan(&self) -> Duration {
        let lent = self.lent.lock(&self.rt);
        Duration::from_nanos(lent.longest(self.moment()))
    }

    // How many errors came, and when the latest one did; None if no handler reports them.
    fn errors(&self) -> Option<Tally> {
        if self.hears_errors.load(Ordering::SeqCst) {
            Some(self.heard.lock(&self.rt).tally())
        } else {
            None
        }
    }

    // An error came now, and said this. What was kept of the one before it is handed out.
    fn hear(&self, text: Option<Beginning>) -> Option<Latest> {
        let mut heard = self.heard.lock(&self.rt);
        // The wall clock is read at each error, not once at the creation: since then it may have
        // been set right, or have gone on while the machine slept and the other clock stood.
        let time = SystemTime::now(&self.rt).ok();
        let nanos = self.moment();
        heard.add(text, Moment { nanos, time })
    }

    fn lend(&self, id: u64, waited: Duration) {
        self.waits.observe(waited);
        // The time is read under the lock, so that those in the list are in the order of their
        // times.
        let mut lent = self.lent.lock(&self.rt);
        lent.add(id, self.moment());
    }

    fn take_back(&self, id: u64, used: Duration) {
        self.uses.observe(used);
        self.lent.lock(&self.rt).remove(id);
    }
}

impl<R: PoolRuntime> HandleEvent for Metrics<R> {
    fn handle_acquire(&self, _event: AcquireEvent) {
        self.records.opened.fetch_add(1, Ordering::SeqCst);
    }

    fn handle_release(&self, event: ReleaseEvent) {
        self.records.ages.observe(event.age());
        self.records.closed.add(event.reason());
    }

    fn handle_checkout(&self, event: CheckoutEvent) {
        self.records.lend(event.connection_id(), event.duration());
    }

    fn handle_timeout(&self, event: TimeoutEvent) {
        self.records.timed_out_waits.observe(event.timeout());
    }

    fn handle_checkin(&self, event: CheckinEvent) {
        self.records
            .take_back(event.connection_id(), event.duration());
    }
}

impl<R> fmt::Debug for Metrics<R> {
    fn fmt<W: fmt::Write>(&self, f: &mut fmt::Formatter<W>) -> fmt::Result {
        f.write_str("Metrics")
    }
}
