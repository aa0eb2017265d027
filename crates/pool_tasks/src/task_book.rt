// What the lock of a pool guards: a book, the callers in line for what it lends, and what wakes
// each of them.
ghost use Rattle.std.specs.Prelude.{◌≡◌, ◌≢◌, ◌≤◌, ◌<◌, ◌↔◌, ℕ, [], length, true, false, None};
ghost use Rattle.std.specs.Prelude.{IsSome, IsSomeAnd, IfSome, IfNone, IfOk, IsTrue, Some, vec_len, min};
ghost use Rattle.std.specs.Prelude.{vec_capacity, slice_get, is_some, if◌then◌else◌, ◌+◌, ◌-◌};
ghost use Rattle.std.specs.Prelude.{List, ◌∷◌};
ghost use Rattle.futures.specs.Task.{Covers, Keeps};
ghost use Rattle.futures.specs.Poll.{IfReady, OnPending};
ghost use Rattle.futures.specs.WaitList.{value_of, IsParkedAt, IsQueued, SameQueue, Leaves};
ghost use Rattle.pool_state.specs.Waiting.{told_at};
ghost use Rattle.pool_state.specs.Waits.{NobodyWaits};
ghost use Rattle.pool_tasks.specs.Wakers.{waker_at, AreAwake, SleepsAt, KeepsOthers};
ghost use Rattle.pool_tasks.specs.Wakers.{HasPlace, NobodySleeps, AreDrained, AreUpOnceClosed};
ghost use Rattle.pool_tasks.specs.Wakers.{SleepsUntil};
ghost use Rattle.pool_tasks.specs.InTime.{AreInTime, IsInTime, IsInOrder, IsTimely};
ghost use Rattle.std.proofs.Props.{props};

use crate::wakers::{
    asleep_at, clear_at, lent_in, no_wakers, register, wake, wake_drains, wake_workers,
};
use futures::task::{Context, Poll, Source, Waker};
use futures::util::wait_list::WaitList;
use pool_state::engine::{CountingBook, Outcome, Settled, Uncounted};
use pool_state::{LateSearch, Line, Look, PoolState, ReleaseReason, Status, Tuning};
use r2d2_core::machine::Leftover;
use r2d2_core::{Book, Job, Refusal, Released, Report, Returned, Take};
use std::alloc::{AllocError, Global};
use std::time::{Duration, SystemTime};

mod beside;
pub mod leaving;

/// What a caller comes to who wants a connection.
#[derive(Drop)]
pub enum Looked<P> {
    /// It is lent this one, which came to be idle then.
    Found {
        id: u64,
        payload: P,
        idle_since: Option<Duration>,
    },
    /// The pool is closed.
    Closed,
    /// There is no room in line.
    Full,
}

/// When a call began, and when its time is over.
#[derive(Clone, Copy)]
pub struct CallSpan {
    pub start: Duration,
    pub end: Duration,
}

/// A book, the callers in line for what it lends, oldest first, and what wakes each of them.
///
/// Of those who wait the first ones, as many as connections are idle, were notified: that is
/// `PoolState`'s own fact. Here each who was notified is awake: no waker of it is left. No drain
/// sleeps once nothing is lent, and nobody else in a closed pool. No worker sleeps past what is
/// due. Nobody waits elsewhere, where threads have a variable.
#[derive(Drop)]
pub struct TaskBook<P> {
    guarded: PoolState<P, Uncounted>,
    // By the slot of a caller in line: what wakes it. A waker wakes its task when it is dropped.
    wakers: Vec<Option<Waker>>,
    // By the slot: when its time is over.
    ends: Vec<Duration>,
    // Who waits for something to be ordered, each until a moment, or for good.
    workers: WaitList<Option<Duration>>,
    // How many workers are at work, asleep or not.
    at_work: u32,
    // Who waits until nothing is lent.
    drains: WaitList<()>,
    ghost awake: { AreAwake guarded.places wakers },
    ghost drained: { AreDrained guarded.book.picture.lent drains },
    ghost up: { AreUpOnceClosed guarded.book.picture.on_order.closed wakers workers },
    ghost in_order: { IsInOrder guarded.book.picture.on_order } by { Prim.hlevel props },
    ghost in_time: { AreInTime guarded.book.picture.on_order workers } by { Prim.hlevel props },
    ghost elsewhere: { NobodyWaits guarded.waiting },
}

impl<P: Drop> TaskBook<P> {
    ghost use Rattle.std.specs.Duration.{as_nanos};
    ghost use Rattle.std.specs.Prelude.{map, option_map};
    ghost use Rattle.pool_machine.specs.Seen.{seen_released, seen_returned, map_ok};
    ghost use Rattle.r2d2_core.specs.Reports.{IsSoundReport};
    ghost use Rattle.r2d2_core.specs.BookSteps.{IsBegin, IsNumbering, IsReturn, IsReap, IsTelling};
    ghost use Rattle.r2d2_core.specs.BookSteps.{IsClose};
    ghost use Rattle.pool_state.specs.declared.engine.Outcome.TheVariants as outcome;
    ghost use Rattle.pool_state.specs.Settled.{IsSettling, seen_settled, wakes_of_settled};
    ghost use Rattle.pool_state.specs.Wakes.{wakes_of_return, wakes_of_reap};
    ghost use Rattle.pool_state.specs.Since.{since_with, since_if};
    ghost use Rattle.pool_state.specs.Status.{IsStatus, all_who_wait};
    ghost use Rattle.pool_state.specs.Waits.{WaitAsBefore, count_of};
    ghost use Rattle.pool_state.specs.Evicted.{is_to_close, evicted_of, after_eviction};
    ghost use Rattle.pool_state.specs.Waiting.{before, left_by, told_by, told_if, is_kept, waiting_in};
    ghost use Rattle.pool_state.specs.Waiting.{first_late, pass_first, passed_late, slot_if};
    ghost use Rattle.pool_state.specs.Search.{AreSearches};
    ghost use Rattle.pool_state.specs.Order.{Event, TookAtOnce, IsHistoryOf, IsPlaceIn};
    ghost use Rattle.pool_state.specs.Order.{with_told, with_leave};
    ghost use Rattle.pool_tasks.specs.History.{with_poll, with_all_late, is_asleep};
    ghost use Rattle.pool_machine.specs.Connections.{pair_of};
    ghost use Rattle.pool_machine.specs.Table.{next_of};
    ghost use Rattle.pool_tasks.specs.Looks.{is_found, is_refused, pair_found, IsClosedLook, IsServed};
    ghost use Rattle.pool_state.specs.Failed.{IsOneRefusalMore, IsOneTimeoutMore, IsOneOpeningMore};
    ghost use Rattle.pool_state.specs.Failed.{IsOneCheckMore};

    /// A book for which nobody waits yet, with room for so many in line. The error is lack of
    /// memory: all that the line needs is taken here.
    pub fn new(alloc: Global, book: Book<P>, room: u32) -> Result<TaskBook<P>, AllocError>
        requires { IsInOrder book.picture.on_order }
        ensures book { IfOk result (λ tasks. tasks.guarded.book ≡ book) }
        ensures line { IfOk result (λ tasks. tasks.guarded.places ≡ []) }
        ensures slots { IfOk result (λ tasks. length tasks.wakers.items ≡ room) }
        ensures nobody { IfOk result (λ tasks. tasks.at_work ≡ 0) }
    {
        let guarded = PoolState::new(CountingBook::plain(book), Line::new(alloc, room)?);
        Ok(TaskBook {
            guarded,
            wakers: no_wakers(alloc, room)?,
            ends: no_ends(alloc, room)?,
            workers: WaitList::new(alloc)?,
            at_work: 0,
            drains: WaitList::new(alloc)?,
        })
    }

    /// The book, to be read.
    pub fn book(&self) -> &Book<P>
        ensures { result.now ≡ self.now.guarded.book }
    {
        self.guarded.book()
    }

    /// The counts, with those of the callers who wait, and of the workers at work.
    pub fn status(&self) -> Status
        ensures sums { IsStatus result }
        ensures idle { result.idle ≡ length self.now.guarded.book.picture.idle }
        ensures lent { result.lent ≡ length self.now.guarded.book.picture.lent }
        ensures opening { result.opening ≡ self.now.guarded.book.picture.on_order.pending }
        ensures workers { result.workers ≡ Some self.now.at_work }
        ensures waiting { result.waiting
            ≡ all_who_wait (count_of self.now.guarded.waiting) self.now.guarded.places }
        ensures since { result.waiting_since
            ≡ since_if (all_who_wait (count_of self.now.guarded.waiting) self.now.guarded.places)
            self.now.guarded.waiting.since }
        ensures refused { result.refused ≡ self.now.guarded.failures.refused }
        ensures timeouts { result.timeouts ≡ self.now.guarded.failures.timeouts }
        ensures latest { result.latest_failure ≡ self.now.guarded.failures.latest }
        ensures closed { result.closed ≡ self.now.guarded.book.picture.on_order.closed }
    {
        Status {
            workers: Some(self.at_work),
            ..self.guarded.status()
        }
    }

    // Another caller gives up, since its time is over.
    fn count_timeout(&mut self)
        ensures failures { IsOneTimeoutMore self.old.guarded.failures self.new.guarded.failures }
        ensures book { self.new.guarded.book ≡ self.old.guarded.book }
        ensures line { self.new.guarded.places ≡ self.old.guarded.places }
        ensures waiting { self.new.guarded.waiting ≡ self.old.guarded.waiting }
        ensures workers { self.new.workers ≡ self.old.workers }
        ensures wakers { self.new.wakers ≡ self.old.wakers }
        ensures at_work { self.new.at_work ≡ self.old.at_work }
    {
        self.guarded.give_up();
    }

    /// What the book reports.
    pub fn report(&self) -> Result<Report, AllocError>
        ensures { IfOk result IsSoundReport }
    {
        self.guarded.report()
    }

    /// How many connections are lent.
    pub fn lent(&self) -> u32
        ensures { result ≡ length self.now.guarded.book.picture.lent }
    {
        lent_in(self.guarded.book())
    }

    /// Whether a check failed that began after this moment, since when a connection is idle.
    pub fn is_distrusted(&self, idle_since: Duration) -> bool {
        self.guarded.is_distrusted(idle_since)
    }

    /// Takes an idle connection for a caller who does not wait: one that is not kept for those in
    /// line.
    #[inline(always)]
    pub fn try_take(&mut self, now: Duration) -> Option<(u64, P)>
        ensures kept { IsTrue (is_kept self.old.guarded.book.picture
            self.old.guarded.places) → result ≡ None }
        ensures takes { is_kept self.old.guarded.book.picture
            self.old.guarded.places ≡ false
            → result ≡ option_map pair_of (next_of self.old.guarded.book.picture) }
        ensures line { self.new.guarded.places ≡ self.old.guarded.places }
        ensures history { (h : List Event) → IsHistoryOf h self.old.guarded.places → IsSome result
            → IsHistoryOf (TookAtOnce (length self.old.guarded.book.picture.idle) ∷ h)
            self.new.guarded.places }
        ensures waiting { self.new.guarded.waiting ≡ self.old.guarded.waiting }
        // Where it ordered, every worker is woken.
        ensures workers { self.old.guarded.book.picture.on_order.pending
            < self.new.guarded.book.picture.on_order.pending
            → NobodySleeps self.new.workers }
        ensures wakers { self.new.wakers ≡ self.old.wakers }
    {
        let (taken, ordered) = self.guarded.look_once(now, &mut ());
        wake_workers(&mut self.workers, ordered);
        match taken {
            Take::Found { id, value, .. } => Some((id, value)),
            Take::Empty { .. } => None,
        }
    }

    /// Passes those in line who were notified, and whose time was over before they looked. So one
    /// that is neither polled nor dropped keeps nothing any longer from those who came after it.
    #[inline(always)]
    pub fn pass_late(&mut self, now: Duration)
        ensures line { self.new.guarded.places
            ≡ passed_late (waiting_in self.old.guarded.places) (as_nanos now)
            self.old.ends.items self.old.guarded.places }
        ensures history { (h : List Event) → IsHistoryOf h self.old.guarded.places
            → IsHistoryOf (with_all_late (waiting_in self.old.guarded.places) (as_nanos now)
            self.old.ends.items self.old.guarded.places h) self.new.guarded.places }
        ensures book { self.new.guarded.book ≡ self.old.guarded.book }
        ensures waiting { self.new.guarded.waiting ≡ self.old.guarded.waiting }
    {
        let mut search = self.guarded.late_search();
        for _ in 0..self.guarded.in_line() {
            if !self.pass_one(&mut search, now) {
                break;
            }
        }
    }

    // Passes the first of them, and wakes the one who is notified instead. Whether there was one.
    #[inline(always)]
    fn pass_one(&mut self, search: &mut LateSearch, now: Duration) -> bool
        requires { AreSearches (as_nanos now) self.old.ends.items search.old
            self.old.guarded.places }
        ensures search { AreSearches (as_nanos now) self.new.ends.items search.new
            self.new.guarded.places }
        ensures whether { result ≡ is_some
            (first_late (as_nanos now) self.old.ends.items self.old.guarded.places) }
        ensures line { self.new.guarded.places ≡ pass_first (as_nanos now)
            self.old.ends.items self.old.guarded.places }
        ensures book { self.new.guarded.book ≡ self.old.guarded.book }
        ensures ends { self.new.ends ≡ self.old.ends }
        ensures waiting { self.new.guarded.waiting ≡ self.old.guarded.waiting }
    {
        match self.guarded.pass_late(search, now, &self.ends) {
            Some(to_wake) => {
                wake(&mut self.wakers, &mut self.workers, to_wake);
                true
            }
            None => false,
        }
    }

    /// One poll of a caller who waits, at its place in line or nowhere yet. It takes if more are
    /// idle than callers wait before it; else it sleeps in line, at the end or where it was, and
    /// waits since its call began.
    ///
    /// If it `keeps_place`, one that takes stays in line until it leaves, and is the first again if
    /// its connection is found unsound.
    pub fn poll_look(
        &mut self,
        now: Duration,
        call: CallSpan,
        cx: &mut Context<'_>,
        source: &Source,
        place: &mut Option<u32>,
        keeps_place: bool,
    ) -> Poll<Looked<P>>
        // Who is served is the one before whom fewer wait than connections are idle.
        ensures turn { IfReady result (λ look. IsTrue (is_found look)
            → before place.old self.old.guarded.places
            < length self.old.guarded.book.picture.idle) }
        // It is lent the connection that is lent next.
        ensures next { IfReady result (λ look. IsTrue (is_found look)
            → pair_found look ≡ option_map pair_of (next_of self.old.guarded.book.picture)) }
        // And who is awake in an open pool and has its turn is served.
        ensures served { IfSome place.old (λ slot. waker_at self.old.wakers slot ≡ None)
            → self.old.guarded.book.picture.on_order.closed ≡ false
            → before place.old self.old.guarded.places
            < length self.old.guarded.book.picture.idle → IsServed result }
        ensures refused { IfReady result (λ look. IsTrue (is_refused look)
            → IsOneRefusalMore self.old.guarded.failures self.new.guarded.failures) }
        ensures closed { IfReady result
            (IsClosedLook self.old.guarded.book.picture.on_order.closed) }
        // Who sleeps stands in an open pool's line, and was not notified; it left its own waker at
        // its own slot. Nobody else is woken, nor lies down.
        ensures sleeps { OnPending result (IsSomeAnd place.new
            (λ slot. told_at slot self.new.guarded.places ≡ false)) }
        ensures left { OnPending result
            (IfSome place.new (SleepsAt cx.old cx.new self.new.wakers)) }
        ensures slots { length self.new.wakers.items ≡ length self.old.wakers.items }
        ensures alone { self.old.guarded.book.picture.on_order.closed ≡ false
            → KeepsOthers place.new self.old.wakers self.new.wakers }
        ensures open { OnPending result
            (self.old.guarded.book.picture.on_order.closed ≡ false) }
        ensures registered { OnPending result (Covers cx.new (λ s. s ≡ source.now.id)) }
        // Who comes to wait, or looked without success, waits since its call began. All else leaves
        // the moment as it was.
        ensures since { IfSome place.old (λ slot. waker_at self.old.wakers slot ≡ None)
            → OnPending result (as_nanos self.new.guarded.waiting.since
            ≡ since_with (all_who_wait (count_of self.old.guarded.waiting)
            self.old.guarded.places) (as_nanos call.start)
            (as_nanos self.old.guarded.waiting.since)) }
        ensures asleep { IsSomeAnd place.old (λ slot. IsSome (waker_at self.old.wakers slot))
            → self.new.guarded.waiting ≡ self.old.guarded.waiting }
        ensures ready { IfReady result
            (λ _. self.new.guarded.waiting ≡ self.old.guarded.waiting) }
        ensures count { count_of self.new.guarded.waiting ≡ count_of self.old.guarded.waiting }
        ensures kept { Keeps cx.old cx.new }
        ensures history { (h : List Event) → IsHistoryOf h self.old.guarded.places
            → IsPlaceIn h place.old → IsHistoryOf (with_poll result
            (is_asleep self.old.wakers place.old) keeps_place place.old place.new
            (length self.old.guarded.book.picture.idle)
            (told_by place.old self.old.guarded.places) h) self.new.guarded.places }
        // Where it ordered, every worker is woken.
        ensures workers { self.old.guarded.book.picture.on_order.pending
            < self.new.guarded.book.picture.on_order.pending
            → NobodySleeps self.new.workers }
    {
        if self.guarded.book().is_closed() {
            self.leave(place);
            return Poll::Ready(Looked::Closed);
        }
        if let Some(slot) = asleep_at(&self.wakers, *place) {
            // Nobody notified it, so it is not its turn.
            return register(&mut self.wakers, cx, source, slot);
        }
        let idle_since = self.guarded.book().next_idle_since();
        let since = self.guarded.since_with(call.start);
        let (look, to_wake) = self.guarded.look_in_line(now, place, keeps_place, &mut ());
        wake(&mut self.wakers, &mut self.workers, to_wake);
        match look {
            Look::Found { id, value } => Poll::Ready(Looked::Found {
                id,
                payload: value,
                idle_since,
            }),
            Look::Full => {
                self.guarded.refuse();
                Poll::Ready(Looked::Full)
            }
            Look::Stands(slot) => {
                self.guarded.wait_in_line(since);
                note(&mut self.ends, slot, call.end);
                register(&mut self.wakers, cx, source, slot)
            }
        }
    }

    /// A caller leaves the line, if it stands in it. If it was notified, the next one is.
    pub fn leave(&mut self, place: &mut Option<u32>)
        ensures gone { place.new ≡ None }
        ensures line { self.new.guarded.places
            ≡ left_by place.old self.old.guarded.places }
        ensures book { self.new.guarded.book ≡ self.old.guarded.book }
        ensures waiting { self.new.guarded.waiting ≡ self.old.guarded.waiting }
        ensures history { (h : List Event) → IsHistoryOf h self.old.guarded.places
            → IsHistoryOf (with_told (told_by place.old self.old.guarded.places)
            (with_leave place.old h)) self.new.guarded.places }
        ensures workers { self.new.workers ≡ self.old.workers }
        ensures failures { self.new.guarded.failures ≡ self.old.guarded.failures }
        ensures at_work { self.new.at_work ≡ self.old.at_work }
        // No waker is left at its slot; and nobody else is woken but the one who is notified.
        ensures left { IfSome place.old (λ slot. waker_at self.new.wakers slot ≡ None) }
        ensures slots { length self.new.wakers.items ≡ length self.old.wakers.items }
        ensures alone { (slot : ℕ) → place.old ≢ Some slot
            → told_by place.old self.old.guarded.places ≢ Some slot
            → waker_at self.new.wakers slot ≡ waker_at self.old.wakers slot }
    {
        clear_at(&mut self.wakers, *place);
        let to_wake = self.guarded.leave(place);
        wake(&mut self.wakers, &mut self.workers, to_wake);
    }

    /// How many wait before this caller, or all who wait, if it does not stand in line; but at most
    /// a thousand.
    pub fn ahead_of(&self, place: Option<u32>) -> usize
        ensures { result ≡ min (before place self.now.guarded.places) 1000 }
    {
        self.guarded.ahead_of(place)
    }

    /// Puts a lent connection back. One that is unfit, has outlived its own lifetime, or was opened
    /// before the latest eviction is closed, as a broken one is: it comes back, with the reason.
    #[inline(always)]
    pub fn give_back(
        &mut self,
        now: Duration,
        id: u64,
        payload: P,
        unfit: Option<ReleaseReason>,
        outlived: bool,
    ) -> Result<Returned<P>, (Refusal, P)>
        ensures step { IsReturn now id payload
            (is_to_close unfit outlived id self.old.guarded.evicted_below) result
            self.old.guarded.book self.new.guarded.book }
        ensures told { self.new.guarded.places
            ≡ told_if (wakes_of_return (map_ok seen_returned result)).caller
            self.old.guarded.places }
        ensures waits { WaitAsBefore self.old.guarded.waiting self.new.guarded.waiting }
        ensures history { (h : List Event) → IsHistoryOf h self.old.guarded.places
            → IsHistoryOf (with_told (slot_if (wakes_of_return (map_ok seen_returned result)).caller
            self.old.guarded.places) h)
            self.new.guarded.places }
        ensures at_work { self.new.at_work ≡ self.old.at_work }
        ensures workers { IsTrue (wakes_of_return (map_ok seen_returned result)).workers
            → NobodySleeps self.new.workers }
        ensures alone { KeepsOthers
            (slot_if (wakes_of_return (map_ok seen_returned result)).caller
            self.old.guarded.places) self.old.wakers self.new.wakers }
    {
        let (returned, to_wake) = self.guarded.give_back(now, id, payload, unfit, outlived);
        wake(&mut self.wakers, &mut self.workers, to_wake);
        wake_drains(&mut self.drains, self.guarded.book());
        returned
    }

    /// Why a connection is closed, if it is, that comes back now and is unfit for this reason or
    /// for none.
    pub fn reason_of_return(&self, id: u64, unfit: Option<ReleaseReason>) -> ReleaseReason {
        self.guarded.reason_of_return(id, unfit)
    }

    /// Whether the lent connection with this id has outlived its own lifetime, if lifetimes differ.
    #[inline(always)]
    pub fn is_outlived(
        &self,
        tuning: &Tuning,
        created_at: Option<SystemTime>,
        id: u64,
        now: Duration,
    ) -> bool {
        tuning.has_jitter() && self.guarded.is_outlived(tuning, created_at, id, now)
    }

    /// Admits an opened connection under its id, or lets a lent one go for good.
    pub fn settle(&mut self, now: Duration, outcome: Outcome<P>) -> Settled<P>
        ensures step { IsSettling now outcome result
            self.old.guarded.book self.new.guarded.book }
        ensures told { self.new.guarded.places
            ≡ told_if (wakes_of_settled (seen_settled result)).caller
            self.old.guarded.places }
        ensures waits { WaitAsBefore self.old.guarded.waiting self.new.guarded.waiting }
        ensures history { (h : List Event) → IsHistoryOf h self.old.guarded.places
            → IsHistoryOf (with_told (slot_if (wakes_of_settled (seen_settled result)).caller
            self.old.guarded.places) h)
            self.new.guarded.places }
        ensures at_work { self.new.at_work ≡ self.old.at_work }
        ensures workers { IsTrue (wakes_of_settled (seen_settled result)).workers
            → NobodySleeps self.new.workers }
        ensures alone { KeepsOthers
            (slot_if (wakes_of_settled (seen_settled result)).caller
            self.old.guarded.places) self.old.wakers self.new.wakers }
    {
        let (settled, to_wake) = self.guarded.settle(now, outcome);
        wake(&mut self.wakers, &mut self.workers, to_wake);
        wake_drains(&mut self.drains, self.guarded.book());
        settled
    }

    /// Reports a failed opening to the book.
    pub fn fail(&mut self, now: Duration, tries: u32, text: Option<String>) -> Settled<P>
        ensures step { IsSettling now (outcome.Failed tries text) result
            self.old.guarded.book self.new.guarded.book }
        ensures failures { IsOneOpeningMore now
            self.old.guarded.failures self.new.guarded.failures }
        ensures told { self.new.guarded.places
            ≡ told_if (wakes_of_settled (seen_settled result)).caller
            self.old.guarded.places }
        ensures waits { WaitAsBefore self.old.guarded.waiting self.new.guarded.waiting }
        ensures drains { self.new.drains ≡ self.old.drains }
        ensures fewer { (key : ℕ) → IsQueued self.new.workers key
            → IsQueued self.old.workers key }
        ensures history { (h : List Event) → IsHistoryOf h self.old.guarded.places
            → IsHistoryOf (with_told (slot_if (wakes_of_settled (seen_settled result)).caller
            self.old.guarded.places) h)
            self.new.guarded.places }
        ensures at_work { self.new.at_work ≡ self.old.at_work }
        ensures workers { IsTrue (wakes_of_settled (seen_settled result)).workers
            → NobodySleeps self.new.workers }
        ensures alone { KeepsOthers
            (slot_if (wakes_of_settled (seen_settled result)).caller
            self.old.guarded.places) self.old.wakers self.new.wakers }
    {
        let (settled, to_wake) = self.guarded.fail(now, tries, text);
        wake(&mut self.wakers, &mut self.workers, to_wake);
        settled
    }

    /// Reports a failed check to the book. What was idle before this moment is distrusted from now
    /// on.
    pub fn fail_check(
        &mut self,
        now: Duration,
        id: u64,
        text: Option<String>,
        distrusted_before: Duration,
    ) -> Settled<P>
        ensures step { IsSettling now (outcome.Unsound id text) result
            self.old.guarded.book self.new.guarded.book }
        ensures failures { IsOneCheckMore now distrusted_before
            self.old.guarded.failures self.new.guarded.failures }
        ensures told { self.new.guarded.places
            ≡ told_if (wakes_of_settled (seen_settled result)).caller
            self.old.guarded.places }
        ensures waits { WaitAsBefore self.old.guarded.waiting self.new.guarded.waiting }
        ensures history { (h : List Event) → IsHistoryOf h self.old.guarded.places
            → IsHistoryOf (with_told (slot_if (wakes_of_settled (seen_settled result)).caller
            self.old.guarded.places) h)
            self.new.guarded.places }
        ensures at_work { self.new.at_work ≡ self.old.at_work }
        ensures workers { IsTrue (wakes_of_settled (seen_settled result)).workers
            → NobodySleeps self.new.workers }
        ensures alone { KeepsOthers
            (slot_if (wakes_of_settled (seen_settled result)).caller
            self.old.guarded.places) self.old.wakers self.new.wakers }
    {
        let (settled, to_wake) = self.guarded.fail_check(now, id, text, distrusted_before);
        wake(&mut self.wakers, &mut self.workers, to_wake);
        wake_drains(&mut self.drains, self.guarded.book());
        settled
    }

    /// What a worker is to do.
    pub fn begin(&mut self, now: Duration) -> Job
        ensures step { IsBegin now result self.old.guarded.book self.new.guarded.book }
        ensures timely { IsTimely result self.new.guarded.book.picture.on_order }
        ensures waiting { self.new.guarded.waiting ≡ self.old.guarded.waiting }
        ensures wakers { self.new.wakers ≡ self.old.wakers }
        ensures workers { self.new.workers ≡ self.old.workers }
        ensures at_work { self.new.at_work ≡ self.old.at_work }
    {
        self.guarded.begin(now)
    }

    /// Gives an opened connection its id.
    pub fn number(&mut self, tries: u32) -> Result<u64, Refusal>
        ensures step { IsNumbering tries result
            self.old.guarded.book self.new.guarded.book }
        ensures waiting { self.new.guarded.waiting ≡ self.old.guarded.waiting }
        ensures wakers { self.new.wakers ≡ self.old.wakers }
    {
        self.guarded.number(tries)
    }

    /// Closes what is expired, into the list, which is empty and has room for all.
    pub fn sweep(&mut self, now: Duration, expired: &mut Vec<Released<P>>)
        requires empty { vec_len expired.old ≡ 0 }
        requires room { self.old.guarded.book.picture.on_order.limits.max_size
            ≤ vec_capacity expired.old }
        ensures step { (ordered : _) × IsReap now expired.new.items ordered
            self.old.guarded.book self.new.guarded.book }
        ensures waits { WaitAsBefore self.old.guarded.waiting self.new.guarded.waiting }
        ensures history { (h : List Event) → IsHistoryOf h self.old.guarded.places
            → IsHistoryOf (with_told (slot_if (wakes_of_reap (length expired.new.items) 0).caller
            self.old.guarded.places) h)
            self.new.guarded.places }
        ensures at_work { self.new.at_work ≡ self.old.at_work }
        // Where it ordered, every worker is woken.
        ensures workers { self.old.guarded.book.picture.on_order.pending
            < self.new.guarded.book.picture.on_order.pending
            → NobodySleeps self.new.workers }
        ensures alone { KeepsOthers
            (slot_if (wakes_of_reap (length expired.new.items) 0).caller
            self.old.guarded.places) self.old.wakers self.new.wakers }
    {
        let (_ordered, to_wake) = self.guarded.reap(now, expired);
        wake(&mut self.wakers, &mut self.workers, to_wake);
    }

    /// Closes all that is idle, into the list, and has what is lent closed as it comes back. All who
    /// wait are woken.
    pub fn evict(&mut self, now: Duration, evicted: &mut Vec<Released<P>>)
        requires empty { vec_len evicted.old ≡ 0 }
        requires room { self.old.guarded.book.picture.on_order.limits.max_size
            ≤ vec_capacity evicted.old }
        ensures released { map seen_released evicted.new.items
            ≡ evicted_of (as_nanos now) self.old.guarded.book.picture }
        ensures after { self.new.guarded.book
            ≡ after_eviction (as_nanos now) self.old.guarded.book }
        ensures line { self.new.guarded.places ≡ self.old.guarded.places }
        ensures waits { WaitAsBefore self.old.guarded.waiting self.new.guarded.waiting }
        ensures workers { NobodySleeps self.new.workers }
        ensures nobody { (slot : ℕ) → waker_at self.new.wakers slot ≡ None }
        ensures slots { length self.new.wakers.items ≡ length self.old.wakers.items }
    {
        let to_wake = self.guarded.evict(now, &mut (), evicted);
        wake(&mut self.wakers, &mut self.workers, to_wake);
    }

    /// The latest error, which is then none.
    pub fn take_error(&mut self) -> Option<String>
        ensures step { IsTelling result self.old.guarded.book self.new.guarded.book }
        ensures waiting { self.new.guarded.waiting ≡ self.old.guarded.waiting }
        ensures line { self.new.guarded.places ≡ self.old.guarded.places }
        ensures failures { self.new.guarded.failures ≡ self.old.guarded.failures }
        ensures at_work { self.new.at_work ≡ self.old.at_work }
        ensures workers { self.new.workers ≡ self.old.workers }
        ensures wakers { self.new.wakers ≡ self.old.wakers }
    {
        self.guarded.take_error()
    }

    /// Closes the book, hands over what was idle, and wakes all who wait: after it no caller
    /// sleeps.
    pub fn close(&mut self) -> Leftover<P>
        ensures step { IsClose result self.old.guarded.book self.new.guarded.book }
        // Each worker ends at its next poll.
        ensures at_work { self.new.at_work ≡ self.old.at_work }
        ensures nobody { (slot : ℕ) → waker_at self.new.wakers slot ≡ None }
        ensures waits { WaitAsBefore self.old.guarded.waiting self.new.guarded.waiting }
        ensures workers { NobodySleeps self.new.workers }
    {
        let (left, to_wake) = self.guarded.close();
        wake(&mut self.wakers, &mut self.workers, to_wake);
        wake_drains(&mut self.drains, self.guarded.book());
        left
    }
}

// So many ends, none of which comes.
fn no_ends(alloc: Global, room: u32) -> Result<Vec<Duration>, AllocError> {
    let mut ends = Vec::with_capacity(alloc, room as usize)?;
    for _ in 0..room {
        ends.push(Duration::MAX)?;
    }
    Ok(ends)
}

// The time of the caller at this slot is over then.
fn note(ends: &mut Vec<Duration>, slot: u32, end: Duration)
    ensures noted { slot < length ends.old.items → slice_get ends.new.items slot ≡ Some end }
    ensures others { (other : ℕ) → other ≢ slot
        → slice_get ends.new.items other ≡ slice_get ends.old.items other }
{
    let index = slot as usize;
    if index < ends.len() {
        ends[index] = end;
    }
}
