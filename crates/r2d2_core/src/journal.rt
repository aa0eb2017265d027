// A journal beside a machine: what each step did.
ghost use Rattle.std.specs.Prelude.{◌≡◌, ◌≤◌, length, vec_len, vec_capacity, option_map, IfOk, OnOk};
ghost use Rattle.std.specs.Duration.{as_nanos};

pub use base::Base;
use bounded::{Before, Journal};
pub use faults::Fault;
pub use load::Load;
use pool_machine::machine::{Core, Gone, Leftover, Refusal, Released, Returned, Take};
use pool_machine::schedule::{Job, Limits};
pub use record::Record;
pub use replay::Replay;
pub use report::Report;
use report::idle_ids;
use std::alloc::{AllocError, Allocator, Global};
use std::marker::Model;
use std::time::Duration;

pub mod base;
pub(crate) mod bounded;
pub mod faults;
pub mod load;
pub mod record;
pub mod replay;
mod replaying;
pub mod report;
mod running_base;

/// A core that notes what each step did, in a journal of bounded room. If there is no room for one
/// more record, the oldest is folded into the journal's base, which says what stood before the
/// others.
///
/// Its steps and readings are those of a core. All memory, that of the journal too, is taken at the
/// creation: no step takes any.
#[derive(Drop)]
pub struct Book<T, A: Allocator = Global> {
    alloc: A,
    machine: Core<T, A>,
    journal: Journal<A>,
}

impl<T, A: Allocator> Model for Book<T, A> {
    ghost use Rattle.r2d2_core.specs.Book.{SeenBook};
    ghost use Rattle.r2d2_core.specs.BookParts.{book_in, IsFaithful};

    ghost Value = { SeenBook T };

    ghost view = { λ b. book_in b.machine b.journal };

    ghost invariant = { λ b. IsFaithful (book_in b.machine b.journal) };
}

impl<T, A: Allocator> Book<T, A> {
    ghost use Rattle.std.specs.Prelude.{IsTrue};
    ghost use Rattle.pool_machine.specs.Picture.{HoldsNothing};
    ghost use Rattle.pool_machine.specs.Limits.{seen_limits};
    ghost use Rattle.pool_machine.specs.Connections.{since_of, birth_in};
    ghost use Rattle.pool_machine.specs.Lending.{next_to_lend};
    ghost use Rattle.pool_machine.specs.Table.{first_picture};
    ghost use Rattle.r2d2_core.specs.Journal.{first_journal, CountsTakes};
    ghost use Rattle.r2d2_core.specs.Book.{seen_book, HasFacts};
    ghost use Rattle.r2d2_core.specs.Reports.{seen_base, IsReportOf, IsSoundReport};

    /// A book of a core whose ids are counted from 0, made at the moment `now`, that keeps the
    /// newest records, `room` of them at most. The error comes only if its memory is refused.
    pub fn new(
        alloc: A,
        limits: Limits,
        now: Duration,
        room: usize,
    ) -> Result<Book<T, A>, AllocError>
    where
        T: Drop,
        A: Copy,
        ensures { IfOk result
            (λ book. book
            ≡ seen_book (first_picture (seen_limits limits) (as_nanos now) 0)
            (first_journal (seen_limits limits) (as_nanos now) room)) }
    {
        Book::with_first_id(alloc, limits, now, 0, room)
    }

    /// The same, with its ids counted from `first_id`.
    pub fn with_first_id(
        alloc: A,
        limits: Limits,
        now: Duration,
        first_id: u64,
        room: usize,
    ) -> Result<Book<T, A>, AllocError>
    where
        T: Drop,
        A: Copy,
        ensures { IfOk result
            (λ book. book
            ≡ seen_book (first_picture (seen_limits limits) (as_nanos now) first_id)
            (first_journal (seen_limits limits) (as_nanos now) room)) }
    {
        let machine = Core::with_first_id(alloc, limits, now, first_id)?;
        let journal = Journal::new(alloc, limits, now, room)?;
        Ok(Book {
            alloc,
            machine,
            journal,
        })
    }

    /// How many connections there are, idle and lent.
    pub fn connections(&self) -> u32
        ensures value { result ≡ self.now.picture.connections }
        ensures facts { HasFacts self.now }
    {
        self.machine.connections()
    }

    /// How many connections are idle.
    pub fn idle(&self) -> u32
        ensures value { result ≡ length self.now.picture.idle }
        ensures facts { HasFacts self.now }
    {
        self.machine.idle()
    }

    /// How many openings are ordered and not admitted.
    pub fn pending(&self) -> u32
        ensures value { result ≡ self.now.picture.on_order.pending }
        ensures facts { HasFacts self.now }
    {
        self.machine.pending()
    }

    /// As `Core::is_closed`.
    pub fn is_closed(&self) -> bool
        ensures value { result ≡ self.now.picture.on_order.closed }
        ensures empty { IsTrue result → HoldsNothing self.now.picture }
        ensures facts { HasFacts self.now }
    {
        self.machine.is_closed()
    }

    /// As `Core::next_id`.
    pub fn next_id(&self) -> u64
        ensures value { result ≡ self.now.picture.on_order.next_id }
        ensures facts { HasFacts self.now }
    {
        self.machine.next_id()
    }

    /// As `Core::next_idle_since`.
    pub fn next_idle_since(&self) -> Option<Duration>
        ensures value { option_map as_nanos result ≡ option_map since_of
            (next_to_lend self.now.picture.on_order.limits.order self.now.picture.idle) }
        ensures facts { HasFacts self.now }
    {
        self.machine.next_idle_since()
    }

    /// As `Core::lent_birth`.
    pub fn lent_birth(&self, id: u64) -> Option<Duration>
        ensures value { option_map as_nanos result ≡ birth_in id self.now.picture.lent }
        ensures facts { HasFacts self.now }
    {
        self.machine.lent_birth(id)
    }

    /// The limits that the book was made with.
    pub fn limits(&self) -> Limits
        ensures value { seen_limits result ≡ self.now.picture.on_order.limits }
        ensures facts { HasFacts self.now }
    {
        self.machine.limits()
    }

    /// How many takes found a connection since the creation; it stops at `u64::MAX`.
    pub fn takes(&self) -> u64
        ensures value { result ≡ self.now.journal.takes }
        ensures counted { CountsTakes self.now.journal }
        ensures facts { HasFacts self.now }
    {
        self.journal.takes()
    }

    /// What the book shows now, and its records, in memory of the book's own allocator. The error
    /// comes only if that is refused; then nothing changes, and the next report that finds memory
    /// returns the same.
    pub fn report(&self) -> Result<Report<A>, AllocError>
    where
        A: Copy,
        ensures given { IfOk result (λ report. IsReportOf self.now report) }
        ensures sound { IfOk result IsSoundReport }
        ensures since { IfOk result
            (λ report. report.lost ≡ 0 → as_nanos report.base.at ≡ self.now.journal.made) }
        ensures facts { OnOk result (HasFacts self.now) }
    {
        self.report_in(self.alloc)
    }

    /// The same, in memory of another allocator, as for a book on a full heap.
    pub fn report_in<B: Allocator>(&self, alloc: B) -> Result<Report<B>, AllocError>
    where
        B: Copy,
        ensures given { IfOk result (λ report. IsReportOf self.now report) }
        ensures sound { IfOk result IsSoundReport }
        ensures since { IfOk result
            (λ report. report.lost ≡ 0 → as_nanos report.base.at ≡ self.now.journal.made) }
        ensures facts { OnOk result (HasFacts self.now) }
    {
        let base = self.base(alloc)?;
        let records = self.journal.copied(alloc)?;
        let idle = idle_ids(alloc, &self.machine)?;
        let lent = self.machine.lent_ids(alloc)?;
        Ok(Report {
            limits: self.machine.limits(),
            base,
            records,
            lost: self.journal.lost(),
            takes: self.journal.takes(),
            idle,
            lent,
            connections: self.machine.connections(),
            pending: self.machine.pending(),
            closed: self.machine.is_closed(),
        })
    }

    // What stood before the oldest record.
    fn base<B: Allocator>(&self, alloc: B) -> Result<Base<B>, AllocError>
    where
        B: Copy,
        ensures { IfOk result (λ base. seen_base base ≡ self.now.journal.base) }
    {
        let _max_size = self.machine.limits().max_size();
        match self.journal.before() {
            Before::Shown(at) => Base::shown(alloc, &self.machine, *at),
            Before::Folded(running_base) => running_base.copied(alloc),
        }
    }
}

impl<T, A: Allocator> Book<T, A> {
    ghost use Rattle.r2d2_core.specs.BookSteps.{IsTake, IsBegin, IsNumbering, IsAdmission};
    ghost use Rattle.r2d2_core.specs.BookSteps.{IsFailedOpening, IsFailedCheck, IsReturn};
    ghost use Rattle.r2d2_core.specs.BookSteps.{IsReap, IsTelling, IsClose};

    /// As `Core::take`. A take that found is noted, and one that ordered.
    #[inline(always)]
    pub fn take(&mut self, now: Duration, or_order: bool) -> Take<T>
        ensures { IsTake now or_order result self.old self.new }
    {
        let taken = self.machine.take(now, or_order);
        let at = self.machine.latest();
        self.journal.note(Record::of_take(at, &taken));
        taken
    }

    /// As `Core::begin`, which is never noted.
    pub fn begin(&mut self, now: Duration) -> Job
        ensures { IsBegin now result self.old self.new }
    {
        self.machine.begin(now)
    }

    /// As `Core::number`, which is never noted.
    pub fn number(&mut self, tries: u32) -> Result<u64, Refusal>
        ensures { IsNumbering tries result self.old self.new }
    {
        self.machine.number(tries)
    }

    /// As `Core::admit`. It is noted if it is accepted.
    pub fn admit(&mut self, now: Duration, id: u64, value: T) -> Result<(), (Refusal, T)>
        ensures { IsAdmission now id value result self.old self.new }
    {
        let answer = self.machine.admit(now, id, value);
        let at = self.machine.latest();
        self.journal.note(Record::of_admission(at, id, &answer));
        answer
    }

    /// As `Core::fail`, which is never noted.
    pub fn fail(
        &mut self,
        now: Duration,
        tries: u32,
        text: Option<String>,
    ) -> Result<Duration, Refusal>
        ensures { IsFailedOpening now tries text result self.old self.new }
    {
        self.machine.fail(now, tries, text)
    }

    /// As `Core::fail_check`. It is noted if it is accepted.
    pub fn fail_check(
        &mut self,
        now: Duration,
        id: u64,
        text: Option<String>,
    ) -> Result<Gone, Refusal>
        ensures { IsFailedCheck now id text result self.old self.new }
    {
        let answer = self.machine.fail_check(now, id, text);
        let at = self.machine.latest();
        self.journal.note(Record::of_check(at, id, &answer));
        answer
    }

    /// As `Core::put_back`. It is noted if it is accepted.
    #[inline(always)]
    pub fn put_back(
        &mut self,
        now: Duration,
        id: u64,
        value: T,
        broken: bool,
    ) -> Result<Returned<T>, (Refusal, T)>
        ensures { IsReturn now id value broken result self.old self.new }
    {
        let answer = self.machine.put_back(now, id, value, broken);
        let at = self.machine.latest();
        self.journal.note(Record::of_return(at, id, &answer));
        answer
    }

    /// As `Core::reap`. It is noted if it closed or ordered.
    pub fn reap(&mut self, now: Duration, out: &mut Vec<Released<T>>) -> u32
        requires empty { vec_len out.old ≡ 0 }
        requires room { self.old.picture.on_order.limits.max_size ≤ vec_capacity out.old }
        ensures { IsReap now out.new.items result self.old self.new }
    {
        let ordered = self.machine.reap_uncounted(now, out);
        let at = self.machine.latest();
        self.journal.note(Record::of_reap(at, out.len(), ordered));
        ordered
    }

    /// As `Core::take_error`, which is never noted.
    pub fn take_error(&mut self) -> Option<String>
        ensures { IsTelling result self.old self.new }
    {
        self.machine.take_error()
    }

    /// As `Core::close`. The first one is noted.
    pub fn close(&mut self) -> Leftover<T, A>
        ensures { IsClose result self.old self.new }
    {
        let made = Record::of_close(self.machine.latest(), self.machine.is_closed());
        self.journal.note(made);
        self.machine.close()
    }
}
