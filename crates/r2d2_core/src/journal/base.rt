// What stood before the oldest record of a report.
ghost use Rattle.std.specs.Prelude.{◌≡◌, map, IfOk};
ghost use Rattle.std.specs.Duration.{as_nanos};
ghost use Rattle.r2d2_core.specs.Bases.{seen_bare, seen_lent};
ghost use Rattle.r2d2_core.specs.Book.{bare};
ghost use Rattle.r2d2_core.specs.BookParts.{shown_at};
ghost use Rattle.r2d2_core.specs.Reports.{seen_base};

use pool_machine::machine::Core;
use pool_machine::machine::idle::Idle;
use pool_machine::machine::lent::LentConnection;
use pool_machine::machine::roster::{HasId, Roster};
use std::alloc::{AllocError, Allocator, Global};
use std::time::Duration;

/// What stood before the oldest record of a report: what all earlier records come to. Before the
/// first record it is what stood at the creation, when what is wanted is pending and all else is
/// empty.
#[derive(Drop)]
pub struct Base<A: Allocator = Global> {
    /// The moment of the newest record that it stands for; if there is none, that of the creation.
    pub at: Duration,
    /// The idle connections, in the order in which they came to be idle: the id of each, the moment
    /// of its admission, and the moment since which it is idle.
    pub idle: Vec<(u64, Duration, Duration), A>,
    /// The lent connections, in the order of their takes: the id of each, and the moment of its
    /// admission.
    pub lent: Vec<(u64, Duration), A>,
    /// How many connections there were, idle and lent ones together.
    pub connections: u32,
    /// How many openings were ordered and not yet admitted.
    pub pending: u32,
    /// Whether the book was closed.
    pub closed: bool,
}

impl<A: Allocator> Base<A> {
    /// What a machine shows, as a base that says what stood up to a moment.
    pub(crate) fn shown<T, B: Allocator>(
        alloc: A,
        machine: &Core<T, B>,
        at: Duration,
    ) -> Result<Base<A>, AllocError>
    where
        A: Copy,
        ensures { IfOk result (λ base. seen_base base ≡ shown_at (as_nanos at) machine.now) }
    {
        let idle = copied_idle(alloc, machine.idle_ones())?;
        let lent = copied_lent(alloc, machine.lent_ones())?;
        Ok(Base {
            at,
            idle,
            lent,
            connections: machine.connections(),
            pending: machine.pending(),
            closed: machine.is_closed(),
        })
    }
}

/// A copy of the idle ones, without what their owner keeps of them.
pub(super) fn copied_idle<T, A: Allocator, B: Allocator>(
    alloc: A,
    idle: &Idle<T, B>,
) -> Result<Vec<(u64, Duration, Duration), A>, AllocError>
    ensures { IfOk result (λ list. map seen_bare list.items ≡ map bare idle.now.items) }
{
    let count = idle.len();
    let mut list = Vec::with_capacity(alloc, count)?;
    for place in 0..count {
        if let Some(entry) = idle.get(place) {
            list.push_reserved((entry.id(), entry.birth(), entry.since()));
        }
    }
    Ok(list)
}

/// A copy of the lent ones.
pub(super) fn copied_lent<A: Allocator, B: Allocator>(
    alloc: A,
    lent: &Roster<LentConnection, B>,
) -> Result<Vec<(u64, Duration), A>, AllocError>
    ensures { IfOk result (λ list. map seen_lent list.items ≡ lent.now.items) }
{
    let mut list = Vec::with_capacity(alloc, lent.len())?;
    for loan in lent.items() {
        list.push_reserved((loan.id(), loan.birth()));
    }
    Ok(list)
}
