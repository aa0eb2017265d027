// What a book says of itself.
ghost use Rattle.std.specs.Prelude.{◌≡◌, map, IfOk};
ghost use Rattle.pool_machine.specs.Connections.{id_of_idle};

use super::base::Base;
use super::record::Record;
use pool_machine::machine::Core;
use pool_machine::schedule::Limits;
use std::alloc::{AllocError, Allocator, Global};

/// What a book shows at one point in time, the newest records of what led to it, and what stood
/// before them.
///
/// From the base the records replay to the ids and counts that stand beside them, however long the
/// book was in use.
#[derive(Drop)]
pub struct Report<A: Allocator = Global> {
    /// The limits that the book was made with.
    pub limits: Limits,
    /// What stood before the oldest of the records.
    pub base: Base<A>,
    /// The newest records, as many as there was room for, the oldest of them first.
    pub records: Vec<Record, A>,
    /// How many records were folded into the base, since there was no room for them; it stops at
    /// `u64::MAX`.
    pub lost: u64,
    /// How many takes found a connection since the creation; it stops at `u64::MAX`. If `lost` is 0
    /// it is the number of `Taken` records.
    pub takes: u64,
    /// The ids of the idle connections, in the order in which they came to be idle.
    pub idle: Vec<u64, A>,
    /// The ids of the lent connections, in the order of their takes.
    pub lent: Vec<u64, A>,
    /// How many connections there are, idle and lent ones together.
    pub connections: u32,
    /// How many openings are ordered and not yet admitted.
    pub pending: u32,
    /// Whether the book is closed.
    pub closed: bool,
}

/// The ids of the idle connections, the oldest first.
pub(super) fn idle_ids<T, A: Allocator, B: Allocator>(
    alloc: A,
    machine: &Core<T, B>,
) -> Result<Vec<u64, A>, AllocError>
    ensures { IfOk result (λ ids. ids.items ≡ map id_of_idle machine.now.idle) }
{
    let count = machine.idle();
    let mut ids = Vec::with_capacity(alloc, count as usize)?;
    for place in 0..count {
        if let Some(id) = machine.idle_id(place) {
            ids.push_reserved(id);
        }
    }
    Ok(ids)
}
