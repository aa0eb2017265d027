// Who stands in line, as links from slot to slot.

use super::links::Link;
use super::place::Standing;

/// Who stands in line: a ring that leads from the end to the first, from each to the one behind it,
/// and from the last to the end.
#[derive(Drop)]
pub struct Ring {
    /// By slot, and last the end: who stands behind it, and who before it.
    pub links: Vec<Link>,
    /// By slot: how the one who stands there does; None if nobody does.
    pub standings: Vec<Option<Standing>>,
    /// The end, which is the number of slots.
    pub end: u32,
    /// How many stand in line.
    pub len: u32,
}
