// The list that a reap or an eviction fills.
ghost use Rattle.std.specs.Prelude.{IsTrue, ◌↔◌};
ghost use Rattle.pool_state.specs.Room.{HasRoom};

use r2d2_core::{Book, Released};

/// Whether a reap or an eviction can use the list. It has room from its creation on; but of a
/// locked book its type alone is known, so this asks.
pub fn has_room<P>(book: &Book<P>, expired: &Vec<Released<P>>) -> bool
    ensures { IsTrue result ↔ HasRoom book.now.picture.on_order.limits.max_size expired.now }
{
    expired.is_empty() && expired.capacity() >= book.limits().max_size() as usize
}
