// The text of an error, as a pool's book keeps it.
ghost use Rattle.std.specs.Prelude.{◌≡◌, IfSome, string_bytes};

use std::alloc::Allocator;
use std::fmt;

/// The text of a manager's or a customizer's error; None if memory for it is refused.
pub fn text_of<E: fmt::Display, A: Allocator>(alloc: A, error: &E) -> Option<String<A>>
    ensures { IfSome result
        (λ text. IfSome (E.output error.now) (λ bytes. string_bytes text ≡ bytes)) }
{
    error.to_string(alloc).ok()
}
