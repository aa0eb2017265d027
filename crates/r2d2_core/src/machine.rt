// The core itself: each of its steps, in place.

pub use pool_machine::machine::{
    Core, Gone, Leftover, LimitSettings, Limits, Refusal, Released, Returned, Take,
};
