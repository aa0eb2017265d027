// What a timeout says beside that no connection came in time.
ghost use Rattle.std.specs.Prelude.{◌≡◌, None, IsSome, IfSome, string_bytes};
ghost use Rattle.r2d2_async.specs.Messages.{LacksWorkers, no_worker};

use r2d2::Status;
use std::alloc::Global;

const NO_WORKER: &str = "no worker is running: spawn what Pool::worker returns";

/// The latest error, if there is one; else, if nobody opens connections of an open pool, that no
/// worker is running. None if there is nothing to say, or no memory for it.
pub fn message_of(alloc: Global, latest: Option<String>, status: &Status) -> Option<String>
    ensures latest { IsSome latest → result ≡ latest }
    ensures lack { latest ≡ None → IsSome result → LacksWorkers status.now }
    ensures text { latest ≡ None → IfSome result (λ text. string_bytes text ≡ no_worker) }
{
    match latest {
        None if status.workers == Some(0) && !status.closed => {
            String::from_str(alloc, NO_WORKER).ok()
        }
        told => told,
    }
}
