// A user's own code over the core: it keeps a count of the lent connections, and rests on the
// core's contracts.

ghost use Rattle.std.specs.Prelude.{◌≡◌, ◌+◌, if◌then◌else◌, true, is_some};
ghost use Rattle.std.specs.Duration.{as_nanos};
ghost use Rattle.pool_machine.specs.Connections.{birth_in};
ghost use Rattle.pool_machine.specs.Table.{next_of, after_take};
ghost use Rattle.core_uses.specs.Counted.{IsCounted, shown_found};
ghost use Rattle.core_uses.specs.Calls.{after_open, after_discard};

use r2d2_core::{Core, Job, Take};
use std::time::Duration;

/// Hands in a value for the opening that is due, if there is one; false where there is none, or
/// where the core refuses it. What is lent stays lent.
pub fn open<T: Drop>(core: &mut Core<T>, lent: &u32, now: Duration, value: T) -> bool
    requires { IsCounted core.old lent.now }
    ensures counted { IsCounted core.new lent.now }
    ensures after { core.new ≡ after_open (as_nanos now) value core.old }
    ensures grown { core.new.connections ≡ core.old.connections + (if result then 1 else 0) }
{
    let Job::Open { tries } = core.begin(now) else {
        return false;
    };
    match core.number(tries) {
        Ok(id) => core.admit(now, id, value).is_ok(),
        Err(_) => false,
    }
}

/// Takes the idle connection that is lent next, and counts it among the lent ones; None where none
/// is idle.
pub fn lend<T>(core: &mut Core<T>, lent: &mut u32, now: Duration) -> Option<(u64, T)>
    requires { IsCounted core.old lent.old }
    ensures counted { IsCounted core.new lent.new }
    ensures next { result ≡ shown_found (next_of core.old) }
    ensures after { core.new ≡ after_take (as_nanos now) true core.old }
{
    // This reading tells that no more are lent than there may be, so the count can't overflow.
    let _connections = core.connections();
    match core.take(now, true) {
        Take::Found { id, value, .. } => {
            *lent += 1;
            Some((id, value))
        }
        Take::Empty { .. } => None,
    }
}

/// Closes a lent connection whose check failed, which is no longer counted; false where the id is
/// not lent.
pub fn discard<T>(core: &mut Core<T>, lent: &mut u32, now: Duration, id: u64) -> bool
    requires { IsCounted core.old lent.old }
    ensures counted { IsCounted core.new lent.new }
    ensures was_lent { result ≡ is_some (birth_in id core.old.lent) }
    ensures after { core.new ≡ after_discard (as_nanos now) id core.old }
{
    // Connections are the idle ones and the lent ones, before and after: so one less is lent.
    let _before = core.connections();
    match core.fail_check(now, id, None) {
        Ok(_) => {
            let _after = core.connections();
            *lent -= 1;
            true
        }
        Err(_) => false,
    }
}
