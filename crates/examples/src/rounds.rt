// The core alone: one connection on its round.

use crate::journal;
use anyhow::Context;
use r2d2_core::{Core, Job, LendingOrder, LimitSettings, Limits, Take};
use std::time::Duration;

pub fn gone<R: Print + AllocGlobal>(rt: &R) -> Result<(), anyhow::Error> {
    let limits = limits().context("limits that no core can have")?;
    let mut core = Core::new(rt.alloc(), limits, Duration::ZERO)?;
    go_round(rt, &mut core)?;
    journal::printed(rt, limits)
}

// At most 10 connections, 2 of them wanted idle; closed when idle for ten minutes, or half an hour
// old.
fn limits() -> Option<Limits> {
    let second = Duration::from_secs(1);
    LimitSettings {
        max_size: 10,
        min_idle: Some(2),
        max_lifetime: Some(second * 1800),
        idle_timeout: Some(second * 600),
        connection_timeout: second * 30,
        reap_every: second * 30,
        order: LendingOrder::NewestFirst,
    }
    .limits()
}

fn go_round<R: Print>(rt: &R, core: &mut Core<&'static str>) -> Result<(), anyhow::Error> {
    let second = Duration::from_secs(1);
    // A worker asks what to do, opens a connection, and hands it in.
    if let Job::Open { tries } = core.begin(Duration::ZERO) {
        if let Ok(id) = core.number(tries) {
            core.admit(Duration::ZERO, id, "a connection").ok();
        }
    }
    // A caller takes it. If none were idle, an opening would be ordered.
    match core.take(second, true) {
        Take::Found { value, ordered, .. } => println!(rt; "lent {value}, and {ordered} ordered")?,
        Take::Empty { ordered } => println!(rt; "none idle, and {ordered} ordered")?,
    }
    Ok(())
}
