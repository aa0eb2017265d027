// Limits and steps in few words. Moments and lengths of time are in milliseconds.

use r2d2_core::{LendingOrder, LimitSettings, Limits, Step};
use std::time::Duration;

pub fn ms(n: u64) -> Duration {
    Duration::from_millis(n)
}

pub fn limits(
    max_size: u32,
    min_idle: Option<u32>,
    max_lifetime: Option<u64>,
    idle_timeout: Option<u64>,
    connection_timeout: u64,
    reap_every: u64,
) -> Option<Limits> {
    let max_lifetime = max_lifetime.map(|n| Duration::from_millis(n));
    let idle_timeout = idle_timeout.map(|n| Duration::from_millis(n));
    LimitSettings {
        max_size,
        min_idle,
        max_lifetime,
        idle_timeout,
        connection_timeout: ms(connection_timeout),
        reap_every: ms(reap_every),
        order: LendingOrder::NewestFirst,
    }
    .limits()
}

// A size alone, with half a minute for a connection and from reap to reap.
pub fn sized(max_size: u32) -> Option<Limits> {
    limits(max_size, None, None, None, 30_000, 30_000)
}

pub fn take(now: u64) -> Step<u64> {
    Step::Take {
        now: ms(now),
        or_order: false,
    }
}

// A take that orders on a miss.
pub fn want(now: u64) -> Step<u64> {
    Step::Take {
        now: ms(now),
        or_order: true,
    }
}

pub fn begin(now: u64) -> Step<u64> {
    Step::Begin { now: ms(now) }
}

pub fn number(tries: u32) -> Step<u64> {
    Step::Number { tries }
}

pub fn admit(now: u64, id: u64, value: u64) -> Step<u64> {
    Step::Admit {
        now: ms(now),
        id,
        value,
    }
}

pub fn fail(now: u64, tries: u32) -> Step<u64> {
    Step::Fail {
        now: ms(now),
        tries,
        text: None,
    }
}

pub fn put_back(now: u64, id: u64, value: u64) -> Step<u64> {
    Step::PutBack {
        now: ms(now),
        id,
        value,
        broken: false,
    }
}

pub fn reap(now: u64) -> Step<u64> {
    Step::Reap { now: ms(now) }
}

pub fn close() -> Step<u64> {
    Step::Close
}
