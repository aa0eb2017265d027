// Settings that come from outside.

use crate::Numbers;
use anyhow::ensure;
use r2d2::{Builder, PlainPool, PoolRuntime};
use std::time::Duration;

/// What a file or a command line asks for.
#[derive(Clone, Copy)]
struct Wishes {
    max_size: u32,
    min_idle: Option<u32>,
    workers: usize,
    max_lifetime: Option<Duration>,
    idle_timeout: Option<Duration>,
    connection_timeout: Duration,
}

/// Each test stands before the setting that asks for it.
fn pool_of<R: PoolRuntime>(rt: R, wishes: Wishes) -> Result<PlainPool<Numbers, R>, anyhow::Error> {
    ensure!(wishes.max_size > 0, "max_size is 0");
    ensure!(wishes.workers > 0, "thread_pool is 0");
    if let Some(age) = wishes.max_lifetime {
        ensure!(!age.is_zero(), "max_lifetime is 0");
    }
    if let Some(length) = wishes.idle_timeout {
        ensure!(!length.is_zero(), "idle_timeout is 0");
    }
    let timeout = wishes.connection_timeout;
    ensure!(!timeout.is_zero(), "connection_timeout is 0");
    let builder = Builder::new()
        .max_size(wishes.max_size)
        .min_idle(wishes.min_idle)
        .thread_pool(wishes.workers)
        .max_lifetime(wishes.max_lifetime)
        .idle_timeout(wishes.idle_timeout)
        .connection_timeout(timeout);
    ensure!(builder.limits().is_some(), "min_idle is above max_size");
    Ok(builder.build(rt, Numbers)?)
}

pub fn tried<R: PoolRuntime + Print>(rt: R) -> Result<(), anyhow::Error> {
    let fit = Wishes {
        max_size: 4,
        min_idle: Some(1),
        workers: 2,
        max_lifetime: None,
        idle_timeout: Some(Duration::from_secs(60)),
        connection_timeout: Duration::from_secs(5),
    };
    let unfit = [
        Wishes { max_size: 0, ..fit },
        Wishes {
            min_idle: Some(5),
            ..fit
        },
        Wishes { workers: 0, ..fit },
        Wishes {
            max_lifetime: Some(Duration::ZERO),
            ..fit
        },
        Wishes {
            idle_timeout: Some(Duration::ZERO),
            ..fit
        },
        Wishes {
            connection_timeout: Duration::ZERO,
            ..fit
        },
    ];
    println!(rt; "{:?}", pool_of(rt, fit)?.state())?;
    for wishes in unfit {
        if let Err(refusal) = pool_of(rt, wishes) {
            println!(rt; "{refusal}")?;
        }
    }
    Ok(())
}
