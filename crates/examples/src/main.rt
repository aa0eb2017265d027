//! First programs with the pool, its reports and its core, one after another: a module for each,
//! and here the first one, threads that share a pool. With the argument `report` it writes what a
//! book reports that took the script on standard input, and with `metrics` it prints those of a
//! service.
#![tactic(auto)]

mod choices;
mod handlers;
mod journal;
mod kept;
mod pool_uses;
mod rounds;
mod service;
mod settings;
mod starting;
mod stories;
mod watched_service;

use r2d2::{Builder, ManageConnection, PlainPool, PoolRuntime};
use std::alloc::AllocError;
use std::process::ExitCode;
use std::{env, thread};
use watched_service::Prints;

/// Opens connections that are numbers.
#[derive(Drop)]
pub struct Numbers;

impl ManageConnection for Numbers {
    type Connection = u32;

    type Error = AllocError;

    type Extension = ();

    fn connect(&self) -> Result<u32, AllocError> {
        Ok(7)
    }

    fn is_valid(&self, _connection: &mut u32) -> Result<(), AllocError> {
        Ok(())
    }

    fn has_broken(&self, _connection: &mut u32) -> bool {
        false
    }
}

fn main(rt: HostRuntime) -> Result<ExitCode, anyhow::Error> {
    let mut prints = Prints::Findings;
    let word = env::args(&rt)?.nth(1);
    if let Some(word) = word {
        match word.as_str() {
            "metrics" => {}
            "report" => return stories::reported(&rt),
            _ => {
                eprintln!(rt; "examples: report or metrics")?;
                return Ok(ExitCode::from(5));
            }
        }
        prints = Prints::Pages;
    } else {
        let pool = Builder::new().max_size(15).build(rt, Numbers)?;
        let mut threads = Vec::new(rt.alloc());
        for _ in 0..20 {
            let pool = pool.try_clone()?;
            threads.push(thread::spawn(&rt, move || found(pool))?)?;
        }
        let mut served = 0u32;
        for thread in threads {
            if thread.join(&rt).is_some() {
                served = served.saturating_add(1);
            }
        }
        let state = pool.state();
        drop(pool);
        println!(rt; "{served} threads found a connection")?;
        println!(rt; "{state:?}")?;
        use_pools(rt)?;
    }
    watched_service::served(
        rt,
        prints,
        |app| Ok(thread::spawn(&rt, move || app.answer())?),
    )?;
    if prints == Prints::Findings {
        use_the_core(&rt)?;
    }
    Ok(ExitCode::SUCCESS)
}

fn use_pools<R: PoolRuntime + Print + Eprint>(rt: R) -> Result<(), anyhow::Error> {
    handlers::counted(rt)?;
    handlers::printed(rt)?;
    settings::tried(rt)?;
    starting::waited_for(rt)?;
    service::audited(rt)?;
    kept::answered(rt)
}

fn use_the_core<R: Print + AllocGlobal>(rt: &R) -> Result<(), anyhow::Error> {
    rounds::gone(rt)?;
    choices::compared(rt)?;
    stories::told(rt)
}

// What a thread does with the pool. The connection goes back to the pool at the end.
fn found<R: PoolRuntime>(pool: PlainPool<Numbers, R>) -> Option<u32> {
    let connection = pool.get().ok()?;
    Some(*connection)
}
