// Handlers of events: one counts, one prints.

use crate::Numbers;
use r2d2::event::{AcquireEvent, CheckinEvent, CheckoutEvent, ReleaseEvent, TimeoutEvent};
use r2d2::{Builder, HandleEvent, PoolRuntime};
use std::fmt;
use std::sync::Arc;
use std::sync::atomic::{AtomicU64, Ordering};

/// Counts how often a connection was lent.
#[derive(Drop)]
struct Counter {
    lent: Arc<AtomicU64>,
}

impl fmt::Debug for Counter {
    fn fmt<W: fmt::Write>(&self, f: &mut fmt::Formatter<W>) -> fmt::Result {
        f.write_str("Counter")
    }
}

impl HandleEvent for Counter {
    fn handle_checkout(&self, _event: CheckoutEvent) {
        self.lent.fetch_add(1, Ordering::SeqCst);
    }
}

pub fn counted<R: PoolRuntime + Print>(rt: R) -> Result<(), anyhow::Error> {
    let lent = Arc::new(rt.alloc(), AtomicU64::new(0))?;
    let counter = Counter {
        lent: Arc::try_clone(&lent)?,
    };
    let pool = Builder::new().event_handler(counter).build(rt, Numbers)?;
    drop(pool.get()?);
    drop(pool.get()?);
    println!(rt; "lent {} times", lent.load(Ordering::SeqCst))?;
    Ok(())
}

/// Prints each event. It keeps the runtime.
#[derive(Drop)]
struct Printer<R> {
    rt: R,
}

impl<R> fmt::Debug for Printer<R> {
    fn fmt<W: fmt::Write>(&self, f: &mut fmt::Formatter<W>) -> fmt::Result {
        f.write_str("Printer")
    }
}

// A handler with a parameter has to have all five methods.
impl<R: PoolRuntime + Print> HandleEvent for Printer<R> {
    fn handle_acquire(&self, event: AcquireEvent) {
        println!(self.rt; "{} was opened", event.connection_id()).ok();
    }

    fn handle_release(&self, event: ReleaseEvent) {
        println!(self.rt; "{} was closed", event.connection_id()).ok();
    }

    fn handle_checkout(&self, event: CheckoutEvent) {
        println!(self.rt; "{} was lent", event.connection_id()).ok();
    }

    fn handle_timeout(&self, event: TimeoutEvent) {
        println!(self.rt; "nothing came for {:?}", event.timeout()).ok();
    }

    fn handle_checkin(&self, event: CheckinEvent) {
        println!(self.rt; "{} came back", event.connection_id()).ok();
    }
}

pub fn printed<R: PoolRuntime + Print>(rt: R) -> Result<(), anyhow::Error> {
    let printer = Printer { rt };
    let pool = Builder::new()
        .max_size(1)
        .event_handler(printer)
        .build(rt, Numbers)?;
    drop(pool.get()?);
    Ok(())
}
