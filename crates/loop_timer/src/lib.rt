//! The timer of an event loop of one thread, `EventLoop` of `futures`, for the pool `r2d2_async`:
//! the loop sleeps until the next of its timers is due.
#![tactic(auto)]

ghost use Rattle.std.specs.Prelude.{◌≡◌, IsSomeAnd};
ghost use Rattle.futures.specs.Task.EventLoop.Names.{key_source};

use futures::executor::{Events, Rest};
use futures::future::{Pending, pending};
use futures::task::{Context, Key, Keys, Poll};
use futures::{Future, ready};
use r2d2_async::Timer;
use std::alloc::AllocError;
use std::io;
use std::time::{Clock, Duration, Instant};

// A tick is a millisecond.
fn ticks_in(length: Duration) -> u64 {
    u64::try_from(length.as_millis()).unwrap_or(u64::MAX)
}

/// What the loop waits for: time, and nothing else. A run of it is given these.
#[derive(Drop)]
pub struct Ticks {
    start: Instant,
}

impl Ticks {
    /// Those since this moment, which is to be that of the loop's timers.
    pub fn of(start: Instant) -> Ticks {
        Ticks { start }
    }
}

impl<R: Clock> Events<R> for Ticks {
    fn look(&mut self, _rt: &R) -> io::Result<()> {
        Ok(())
    }

    fn wait(&mut self, rt: &R, rest: &Rest<'_>) -> io::Result<()> {
        let Some(tick) = rest.until() else {
            return Err(io::Error::other("each task waits for another"));
        };
        let passed = self.start.elapsed(rt)?;
        rt.sleep(Duration::from_millis(tick).saturating_sub(passed));
        Ok(())
    }

    fn dispatch(&mut self, rt: &R, _cx: &mut Context<'_>) -> io::Result<u64> {
        Ok(ticks_in(self.start.elapsed(rt)?))
    }
}

/// Makes sleeps of a loop, which end only while that runs.
#[derive(Drop)]
pub struct LoopTimer<R> {
    keys: Keys,
    start: Instant,
    rt: R,
}

impl<R: Clock + Copy> LoopTimer<R> {
    /// The timer of the loop that has these keys, and ticks since this moment. The error is lack of
    /// memory.
    pub fn new(rt: R, keys: &Keys, start: Instant) -> Result<LoopTimer<R>, AllocError> {
        let keys = keys.clone()?;
        Ok(LoopTimer { keys, start, rt })
    }

    /// Another one of the same loop. The error is lack of memory.
    pub fn try_clone(&self) -> Result<LoopTimer<R>, AllocError> {
        LoopTimer::new(self.rt, &self.keys, self.start)
    }
}

impl<R: Clock + Drop> Timer for LoopTimer<R> {
    type Sleep = Nap;

    fn sleep(&self, length: Duration) -> Nap {
        let passed = self.start.elapsed(&self.rt).unwrap_or(Duration::ZERO);
        Nap {
            key: self.keys.issue().ok(),
            // (The tick that it falls into has to be over.)
            end: ticks_in(passed.saturating_add(length)).saturating_add(1),
            never: pending(),
        }
    }
}

/// A sleep, which never ends without memory, or at another executor than its loop.
#[derive(Drop)]
pub struct Nap {
    key: Option<Key>,
    end: u64,
    never: Pending<()>,
}

impl Future for Nap {
    type Output = ();

    ghost needs = { λ nap s. IsSomeAnd nap.key (λ key. s ≡ key_source key) };

    fn poll(&mut self, cx: &mut Context<'_>) -> Poll<()> {
        if let Some(key) = &self.key {
            if ready!(cx.poll_at(key, self.end)).is_ok() {
                return Poll::Ready(());
            }
        }
        self.key = None;
        self.never.poll(cx)
    }
}
