//! A service of tasks, all of them on one thread: requests that stand in line for a connection,
//! metrics, and an end that waits for what is still lent.
#![tactic(auto)]

ghost use Rattle.std.specs.Prelude.{IfSome};

use anyhow::ensure;
use futures::channel::mpsc::{Receiver, Sender, channel};
use futures::executor::{EventLoop, TaskSet};
use futures::future::{Ready, join, ready};
use futures::task::{Context, Doorbell, Poll};
use futures::{Future, Stream};
use loop_timer::{LoopTimer, Nap, Ticks};
use pool_metrics::Metrics;
use r2d2::{NopConnectionCustomizer, NopErrorHandler, PoolRuntime};
use r2d2_async::{Builder, Drain, Get, Handlers, ManageConnection, Pool, PooledConnection, Timer};
use std::alloc::AllocError;
use std::io;
use std::random::RandomSource;
use std::time::{Duration, Instant};

/// How many requests there are.
const REQUESTS: u32 = 20;

/// Opens connections that are numbers.
#[derive(Drop)]
struct Numbers;

impl ManageConnection for Numbers {
    type Connection = u32;

    type Error = AllocError;

    type Extension = ();

    type Connect = Ready<Result<u32, AllocError>>;

    type Check = Ready<(u32, Result<(), AllocError>)>;

    fn connect(&self) -> Ready<Result<u32, AllocError>> {
        ready(Ok(7))
    }

    fn check(&self, connection: u32) -> Ready<(u32, Result<(), AllocError>)> {
        ready((connection, Ok(())))
    }

    fn has_broken(&self, _connection: &mut u32) -> bool {
        false
    }
}

type Hooks<R> = Handlers<NopErrorHandler, Metrics<R>, NopConnectionCustomizer>;

type TaskPool<R> = Pool<Numbers, LoopTimer<R>, Hooks<R>, R>;

type Call<R> = Get<Numbers, LoopTimer<R>, Hooks<R>, R>;

type Lent<R> = PooledConnection<Numbers, LoopTimer<R>, Hooks<R>, R>;

type Draining<R> = Drain<Numbers, LoopTimer<R>, Hooks<R>, R>;

/// A request: it waits for a connection, and works with it for a while.
#[derive(Drop)]
struct Request<R: PoolRuntime> {
    call: Option<Call<R>>,
    work: Option<(Lent<R>, Nap)>,
    timer: LoopTimer<R>,
    length: Duration,
    // Dropped with the request.
    _begun: Option<Sender<()>>,
}

impl<R: PoolRuntime> Future for Request<R> {
    type Output = ();

    ghost can_poll = { λ request. IfSome request.call ⟦<Call<R> as Future>⟧.can_poll };

    fn poll(&mut self, cx: &mut Context<'_>) -> Poll<()> {
        if let Some(mut call) = self.call.take() {
            match call.poll(cx) {
                Poll::Pending => {
                    self.call = Some(call);
                    return Poll::Pending;
                }
                Poll::Ready(Ok(lent)) => self.work = Some((lent, self.timer.sleep(self.length))),
                Poll::Ready(Err(_)) => return Poll::Ready(()),
            }
        }
        match self.work.take() {
            Some((lent, mut nap)) => match nap.poll(cx) {
                Poll::Pending => {
                    self.work = Some((lent, nap));
                    Poll::Pending
                }
                Poll::Ready(()) => Poll::Ready(()),
            },
            None => Poll::Ready(()),
        }
    }
}

/// The end of the service: once the short requests have ended, the pool closes, and what is still
/// lent is waited for.
#[derive(Drop)]
struct Closing<R: PoolRuntime> {
    others: Receiver<()>,
    pool: TaskPool<R>,
    drain: Option<Draining<R>>,
}

impl<R: PoolRuntime> Future for Closing<R> {
    /// Whether all came back.
    type Output = bool;

    ghost can_poll = { λ closing. IfSome closing.drain ⟦<Draining<R> as Future>⟧.can_poll };

    fn poll(&mut self, cx: &mut Context<'_>) -> Poll<bool> {
        if self.drain.is_none() {
            if self.others.poll_next(cx).is_pending() {
                return Poll::Pending;
            }
            self.drain = self.pool.drain(Duration::from_secs(60)).ok();
        }
        match self.drain.take() {
            Some(mut drain) => match drain.poll(cx) {
                Poll::Pending => {
                    self.drain = Some(drain);
                    Poll::Pending
                }
                Poll::Ready(drained) => Poll::Ready(drained.is_ok()),
            },
            None => Poll::Ready(false),
        }
    }
}

// Answers requests on this thread, and says what the metrics counted.
fn main(rt: HostRuntime) -> Result<(), anyhow::Error> {
    let metrics = Metrics::new(rt, 2)?;
    let came_back = serve(rt, metrics.try_clone()?)?;
    ensure!(came_back, "some connections did not come back");
    let counts = metrics.snapshot();
    println!(rt;
        "{} opened, {} lent, all came back",
        counts.opened,
        counts.waits.count()
    )?;
    Ok(())
}

// Runs until all requests were answered. Whether all connections came back.
fn serve<R: PoolRuntime + RandomSource>(rt: R, metrics: Metrics<R>) -> Result<bool, anyhow::Error> {
    let start = Instant::now(&rt)?;
    let mut event_loop = EventLoop::new(&rt, Doorbell::parking())?;
    let timer = LoopTimer::new(rt, event_loop.keys(), start)?;
    let builder = Builder::new().max_size(2).event_handler(metrics);
    let pool = Pool::build(builder, rt, Numbers, timer.try_clone()?)?;
    let requests = TaskSet::new(&rt, Doorbell::parking(), 1)?;
    let others = begin_all(rt, &pool, &timer, &requests)?;
    // The run ends once both have ended, and all requests.
    let both = join(
        pool.worker()?,
        Closing {
            others,
            pool,
            drain: None,
        },
    );
    let ((), came_back) = event_loop.block_on_with(
        &rt,
        &mut Ticks::of(start),
        &requests,
        both,
        None,
    )?;
    Ok(came_back)
}

// Begins a long request, and many short ones. The receiver ends with the last of these.
fn begin_all<R: PoolRuntime>(
    rt: R,
    pool: &TaskPool<R>,
    timer: &LoopTimer<R>,
    requests: &TaskSet<Request<R>>,
) -> Result<Receiver<()>, anyhow::Error> {
    begin(pool, timer, requests, Duration::from_millis(100), None)?;
    let (begun, others) = channel(rt.alloc(), 0)?;
    for _ in 0..REQUESTS {
        begin(
            pool,
            timer,
            requests,
            Duration::from_millis(1),
            Some(begun.clone()?),
        )?;
    }
    Ok(others)
}

fn begin<R: PoolRuntime>(
    pool: &TaskPool<R>,
    timer: &LoopTimer<R>,
    requests: &TaskSet<Request<R>>,
    length: Duration,
    begun: Option<Sender<()>>,
) -> Result<(), anyhow::Error> {
    let request = Request {
        call: Some(pool.get()?),
        work: None,
        timer: timer.try_clone()?,
        length,
        _begun: begun,
    };
    requests.spawn(request).map_err(io::Error::from)?;
    Ok(())
}
