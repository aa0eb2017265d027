// A service that watches its pool: a page of metrics for Prometheus each second, the connections
// that somebody forgot to give back, new ones for a database that moved, and an end that waits for
// what is lent.
ghost use Rattle.std.specs.Prelude.{◌<◌};

use crate::Numbers;
use anyhow::{Context, ensure};
use pool_metrics::{CountingErrorHandler, Metrics, Reading, Timed, write};
use r2d2::{
    Builder, NopConnectionCustomizer, NopErrorHandler, Pool, PoolRuntime, PooledConnection,
};
use std::alloc::{AllocError, Global};
use std::rt::Env;
use std::thread::JoinHandle;
use std::time::Duration;
use std::{env, thread};

/// How many requests a thread answers each second.
const REQUESTS: u32 = 50;

type Counting<R> = CountingErrorHandler<NopErrorHandler, R>;

type Watched<R> = Pool<Timed<Numbers, R>, Counting<R>, Metrics<R>, NopConnectionCustomizer, R>;

type Lent<R> = PooledConnection<
    Timed<Numbers, R>,
    Counting<R>,
    Metrics<R>,
    NopConnectionCustomizer,
    R,
>;

/// What a thread of the service has: its own pool over the shared connections, and their metrics.
#[derive(Drop)]
pub struct App<R: PoolRuntime> {
    pool: Watched<R>,
    metrics: Metrics<R>,
    rt: R,
}

/// What the environment asks for.
#[derive(Clone, Copy)]
struct Settings {
    max_size: u32,
    threads: u32,
    seconds: u32,
}

impl Settings {
    fn of_environment<R: Env + Alloc<A = Global>>(rt: &R) -> Result<Settings, anyhow::Error> {
        Ok(Settings {
            max_size: number(rt, "POOL_MAX_SIZE", 4)?,
            threads: number(rt, "SERVICE_THREADS", 8)?,
            seconds: number(rt, "SERVICE_SECONDS", 1)?,
        })
    }
}

// The number that a variable of the environment says; without such a variable, the other one.
fn number<R: Env + Alloc<A = Global>>(
    rt: &R,
    name: &str,
    otherwise: u32,
) -> Result<u32, anyhow::Error> {
    match env::var(rt, name) {
        Ok(text) => text
            .as_str()
            .parse::<u32>()
            .context(format_args!("reading {name}")),
        Err(_) => Ok(otherwise),
    }
}

impl<R: PoolRuntime> App<R> {
    fn new(rt: R, max_size: u32) -> Result<App<R>, anyhow::Error>
        requires { 0 < max_size }
    {
        let metrics = Metrics::new(rt, max_size)?;
        let pool = Builder::new()
            .max_size(max_size)
            .error_handler(metrics.around(NopErrorHandler)?)
            .event_handler(metrics.try_clone()?)
            .build(rt, Timed::new(Numbers, &metrics)?)?;
        Ok(App { pool, metrics, rt })
    }

    fn try_clone(&self) -> Result<App<R>, anyhow::Error> {
        Ok(App {
            metrics: self.metrics.try_clone()?,
            pool: self.pool.try_clone()?,
            rt: self.rt,
        })
    }

    /// Answers requests, and says how many it could answer.
    pub fn answer(&self) -> u32 {
        let mut answered = 0u32;
        for _ in 0..REQUESTS {
            if self.answer_one().is_ok() {
                answered = answered.saturating_add(1);
            }
        }
        answered
    }

    // What a request is for. The connection goes back to the pool at the end.
    fn answer_one(&self) -> Result<u32, anyhow::Error> {
        let connection = self.pool.get()?;
        Ok(*connection)
    }

    // What Prometheus reads.
    fn page(&self, alloc: Global) -> Result<String, anyhow::Error> {
        let reading = Reading {
            pool: "numbers",
            status: self.pool.status(),
            snapshot: self.metrics.snapshot(),
        };
        let mut page = String::new(alloc);
        write(&[reading], &mut page)?;
        Ok(page)
    }
}

/// What a service prints.
#[derive(Clone, Copy, PartialEq)]
pub enum Prints {
    /// Each second the page that Prometheus reads.
    Pages,
    /// What a person looks for.
    Findings,
}

/// Serves for some seconds, as the environment says. `start` starts a thread that answers requests.
pub fn served<R, S>(rt: R, prints: Prints, start: S) -> Result<(), anyhow::Error>
where
    R: PoolRuntime + Print + Env,
    S: Fn(App<R>) -> Result<JoinHandle<u32>, anyhow::Error> + Drop,
    requires { S.IsAlwaysCallable start }
{
    let settings = Settings::of_environment(&rt)?;
    ensure!(settings.max_size > 1, "POOL_MAX_SIZE is below 2");
    let app = App::new(rt, settings.max_size)?;
    serve(&app, settings, prints, &start)
}

fn serve<R, S>(
    app: &App<R>,
    settings: Settings,
    prints: Prints,
    start: &S,
) -> Result<(), anyhow::Error>
where
    R: PoolRuntime + Print,
    S: Fn(App<R>) -> Result<JoinHandle<u32>, anyhow::Error>,
    requires { S.IsAlwaysCallable start.now }
{
    let forgotten = app.pool.get()?;
    for _ in 0..settings.seconds {
        let answered = answer_in_threads(app, settings.threads, start)?;
        thread::sleep(&app.rt, Duration::from_secs(1));
        app.print(prints, answered)?;
    }
    match prints {
        Prints::Pages => Ok(()),
        Prints::Findings => app.end(forgotten),
    }
}

impl<R: PoolRuntime + Print> App<R> {
    // Prints what there is to say after a second.
    fn print(&self, prints: Prints, answered: u32) -> Result<(), anyhow::Error> {
        let rt = self.rt;
        match prints {
            Prints::Pages => print!(rt; "{}", self.page(rt.alloc())?)?,
            Prints::Findings => println!(rt; "{answered} requests were answered")?,
        }
        Ok(())
    }

    // Finds the connection that somebody forgot, and closes the pool as the database moves.
    fn end(&self, forgotten: Lent<R>) -> Result<(), anyhow::Error> {
        self.tell_what_is_lent()?;
        // What is lent is closed as it comes back.
        println!(self.rt; "closed, since they were idle: {}", self.pool.evict()?)?;
        drop(forgotten);
        self.drain()
    }

    fn tell_what_is_lent(&self) -> Result<(), anyhow::Error> {
        let long = self.metrics.lent_longer_than(Duration::from_millis(500))?;
        println!(self.rt; "lent for more than half a second: {}", long.len())?;
        Ok(())
    }

    fn drain(&self) -> Result<(), anyhow::Error> {
        match self.pool.drain(Duration::from_secs(5)) {
            Ok(()) => println!(self.rt; "all came back")?,
            Err(status) => println!(self.rt; "{} did not come back", status.lent)?,
        }
        Ok(())
    }
}

// Answers requests in so many threads, and says how many in all.
fn answer_in_threads<R, S>(app: &App<R>, threads: u32, start: &S) -> Result<u32, anyhow::Error>
where
    R: PoolRuntime,
    S: Fn(App<R>) -> Result<JoinHandle<u32>, anyhow::Error>,
    requires { S.IsAlwaysCallable start.now }
{
    let mut callers = Vec::new(app.rt.alloc());
    for _ in 0..threads {
        callers.push(start(app.try_clone()?)?)?;
    }
    let mut answered = 0u32;
    for caller in callers {
        answered = answered.saturating_add(caller.join(&app.rt));
    }
    Ok(answered)
}
