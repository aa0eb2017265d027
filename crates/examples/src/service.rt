// A service that writes what its pool did into its log, as a line of JSON from time to time, and an
// audit of that log.

use crate::Numbers;
use pool_metrics::{CountingErrorHandler, Metrics, report_of};
use pool_reports::{audit, from_json};
use r2d2::{Builder, NopConnectionCustomizer, NopErrorHandler, Pool, PoolRuntime};

type Watched<R> = Pool<
    Numbers,
    CountingErrorHandler<NopErrorHandler, R>,
    Metrics<R>,
    NopConnectionCustomizer,
    R,
>;

pub fn audited<R: PoolRuntime + Print>(rt: R) -> Result<(), anyhow::Error> {
    let log = serve(rt)?;
    for line in log.as_str().lines() {
        judge(&rt, line)?;
    }
    // Somebody has changed the first id of the log.
    if let Some((front, back)) = log.as_str().split_once(r#""id":0"#) {
        let changed = format!(in rt.alloc(); r#"{front}"id":5{back}"#)?;
        let first = changed.as_str().lines().next().unwrap_or("");
        judge(&rt, first)?;
    }
    Ok(())
}

// Answers thirty requests, and gives the log.
fn serve<R: PoolRuntime>(rt: R) -> Result<String, anyhow::Error> {
    let mut log = String::new(rt.alloc());
    let metrics = Metrics::new(rt, 1)?;
    let pool = Builder::new()
        .max_size(1)
        .journal_room(32)
        .error_handler(metrics.around(NopErrorHandler)?)
        .event_handler(metrics.try_clone()?)
        .build(rt, Numbers)?;
    for request in 1u32..31 {
        answer(&pool)?;
        if request % 10 == 0 {
            write_report(&rt, &pool, &metrics, &mut log)?;
        }
    }
    Ok(log)
}

// What a request is for. The connection goes back to the pool at the end.
fn answer<R: PoolRuntime>(pool: &Watched<R>) -> Result<u32, anyhow::Error> {
    let connection = pool.get()?;
    Ok(*connection)
}

// Writes a line into the log: what stood, what happened since, what there is now, and what callers
// met.
fn write_report<R: PoolRuntime>(
    rt: &R,
    pool: &Watched<R>,
    metrics: &Metrics<R>,
    log: &mut String,
) -> Result<(), anyhow::Error> {
    let line = report_of(rt.alloc(), "numbers", pool, metrics)?;
    log.push_str(line.as_str())?;
    log.push('\n')?;
    Ok(())
}

// Says what there is to say of a line of the log, perhaps much later and elsewhere.
fn judge<R: Print + AllocGlobal>(rt: &R, line: &str) -> Result<(), anyhow::Error> {
    let alloc = rt.alloc();
    let report = from_json(alloc, line)?;
    let verdict = audit(alloc, &report)?;
    let (takes, lost) = (report.takes, report.lost);
    drop(report);
    println!(rt; "{takes} takes, {lost} records in the base: {verdict}")?;
    Ok(())
}
