//! The metrics of a pool: what it did, counted and timed as it happens, and printed as Prometheus
//! reads it, under the names that OpenTelemetry gives to the metrics of connection pools. It stands
//! over `r2d2`, and uses what a pool gives every event handler.
//!
//! ```rust
//! let metrics = Metrics::new(rt, max_size)?;
//! let pool = Builder::new()
//!     .max_size(max_size)
//!     .error_handler(metrics.around(NopErrorHandler)?)
//!     .event_handler(metrics.try_clone()?)
//!     .build(rt, Timed::new(Numbers, &metrics)?)?;
//! // ..
//! let reading = Reading {
//!     pool: "numbers",
//!     status: self.pool.status(),
//!     snapshot: self.metrics.snapshot(),
//! };
//! let mut page = String::new(alloc);
//! write(&[reading], &mut page)?;
//! ```
//!
//! [`Metrics`] is the handler of events, and what is read of it; its `around` makes a handler of
//! errors, of which its `latest_error` gives the latest, and its `lent_longer_than` lists the
//! connections that somebody forgot to give back.
//! [`Timed`] round a manager times its openings too.
#![tactic(auto)]

mod buckets;
mod closings;
mod errors;
mod heard;
mod histogram;
mod loans;
mod recording;
mod report;
mod text;
mod timed;

pub use buckets::{BOUNDS, BUCKETS, OwnBounds, Scale, Scales, bucket_of};
pub use closings::Closings;
pub use errors::CountingErrorHandler;
pub use heard::LatestError;
pub use histogram::{Bucket, Distribution, UpTo};
pub use loans::LongLoan;
pub use pool_reports::Waits;
pub use recording::{Metrics, Snapshot};
pub use report::{report_of, status_of};
pub use text::{Reading, write};
pub use timed::Timed;
