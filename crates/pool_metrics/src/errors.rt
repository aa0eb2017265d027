// Errors, counted on their way to a handler.
ghost use Rattle.std.specs.Prelude.{◌≡◌};

use crate::recording::Metrics;
use r2d2::{HandleError, PoolRuntime};
use std::fmt;
use std::marker::Model;

/// A handler of errors that counts each for the metrics of its pool, which keep the text of the
/// latest one, and then passes it to the handler in it. `Metrics::around` makes it.
#[derive(Drop)]
pub struct CountingErrorHandler<H, R> {
    handler: H,
    metrics: Metrics<R>,
}

// Contracts see it as the handler in it.
impl<H, R> Model for CountingErrorHandler<H, R> {
    ghost Value = { H };

    ghost view = { λ counting. counting.handler };
}

impl<H, R> CountingErrorHandler<H, R> {
    /// This handler, with these metrics around it.
    pub(crate) fn new(handler: H, metrics: Metrics<R>) -> CountingErrorHandler<H, R>
        ensures { result ≡ handler }
    {
        CountingErrorHandler { handler, metrics }
    }
}

impl<E: fmt::Display, H: HandleError<E>, R: PoolRuntime> HandleError<E>
    for CountingErrorHandler<H, R> {
    fn handle_error(&self, error: E) {
        self.metrics.count_error(&error);
        self.handler.handle_error(error);
    }
}

impl<H: fmt::Debug, R> fmt::Debug for CountingErrorHandler<H, R> {
    fn fmt<W: fmt::Write>(&self, f: &mut fmt::Formatter<W>) -> fmt::Result {
        f.debug_struct("CountingErrorHandler")
            .field("handler", &self.handler)
            .finish()
    }
}
