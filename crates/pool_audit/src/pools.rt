// What was found of each pool so far.

use crate::judged::Judged;
use pool_reports::story::story_to_json;
use pool_reports::{Calls, Reading, Summary, Verdict, Written};
use serde_json::to_string;
use std::alloc::{AllocError, Global};
use std::time::SystemTime;

/// A pool of which there were reports.
#[derive(Drop)]
pub(crate) struct Pool {
    name: Option<String>,
    // When it was made, as its latest report says that replays.
    created_at: Option<SystemTime>,
    // What its callers had met up to its reports, since the creation, the oldest first: as far back
    // as later ones may ask.
    calls: Vec<Calls>,
    // What was found on each report, as objects of JSON with commas between, if a page is asked for.
    found: String,
    // The latest report, if it replays and a page is asked for.
    last: Option<Written>,
}

impl Pool {
    fn begun(alloc: Global, written: &Written) -> Result<Pool, AllocError> {
        Ok(Pool {
            name: written.name.clone()?,
            created_at: written.created_at,
            calls: Vec::new(alloc),
            found: String::new(alloc),
            last: None,
        })
    }

    /// What a report says of its time, if it replays. What its callers met counts from then on
    /// since this report.
    pub(crate) fn summary_of(
        &mut self,
        alloc: Global,
        written: &Written,
        verdict: Verdict,
        reading: &Reading,
    ) -> Result<Option<Summary>, AllocError> {
        if matches!(
            verdict,
            Verdict::Base(_) | Verdict::Record { .. } | Verdict::Counts(_)
        ) {
            return Ok(None);
        }
        let earlier = self.earlier(written);
        let origin = written.origin();
        let summary = reading.summary(alloc, &written.report, &origin, earlier.as_ref())?;
        self.created_at = written.created_at;
        if let Some(status) = &written.status {
            let calls = Calls::of(written.report.takes, status, summary.until);
            self.calls.push(calls)?;
        }
        Ok(Some(summary))
    }

    // What callers had met up to the latest report that ends where this one begins, or before,
    // since the creation. Later reports begin no earlier.
    fn earlier(&mut self, written: &Written) -> Option<Calls> {
        if !self.goes_on_in(written) {
            self.calls.clear();
        }
        let before = Calls::before(self.calls.as_slice(), written.report.base.at)?;
        self.calls
            .retain(|calls| before.until.as_nanos() <= calls.until.as_nanos());
        Some(before)
    }

    // Whether a report is a later one of the pool that was made when this one was. Of a pool
    // without a name and without that time nobody knows.
    fn goes_on_in(&self, written: &Written) -> bool {
        let is_known = self.name.is_some() || self.created_at.is_some();
        is_known && self.created_at == written.created_at
    }

    /// Notes what was found on a report, for the page, which draws the latest one if it replays.
    pub(crate) fn note(&mut self, judged: Judged, found: &str) -> Result<(), AllocError> {
        if !self.found.is_empty() {
            self.found.push(',')?;
        }
        self.found.push_str(found.trim_ascii_end())?;
        self.last = judged.summary.is_some().then_some(judged.written);
        Ok(())
    }

    fn add_to(&self, alloc: Global, text: &mut String) -> Result<(), AllocError> {
        let name = to_string(alloc, &self.name.as_deref()).map_err(|_| AllocError)?;
        let found = self.found.as_str();
        let last = match &self.last {
            Some(last) => story_to_json(alloc, &last.report, last.reported_at)?,
            None => String::from_str(alloc, "null")?,
        };
        write!(
            text,
            "{{\"name\":{name},\"reports\":[{found}],\"last\":{last}}}"
        )
    }
}

/// The pools of which there were reports, in the order of their first ones.
#[derive(Drop)]
pub(crate) struct Pools {
    pools: Vec<Pool>,
}

impl Pools {
    pub(crate) fn new(alloc: Global) -> Pools {
        Pools {
            pools: Vec::new(alloc),
        }
    }

    /// The pool of a report, which begins with its first one.
    pub(crate) fn pool_of(
        &mut self,
        alloc: Global,
        written: &Written,
    ) -> Result<&mut Pool, AllocError> {
        let name = written.name.as_deref();
        let mut pools = self.pools.iter();
        let place = match pools.position(|pool| pool.name.as_deref() == name) {
            Some(place) => place,
            None => {
                self.pools.push(Pool::begun(alloc, written)?)?;
                self.pools.len().saturating_sub(1)
            }
        };
        self.pools.get_mut(place).ok_or(AllocError)
    }

    /// All of it as an object of JSON, for the page: `pools`, a list of objects with `name`,
    /// `reports`, what was found on each, and `last`, the story of the latest one.
    pub(crate) fn page(&self, alloc: Global) -> Result<String, AllocError> {
        let mut text = String::from_str(alloc, "{\"pools\":[")?;
        for (place, pool) in self.pools.iter().enumerate() {
            text.push_str(if place == 0 { "" } else { "," })?;
            pool.add_to(alloc, &mut text)?;
        }
        text.push_str("]}\n")?;
        Ok(text)
    }
}
