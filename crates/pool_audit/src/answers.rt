// What a report says of the time that it covers, in words.

use crate::moments::{Seconds, Time};
use pool_reports::Loan;
use std::alloc::AllocError;
use std::time::Duration;

// So many of those that are lent at the end are named.
const MOST_NAMED: usize = 20;

impl Time<'_> {
    /// Adds the answers, a line each, indented by two spaces. With the time of the creation they
    /// say the wall clock too.
    pub(crate) fn add_answers(&self, text: &mut String) -> Result<(), AllocError> {
        let summary = self.summary;
        let (covers, from) = (Seconds(summary.covers()), self.moment(summary.from));
        let end = match self.origin.reported_at {
            Some(_) => "the report",
            None => "the last record",
        };
        writeln!(text, "  covers {covers}, from {from:#} to {end}")?;
        self.add_counts(text)?;
        self.add_callers(text)?;
        self.add_lent(text)
    }

    fn add_counts(&self, text: &mut String) -> Result<(), AllocError> {
        let summary = self.summary;
        let (opened, closed, reaped) = (summary.opened, summary.closed, summary.reaped);
        writeln!(
            text,
            "  {opened} opened, {closed} closed at return, {reaped} closed while idle"
        )?;
        let (most, all) = (summary.most_lent, summary.max_size);
        let exhausted = Seconds(summary.exhausted);
        write!(
            text,
            "  at most {most} of {all} lent at once; all of them lent or opening for {exhausted}"
        )?;
        if let Some(part) = percent(summary.exhausted, summary.covers()) {
            write!(text, ", {part} % of the time")?;
        }
        text.push('\n')
    }

    // What callers met, since the creation, if that is known.
    fn add_callers(&self, text: &mut String) -> Result<(), AllocError> {
        let Some(status) = self.summary.status else {
            return Ok(());
        };
        let (waiting, timeouts, refused) = (status.waiting, status.timeouts, status.refused);
        let (openings, checks) = (status.failed_openings, status.failed_checks);
        writeln!(
            text,
            "  {waiting} callers wait; since the creation {timeouts} timed out, {refused} were \
            refused, {openings} openings and {checks} checks failed"
        )?;
        let Some(failure) = status.latest_failure else {
            return Ok(());
        };
        write!(text, "  the latest failure at {:#}", self.moment(failure))?;
        if let Some(error) = self.origin.latest_error {
            write!(text, "; the latest error {error:?}")?;
        }
        text.push('\n')
    }

    fn add_lent(&self, text: &mut String) -> Result<(), AllocError> {
        let lent = self.summary.lent.as_slice();
        for loan in lent.iter().take(MOST_NAMED) {
            self.add_loan(text, loan)?;
        }
        match lent.len().saturating_sub(MOST_NAMED) {
            0 => Ok(()),
            more => writeln!(text, "  lent at the end: {more} more"),
        }
    }

    fn add_loan(&self, text: &mut String, loan: &Loan) -> Result<(), AllocError> {
        write!(text, "  lent at the end: connection {}, ", loan.id)?;
        let Some(since) = loan.since else {
            return text.push_str("since before the base\n");
        };
        let length = Seconds(self.summary.until.saturating_sub(since));
        writeln!(text, "for {length}, since {:#}", self.moment(since))
    }
}

// How many hundredths a part is, if the whole is something.
fn percent(part: Duration, whole: Duration) -> Option<u128> {
    part.as_nanos()
        .saturating_mul(100)
        .checked_div(whole.as_nanos())
}
