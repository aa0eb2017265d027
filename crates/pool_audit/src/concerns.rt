// What of a pool somebody has to look at, in words: what it is, from what on it is a concern, and
// what to do next.

use crate::moments::{Length, Moment, Time};
use pool_reports::{Concern, Loan, State, Waits};
use serde::Serialize;
use std::alloc::{AllocError, Global};
use std::time::Duration;

/// A concern in words.
#[derive(Drop, Serialize)]
pub(crate) struct Told {
    // Its name, for programs.
    kind: &'static str,
    says: String,
    next: &'static str,
}

impl Told {
    fn of(kind: &'static str, says: String, next: &'static str) -> Told {
        Told { kind, says, next }
    }
}

impl Time<'_> {
    /// Adds the concerns, each in two lines that are indented, or the line of a pool without any.
    pub(crate) fn add_concerns(&self, alloc: Global, text: &mut String) -> Result<(), AllocError> {
        let concerns = self.concerns(alloc)?;
        if concerns.is_empty() {
            return self.add_calm(alloc, text);
        }
        for told in &concerns {
            let (says, next) = (told.says.as_str(), told.next);
            write!(text, "  ! {says}\n    {next}\n")?;
        }
        Ok(())
    }

    fn add_calm(&self, alloc: Global, text: &mut String) -> Result<(), AllocError> {
        let (since, least) = (self.since(alloc)?, self.least());
        match self.summary.state() {
            State::Unknown => text.push_str(
                "  nothing stands out, but the report does not say whether callers failed: \
                it has no status\n",
            ),
            State::Well | State::Concerned => writeln!(
                text,
                "  all well: nobody timed out or was refused {since}; nothing was lent, opening or \
                exhausted for as long as {least}"
            ),
        }
    }

    /// The concerns, the likely cause before what comes of it.
    pub(crate) fn concerns(&self, alloc: Global) -> Result<Vec<Told>, AllocError> {
        let mut told = Vec::new(alloc);
        for concern in self.summary.concerns().iter().flatten() {
            told.push(self.told(alloc, *concern)?)?;
        }
        Ok(told)
    }

    fn told(&self, alloc: Global, concern: Concern) -> Result<Told, AllocError> {
        match concern {
            Concern::NothingOpens { since } => self.nothing_opens(alloc, since),
            Concern::OpeningsFail { failed, opened } => self.openings_fail(alloc, failed, opened),
            Concern::ChecksFail { failed, takes } => self.checks_fail(alloc, failed, takes),
            Concern::Churn { closed, returned } => self.churn(alloc, closed, returned),
            Concern::LentForLong { count, longest } => self.lent_for_long(alloc, count, longest),
            Concern::Exhausted { since } => self.exhausted(alloc, since),
            Concern::WasExhausted { longest } => self.was_exhausted(alloc, longest),
            Concern::OftenExhausted { exhausted } => self.often_exhausted(alloc, exhausted),
            Concern::TimedOut { count, calls } => self.timed_out(alloc, count, calls),
            Concern::Refused { count, calls } => self.refused(alloc, count, calls),
            Concern::WaitedLong { waits } => waited_long(alloc, waits),
        }
    }

    fn nothing_opens(&self, alloc: Global, since: Duration) -> Result<Told, AllocError> {
        let ((length, when), least) = (self.lasting(since), self.least());
        let (opening, error) = (self.summary.pending, self.latest_error(alloc)?);
        let says = format!(in alloc;
            "no opening succeeded for {length}, since {when}: {opening} pending{error} \
            (a concern from {least} on)"
        )?;
        let next = "see whether the server is up, can be reached, and takes another connection";
        Ok(Told::of("nothing_opens", says, next))
    }

    fn openings_fail(&self, alloc: Global, failed: u64, opened: u64) -> Result<Told, AllocError> {
        let (since, error) = (self.since(alloc)?, self.latest_error(alloc)?);
        let says = format!(in alloc;
            "{failed} openings failed {since}, and {opened} succeeded{error} \
            (a concern if 1 in 10 fails)"
        )?;
        let next = "see the server's log, and how many connections it allows";
        Ok(Told::of("openings_fail", says, next))
    }

    fn checks_fail(&self, alloc: Global, failed: u64, takes: u64) -> Result<Told, AllocError> {
        let since = self.since(alloc)?;
        let says = format!(in alloc;
            "{failed} checks failed {since}, at {takes} takes (a concern from 1 in 100 on)"
        )?;
        let next = "see what ends idle connections (the server, a proxy), and set idle_timeout and \
            max_lifetime below that";
        Ok(Told::of("checks_fail", says, next))
    }

    fn churn(&self, alloc: Global, closed: u64, returned: u64) -> Result<Told, AllocError> {
        let opened = self.summary.opened;
        let says = format!(in alloc;
            "{closed} of {returned} that came back were closed before their time, and \
            {opened} opened (a concern from 1 in 20 on)"
        )?;
        let next =
            "see why connections break while callers have them, or who evicts or detaches them";
        Ok(Told::of("churn", says, next))
    }

    fn lent_for_long(
        &self,
        alloc: Global,
        count: usize,
        longest: Loan,
    ) -> Result<Told, AllocError> {
        let (least, id) = (self.least(), longest.id);
        let length = match longest.since.map(|since| self.lasting(since)) {
            Some((length, when)) => format!(in alloc; "{length}, since {when}")?,
            None => format!(in alloc; "more than {}", Length(self.summary.covers()))?,
        };
        let says = format!(in alloc;
            "{count} lent for at least {least}: connection {id} for {length}"
        )?;
        let next = "look for a caller that keeps its connection; give what callers do a timeout";
        Ok(Told::of("lent_for_long", says, next))
    }

    fn exhausted(&self, alloc: Global, since: Duration) -> Result<Told, AllocError> {
        let ((length, when), least) = (self.lasting(since), self.least());
        let (lent, opening) = (self.summary.lent.len(), self.summary.pending);
        let all = self.summary.max_size;
        let says = format!(in alloc;
            "exhausted for {length}, since {when}: {lent} of {all} lent, {opening} opening \
            (a concern from {least} on)"
        )?;
        let next = "see who has the connections for so long; if all are short, raise max_size";
        Ok(Told::of("exhausted", says, next))
    }

    fn was_exhausted(&self, alloc: Global, longest: Duration) -> Result<Told, AllocError> {
        let (length, least) = (Length(longest), self.least());
        let says = format!(in alloc;
            "was exhausted for {length} at a stretch (a concern from {least} on)"
        )?;
        let next = "see what ran then; if it comes again, raise max_size or limit who calls";
        Ok(Told::of("was_exhausted", says, next))
    }

    fn often_exhausted(&self, alloc: Global, exhausted: Duration) -> Result<Told, AllocError> {
        let (length, covers) = (Length(exhausted), Length(self.summary.covers()));
        let says = format!(in alloc;
            "exhausted for {length} of {covers} (a concern from half of the time on)"
        )?;
        let next = "shorten what callers do with a connection, or raise max_size";
        Ok(Told::of("often_exhausted", says, next))
    }

    fn timed_out(&self, alloc: Global, count: u64, calls: u64) -> Result<Told, AllocError> {
        let since = self.since(alloc)?;
        let says = format!(in alloc;
            "{count} of {calls} calls timed out {since} (a concern from 1 on)"
        )?;
        let next = "mend what stands above first; if nothing does, callers are more than max_size \
            serves";
        Ok(Told::of("timeouts", says, next))
    }

    fn refused(&self, alloc: Global, count: u64, calls: u64) -> Result<Told, AllocError> {
        let since = self.since(alloc)?;
        let says = format!(in alloc;
            "{count} of {calls} calls were refused {since}, since as many waited as may \
            (a concern from 1 on)"
        )?;
        let next =
            "mend what stands above first; else raise max_size, or send callers elsewhere sooner";
        Ok(Told::of("refused", says, next))
    }

    // From what on something lasts too long.
    fn least(&self) -> Length {
        Length(self.summary.too_long())
    }

    // How long something lasts that is so at the end, and since when.
    fn lasting(&self, since: Duration) -> (Length, Moment) {
        let length = Length(self.summary.until.saturating_sub(since));
        (length, self.moment(since))
    }

    // Since when the calls are counted.
    fn since(&self, alloc: Global) -> Result<String, AllocError> {
        match self.summary.calls {
            Some(calls) if !calls.since.is_zero() => {
                format!(in alloc; "since {}", self.moment(calls.since))
            }
            _ => String::from_str(alloc, "since the pool was created"),
        }
    }

    // What follows a count of openings.
    fn latest_error(&self, alloc: Global) -> Result<String, AllocError> {
        match self.origin.latest_error {
            Some(error) => format!(in alloc; ", the latest with {error:?}"),
            None => Ok(String::new(alloc)),
        }
    }
}

fn waited_long(alloc: Global, waits: Waits) -> Result<Told, AllocError> {
    let (longer, all, bound) = (waits.longer, waits.all, Length(waits.bound));
    let says = format!(in alloc;
        "{longer} of {all} callers waited longer than {bound} for a connection \
        (a concern from 1 in 100 on)"
    )?;
    let next =
        "shorten what callers do with a connection, or raise max_size, before calls time out";
    Ok(Told::of("long_waits", says, next))
}
