// How many records there are of a kind.
ghost use Rattle.std.specs.Prelude.{◌≡◌, map};
ghost use Rattle.r2d2_core.specs.Records.{seen_record, is_take, takes_in};
ghost use Rattle.pool_reports.specs.Summaries.{is_admission, is_closing, opened_in, closed_in};

use r2d2_core::Record;

/// How many takes the records have.
pub(crate) fn takes(records: &[Record]) -> u64
    ensures { result ≡ takes_in (map seen_record records.now) }
{
    records.iter().filter(|noted| is_take(noted)).count() as u64
}

/// How many connections came in.
pub(crate) fn opened(records: &[Record]) -> u64
    ensures { result ≡ opened_in (map seen_record records.now) }
{
    records.iter().filter(|noted| is_admission(noted)).count() as u64
}

/// How many lent ones went.
pub(crate) fn closed(records: &[Record]) -> u64
    ensures { result ≡ closed_in (map seen_record records.now) }
{
    records.iter().filter(|noted| is_closing(noted)).count() as u64
}

fn is_take(noted: &Record) -> bool
    ensures { result ≡ is_take (seen_record noted.now) }
{
    matches!(noted, Record::Taken { .. })
}

fn is_admission(noted: &Record) -> bool
    ensures { result ≡ is_admission (seen_record noted.now) }
{
    matches!(noted, Record::Admitted { .. })
}

fn is_closing(noted: &Record) -> bool
    ensures { result ≡ is_closing (seen_record noted.now) }
{
    matches!(noted, Record::Closed { .. })
}
