// Times of the wall clock in fields of JSON, as in RFC 3339: `#[serde(with = "wall_clock")]`.

use jiff::Timestamp;
use serde::{Deserializer, Format, Serializer};
use std::alloc::Global;
use std::time::SystemTime;

pub(crate) fn serialize<S: Serializer>(
    moment: &Option<Timestamp>,
    out: &mut S,
) -> Result<(), S::Error> {
    match moment {
        Some(moment) => out.collect_str(moment),
        None => out.unit(),
    }
}

/// One before 1970 is none.
pub(crate) fn deserialize<F: Format>(
    alloc: Global,
    from: &mut Deserializer<'_, '_, F>,
) -> Result<Option<Timestamp>, F::Error> {
    let text = from.string(alloc)?;
    match text.as_str().parse::<Timestamp>() {
        Ok(moment) if SystemTime::try_from(moment).is_ok() => Ok(Some(moment)),
        _ => Err(from.custom("not a time of the wall clock")),
    }
}
