// Times and durations as whole nanoseconds.
ghost use Rattle.std.specs.Prelude.{◌≡◌, ◌≤◌, ◌↔◌, IsSome, IfSome};
ghost use Rattle.std.specs.Duration.{as_nanos, max_nanos};

use serde::{
    Described, Deserialize, DeserializeOwned, Deserializer, Format, Kind, Serialize, Serializer,
};
use std::alloc::Global;
use std::time::Duration;

/// The nanoseconds of the greatest duration.
pub(crate) const MOST: u128 = 18_446_744_073_709_551_615_999_999_999;

// In digits they are no longer than this.
const MOST_DIGITS: usize = 29;

/// The duration of so many nanoseconds, if there is one so long.
pub(crate) fn of_number(nanoseconds: u128) -> Option<Duration>
    ensures there { IsSome result ↔ (nanoseconds ≤ max_nanos) }
    ensures value { IfSome result (λ length. as_nanos length ≡ nanoseconds) }
{
    if nanoseconds > MOST {
        return None;
    }
    Some(Duration::from_nanos_u128(nanoseconds))
}

/// The duration of the nanoseconds that a text says in digits and nothing else.
pub(crate) fn of_digits(text: &str) -> Option<Duration> {
    let are_digits = text.bytes().all(|byte| byte.is_ascii_digit());
    if !are_digits || text.len() > MOST_DIGITS {
        return None;
    }
    of_number(text.parse::<u128>().ok()?)
}

/// A time or a duration as it is written: as a number if it is below 2^64 nanoseconds,
/// which is more than 584 years, and else as a text of digits, since a JSON number above that is
/// read as a float.
#[derive(Clone, Copy)]
pub(crate) struct Nanoseconds(pub(crate) Duration);

impl Described for Nanoseconds {}

impl Serialize for Nanoseconds {
    fn serialize<S: Serializer>(&self, out: &mut S) -> Result<(), S::Error> {
        let nanoseconds = self.0.as_nanos();
        match u64::try_from(nanoseconds) {
            Ok(number) => out.u64(number),
            Err(_) => out.collect_str(&nanoseconds),
        }
    }
}

impl DeserializeOwned for Nanoseconds {
    fn deserialize_owned<F: Format>(
        alloc: Global,
        from: &mut Deserializer<'_, '_, F>,
    ) -> Result<Nanoseconds, F::Error> {
        if from.peek()? != Kind::Str {
            return Ok(Nanoseconds(Duration::from_nanos(from.u64()?)));
        }
        let digits = from.string(alloc)?;
        of_digits(digits.as_str())
            .map(Nanoseconds)
            .ok_or(from.custom("not whole nanoseconds"))
    }
}

impl<'de> Deserialize<'de> for Nanoseconds {
    fn deserialize<F: Format>(
        alloc: Global,
        from: &mut Deserializer<'de, '_, F>,
    ) -> Result<Nanoseconds, F::Error> {
        DeserializeOwned::deserialize_owned(alloc, from)
    }
}

/// Writes a field in nanoseconds: `#[serde(with = "nanoseconds")]`.
pub(crate) fn serialize<S: Serializer>(length: &Duration, out: &mut S) -> Result<(), S::Error> {
    Nanoseconds(*length).serialize(out)
}

/// Reads such a field.
pub(crate) fn deserialize<F: Format>(
    alloc: Global,
    from: &mut Deserializer<'_, '_, F>,
) -> Result<Duration, F::Error> {
    Ok(Nanoseconds::deserialize_owned(alloc, from)?.0)
}

/// The same of a field that may be null: `#[serde(with = "nanoseconds::optional")]`.
pub(crate) mod optional {
    use super::Nanoseconds;
    use serde::{DeserializeOwned, Deserializer, Format, Serialize, Serializer};
    use std::alloc::Global;
    use std::time::Duration;

    pub(crate) fn serialize<S: Serializer>(
        length: &Option<Duration>,
        out: &mut S,
    ) -> Result<(), S::Error> {
        length.map(Nanoseconds).serialize(out)
    }

    pub(crate) fn deserialize<F: Format>(
        alloc: Global,
        from: &mut Deserializer<'_, '_, F>,
    ) -> Result<Option<Duration>, F::Error> {
        let length: Option<Nanoseconds> = Option::deserialize_owned(alloc, from)?;
        Ok(length.map(|length| length.0))
    }
}
