//! The moment of a key's last write, as a date.
ghost use Rattle.std.specs.Prelude.{◌≡◌, ◌++◌, OnOk, MatchOption, [], codes};
ghost use Rattle.reg_export.specs.Moments.{IsUtcText, nanos_of};
ghost use Rattle.jiff_core.specs.Timestamp.{IsTimestampNanos};

use arrayvec::ArrayString;
use jiff_core::Timestamp;
use jiff_fmt::temporal::DateTimePrinter;

/// The moment 1970-01-01T00:00:00Z as a FILETIME.
const UNIX_EPOCH: i128 = 116_444_736_000_000_000;

/// The bytes of the longest text of a moment.
const LONGEST_TEXT: usize = 33;

/// The date and the time of a FILETIME in UTC, such as `2024-02-29T00:00:00.1234567Z`. None if it is past
/// 9999-12-30T22:00:00.9999999Z, the last moment that a `Timestamp` holds.
pub fn utc_text(time: u64) -> Option<ArrayString<LONGEST_TEXT>>
    ensures { MatchOption result (¬ IsTimestampNanos (nanos_of time))
        (λ text. IsTimestampNanos (nanos_of time) × IsUtcText time text.bytes) }
{
    match Timestamp::from_nanosecond((i128::from(time) - UNIX_EPOCH) * 100) {
        Ok(moment) => Some(
            DateTimePrinter::new()
                .precision(Some(7))
                .timestamp_text(moment),
        ),
        Err(_) => None,
    }
}
