//! A moment in an argument: nanoseconds since 1970, or a date and time of RFC 3339.
#![tactic(auto)]

ghost use Rattle.std.specs.Prelude.{◌≡◌};
ghost use Rattle.prep_moment.specs.Moment.{moment_of as moment_in, natural_of};

use audit_text::number;
use jiff::Timestamp;

/// An instant in nanoseconds since 1970, if it isn't earlier and fits 64 bits.
fn since_1970(instant: i128) -> Option<u64>
    ensures { result ≡ natural_of instant }
{
    u64::try_from(instant).ok()
}

/// The nanoseconds since 1970 of a moment: the text is the number of them, in decimal, or a date
/// and time with an offset (RFC 3339, section 5.6), as `2026-12-01T09:00:00.5Z`. `None` for another
/// text, or if the moment is before 1970 or after 2554.
pub fn moment_of(text: &str) -> Option<u64>
    ensures { result ≡ moment_in text.now }
{
    if let Ok(nanoseconds) = number(text.as_bytes(), u64::MAX) {
        return Some(nanoseconds);
    }
    let Ok(timestamp) = text.parse::<Timestamp>() else {
        return None;
    };
    since_1970(timestamp.as_nanosecond())
}
