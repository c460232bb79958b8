// The texts of moments (RFC 3339, section 5.6).
ghost use Rattle.std.specs.Prelude.{◌≡◌, take, IsUtf8};
ghost use Rattle.engine_text.specs.Moment.{moment_text, IsMoment, IsMomentText, text_len, OneText};

use jiff::Timestamp;
use jiff::fmt::temporal::DateTimePrinter;

#[tactic(auto, unfolding(crate::specs::Moment::moment_text))]
/// The text of a moment in milliseconds since 1970, and how many bytes it has: only so many count.
/// A moment has 30 bytes, as `2023-11-14T22:13:20.700000000Z`; None has 20, `0001-01-01T00:00:00Z`.
pub fn moment_text(moment: Option<u64>) -> ([u8; 30], usize)
    requires { IsMoment moment }
    ensures text { take result.1 result.0 ≡ moment_text moment }
    ensures shown { IsMomentText moment (take result.1 result.0) }
    ensures utf8 { IsUtf8 (take result.1 result.0) }
    ensures len { result.1 ≡ text_len moment }
{
    let mut bytes = [0u8; 30];
    let Some(ms) = moment else {
        bytes[..20].copy_from_slice(b"0001-01-01T00:00:00Z");
        return (bytes, 20);
    };
    let Ok(instant) = Timestamp::from_millisecond(ms as i64) else {
        return (bytes, 0);
    };
    let printer = DateTimePrinter::new().precision(Some(9));
    let text = printer.timestamp_text(instant.to_plain());
    bytes.copy_from_slice(text.as_str().as_bytes());
    (bytes, 30)
}

/// A law: what a calendar and a clock show at a moment is one text, and `date_time_text` gives it.
pub fn law_one_text()
    ensures { OneText }
{}
