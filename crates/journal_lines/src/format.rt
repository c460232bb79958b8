// The two formats of a journal (own).
ghost use Rattle.std.specs.Prelude.{◌≡◌};
ghost use Rattle.journal_lines.specs.JournalLines as spec;

/// Format 1 has no header, and leaves out the keys of a create that say nothing; format 2 begins
/// with a header, and leaves out none.
#[derive(Clone, Copy, Drop)]
pub enum Format {
    First,
    Second,
}

/// The format of a number, 1 or 2.
pub fn format_of(number: u8) -> Format
    ensures { result ≡ spec.format_of number }
{
    if number == 1 {
        Format::First
    } else {
        Format::Second
    }
}
