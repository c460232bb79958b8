// The fields of a head, by name.
ghost use Rattle.std.specs.Prelude.{◌≡◌, ◌<◌, ◌≤◌, ◌+◌, List, ℕ, [], ◌∷◌, ◌++◌, length, map, take, All};
ghost use Rattle.httparse.specs.Spans.{IsHeaderWithin, header_bytes};
ghost use Rattle.http_edge.specs.Message.{values_named};
ghost use Rattle.http_edge.specs.Fields.{Counts};

use httparse::spans::HeaderSpan;

/// How often a field stands in a head, and its value where that is once.
#[derive(Clone, Copy)]
pub(crate) enum Occurrences<'b> {
    None,
    One(&'b [u8]),
    Many,
}

impl<'b> Occurrences<'b> {
    /// With one value more.
    fn with(self, value: &'b [u8]) -> Occurrences<'b>
        ensures { (values : List (List ℕ)) → Counts self.entry values
            → Counts result (values ++ value.now ∷ []) }
    {
        match self {
            Occurrences::None => Occurrences::One(value),
            _ => Occurrences::Many,
        }
    }
}

/// Looks for the fields of this name, in any case of letters.
pub(crate) fn find_named<'b>(bytes: &'b [u8], fields: &[HeaderSpan], name: &[u8]) -> Occurrences<'b>
    requires { All (IsHeaderWithin (length bytes.now)) fields.now }
    ensures { Counts result (values_named name.now (map (header_bytes bytes.now) fields.now)) }
{
    let mut found = Occurrences::None;
    for field in fields {
        if field.name.of(bytes).eq_ignore_ascii_case(name) {
            found = found.with(field.value.of(bytes));
        }
    }
    found
}
