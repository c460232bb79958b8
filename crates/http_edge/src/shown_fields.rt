// The fields of a request, one after the other.
ghost use Rattle.std.specs.Prelude.{◌≡◌, List, length, map, All};
ghost use Rattle.std.specs.Iterator.{item_count};
ghost use Rattle.httparse.specs.Spans.{IsHeaderWithin, header_bytes};
ghost use Rattle.http_edge.specs.Message.{Header};
ghost use Rattle.http_edge.specs.Given.{GivesField};

use httparse::spans::HeaderSpan;
use std::marker::Model;

/// The fields of a request, in order: the name and the value of each.
#[derive(Drop)]
pub struct Fields<'r> {
    bytes: &'r [u8],
    spans: &'r [HeaderSpan],
}

impl<'r> Model for Fields<'r> {
    ghost Value = { List Header };

    ghost view = { λ f. map (header_bytes f.bytes.now) f.spans.now };

    ghost invariant = { λ f. All (IsHeaderWithin (length f.bytes.now)) f.spans.now };
}

impl<'r> Fields<'r> {
    /// The fields that these spans of the bytes are.
    pub(crate) fn new(bytes: &'r [u8], spans: &'r [HeaderSpan]) -> Fields<'r>
        requires { All (IsHeaderWithin (length bytes.now)) spans.now }
        ensures { result ≡ map (header_bytes bytes.now) spans.now }
    {
        Fields { bytes, spans }
    }
}

impl<'r> Iterator for Fields<'r> {
    type Item = (&'r [u8], &'r [u8]);

    ghost next_gives = { GivesField (λ item. (item.0.now, item.1.now)) };

    ghost remaining = { item_count (λ left. left) };

    fn next(&mut self) -> Option<(&'r [u8], &'r [u8])> {
        let bytes = self.bytes;
        match self.spans {
            [] => None,
            [first, rest @ ..] => {
                self.spans = rest;
                Some((first.name.of(bytes), first.value.of(bytes)))
            }
        }
    }
}
