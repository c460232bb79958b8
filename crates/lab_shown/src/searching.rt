// Where a text stands in another.
ghost use Rattle.std.specs.Prelude.{◌≡◌, ◌≤◌, ◌+◌, ◌==◌, length, IfSome};
ghost use Rattle.std.specs.List.{position, position_or_len};
ghost use Rattle.lab_shown.specs.Shown as spec;

/// Where the first brace stands.
fn brace_of(piece: &[u8]) -> Option<usize>
    ensures { result ≡ position (λ b. b == 123) piece.now }
{
    piece.iter().position(|byte| *byte == b'{')
}

/// Where the first bracket stands.
fn bracket_of(piece: &[u8]) -> Option<usize>
    ensures { result ≡ position (λ b. b == 91) piece.now }
{
    piece.iter().position(|byte| *byte == b'[')
}

/// Where the first bracket stands, or how many bytes there are.
pub(crate) fn bracket_in(piece: &[u8]) -> usize
    ensures place { result ≡ position_or_len (λ b. b == 91) piece.now }
    ensures within { result ≤ length piece.now }
{
    match bracket_of(piece) {
        Some(place) => place,
        None => piece.len(),
    }
}

/// Where the first brace stands, or how many bytes there are.
pub(crate) fn brace_in(piece: &[u8]) -> usize
    ensures place { result ≡ position_or_len (λ b. b == 123) piece.now }
    ensures within { result ≤ length piece.now }
{
    match brace_of(piece) {
        Some(place) => place,
        None => piece.len(),
    }
}

/// Where a text first stands in another.
pub(crate) fn place_in(text: &[u8], body: &[u8]) -> Option<usize>
    ensures place { result ≡ spec.place_in text.now body.now }
    ensures within { IfSome result (λ k. k + length text.now ≤ length body.now) }
{
    let mut left = body;
    let mut place = 0;
    'bytes: while let [_, rest @ ..] = left {
        if left.starts_with(text) {
            return Some(place);
        }
        left = rest;
        place += 1;
    }
    None
}
