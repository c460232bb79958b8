// The path of a target, behind its version.
ghost use Rattle.std.specs.Prelude.{◌≡◌, ◌<◌, ◌==◌, option_map};
ghost use Rattle.std.specs.List.{before_first, after_first};
ghost use Rattle.lab_front.specs.Queries.{is_between};
ghost use Rattle.lab_front.specs.Rows as spec;

/// What stands before the first such character, and behind it.
pub fn cut_at(text: &str, mark: char) -> (&str, &str)
    requires { mark < 128 }
    ensures front { result.0.now ≡ before_first (λ b. b == mark) text.now }
    ensures back { result.1.now ≡ after_first (λ b. b == mark) text.now }
{
    match text.split_once(mark) {
        Some(parts) => parts,
        None => (text, ""),
    }
}

pub(crate) fn is_between(low: u8, high: u8, byte: u8) -> bool
    ensures { result ≡ is_between low high byte }
{
    low <= byte && byte <= high
}

/// Whether two digits write a number from 24 to 43.
fn is_served(tens: u8, ones: u8) -> bool
    ensures { result ≡ spec.is_served tens ones }
{
    tens == b'2' && is_between(b'4', b'9', ones)
        || tens == b'3' && is_between(b'0', b'9', ones)
        || tens == b'4' && is_between(b'0', b'3', ones)
}

/// Whether a segment is a version that is served.
fn is_version(segment: &[u8]) -> bool
    ensures { result ≡ spec.is_version segment.now }
{
    match segment {
        [v, one, dot, tens, ones] => {
            *v == b'v' && *one == b'1' && *dot == b'.' && is_served(*tens, *ones)
        }
        _ => false,
    }
}

/// The path without its first slash.
fn after_slash(path: &str) -> Option<&str>
    ensures { option_map (λ p. p.now) result ≡ spec.after_slash path.now }
{
    path.strip_prefix('/')
}

/// The path without its version.
fn behind_version(path: &str) -> &str
    ensures { result.now ≡ spec.behind_version path.now }
{
    let (segment, rest) = cut_at(path, '/');
    if is_version(segment.as_bytes()) {
        rest
    } else {
        path
    }
}

/// The path without its first slash and its version.
pub fn path_of(target: &str) -> Option<&str>
    ensures { option_map (λ p. p.now) result ≡ spec.path_of target.now }
{
    let (path, _) = cut_at(target, '?');
    match after_slash(path) {
        Some(path) => Some(behind_version(path)),
        None => None,
    }
}
