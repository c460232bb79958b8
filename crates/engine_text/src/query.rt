// Truth values of a query (Docker Engine API v1.43, the boolean parameters).
ghost use Rattle.std.specs.Prelude.{◌≡◌};
ghost use Rattle.engine_text.specs.Texts.{same_letters};
ghost use Rattle.engine_text.specs.Query.{is_blank, without_first_blanks, without_last_blanks};
ghost use Rattle.engine_text.specs.Query.{is_false_word, query_bool};

/// Whether it is a space or a tab.
pub fn is_blank(c: u8) -> bool
    ensures { result ≡ is_blank c }
{
    c == b' ' || c == b'\t'
}

fn without_first_blanks(text: &[u8]) -> &[u8]
    ensures { result.now ≡ without_first_blanks text.now }
{
    let mut left = text;
    while let [first, rest @ ..] = left {
        if !is_blank(*first) {
            break;
        }
        left = rest;
    }
    left
}

fn without_last_blanks(text: &[u8]) -> &[u8]
    ensures { result.now ≡ without_last_blanks text.now }
{
    let mut left = text;
    while let [rest @ .., last] = left {
        if !is_blank(*last) {
            break;
        }
        left = rest;
    }
    left
}

/// Whether both are the same in any ASCII case.
pub fn same_letters(a: &[u8], b: &[u8]) -> bool
    ensures { result ≡ same_letters a.now b.now }
{
    a.eq_ignore_ascii_case(b)
}

fn is_false_word(text: &[u8]) -> bool
    ensures { result ≡ is_false_word text.now }
{
    same_letters(text, b"")
        || same_letters(text, b"0")
        || same_letters(text, b"no")
        || same_letters(text, b"false")
        || same_letters(text, b"none")
}

/// The truth value of a query's text: false exactly where the text, without blanks and tabs around
/// it and in any ASCII case, is empty, `0`, `no`, `false` or `none`.
pub fn query_bool(text: &str) -> bool
    ensures { result ≡ query_bool text.now }
{
    !is_false_word(without_last_blanks(without_first_blanks(text.as_bytes())))
}
