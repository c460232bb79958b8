// Whether keys rise in byte order.
ghost use Rattle.std.specs.Prelude.{◌≡◌, map};
ghost use Rattle.std.specs.Ordering.{nat_cmp, is_lt};
ghost use Rattle.std.specs.Cmp.Lexicographic.{slice_cmp};
ghost use Rattle.engine_text.specs.Filter.{filter_word};
ghost use Rattle.engine_text.specs.Soundness as spec;
ghost use Rattle.journal_lines.specs.Rising.{rises_first};

use api_json::filter_word;
use engine_text::{FilterRow, Pair};

// Whether a text is below another in byte order.
fn is_below(a: &str, b: &str) -> bool
    ensures { result ≡ is_lt (slice_cmp nat_cmp a.now b.now) }
{
    a < b
}

// Whether the first two keys of labels rise.
fn labels_rise_first(pairs: &[Pair]) -> bool
    ensures { result ≡ rises_first (map (λ p. p.key) pairs.now) }
{
    let [first, more @ ..] = pairs else {
        return true;
    };
    let [second, ..] = more else {
        return true;
    };
    is_below(first.key.as_str(), second.key.as_str())
}

/// Whether the keys of labels rise.
pub fn are_labels(pairs: &[Pair]) -> bool
    ensures { result ≡ spec.are_labels pairs.now }
{
    let mut rest = pairs;
    'pairs: while let [_, more @ ..] = rest {
        if !labels_rise_first(rest) {
            return false;
        }
        rest = more;
    }
    true
}

// Whether the first two keys of a filter's rows rise.
fn rows_rise_first(rows: &[FilterRow]) -> bool
    ensures { result ≡ rises_first (map (λ r. filter_word r.key) rows.now) }
{
    let [first, more @ ..] = rows else {
        return true;
    };
    let [second, ..] = more else {
        return true;
    };
    is_below(filter_word(first.key), filter_word(second.key))
}

/// Whether the keys of a filter's rows rise.
pub fn do_rows_rise(rows: &[FilterRow]) -> bool
    ensures { result ≡ spec.are_rising (map (λ r. filter_word r.key) rows.now) }
{
    let mut rest = rows;
    'rows: while let [_, more @ ..] = rest {
        if !rows_rise_first(rest) {
            return false;
        }
        rest = more;
    }
    true
}
