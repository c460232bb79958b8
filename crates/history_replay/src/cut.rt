// The first line of a text (own: a line ends with its line end).
ghost use Rattle.std.specs.Prelude.{◌≡◌, ◌++◌, IfSome, IfNone};
ghost use Rattle.history_replay.specs.Cutting.{IsFirstLine, HasNoLineEnd};

/// The first line, with its line end, and what is left; none where there is no line end.
pub fn cut_line(text: &[u8]) -> Option<(&[u8], &[u8])>
    ensures line { IfSome result (λ p. IsFirstLine p.0.now) }
    ensures whole { IfSome result (λ p. p.0.now ++ p.1.now ≡ text.now) }
    ensures none { IfNone result (HasNoLineEnd text.now) }
{
    let place = text.iter().position(|byte| *byte == b'\n')?;
    Some(text.split_at(place + 1))
}
