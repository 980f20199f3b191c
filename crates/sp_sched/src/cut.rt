// Texts cut at their first byte of a kind.
ghost use Rattle.std.specs.Prelude.{◌≡◌, ◌∷◌, [], MatchOption};
ghost use Rattle.sp_sched.specs.Reading.{parts, IsCut};

/// What stands before the first byte that is the mark, and what stands behind it; None where there is none.
pub(crate) fn cut(text: &[u8], mark: u8) -> Option<(&[u8], &[u8])>
    ensures { MatchOption result (parts mark text.now ≡ text.now ∷ [])
        (λ p. IsCut mark text.now p.0.now p.1.now) }
{
    let Some(at) = text.iter().position(|b| *b == mark) else {
        return None;
    };
    Some((&text[..at], &text[at + 1..]))
}
