// Marks of one and of two bytes.
ghost use Rattle.std.specs.Prelude.{◌≡◌, ◌≢◌, ◌≤◌, ◌∷◌, ◌++◌, [], length, false, Some, MatchOption, List, ℕ};
ghost use Rattle.sp_lex.specs.declared.token.Kernel.{Kernel};
ghost use Rattle.sp_lex.specs.Spelling as s;
ghost use Rattle.sp_lex.specs.Reading.{Reads, is_mark_byte};

use crate::Kernel;

// The mark that is this byte.
fn single(first: u8) -> Option<Kernel>
    ensures { MatchOption result (is_mark_byte first ≡ false)
        (λ kernel. s.mark kernel ≡ Some (first ∷ [])) }
{
    match first {
        b'(' => Some(Kernel::LeftRound),
        b')' => Some(Kernel::RightRound),
        b'[' => Some(Kernel::LeftSquare),
        b']' => Some(Kernel::RightSquare),
        b',' => Some(Kernel::Comma),
        b'.' => Some(Kernel::Dot),
        b'+' => Some(Kernel::Plus),
        b'-' => Some(Kernel::Minus),
        b'*' => Some(Kernel::Star),
        b'!' => Some(Kernel::Bang),
        b'=' => Some(Kernel::Equal),
        b'<' => Some(Kernel::Less),
        b'>' => Some(Kernel::Greater),
        _ => None,
    }
}

// The mark that is these two bytes.
fn double(first: u8, second: u8) -> Option<Kernel>
    ensures { MatchOption result ((kernel : Kernel) → s.mark kernel ≢ Some (first ∷ second ∷ []))
        (λ kernel. s.mark kernel ≡ Some (first ∷ second ∷ [])) }
{
    match (first, second) {
        (b'<', b'>') => Some(Kernel::Unequal),
        (b'<', b'=') => Some(Kernel::AtMost),
        (b'>', b'=') => Some(Kernel::AtLeast),
        _ => None,
    }
}

// The mark of two bytes in front of a text, and what is behind it.
fn double_at(text: &[u8]) -> Option<(Kernel, &[u8])>
    ensures { MatchOption result
        ((kernel : Kernel) (front rest : List ℕ) → text.now ≡ front ++ rest
        → s.mark kernel ≡ Some front → length front ≤ 1)
        (λ p. (b : ℕ) × (c : ℕ) × (text.now ≡ b ∷ c ∷ p.1.now) × (s.mark p.0 ≡ Some (b ∷ c ∷ []))) }
{
    match text {
        [first, second, rest @ ..] => match double(*first, *second) {
            Some(kernel) => Some((kernel, rest)),
            None => None,
        },
        _ => None,
    }
}

/// The mark in front of a text, the longest that fits, and what is behind it.
pub(crate) fn mark_at(text: &[u8]) -> Option<(Kernel, &[u8])>
    ensures { MatchOption result (s.heads is_mark_byte text.now ≡ false)
        (λ p. Reads text.now p.0 p.1.now) }
{
    if let Some(token) = double_at(text) {
        return Some(token);
    }
    match text {
        [first, rest @ ..] => match single(*first) {
            Some(kernel) => Some((kernel, rest)),
            None => None,
        },
        [] => None,
    }
}
