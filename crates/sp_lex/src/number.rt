// Whole numbers and decimals.
ghost use Rattle.std.specs.Prelude.{◌≡◌, ◌≤◌, ◌∷◌, length, true, false, MatchOption, MatchResult};
ghost use Rattle.sp_base.specs.Limits.{past_number_limit};
ghost use Rattle.sp_lex.specs.Spelling as s;
ghost use Rattle.sp_lex.specs.Reading.{Reads, is_point, capped, with_digit, with_more};

use crate::Kernel;
use crate::bytes::digits;
use sp_base::limits::NUMBER_LIMIT;

// The number with one more digit, or the first past the bound.
fn with_digit(value: u64, digit: u8) -> u64
    requires { value ≤ past_number_limit }
    ensures { result ≡ capped (with_digit value digit) }
{
    (value * 10 + u64::from(digit.saturating_sub(b'0'))).min(NUMBER_LIMIT + 1)
}

// The number with more digits, or the first past the bound.
fn with_more(number: u64, digits: &[u8]) -> u64
    requires { number ≤ past_number_limit }
    ensures { result ≡ with_more number digits.now }
{
    let mut value = number;
    for digit in digits {
        value = with_digit(value, *digit);
    }
    value
}

// What follows a point.
fn behind_point(text: &[u8]) -> Option<&[u8]>
    ensures { MatchOption result (s.heads is_point text.now ≡ false)
        (λ rest. text.now ≡ 46 ∷ rest.now) }
{
    match text {
        [b'.', rest @ ..] => Some(rest),
        _ => None,
    }
}

/// The number in front of a text that begins with a digit, and what is behind it; None where it is
/// long.
pub(crate) fn number_at(text: &[u8]) -> Option<(Kernel, &[u8])>
    requires { s.heads s.is_digit text.now ≡ true }
    ensures token { MatchOption result (s.IsLong text.now) (λ p. Reads text.now p.0 p.1.now) }
    ensures short { MatchOption result (s.IsLong text.now) (λ p. s.IsLong text.now → ⊥) }
{
    let (whole, rest) = digits(text);
    let number = with_more(0, whole);
    if number > NUMBER_LIMIT {
        return None;
    }
    let Some(behind) = behind_point(rest) else {
        return Some((Kernel::Whole(number), rest));
    };
    let (part, after) = digits(behind);
    if part.len() == 0 {
        return Some((Kernel::Whole(number), rest));
    }
    let units = with_more(number, part);
    if part.len() > 6 || units > NUMBER_LIMIT {
        return None;
    }
    let kernel = Kernel::Decimal {
        units,
        scale: part.len() as u8,
    };
    Some((kernel, after))
}
