// Numbers in front of a text: decimal, without leading zeros, up to the first byte that is no digit.
ghost use Rattle.std.specs.Prelude.{◌≡◌, ◌<◌, ◌≤◌, ◌^◌, MatchOption};
ghost use Rattle.sp_emit.specs.Reading as r;
ghost use Rattle.sp_emit.specs.Reading.{Answers, DigitsAt, NumberAt, LabelledAt};

use crate::front::behind;

fn is_digit(b: u8) -> bool
    ensures { result ≡ r.is_digit b }
{
    b'0' <= b && b <= b'9'
}

// The digits in front, up to the first byte that is none, and the rest.
fn digits(text: &[u8]) -> (&[u8], &[u8])
    ensures { DigitsAt text.now result.0.now result.1.now }
{
    for (i, b) in text.iter().enumerate() {
        if !is_digit(*b) {
            return text.split_at(i);
        }
    }
    text.split_at(text.len())
}

// Whether digits are written as a number is: at least one, and no zero before another.
fn is_plain(digits: &[u8]) -> bool
    ensures { result ≡ r.is_plain digits.now }
{
    match digits {
        [] => false,
        [_] => true,
        [first, _, ..] => *first != b'0',
    }
}

// The number with one digit more; None exactly where it is past 64 bits.
fn with_digit(value: u64, digit: u8) -> Option<u64>
    ensures { MatchOption result (2 ^ 64 ≤ r.with_digit value digit)
        (λ n. n ≡ r.with_digit value digit) }
{
    value
        .checked_mul(10)?
        .checked_add(u64::from(digit.saturating_sub(b'0')))
}

// The number that digits write; None exactly where it is past 64 bits.
fn value(digits: &[u8]) -> Option<u64>
    ensures { MatchOption result (2 ^ 64 ≤ r.digits_value digits.now)
        (λ n. n ≡ r.digits_value digits.now) }
{
    let mut value = 0u64;
    for digit in digits {
        value = with_digit(value, *digit)?;
    }
    Some(value)
}

/// The number in front and the rest; None exactly where no number up to `most` is in front.
pub(crate) fn number_at(text: &[u8], most: u64) -> Option<(u64, &[u8])>
    ensures { Answers (NumberAt most text.now) (λ p. (p.0, p.1.now)) result }
{
    let (front, rest) = digits(text);
    if !is_plain(front) {
        return None;
    }
    let number = value(front)?;
    if number > most {
        return None;
    }
    Some((number, rest))
}

/// The same of numbers of 32 bits.
pub(crate) fn short_number_at(text: &[u8]) -> Option<(u32, &[u8])>
    ensures { Answers (NumberAt 4294967295 text.now) (λ p. (p.0, p.1.now)) result }
{
    let (number, rest) = number_at(text, u64::from(u32::MAX))?;
    Some((number as u32, rest))
}

/// The number behind a label, and the rest.
pub(crate) fn labelled_at<'a>(text: &'a [u8], label: &[u8]) -> Option<(u64, &'a [u8])>
    ensures { Answers (LabelledAt label.now 18446744073709551615 text.now)
        (λ p. (p.0, p.1.now)) result }
{
    number_at(behind(text, label)?, u64::MAX)
}

/// The number of 32 bits behind a label, and the rest; None exactly where no such number is behind it in front.
pub fn short_labelled_at<'a>(text: &'a [u8], label: &[u8]) -> Option<(u32, &'a [u8])>
    ensures { Answers (LabelledAt label.now 4294967295 text.now) (λ p. (p.0, p.1.now)) result }
{
    short_number_at(behind(text, label)?)
}
