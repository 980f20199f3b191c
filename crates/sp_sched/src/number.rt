// Numbers as they stand in a schedule: decimal, from 1, without a sign and without leading zeros.
ghost use Rattle.std.specs.Prelude.{◌≡◌};
ghost use Rattle.sp_sched.specs.Reading as r;
ghost use Rattle.sp_sched.specs.Reading.{Answers, IsNumberText};

/// The most that a version or a ticket is named by: 19 digits.
pub(crate) const MOST_NAMED: u64 = 9_999_999_999_999_999_999;

// Whether a text begins with a digit from 1 to 9.
fn leads(text: &[u8]) -> bool
    ensures { result ≡ r.leads text.now }
{
    match text {
        [] => false,
        [first, ..] => b'1' <= *first && *first <= b'9',
    }
}

/// The number that a text is; None exactly where it is none from 1 to the most.
pub(crate) fn number(text: &[u8], most: u64) -> Option<u64>
    ensures { Answers (IsNumberText most text.now) result }
{
    if !leads(text) {
        return None;
    }
    let Ok(digits) = str::from_utf8(text) else {
        return None;
    };
    let Ok(number) = digits.parse() else {
        return None;
    };
    if number > most {
        return None;
    }
    Some(number)
}
