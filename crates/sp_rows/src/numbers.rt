// Numbers as cells write them.
ghost use Rattle.std.specs.Prelude.{◌≡◌, ℕ, List, ◌+◌, ◌<◌, ◌≤◌, ◌^◌, ◌≢◌, ◌∷◌, true, false, ◌++◌, ◌==◌, ◌-◌, Some, IfSome, IfNone, length, take, drop, pos, neg_ℤ, [], slice_index_or};
ghost use Rattle.std.specs.List.{list_all, suffix_len, All};
ghost use Rattle.std.specs.Option.{option_map, ForSome};
ghost use Rattle.sp_base.specs.Limits.{number_limit, past_number_limit};
ghost use Rattle.sp_rows.specs.Numbers;
ghost use Rattle.sp_rows.specs.Capped.{with_digit, capped, with_more};

use sp_base::limits::NUMBER_LIMIT;

// So many digits write no number past the bound.
const FEW: usize = 15;

// Whether a byte is a blank or a tab.
fn is_blank(b: u8) -> bool
    ensures { result ≡ Numbers.is_blank b }
{
    b == b' ' || b == b'\t'
}

// The cell without the blanks and tabs at its start.
fn without_front(cell: &[u8]) -> &[u8]
    ensures { result.now ≡ Numbers.without_front cell.now }
{
    for (i, b) in cell.iter().enumerate() {
        if !is_blank(*b) {
            return &cell[i..];
        }
    }
    &cell[cell.len()..]
}

// The cell without the blanks and tabs at its end.
fn without_back(cell: &[u8]) -> &[u8]
    ensures { result.now ≡ take (length cell.now - suffix_len Numbers.is_blank cell.now) cell.now }
{
    let mut end = cell.len();
    while end > 0 && is_blank(cell[end - 1]) {
        end -= 1;
    }
    &cell[..end]
}

/// The cell without the blanks and tabs round it.
pub(crate) fn trimmed(cell: &[u8]) -> &[u8]
    ensures { result.now ≡ Numbers.trimmed cell.now }
{
    without_back(without_front(cell))
}

// Whether there are only digits, one or more.
fn are_digits(digits: &[u8]) -> bool
    ensures { result ≡ Numbers.are_digits digits.now }
{
    for b in digits {
        if !b.is_ascii_digit() {
            return false;
        }
    }
    !digits.is_empty()
}

// Whether there are only zeros.
fn are_zeros(digits: &[u8]) -> bool
    ensures { result ≡ list_all (λ b. b == 48) digits.now }
{
    for b in digits {
        if *b != b'0' {
            return false;
        }
    }
    true
}

// The number with one more digit, or the first past the bound.
fn with_digit(value: u64, digit: u8) -> u64
    requires { value ≤ past_number_limit }
    ensures { result ≡ capped (with_digit value digit) }
{
    (value * 10 + u64::from(digit.saturating_sub(b'0'))).min(NUMBER_LIMIT + 1)
}

// The digits at the front: the number that they write, or the first past the bound, and how many they are.
fn leading(digits: &[u8]) -> (u64, usize)
    ensures value { result.0 ≡ with_more 0 (take result.1 digits.now) }
    ensures small { result.0 ≤ past_number_limit }
    ensures below { result.0 < 10 ^ result.1 }
    ensures within { result.1 ≤ length digits.now }
    ensures digits { list_all Numbers.is_digit (take result.1 digits.now) ≡ true }
    ensures ends { result.1 < length digits.now
        → Numbers.is_digit (slice_index_or digits.now result.1 0) ≡ false }
{
    let mut value = 0u64;
    for (count, digit) in digits.iter().enumerate() {
        if !digit.is_ascii_digit() {
            return (value, count);
        }
        value = with_digit(value, *digit);
    }
    (value, digits.len())
}

// The decimal at this place, a zero where none is written.
fn decimal_at(decimals: &[u8], place: usize) -> u8
    ensures { result ≡ slice_index_or decimals.now place 48 }
{
    match decimals.get(place) {
        Some(digit) => *digit,
        None => b'0',
    }
}

// The number with as many decimals as the scale has, or the first past the bound.
fn with_decimals(whole: u64, scale: u8, decimals: &[u8]) -> u64
    requires { whole ≤ past_number_limit }
    ensures { result ≡ with_more whole (Numbers.decimals_to scale decimals.now) }
{
    let mut value = whole;
    for place in 0..usize::from(scale) {
        value = with_digit(value, decimal_at(decimals, place));
    }
    value
}

// The decimals past the scale.
fn past_scale(scale: u8, decimals: &[u8]) -> &[u8]
    ensures { result.now ≡ drop scale decimals.now }
{
    let kept = usize::from(scale).min(decimals.len());
    &decimals[kept..]
}

// The number, where it is within the bound.
fn within_bound(value: u64) -> Option<u64>
    ensures value { result ≡ Numbers.within_bound value }
    ensures below { ForSome result (λ n. n ≤ number_limit) }
{
    if value <= NUMBER_LIMIT {
        Some(value)
    } else {
        None
    }
}

// The units of a number with decimals, whose digits before the point write this number.
fn decimal_units(scale: u8, whole: u64, decimals: &[u8]) -> Option<u64>
    requires { whole ≤ past_number_limit }
    ensures units { (digits : List ℕ) → Numbers.are_digits digits ≡ true
        → whole ≡ with_more 0 digits
        → result ≡ Numbers.units_of scale (digits ∷ decimals.now ∷ []) }
    ensures below { ForSome result (λ n. n ≤ number_limit) }
{
    if !are_digits(decimals) || !are_zeros(past_scale(scale, decimals)) {
        return None;
    }
    within_bound(with_decimals(whole, scale, decimals))
}

// The units without a sign before them.
fn unsigned(scale: u8, digits: &[u8]) -> Option<u64>
    ensures units { result ≡ Numbers.unsigned scale digits.now }
    ensures below { ForSome result (λ n. n ≤ number_limit) }
{
    let (value, count) = leading(digits);
    if count == 0 {
        return None;
    }
    if count == digits.len() {
        return within_bound(with_decimals(value, scale, &[]));
    }
    if digits[count] != b'.' {
        return None;
    }
    decimal_units(scale, value, digits.split_at(count + 1).1)
}

// A number of units as the value of a cell.
fn as_value(units: Option<u64>) -> Option<i64>
    requires { ForSome units (λ n. n ≤ number_limit) }
    ensures { result ≡ option_map pos units }
{
    match units {
        Some(units) => Some(units as i64),
        None => None,
    }
}

// A number of units below 0 as the value of a cell.
fn as_negative(units: Option<u64>) -> Option<i64>
    requires { ForSome units (λ n. n ≤ number_limit) }
    ensures { result ≡ option_map (λ n. neg_ℤ (pos n)) units }
{
    match units {
        Some(units) => Some(-(units as i64)),
        None => None,
    }
}

// The units that a trimmed cell writes.
fn signed(scale: u8, cell: &[u8]) -> Option<i64>
    ensures { result ≡ Numbers.signed scale cell.now }
{
    match cell.first() {
        None => None,
        Some(b'+') => as_value(unsigned(scale, &cell[1..])),
        Some(b'-') => as_negative(unsigned(scale, &cell[1..])),
        Some(_) => as_value(unsigned(scale, cell)),
    }
}

// The number that a cell of a few digits and nothing else writes.
fn few_digits(cell: &[u8]) -> Option<u64>
    ensures digits { IfSome result (λ n. Numbers.are_digits cell.now ≡ true) }
    ensures value { IfSome result (λ n. n ≡ Numbers.digits_value cell.now) }
    ensures below { IfSome result (λ n. n ≤ number_limit) }
{
    if cell.is_empty() || cell.len() > FEW {
        return None;
    }
    let mut value = 0u64;
    for digit in cell {
        if !digit.is_ascii_digit() {
            return None;
        }
        value = value * 10 + u64::from(*digit - b'0');
    }
    Some(value)
}

/// The whole number that a cell writes, None where it writes none.
pub(crate) fn whole_number_of(cell: &[u8]) -> Option<i64>
    ensures { result ≡ Numbers.number_of 0 cell.now }
{
    match few_digits(cell) {
        Some(number) => as_value(Some(number)),
        None => number_of(0, cell),
    }
}

// The number with as many decimals as the scale has, where these are digits and all digits are few.
fn few_scaled(scale: u8, whole: u64, count: usize, decimals: &[u8]) -> Option<u64>
    requires below { whole < 10 ^ count }
    requires few { count + scale ≤ 15 }
    ensures value { IfSome result
        (λ n. n ≡ with_more whole (Numbers.decimals_to scale decimals.now)) }
    ensures digits { IfSome result
        (λ n. list_all Numbers.is_digit (Numbers.decimals_to scale decimals.now) ≡ true) }
    ensures below { IfSome result (λ n. n ≤ number_limit) }
{
    let mut value = whole;
    for place in 0..usize::from(scale) {
        let digit = decimal_at(decimals, place);
        if !digit.is_ascii_digit() {
            return None;
        }
        value = value * 10 + u64::from(digit - b'0');
    }
    Some(value)
}

// The units that a cell of a few digits writes, with a point among them or none, and nothing else.
fn few_units(scale: u8, cell: &[u8]) -> Option<u64>
    ensures value { IfSome result (λ n. Some (pos n) ≡ Numbers.number_of scale cell.now) }
    ensures below { IfSome result (λ n. n ≤ number_limit) }
{
    let (whole, count) = leading(cell);
    if count == 0 || count > FEW || usize::from(scale) > FEW - count {
        return None;
    }
    if count == cell.len() {
        return few_scaled(scale, whole, count, &[]);
    }
    if cell[count] != b'.' {
        return None;
    }
    let (_, decimals) = cell.split_at(count + 1);
    let past = past_scale(scale, decimals);
    if decimals.is_empty() || !are_zeros(past) {
        return None;
    }
    few_scaled(scale, whole, count, decimals)
}

/// The units of this scale that a cell writes, None where it writes no such number.
pub(crate) fn number_of(scale: u8, cell: &[u8]) -> Option<i64>
    ensures { result ≡ Numbers.number_of scale cell.now }
{
    match few_units(scale, cell) {
        Some(units) => as_value(Some(units)),
        None => signed(scale, trimmed(cell)),
    }
}
