// Kinds of bytes, and runs of them in front of a text.
ghost use Rattle.std.specs.Prelude.{◌≡◌, ◌++◌, List, ℕ};
ghost use Rattle.sp_lex.specs.Spelling as s;
ghost use Rattle.sp_lex.specs.Reading.{IsRun};

fn is_blank(b: u8) -> bool
    ensures { result ≡ s.is_blank b }
{
    b == b' ' || b == b'\t' || b == b'\r' || b == b'\n'
}

pub(crate) fn is_letter(b: u8) -> bool
    ensures { result ≡ s.is_letter b }
{
    b == b'_' || (b'A' <= b && b <= b'Z') || (b'a' <= b && b <= b'z')
}

pub(crate) fn is_digit(b: u8) -> bool
    ensures { result ≡ s.is_digit b }
{
    b'0' <= b && b <= b'9'
}

fn is_name_byte(b: u8) -> bool
    ensures { result ≡ s.is_name_byte b }
{
    is_letter(b) || is_digit(b)
}

// What is behind the blanks.
pub(crate) fn skip(text: &[u8]) -> &[u8]
    ensures { (blanks : List ℕ) × (text.now ≡ blanks ++ result.now)
        × IsRun s.is_blank blanks result.now }
{
    for (i, b) in text.iter().enumerate() {
        if !is_blank(*b) {
            return &text[i..];
        }
    }
    &text[text.len()..]
}

// The longest front of bytes of a name, and the rest.
pub(crate) fn name_bytes(text: &[u8]) -> (&[u8], &[u8])
    ensures cut { text.now ≡ result.0.now ++ result.1.now }
    ensures run { IsRun s.is_name_byte result.0.now result.1.now }
{
    for (i, b) in text.iter().enumerate() {
        if !is_name_byte(*b) {
            return text.split_at(i);
        }
    }
    text.split_at(text.len())
}

// The longest front of digits, and the rest.
pub(crate) fn digits(text: &[u8]) -> (&[u8], &[u8])
    ensures cut { text.now ≡ result.0.now ++ result.1.now }
    ensures run { IsRun s.is_digit result.0.now result.1.now }
{
    for (i, b) in text.iter().enumerate() {
        if !is_digit(*b) {
            return text.split_at(i);
        }
    }
    text.split_at(text.len())
}
