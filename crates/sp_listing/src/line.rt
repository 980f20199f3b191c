// The lines of a text.
ghost use Rattle.std.specs.Prelude.{◌≡◌, [], MatchOption};
ghost use Rattle.sp_listing.specs.Reading.{IsFirstLine};

use memchr::memchr;

/// The first line, with the line feed that ends it, and what stands behind it; None where the text is empty.
pub(crate) fn first_line(text: &[u8]) -> Option<(&[u8], &[u8])>
    ensures { MatchOption result (text.now ≡ []) (λ p. IsFirstLine text.now p.0.now p.1.now) }
{
    if text.is_empty() {
        return None;
    }
    match memchr(b'\n', text) {
        Some(at) => Some(text.split_at(at + 1)),
        None => Some(text.split_at(text.len())),
    }
}
