// The byte order mark.
ghost use Rattle.std.specs.Prelude.{◌≡◌, ◌≤◌, true, take, length};
ghost use Rattle.sp_base.specs.Marks as marks;

// The bytes of a byte order mark.
const MARK: &[u8] = b"\xef\xbb\xbf";

/// Whether the bytes begin with a byte order mark.
pub fn is_marked(bytes: &[u8]) -> bool
    ensures mark { result ≡ marks.is_mark (take 3 bytes.now) }
    ensures long { result ≡ true → 3 ≤ length bytes.now }
{
    bytes.starts_with(MARK)
}

/// The bytes without the byte order mark at their start.
pub fn without_mark(bytes: &[u8]) -> &[u8]
    ensures rest { result.now ≡ marks.without_mark bytes.now }
    ensures shorter { length result.now ≤ length bytes.now }
{
    bytes.strip_prefix(MARK).unwrap_or(bytes)
}
