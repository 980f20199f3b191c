ghost use Rattle.sp_cut.specs.Ends.{IsFound, IsMark};

use memchr::{memchr, memchr2};

/// Where the first row of bytes ends.
pub(crate) enum Found {
    /// At a line feed, behind so many bytes.
    End(usize),
    /// Nowhere: the bytes are a rest, at whose end a quote is open or not.
    Rest(bool),
}

/// Where the first row ends, where a quote is open in front of the bytes or not.
pub(crate) fn first_end(bytes: &[u8], quoted: bool) -> Found
    ensures { IsFound quoted bytes.now result }
{
    let mut state = quoted;
    let mut from = 0;
    'marks: while let Some(size) = next_mark(bytes.split_at(from).1, state) {
        let at = from + size;
        if bytes[at] == b'\n' {
            return Found::End(at);
        }
        state = !state;
        from = at + 1;
    }
    Found::Rest(state)
}

// The first byte that ends a row, opens a quote or closes one, where a quote is open in front or not.
fn next_mark(bytes: &[u8], quoted: bool) -> Option<usize>
    ensures { IsMark quoted bytes.now result }
{
    if quoted {
        memchr(b'"', bytes)
    } else {
        memchr2(b'"', b'\n', bytes)
    }
}
