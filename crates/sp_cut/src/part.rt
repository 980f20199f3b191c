ghost use Rattle.std.specs.Prelude.{◌≡◌, ℕ, ◌+◌, not, OnOk};
ghost use Rattle.sp_cut.specs.CutRows.{is_even, rest_rows};
ghost use Rattle.sp_cut.specs.CutRows as cut;
ghost use Rattle.sp_cut.specs.Part.{rows_of_rest};

use crate::fault::Memory;
use sp_base::limits::ROW_LIMIT;

/// What the rest of the bytes is.
pub(crate) enum Rest {
    /// Too long for a row.
    Long,
    /// No row, or not yet.
    Nothing,
    /// A row.
    Row,
    /// Bytes that end inside quotes.
    OpenQuote,
}

/// What the rest is, where the input ended or not and a quote is open at its end or not.
pub(crate) fn rest_of(rest: &[u8], ended: bool, quoted: bool) -> Rest
    requires { is_even rest.now ≡ not quoted }
    ensures { rest_rows ended rest.now ≡ rows_of_rest rest.now result }
{
    if is_long(rest) {
        return Rest::Long;
    }
    if !ended || rest.is_empty() {
        return Rest::Nothing;
    }
    if quoted { Rest::OpenQuote } else { Rest::Row }
}

/// The bytes of a part, in place of those that were there.
pub(crate) fn put_bytes(row: &mut Vec<u8>, part: &[u8]) -> Result<(), Memory>
    ensures { OnOk result (row.new.items ≡ part.now) }
{
    row.clear();
    row.extend_from_slice(part)
}

/// Whether a part is too long for a row.
pub(crate) fn is_long(part: &[u8]) -> bool
    ensures { result ≡ cut.is_long part.now }
{
    without_cr(part).len() > ROW_LIMIT
}

/// The part without the carriage return at its end.
pub(crate) fn without_cr(part: &[u8]) -> &[u8]
    ensures { result.now ≡ cut.without_cr part.now }
{
    match part.last() {
        Some(b'\r') => part.split_at(part.len() - 1).0,
        _ => part,
    }
}
