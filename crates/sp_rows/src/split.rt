// The cells of a row, by the places of their commas.
ghost use Rattle.std.specs.Prelude.{◌≡◌, ◌≢◌, ◌<◌, ◌+◌, ◌++◌, ◌∷◌, ◌==◌, ◌^◌, true, false, length, [], if◌then◌else◌, slice_index_or, OnOk, IfOk};
ghost use Rattle.std.specs.List.{slice_get};
ghost use Rattle.std.specs.Option.{option_map};
ghost use Rattle.sp_rows.specs.Plain as plain;
ghost use Rattle.sp_rows.specs.Shapes.{fields_in};

use sp_plan::Memory;

/// The cells of a row: bytes, with the place behind each cell's comma, as if one stood behind the last too.
#[derive(Clone, Copy, Drop)]
pub(crate) struct Fields<'a> {
    pub(crate) row: &'a [u8],
    pub(crate) nexts: &'a [usize],
}

// Whether the byte is a quote or one of a line's end.
fn is_break(byte: u8) -> bool
    ensures { result ≡ plain.is_break byte }
{
    byte == b'"' || byte == b'\r' || byte == b'\n'
}

// Notes the place behind a comma. No quote and no byte of a line's end may come.
fn take_byte(byte: u8, place: usize, nexts: &mut Vec<usize>) -> Result<bool, Memory>
    requires { place + 1 < 2 ^ 64 }
    ensures commas { OnOk result
        (nexts.new.items
        ≡ (if byte == 44 then nexts.old.items ++ (place + 1) ∷ [] else nexts.old.items)) }
    ensures other { IfOk result (λ may. may ≡ true → plain.is_break byte ≡ false) }
{
    if byte > b',' {
        return Ok(true);
    }
    if byte == b',' {
        nexts.push(place + 1)?;
        return Ok(true);
    }
    Ok(!is_break(byte))
}

/// Finds the cells of a row, if it may be cut at its commas: it has bytes, and none is a quote or one of
/// a line's end. If not, or where memory is wanted, any places may come.
pub(crate) fn find_cells(row: &[u8], nexts: &mut Vec<usize>) -> Result<bool, Memory>
    ensures places { IfOk result
        (λ found. found ≡ true → nexts.new.items ≡ plain.nexts_from 0 row.now) }
    ensures some { IfOk result (λ found. found ≡ true → row.now ≢ []) }
    ensures none { IfOk result (λ found. found ≡ true → plain.HasNoBreak row.now) }
{
    nexts.clear();
    if row.is_empty() {
        return Ok(false);
    }
    for place in 0..row.len() {
        if !take_byte(row[place], place, nexts)? {
            return Ok(false);
        }
    }
    nexts.push(row.len() + 1)?;
    Ok(true)
}

// The bytes of a row from a place up to the comma before the next cell's.
fn piece(row: &[u8], start: usize, next: usize) -> &[u8]
    ensures { result.now ≡ plain.piece row.now start next }
{
    if start < next && next - 1 <= row.len() {
        return &row[start..next - 1];
    }
    let rest = &row[start.min(row.len())..];
    let count = next.saturating_sub(1).saturating_sub(start);
    &rest[..count.min(rest.len())]
}

// Where the cell at this place begins.
fn start_at(nexts: &[usize], place: usize) -> usize
    ensures { result ≡ slice_index_or (0 ∷ nexts.now) place 0 }
{
    match place.checked_sub(1) {
        None => 0,
        Some(before) => match nexts.get(before) {
            None => 0,
            Some(start) => *start,
        },
    }
}

impl<'a> Fields<'a> {
    /// How many cells there are.
    pub(crate) fn len(&self) -> usize
        ensures { result ≡ length (fields_in self.now) }
    {
        self.nexts.len()
    }

    /// The cell at this place from 0.
    pub(crate) fn get(&self, place: usize) -> Option<&'a [u8]>
        ensures { option_map (λ cell. cell.now) result ≡ slice_get (fields_in self.now) place }
    {
        match self.nexts.get(place) {
            None => None,
            Some(next) => Some(piece(self.row, start_at(self.nexts, place), *next)),
        }
    }
}
