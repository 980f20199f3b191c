// What is told of a row that differs.
use crate::call::Outcome;
use std::io;

/// Tells on the error output what of an outcome differs from what was expected.
pub(crate) fn tell(rt: &impl Eprint, expected: &Outcome, came: &Outcome) -> io::Result<()> {
    if expected.status != came.status {
        eprintln!(rt;
            "  status: expected {}, came {}",
            expected.status, came.status
        )?;
    }
    tell_bytes(rt, "output", &expected.output, &came.output)?;
    tell_bytes(rt, "error output", &expected.error, &came.error)?;
    tell_bytes(rt, "left of the input", &expected.left, &came.left)
}

// The most bytes of a text that are told.
const SHOWN: usize = 200;

// Some bytes from a place on.
fn shown(bytes: &[u8], from: usize) -> &[u8] {
    let (_, rest) = bytes.split_at(from.min(bytes.len()));
    let (front, _) = rest.split_at(rest.len().min(SHOWN));
    front
}

// How many bytes at the front are the same.
fn same_front(one: &[u8], two: &[u8]) -> usize {
    let end = one.len().min(two.len());
    for i in 0..end {
        if one[i] != two[i] {
            return i;
        }
    }
    end
}

// Tells bytes that differ, from the first one that does.
fn tell_bytes(rt: &impl Eprint, of: &str, expected: &[u8], came: &[u8]) -> io::Result<()> {
    if expected == came {
        return Ok(());
    }
    let same = same_front(expected, came);
    let expected = shown(expected, same).escape_ascii();
    let came = shown(came, same).escape_ascii();
    eprintln!(rt; "  {of}, from byte {same} on: expected \"{expected}\", came \"{came}\"")
}
