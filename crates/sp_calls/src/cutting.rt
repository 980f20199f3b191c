// Rows from bytes.
ghost use Rattle.std.specs.Prelude.{◌≡◌, ◌≤◌, ◌<◌, ◌+◌, false};

use crate::given::number;
use crate::text::AnswerText;
use sp_cut::{CutFault, Cutter};
use std::alloc::{AllocError, Global};
use std::str;

// Appends a row with a bar behind it, and of a long one its size.
fn push_row(row: &[u8], out: &mut AnswerText) {
    if row.len() > 1000 {
        out.number("", row.len() as i128);
        out.text(" bytes|");
    } else {
        out.text(str::from_utf8(row).unwrap_or("no text"));
        out.text("|");
    }
}

// Appends what is wrong, and the row's number, with a bar behind it.
fn push_fault(what: &str, row: u32, out: &mut AnswerText) {
    out.number(what, row as i128);
    out.text("|");
}

// Appends the next row, or the fault in its place.
fn push_next(alloc: Global, cutter: &mut Cutter, out: &mut AnswerText) -> Result<(), AllocError>
    requires { cutter.old.given < 2097153 }
    ensures given { cutter.new.given ≤ cutter.old.given + 1 }
    ensures ended { cutter.new.ended ≡ cutter.old.ended }
{
    match cutter.next_row(alloc) {
        Ok(Some(row)) => push_row(&row, out),
        Ok(None) => {}
        Err(CutFault::LongRow { row }) => push_fault("long row ", row, out),
        Err(CutFault::OpenQuote { row }) => push_fault("open quote in row ", row, out),
        Err(CutFault::Memory) => return Err(AllocError),
    }
    Ok(())
}

// The pieces of so many bytes.
fn pieces_of<'a>(alloc: Global, input: &'a [u8], size: usize) -> Result<Vec<&'a [u8]>, AllocError> {
    let mut pieces = Vec::new(alloc);
    for piece in input.chunks(size.max(1)) {
        pieces.push(piece)?;
    }
    Ok(pieces)
}

// Feeds the pieces, asks for two rows behind each, and appends them; then the same at the end.
fn push_rows(
    alloc: Global,
    cutter: &mut Cutter,
    pieces: &[&[u8]],
    out: &mut AnswerText,
) -> Result<(), AllocError>
    requires none { cutter.old.given ≡ 0 }
    requires going { cutter.old.ended ≡ false }
{
    if pieces.len() > 100_000 {
        return Ok(());
    }
    for piece in pieces {
        cutter.feed(piece)?;
        push_next(alloc, cutter, out)?;
        push_next(alloc, cutter, out)?;
    }
    cutter.end();
    push_next(alloc, cutter, out)?;
    push_next(alloc, cutter, out)
}

/// Feeds the input in pieces of as many bytes as the word says, asks for two rows behind each, and
/// appends them; then the same at the end.
pub(crate) fn cut_rows(
    alloc: Global,
    words: &[String],
    input: &[u8],
    out: &mut AnswerText,
) -> Result<(), AllocError> {
    let size = words.first().map_or(1, |word| number(word.as_str()));
    let pieces = pieces_of(alloc, input, size as usize)?;
    let mut cutter = Cutter::new(alloc);
    let pushed = push_rows(alloc, &mut cutter, &pieces, out);
    drop(cutter);
    pushed
}
