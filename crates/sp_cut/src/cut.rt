ghost use Rattle.std.specs.Prelude.{◌≡◌, ◌≤◌, ◌<◌, ◌+◌, ◌++◌, [], length, take, drop, true, false, IfOk, IfErr, OnOk, OnErr, vec_len};
ghost use Rattle.sp_cut.specs.Answer.{Gives, GivesRow, IsFault, given_in};
ghost use Rattle.sp_cut.specs.CutRows as cut;
ghost use Rattle.sp_cut.specs.Ends.{IsFound};
ghost use Rattle.sp_cut.specs.Part.{part_of, left_behind};
ghost use Rattle.sp_cut.specs.Span.{Finds, LiesNext, bytes_at};

use crate::ends::{Found, first_end};
use crate::fault::{CutFault, Memory};
use crate::part::{Rest, is_long, put_bytes, rest_of, without_cr};
use crate::span::Span;
use sp_base::limits::ROW_LIMIT;
use sp_base::without_mark;
use std::alloc::Global;
use std::marker::Model;

/// Cuts bytes into rows, in whatever pieces they come; a byte order mark at their start is dropped.
/// It holds the bytes behind the last row given, the number of rows given, and whether the input ended.
/// Each byte is gone through once, and no more bytes are moved than rows took.
#[derive(Drop)]
pub struct Cutter {
    bytes: Vec<u8>,
    // How many bytes the rows given took; those behind are left.
    start: usize,
    // Among so many of the bytes left no row ends.
    scanned: usize,
    // Whether a quote is open behind these.
    quoted: bool,
    given: u32,
    ended: bool,
}

impl Model for Cutter {
    ghost use Rattle.sp_cut.specs.Left.{Left};

    ghost Value = { Left };

    ghost use Rattle.sp_cut.specs.Cutting.{left_of, IsCutting};

    ghost view = { left_of };

    ghost invariant = { IsCutting };
}

impl Cutter {
    /// No byte was fed. Takes no memory.
    pub fn new(alloc: Global) -> Cutter
        ensures { result ≡ record { bytes = []; given = 0; ended = false } }
    {
        Cutter {
            bytes: Vec::new(alloc),
            start: 0,
            scanned: 0,
            quoted: false,
            given: 0,
            ended: false,
        }
    }

    /// The next bytes of an input that has not ended. Where memory runs out the cutter is as before.
    pub fn feed(&mut self, piece: &[u8]) -> Result<(), Memory>
        requires { self.old.ended ≡ false }
        ensures fed { OnOk result
            (self.new ≡ record self.old { bytes = self.old.bytes ++ piece.now }) }
        ensures unchanged { OnErr result (self.new ≡ self.old) }
    {
        self.forget();
        self.bytes.extend_from_slice(piece)
    }

    /// The input ends behind the bytes fed.
    pub fn end(&mut self)
        ensures { self.new ≡ record self.old { ended = true } }
    {
        self.ended = true;
    }

    /// Whether the input ended behind the bytes fed.
    pub fn has_ended(&self) -> bool
        ensures { result ≡ self.now.ended }
    {
        self.ended
    }

    /// The next row without the line feed or CR LF that ends it, or None where no row is left.
    /// After None, more bytes or the end may bring one. Once the next row is too long, or the input
    /// ended inside quotes, each call is that fault. At None and at a fault the cutter stays as it is.
    pub fn next_row(&mut self, alloc: Global) -> Result<Option<Vec<u8>>, CutFault>
        requires { self.old.given < 2097153 }
        ensures given { IfOk result (λ found. Gives self.old found self.new) }
        ensures fault { IfErr result (λ fault. IsFault self.old fault) }
        ensures unchanged { OnErr result (self.new ≡ self.old) }
    {
        let mut row = Vec::new(alloc);
        if self.next_into(&mut row)? {
            Ok(Some(row))
        } else {
            Ok(None)
        }
    }

    /// The same for a row whose room is used again: it gets the bytes of the next row in place of its own,
    /// and whether there is one is told. Where there is none, and at a fault, any bytes may stand in it.
    pub fn next_into(&mut self, row: &mut Vec<u8>) -> Result<bool, CutFault>
        requires { self.old.given < 2097153 }
        ensures given { IfOk result (λ found. Gives self.old (given_in found row.new) self.new) }
        ensures fault { IfErr result (λ fault. IsFault self.old fault) }
        ensures unchanged { OnErr result (self.new ≡ self.old) }
    {
        match self.find_row() {
            Err(fault) => Err(fault),
            Ok(None) => Ok(false),
            Ok(Some(span)) => {
                if put_bytes(row, self.row_at(span)).is_err() {
                    return Err(CutFault::Memory);
                }
                self.pass(span);
                Ok(true)
            }
        }
    }

    /// The same for a row that is not copied: where it lies among the bytes left is told, and it stays
    /// there until it is passed. Takes no memory.
    pub fn find_row(&mut self) -> Result<Option<Span>, CutFault>
        requires { self.old.given < 2097153 }
        ensures found { IfOk result (λ found. Finds self.old found) }
        ensures fault { IfErr result (λ fault. IsFault self.old fault) }
        ensures unchanged { self.new ≡ self.old }
    {
        match self.find_end() {
            Found::End(size) => {
                if self.is_too_long(size) {
                    return Err(CutFault::LongRow {
                        row: self.given + 1,
                    });
                }
                Ok(Some(Span { size, feeds: 1 }))
            }
            Found::Rest(quoted) => self.find_rest(quoted),
        }
    }

    // The next row where no line feed ends one.
    fn find_rest(&self, quoted: bool) -> Result<Option<Span>, CutFault>
        requires number { self.now.given < 2097153 }
        requires rest { IsFound false self.now.bytes (Found.Rest quoted) }
        ensures found { IfOk result (λ found. Finds self.now found) }
        ensures fault { IfErr result (λ fault. IsFault self.now fault) }
    {
        let size = self.len();
        let number = self.given + 1;
        match rest_of(self.part(size), self.ended, quoted) {
            Rest::Long => Err(CutFault::LongRow { row: number }),
            Rest::Nothing => Ok(None),
            Rest::OpenQuote => Err(CutFault::OpenQuote { row: number }),
            Rest::Row => Ok(Some(Span { size, feeds: 0 })),
        }
    }

    /// The bytes of the row that lies there.
    pub fn row_at(&self, span: Span) -> &[u8]
        requires { LiesNext self.now span }
        ensures { result.now ≡ bytes_at self.now span }
    {
        without_cr(self.part(span.size))
    }

    /// The row that lies there is given.
    pub fn pass(&mut self, span: Span)
        requires number { self.old.given < 2097153 }
        requires next { LiesNext self.old span }
        ensures { GivesRow self.old (bytes_at self.old span) self.new }
    {
        self.advance(span.size, span.feeds);
    }

    // The first bytes are those of a row given; with them go as many line feeds as end it.
    fn advance(&mut self, size: usize, feeds: usize)
        requires number { self.old.given < 2097153 }
        requires within { size + feeds ≤ length self.old.bytes }
        ensures { self.new ≡ left_behind self.old (size + feeds) }
    {
        self.start = self.start + size + feeds;
        self.scanned = 0;
        self.quoted = false;
        self.given += 1;
    }

    // Where the next row ends; the bytes gone through are noted.
    fn find_end(&mut self) -> Found
        ensures found { IsFound false self.old.bytes result }
        ensures unchanged { self.new ≡ self.old }
    {
        let from = self.start + self.scanned;
        let (_, fresh) = self.bytes.as_slice().split_at(from);
        match first_end(fresh, self.quoted) {
            Found::End(size) => {
                self.scanned += size;
                self.quoted = false;
                Found::End(self.scanned)
            }
            Found::Rest(quoted) => {
                self.scanned = self.bytes.len() - self.start;
                self.quoted = quoted;
                Found::Rest(quoted)
            }
        }
    }

    // How many bytes are left.
    fn len(&self) -> usize
        ensures { result ≡ length self.now.bytes }
    {
        self.bytes.len() - self.start
    }

    // The first bytes left, without the byte order mark at the start of the input.
    fn part(&self, size: usize) -> &[u8]
        requires { size ≤ length self.now.bytes }
        ensures { result.now ≡ part_of self.now size }
    {
        let (_, left) = self.bytes.as_slice().split_at(self.start);
        let (part, _) = left.split_at(size);
        if self.given == 0 {
            without_mark(part)
        } else {
            part
        }
    }

    // Whether so many of the first bytes left are too long for a row: mostly their number tells that
    // they are not.
    fn is_too_long(&self, size: usize) -> bool
        requires { size ≤ length self.now.bytes }
        ensures { result ≡ cut.is_long (part_of self.now size) }
    {
        size > ROW_LIMIT && is_long(self.part(size))
    }

    // The bytes of rows given are dropped where they are at least as many as those left,
    // which move to the front: so all moves together cost no more than the bytes of the rows.
    fn forget(&mut self)
        ensures { self.new ≡ self.old }
    {
        if self.bytes.len() - self.start <= self.start {
            drop_front(&mut self.bytes, self.start);
            self.start = 0;
        }
    }
}

// The bytes without so many at their front.
fn drop_front(bytes: &mut Vec<u8>, count: usize)
    requires { count ≤ vec_len bytes.old }
    ensures { bytes.new.items ≡ drop count bytes.old.items }
{
    let left = bytes.len() - count;
    bytes.copy_within(count.., 0);
    bytes.truncate(left);
}
