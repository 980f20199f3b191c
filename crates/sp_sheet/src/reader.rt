use crate::escapes::{NamedNumber, NamedText, Names, unescaped};
use crate::fault::Fault;
use crate::line::{push, put, repeated, two_numbers};
use crate::row::Row;
use std::alloc::Global;

// The rows so far, and the texts that were given names.
#[derive(Drop)]
struct Reader {
    named: Vec<NamedText>,
    rows: Vec<Row>,
    // From where on they are the last one that was begun: one row, or one for each of some numbers.
    open: usize,
    // Whether that has a part.
    has_part: bool,
}

/// The rows of a sheet, or the number of the first line, from 1, that is not taken, and why.
pub(crate) fn rows_of(alloc: Global, text: &str) -> Result<Vec<Row>, (usize, Fault)> {
    let mut reader = Reader {
        named: Vec::new(alloc),
        rows: Vec::new(alloc),
        open: 0,
        has_part: false,
    };
    let mut number = 0usize;
    for line in text.lines() {
        number = number.saturating_add(1);
        if let Err(fault) = reader.take(alloc, line) {
            return Err((number, fault));
        }
    }
    Ok(reader.rows)
}

impl Reader {
    // Takes a line: a comment, a blank line, a named text, or a part of a row.
    fn take(&mut self, alloc: Global, line: &str) -> Result<(), Fault> {
        if line.is_empty() || line.starts_with('#') {
            return Ok(());
        }
        let (word, text) = line.split_once(' ').unwrap_or((line, ""));
        let (key, times) = repeated(word)?;
        match key {
            "row" => self.begin(alloc, text),
            "let" => self.name(alloc, text, times),
            "each" => self.begin_each(alloc, text),
            _ => self.put(alloc, key, times, text),
        }
    }

    // Begins a row.
    fn begin(&mut self, alloc: Global, name: &str) -> Result<(), Fault> {
        let name = String::from_str(alloc, name)?;
        self.open = self.rows.len();
        self.has_part = false;
        push(&mut self.rows, Row::new(alloc, name))
    }

    // Has a row in place of the one that was just begun for each number from one to another.
    fn begin_each(&mut self, alloc: Global, text: &str) -> Result<(), Fault> {
        let Some((name, numbers)) = text.split_once(' ') else {
            return Err(Fault("a name without numbers"));
        };
        let (first, last) = two_numbers(numbers)?;
        let begun = match self.rows.pop() {
            Some(row) if !self.has_part && row.number.is_none() => row,
            _ => return Err(Fault("numbers that are not right behind the row's name")),
        };
        for value in first..=last {
            let title = format!(in alloc; "{}, {name} = {value}", begun.name)?;
            let mut row = Row::new(alloc, title);
            let name = String::from_str(alloc, name)?;
            row.number = Some(NamedNumber { name, value });
            push(&mut self.rows, row)?;
        }
        Ok(())
    }

    // Gives a name to so many times a text.
    fn name(&mut self, alloc: Global, text: &str, times: u32) -> Result<(), Fault> {
        let Some((name, text)) = text.split_once(' ') else {
            return Err(Fault("a name without a text"));
        };
        let names = Names {
            texts: self.named.as_slice(),
            number: None,
        };
        let text = unescaped(alloc, names, text)?;
        let bytes = text.bytes.repeat(alloc, times as usize)?;
        let name = name.as_bytes().to_vec(alloc)?;
        push(&mut self.named, NamedText { name, bytes })
    }

    // Puts a part into the last row, or into each of those that stand for one.
    fn put(&mut self, alloc: Global, key: &str, times: u32, text: &str) -> Result<(), Fault> {
        if self.rows.is_empty() {
            return Err(Fault("a part before the first row"));
        }
        self.has_part = true;
        for row in self.rows.iter_mut().skip(self.open) {
            let names = Names {
                texts: self.named.as_slice(),
                number: row.number.as_ref(),
            };
            let text = unescaped(alloc, names, text)?;
            put(alloc, key, times, &text, row)?;
        }
        Ok(())
    }
}
