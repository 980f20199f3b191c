// Texts with escapes: `\\`, `\n`, `\r`, `\t`, `\xHH` for a byte, `{NAME}` for a text that was given this
// name, or for the row's number, `{NAME+N}` for N more than that, and `\c` as the last one, for a line without its
// line feed.
use crate::fault::Fault;
use crate::line::{number, push};
use std::alloc::Global;
use std::str;

/// A text that was given a name.
#[derive(Drop)]
pub(crate) struct NamedText {
    pub(crate) name: Vec<u8>,
    pub(crate) bytes: Vec<u8>,
}

/// The number that a row of many is run for, and its name.
#[derive(Drop)]
pub(crate) struct NamedNumber {
    pub(crate) name: String,
    pub(crate) value: u32,
}

/// What names stand for.
#[derive(Clone, Copy, Drop)]
pub(crate) struct Names<'a> {
    pub(crate) texts: &'a [NamedText],
    pub(crate) number: Option<&'a NamedNumber>,
}

impl<'a> Names<'a> {
    // The text that was given this name last.
    fn text(&self, name: &[u8]) -> Option<&'a NamedText> {
        self.texts
            .iter()
            .rev()
            .find(|it| it.name.as_slice() == name)
    }

    // The row's number, or so many more, where the name asks for that.
    fn number(&self, name: &[u8]) -> Result<u32, Fault> {
        let (Some(own), Ok(name)) = (self.number, str::from_utf8(name)) else {
            return Err(Fault("a name that no text was given"));
        };
        let (name, more) = name.split_once('+').unwrap_or((name, "0"));
        if name != own.name.as_str() {
            return Err(Fault("a name that no text was given"));
        }
        Ok(own.value.saturating_add(number(more)?))
    }
}

/// What a text stands for, and whether it said that no line feed follows.
#[derive(Drop)]
pub(crate) struct Text {
    pub(crate) bytes: Vec<u8>,
    pub(crate) is_cut: bool,
}

// Where in a text the next byte stands.
#[derive(Clone, Copy, Drop)]
enum Place {
    Plain,
    Escape,
    FirstDigit,
    SecondDigit(u8),
    Name,
    Cut,
}

#[derive(Drop)]
struct Written {
    alloc: Global,
    bytes: Vec<u8>,
    name: Vec<u8>,
    place: Place,
}

/// What a text stands for.
pub(crate) fn unescaped(alloc: Global, names: Names<'_>, text: &str) -> Result<Text, Fault> {
    let mut so_far = Written {
        alloc,
        bytes: Vec::new(alloc),
        name: Vec::new(alloc),
        place: Place::Plain,
    };
    for byte in text.as_bytes() {
        so_far.place = so_far.take(names, *byte)?;
    }
    match so_far.place {
        Place::Plain => Ok(Text {
            bytes: so_far.bytes,
            is_cut: false,
        }),
        Place::Cut => Ok(Text {
            bytes: so_far.bytes,
            is_cut: true,
        }),
        _ => Err(Fault("an escape or a name that does not end")),
    }
}

impl Written {
    // Takes the next byte, and answers where the one behind it stands.
    fn take(&mut self, names: Names<'_>, byte: u8) -> Result<Place, Fault> {
        match self.place {
            Place::Plain => self.take_plain(byte),
            Place::Escape => self.take_escape(byte),
            Place::FirstDigit => Ok(Place::SecondDigit(digit(byte)?)),
            Place::SecondDigit(first) => {
                let byte = first.wrapping_mul(16).wrapping_add(digit(byte)?);
                self.put(byte)
            }
            Place::Name => self.take_name(names, byte),
            Place::Cut => Err(Fault("a text behind \\c")),
        }
    }

    // Appends a byte that stands for itself.
    fn put(&mut self, byte: u8) -> Result<Place, Fault> {
        push(&mut self.bytes, byte)?;
        Ok(Place::Plain)
    }

    fn take_plain(&mut self, byte: u8) -> Result<Place, Fault> {
        match byte {
            b'\\' => Ok(Place::Escape),
            b'{' => {
                self.name.clear();
                Ok(Place::Name)
            }
            _ => self.put(byte),
        }
    }

    fn take_escape(&mut self, byte: u8) -> Result<Place, Fault> {
        match byte {
            b'\\' => self.put(b'\\'),
            b'n' => self.put(b'\n'),
            b'r' => self.put(b'\r'),
            b't' => self.put(b'\t'),
            b'x' => Ok(Place::FirstDigit),
            b'c' => Ok(Place::Cut),
            _ => Err(Fault("no such escape")),
        }
    }

    fn take_name(&mut self, names: Names<'_>, byte: u8) -> Result<Place, Fault> {
        if byte != b'}' {
            push(&mut self.name, byte)?;
            return Ok(Place::Name);
        }
        match names.text(&self.name) {
            Some(found) => self.bytes.extend_from_slice(found.bytes.as_slice())?,
            None => {
                let number = names.number(&self.name)?;
                let digits = format!(in self.alloc; "{number}")?;
                self.bytes.extend_from_slice(digits.as_bytes())?;
            }
        }
        Ok(Place::Plain)
    }
}

// What a hexadecimal digit stands for.
fn digit(byte: u8) -> Result<u8, Fault> {
    match byte {
        b'0'..=b'9' => Ok(byte - b'0'),
        b'a'..=b'f' => Ok(byte - b'a' + 10),
        _ => Err(Fault("no hexadecimal digit")),
    }
}
