// One line of a row, `KEY TEXT`, or `KEY*N TEXT` for N such lines.
use crate::delayed::{Delayed, delayed_by};
use crate::escapes::Text;
use crate::fault::Fault;
use crate::row::Row;
use crate::told::{Told, told_by};
use sp_gen::generate;
use std::alloc::Global;
use std::str;

/// The word of a key, and how often its line stands there.
pub(crate) fn repeated(word: &str) -> Result<(&str, u32), Fault> {
    match word.split_once('*') {
        Some((word, times)) => Ok((word, number(times)?)),
        None => Ok((word, 1)),
    }
}

/// The number that a text is.
pub(crate) fn number(text: &str) -> Result<u32, Fault> {
    match text.parse::<u32>() {
        Ok(number) => Ok(number),
        Err(_) => Err(Fault("no number")),
    }
}

/// The two numbers that a text is, with a blank between them.
pub(crate) fn two_numbers(text: &str) -> Result<(u32, u32), Fault> {
    match text.split_once(' ') {
        Some((first, second)) => Ok((number(first)?, number(second)?)),
        None => Err(Fault("no two numbers")),
    }
}

/// Appends, or tells that there is no memory.
pub(crate) fn push<T: Drop>(to: &mut Vec<T>, value: T) -> Result<(), Fault> {
    match to.push(value) {
        Ok(()) => Ok(()),
        Err(_) => Err(Fault("no memory")),
    }
}

// Appends a text so many times, each time with a line feed unless it is cut.
fn append(text: &Text, times: u32, to: &mut Vec<u8>) -> Result<(), Fault> {
    for _ in 0..times {
        to.extend_from_slice(text.bytes.as_slice())?;
        if !text.is_cut {
            push(to, b'\n')?;
        }
    }
    Ok(())
}

// Appends an event with this time.
fn put_event(alloc: Global, time: u32, letter: u8, to: &mut Vec<u8>) -> Result<(), Fault> {
    let time = format!(in alloc; "{time},")?;
    to.extend_from_slice(time.as_bytes())?;
    push(to, letter)?;
    push(to, b'\n')
}

// Appends the header `at,k`, and for each letter an event with the times 1, 2, 3 and so on.
fn put_events(alloc: Global, letters: &[u8], to: &mut Vec<u8>) -> Result<(), Fault> {
    to.extend_from_slice(b"at,k\n")?;
    let mut time = 0u32;
    for letter in letters {
        time = time.saturating_add(1);
        put_event(alloc, time, *letter, to)?;
    }
    Ok(())
}

// The letters of scattered rows.
const LETTERS: [u8; 4] = *b"abcx";

// Appends the header `at,k`, and as many rows as a text says with the times 1, 2, 3 and so on, whose letters look
// drawn by lot and are the same in each run.
fn put_scattered(alloc: Global, text: &str, to: &mut Vec<u8>) -> Result<(), Fault> {
    to.extend_from_slice(b"at,k\n")?;
    let mut drawn = 7u32;
    for before in 0..number(text)? {
        drawn = drawn.wrapping_mul(1_664_525).wrapping_add(1_013_904_223);
        let letter = LETTERS[(drawn >> 20) as usize % 4];
        put_event(alloc, before + 1, letter, to)?;
    }
    Ok(())
}

// Appends the header and as many rows as a text says, generated from the seed behind it.
fn put_generated(alloc: Global, text: &str, to: &mut Vec<u8>) -> Result<(), Fault> {
    let (count, seed) = two_numbers(text)?;
    let rows = generate(alloc, count, seed)?;
    to.extend_from_slice(rows.as_bytes())?;
    Ok(())
}

// Appends the words of a text, parted by blanks.
fn put_words(alloc: Global, text: &str, words: &mut Vec<String>) -> Result<(), Fault> {
    for word in text.split_whitespace() {
        push(words, String::from_str(alloc, word)?)?;
    }
    Ok(())
}

// Appends so many times a text as one word.
fn put_word(alloc: Global, text: &str, times: u32, words: &mut Vec<String>) -> Result<(), Fault> {
    push(words, text.repeat(alloc, times as usize)?)
}

// Puts the name of a single call.
fn put_single(alloc: Global, name: &str, single: &mut String) -> Result<(), Fault> {
    *single = String::from_str(alloc, name)?;
    Ok(())
}

// Puts which jobs are delayed.
fn put_gate(text: &str, delayed: &mut Delayed) -> Result<(), Fault> {
    *delayed = delayed_by(text)?;
    Ok(())
}

// Puts what of a journal is told.
fn put_journal(text: &str, told: &mut Told) -> Result<(), Fault> {
    *told = told_by(text)?;
    Ok(())
}

// Appends the two numbers of a text.
fn push_two(text: &str, to: &mut Vec<(u32, u32)>) -> Result<(), Fault> {
    push(to, two_numbers(text)?)
}

// Appends a file of this name without content.
fn put_file(alloc: Global, name: &str, files: &mut Vec<(String, Vec<u8>)>) -> Result<(), Fault> {
    let name = String::from_str(alloc, name)?;
    push(files, (name, Vec::new(alloc)))
}

/// Puts a line, which stands there so many times, into the row.
pub(crate) fn put(
    alloc: Global,
    key: &str,
    times: u32,
    text: &Text,
    row: &mut Row,
) -> Result<(), Fault> {
    match key {
        "input" => append(text, times, &mut row.call.input),
        "output" => append(text, times, &mut row.expected.output),
        "error" => append(text, times, &mut row.expected.error),
        "left" => {
            row.call.tells_left = true;
            append(text, times, &mut row.expected.left)
        }
        "content" => match row.call.files.last_mut() {
            Some((_, bytes)) => append(text, times, bytes),
            None => Err(Fault("a content without its file")),
        },
        "events" => put_events(alloc, text.bytes.as_slice(), &mut row.call.input),
        "as-plain" => {
            row.is_as_plain = true;
            Ok(())
        }
        "counting" => {
            row.call.counts_predictors = true;
            Ok(())
        }
        _ => match str::from_utf8(text.bytes.as_slice()) {
            Ok(text) => put_text(alloc, key, times, text, row),
            Err(_) => Err(Fault("bytes that are no text")),
        },
    }
}

// Puts a line whose bytes are a text.
fn put_text(alloc: Global, key: &str, times: u32, text: &str, row: &mut Row) -> Result<(), Fault> {
    match key {
        "call" => put_single(alloc, text, &mut row.call.single),
        "words" => put_words(alloc, text, &mut row.call.words),
        "word" => put_word(alloc, text, times, &mut row.call.words),
        "file" => put_file(alloc, text, &mut row.call.files),
        "gate" => put_gate(text, &mut row.call.delayed),
        "journal" => put_journal(text, &mut row.call.told),
        "scattered" => put_scattered(alloc, text, &mut row.call.input),
        "generated" => put_generated(alloc, text, &mut row.call.input),
        "write-fails" => push_two(text, &mut row.call.failing.writes),
        "tell-fails" => push_two(text, &mut row.call.failing.tells),
        _ => put_number(key, text, row),
    }
}

// Puts a line whose text is a number.
fn put_number(key: &str, text: &str, row: &mut Row) -> Result<(), Fault> {
    match key {
        "status" => set(text, &mut row.expected.status),
        "piece" => set(text, &mut row.call.piece),
        "cut" => {
            row.expected.output.truncate(number(text)? as usize);
            Ok(())
        }
        "load-fails" => push(&mut row.call.failing.loads, number(text)?),
        "read-fails" => {
            row.call.failing.reads = Some(u64::from(number(text)?));
            Ok(())
        }
        _ => Err(Fault("no such key")),
    }
}

// Sets a number to that of a text.
fn set(text: &str, to: &mut u32) -> Result<(), Fault> {
    *to = number(text)?;
    Ok(())
}
