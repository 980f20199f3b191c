ghost use Rattle.std.specs.Prelude.{◌≡◌, ◌<◌, [], true, fold, length, option_map, take, IfOk, OnOk};
ghost use Rattle.std.specs.List.{slice_get};
ghost use Rattle.std.specs.Str.{is_utf8};
ghost use Rattle.sp_plan.specs.Texts.{symbol_of, with_text};

use indexmap::IndexSet;
use sp_plan::{Memory, Text};
use std::alloc::{AllocError, Global};
use std::marker::Model;

// How many marks there are.
const MARKS: usize = 256;

/// Texts by their numbers: each has its place in the order in which they came, and is UTF-8. Contracts see
/// the list of their bytes.
#[derive(Drop)]
pub(crate) struct Texts {
    set: IndexSet<Vec<u8>>,
    // For each mark the number that a text of this mark had last. It is only where a text is looked for
    // first, so it may be out of date.
    last: [u32; MARKS],
}

impl Model for Texts {
    ghost use Rattle.std.specs.Prelude.{◌≡◌, ℕ, List, map, true};
    ghost use Rattle.std.specs.List.{All};
    ghost use Rattle.std.specs.Str.{is_utf8};

    ghost Value = { List (List ℕ) };

    ghost view = { λ texts. map (λ text. text.items) texts.set.keys };

    ghost invariant = { λ texts. All (λ text. is_utf8 text.items ≡ true) texts.set.keys };
}

impl Texts {
    /// These texts, numbered in their order.
    pub(crate) fn of(alloc: Global, texts: &[Text]) -> Result<Texts, Memory>
        ensures { IfOk result (λ known. known ≡ fold with_text [] texts.now) }
    {
        let mut known = Texts {
            set: IndexSet::new(alloc),
            last: [0; MARKS],
        };
        for text in texts {
            known.find(alloc, text.as_str().as_bytes())?;
        }
        Ok(known)
    }

    /// How many there are.
    pub(crate) fn len(&self) -> usize
        ensures { result ≡ length self.now }
    {
        self.set.len()
    }

    /// The text of this number, if one has it.
    pub(crate) fn get(&self, number: u32) -> Option<&str>
        ensures { option_map (λ text. text.now) result ≡ slice_get self.now number }
    {
        let text = self.set.as_slice().get(number as usize)?;
        str::from_utf8(text.as_slice()).ok()
    }

    /// Forgets the texts from this number on. Takes no memory.
    pub(crate) fn truncate(&mut self, number: usize)
        ensures { self.new ≡ take number self.old }
    {
        self.set.truncate(number);
    }

    /// The number of a text, which is known from now on. One that is known takes no
    /// memory. Where memory is wanted, it may be known or not; those before it are as they were.
    pub(crate) fn number(&mut self, alloc: Global, text: &[u8]) -> Result<u32, Memory>
        requires { is_utf8 text.now ≡ true }
        ensures number { IfOk result (λ number. number ≡ symbol_of self.old text.now) }
        ensures texts { OnOk result (self.new ≡ with_text self.old text.now) }
        ensures kept { take (length self.old) self.new ≡ self.old }
    {
        let mark = mark_of(text);
        let last = self.last[mark];
        if self.is_at(last, text) {
            return Ok(last);
        }
        let number = self.find(alloc, text)?;
        self.last[mark] = number;
        Ok(number)
    }

    // Whether this text has this number.
    fn is_at(&self, number: u32, text: &[u8]) -> bool
        ensures number { result ≡ true → number ≡ symbol_of self.now text.now }
        ensures known { result ≡ true → self.now ≡ with_text self.now text.now }
    {
        match self.set.as_slice().get(number as usize) {
            Some(known) => known.as_slice() == text,
            None => false,
        }
    }

    // The number of a text, which is looked for among all.
    fn find(&mut self, alloc: Global, text: &[u8]) -> Result<u32, Memory>
        requires { is_utf8 text.now ≡ true }
        ensures number { IfOk result (λ number. number ≡ symbol_of self.old text.now) }
        ensures texts { OnOk result (self.new ≡ with_text self.old text.now) }
        ensures kept { take (length self.old) self.new ≡ self.old }
    {
        if let Some(place) = self.set.get_index_of(text) {
            return number_at(place);
        }
        let owned = Vec::from_slice(alloc, text)?;
        let (place, _) = self.set.insert_full(owned)?;
        number_at(place)
    }
}

// A mark of a text, by its ends and its length: texts that come in turn mostly have marks of their own.
fn mark_of(text: &[u8]) -> usize
    ensures { result < 256 }
{
    match (text.first(), text.last()) {
        (Some(first), Some(last)) => {
            (usize::from(*first) * 6 + usize::from(*last) + text.len() % 64) % MARKS
        }
        _ => 0,
    }
}

// A place as a number. There is no number for a place past the last `u32`.
fn number_at(place: usize) -> Result<u32, Memory>
    ensures { IfOk result (λ number. number ≡ place) }
{
    match u32::try_from(place) {
        Ok(number) => Ok(number),
        Err(_) => Err(AllocError),
    }
}
