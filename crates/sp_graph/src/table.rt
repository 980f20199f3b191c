// The numbers that texts of the first input have in the second.
ghost use Rattle.std.specs.Prelude.{◌≡◌, map, string_bytes, fold, replicate, slice_get, Some, None, IfOk, IfSome, OnOk, []};
ghost use Rattle.sp_plan.specs.Texts.{symbol_of, with_text};
ghost use Rattle.sp_graph.specs.Derived.{text_at};
ghost use Rattle.sp_graph.specs.Tables.{IsTable};

use crate::texts::Texts;
use sp_plan::{Memory, Text};
use std::alloc::Global;

/// The texts of the second input, and for each text of the first the number that it has there, once it was
/// asked for: so each is looked up once, however many matches give it.
#[derive(Drop)]
pub(crate) struct Table {
    pub(crate) known: Texts,
    pub(crate) numbers: Vec<Option<u32>>,
}

// The text that has this number in the first input; the empty one where none has.
fn text_at(texts: &[String], symbol: usize) -> &[u8]
    ensures { result.now ≡ text_at (map string_bytes texts.now) symbol }
{
    match texts.get(symbol) {
        Some(text) => text.as_str().as_bytes(),
        None => &[],
    }
}

impl Table {
    /// The texts of the second query are known, and none of so many texts of the first input was asked for.
    pub(crate) fn new(alloc: Global, count: usize, texts: &[Text]) -> Result<Table, Memory>
        ensures known { IfOk result (λ table. table.known ≡ fold with_text [] texts.now) }
        ensures blank { IfOk result (λ table. table.numbers.items ≡ replicate count None) }
    {
        Ok(Table {
            known: Texts::of(alloc, texts)?,
            numbers: vec![in alloc; None; count]?,
        })
    }

    // The number that a text was given, None where it wasn't asked for.
    fn asked(&self, symbol: usize) -> Option<u32>
        ensures { IfSome result
            (λ number. slice_get self.now.numbers.items symbol ≡ Some (Some number)) }
    {
        match self.numbers.get(symbol) {
            Some(number) => *number,
            None => None,
        }
    }

    /// The number in the second input of the text that has this number in the first; where none has, it is the
    /// empty text's.
    pub(crate) fn number(
        &mut self,
        alloc: Global,
        texts: &[String],
        symbol: usize,
    ) -> Result<u32, Memory>
        requires { IsTable (map string_bytes texts.now) self.old }
        ensures number { IfOk result
            (λ number. number ≡ symbol_of self.old.known
            (text_at (map string_bytes texts.now) symbol)) }
        ensures known { OnOk result
            (self.new.known ≡ with_text self.old.known
            (text_at (map string_bytes texts.now) symbol)) }
        ensures table { OnOk result (IsTable (map string_bytes texts.now) self.new) }
    {
        if let Some(number) = self.asked(symbol) {
            return Ok(number);
        }
        let number = self.known.number(alloc, text_at(texts, symbol))?;
        if let Some(own) = self.numbers.get_mut(symbol) {
            *own = Some(number);
        }
        Ok(number)
    }
}
