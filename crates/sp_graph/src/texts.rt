ghost use Rattle.std.specs.Prelude.{◌≡◌, [], fold, IfOk, OnOk};
ghost use Rattle.sp_plan.specs.Texts.{symbol_of, with_text};

use indexmap::IndexSet;
use sp_plan::{Memory, Text};
use std::alloc::{AllocError, Global};
use std::marker::Model;

/// The texts of an input that is derived, in the order in which they came: the place of each is its number.
/// Contracts see the list of their bytes.
#[derive(Drop)]
pub(crate) struct Texts {
    set: IndexSet<Vec<u8>>,
}

impl Model for Texts {
    ghost use Rattle.std.specs.Prelude.{ℕ, List, map};

    ghost Value = { List (List ℕ) };

    ghost view = { λ texts. map (λ text. text.items) texts.set.keys };
}

impl Texts {
    /// These texts, numbered in their order.
    pub(crate) fn of(alloc: Global, texts: &[Text]) -> Result<Texts, Memory>
        ensures { IfOk result (λ own. own ≡ fold with_text [] texts.now) }
    {
        let mut own = Texts {
            set: IndexSet::new(alloc),
        };
        for text in texts {
            own.number(alloc, text.as_str().as_bytes())?;
        }
        Ok(own)
    }

    /// The number of a text, which is known from now on.
    pub(crate) fn number(&mut self, alloc: Global, text: &[u8]) -> Result<u32, Memory>
        ensures number { IfOk result (λ number. number ≡ symbol_of self.old text.now) }
        ensures texts { OnOk result (self.new ≡ with_text self.old text.now) }
    {
        // There is no number for a place past the last `u32`.
        match u32::try_from(self.place(alloc, text)?) {
            Ok(number) => Ok(number),
            Err(_) => Err(AllocError),
        }
    }

    // The place of a text, which is known from now on.
    fn place(&mut self, alloc: Global, text: &[u8]) -> Result<usize, Memory>
        ensures place { IfOk result (λ place. place ≡ symbol_of self.old text.now) }
        ensures texts { OnOk result (self.new ≡ with_text self.old text.now) }
    {
        if let Some(place) = self.set.get_index_of(text) {
            return Ok(place);
        }
        let (place, _) = self.set.insert_full(Vec::from_slice(alloc, text)?)?;
        Ok(place)
    }
}
