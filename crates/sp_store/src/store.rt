ghost use Rattle.std.specs.Prelude.{◌≡◌, ◌+◌, ◌<◌, ◌≤◌, length, option_copied, IfOk, IfErr, OnOk, OnErr};
ghost use Rattle.std.specs.Option.{option_copied_mut};
ghost use Rattle.std.specs.Borrow.{sem};
ghost use Rattle.sp_base.specs.Limits.{live_limit};
ghost use Rattle.sp_store.specs.Stored.{opened, put_in, found, without, renewed, renewed_id, AreListed};
ghost use Rattle.sp_store.specs.Faults.{IsPutFault};

use crate::place::{Place, index_of};
use crate::{Memory, PutFault};
use slab::Slab;
use std::alloc::Global;
use std::marker::Model;

/// Values under ids that rise by one and are never used again. Contracts see `entries`, the ids with their
/// values, the newest first, the `next` id, and the `bound`, how many values may be live at a time.
#[derive(Drop)]
pub struct Store<V> {
    slots: Slab<V>,
    // The newest first, so that their ids fall.
    places: Vec<Place>,
    next: u64,
    bound: u32,
}

impl<V> Model for Store<V> {
    ghost use Rattle.sp_store.specs.Stored.{Stored, stored_code};

    ghost Value = { Stored V };

    ghost coded = { stored_code V.code };

    ghost use Rattle.slab.specs.Slab.{get};
    ghost use Rattle.sp_store.specs.Places.{listed, IsSound};

    ghost view = { λ s. record {
      entries = listed (get s.slots) s.places.items;
      next = s.next;
      bound = s.bound;
    } };

    ghost invariant = { λ s. IsSound (get s.slots) s.next s.bound s.places.items };
}

impl<V> Store<V> {
    ghost use Rattle.sp_store.specs.Lends.{lends_found};

    /// No value is live, and at most `bound` may be at a time. The first id is 1.
    pub fn new(alloc: Global, bound: u32) -> Result<Store<V>, Memory>
        requires some { 0 < bound }
        requires most { bound ≤ live_limit }
        ensures { IfOk result (λ store. store ≡ opened bound) }
    {
        let places = Vec::with_capacity(alloc, bound as usize)?;
        Ok(Store {
            slots: Slab::new(alloc),
            places,
            next: 1,
            bound,
        })
    }

    /// Takes a value in under the next id, and answers the id. A fault hands the value back, and the store
    /// is as before: `Full` comes exactly where as many are live as may be.
    pub fn put(&mut self, value: V) -> Result<u64, PutFault<V>>
        requires { self.old.next < 18446744073709551615 }
        ensures id { IfOk result (λ id. id ≡ self.old.next) }
        ensures room { OnOk result (length self.old.entries < self.old.bound) }
        ensures stored { OnOk result (self.new ≡ put_in self.old value) }
        ensures err { OnErr result (self.new ≡ self.old) }
        ensures fault { IfErr result (IsPutFault self.old value) }
    {
        let live = self.places.len() as u32;
        if live == self.bound {
            return Err(PutFault::Full {
                live,
                bound: self.bound,
                value,
            });
        }
        if self.places.reserve(1).is_err() {
            return Err(PutFault::Memory(value));
        }
        match self.slots.insert(value) {
            Ok(key) => {
                let id = self.next;
                // There is room for it.
                let _ = self.places.insert(0, Place { id, key });
                self.next += 1;
                Ok(id)
            }
            Err(failed) => Err(PutFault::Memory(failed.value)),
        }
    }

    /// The value of an id, None exactly where the id isn't live.
    pub fn get(&self, id: u64) -> Option<&V>
        ensures { option_copied result ≡ found self.now.entries id }
    {
        let index = index_of(&self.places, id)?;
        self.slots.get(self.places[index].key)
    }

    /// The value of an id for writing, None exactly where the id isn't live.
    pub fn get_mut(&mut self, id: u64) -> Option<&mut V>
        ensures* writes_back { sem 𝓛 (lends_found V.row self.entry id result) }
        ensures value { option_copied_mut result ≡ found self.old.entries id }
    {
        let index = index_of(&self.places, id)?;
        self.slots.get_mut(self.places[index].key)
    }

    /// Takes the value of an id out, None exactly where the id isn't live. Takes no memory.
    pub fn take(&mut self, id: u64) -> Option<V>
        ensures value { result ≡ found self.old.entries id }
        ensures rest { self.new ≡ without self.old id }
    {
        let index = index_of(&self.places, id)?;
        let place = self.places.remove(index);
        self.slots.try_remove(place.key)
    }

    /// Gives the value of an id the next id, and answers that id; None exactly where the id isn't live. The
    /// value is the newest then. Takes no memory.
    pub fn renew(&mut self, id: u64) -> Option<u64>
        requires { self.old.next < 18446744073709551615 }
        ensures id { result ≡ renewed_id self.old id }
        ensures entries { self.new ≡ renewed self.old id }
    {
        let index = index_of(&self.places, id)?;
        let key = self.places.remove(index).key;
        let renewed = self.next;
        // The room of the place that was removed is left.
        let _ = self.places.insert(0, Place { id: renewed, key });
        self.next = renewed + 1;
        Some(renewed)
    }

    /// How many values are live.
    pub fn live(&self) -> u32
        ensures live { result ≡ length self.now.entries }
        ensures most { result ≤ self.now.bound }
        ensures listed { AreListed self.now }
    {
        self.places.len() as u32
    }

    /// How many values may be live at a time.
    pub fn bound(&self) -> u32
        ensures { result ≡ self.now.bound }
    {
        self.bound
    }
}
