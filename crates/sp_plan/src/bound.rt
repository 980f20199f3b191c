ghost use Rattle.std.specs.Prelude.{◌≡◌, ◌++◌, ◌∷◌, [], ◌<◌, ◌-◌, length, take, map, ◌↔◌, IsTrue, IfOk, OnOk, OnErr};
ghost use Rattle.std.specs.Option.{option_map, option_copied};
ghost use Rattle.sp_plan.specs.Values.{last_bound};
ghost use Rattle.sp_plan.specs.Blocks.{seen, IsBlock, Blocked};
ghost use Rattle.sp_plan.specs.Released.{events_of, AreReleased};

use crate::pairs::{Pair, Pairs};
use crate::{Event, Memory, SharedEvent};
use std::alloc::Global;
use std::marker::Model;

/// The events that a partial match has bound so far, each with the number of its name. They are held by
/// handles, so that one event which many matches have bound is there once.
#[derive(Drop)]
pub struct Bound {
    pairs: Pairs,
}

impl Model for Bound {
    ghost use Rattle.std.specs.Prelude.{ℕ, List, [], map};
    ghost use Rattle.sp_plan.specs.declared.event.Event.{Event};
    ghost use Rattle.sp_plan.specs.Blocks.{seen, Blocked};

    ghost Value = { List (ℕ × Event) };

    ghost view = { λ b. map seen b.pairs };

    ghost invariant = { λ b. Blocked [] b.pairs };
}

// Where the block of a pair of this name begins that is put behind these.
fn block_behind(pairs: &Pairs, name: u8) -> usize
    requires { Blocked [] pairs.now }
    ensures { IsBlock pairs.now name result }
{
    let length = pairs.len();
    if length == 0 {
        return 0;
    }
    let last = pairs.at(length - 1);
    if last.name == name {
        last.block
    } else {
        length
    }
}

// Whether two pairs have the same name and event.
fn same_pair(x: &Pair, y: &Pair) -> bool
    ensures { IsTrue result ↔ (seen x.now ≡ seen y.now) }
{
    x.name == y.name && x.event.event().same(y.event.event())
}

// Whether two lists of pairs have the same names and events.
fn same_pairs(xs: &Pairs, ys: &Pairs) -> bool
    ensures { IsTrue result ↔ (map seen xs.now ≡ map seen ys.now) }
{
    if xs.len() != ys.len() {
        return false;
    }
    for i in 0..xs.len() {
        if !same_pair(xs.at(i), ys.at(i)) {
            return false;
        }
    }
    true
}

impl Bound {
    /// No event is bound. Takes no memory.
    pub fn new(alloc: Global) -> Bound
        ensures { result ≡ [] }
    {
        Bound {
            pairs: Pairs::new(alloc),
        }
    }

    /// Binds one event more: a copy of it. Want of memory leaves the value as it was.
    pub fn bind(&mut self, alloc: Global, name: u8, event: &Event) -> Result<(), Memory>
        ensures bound { OnOk result (self.new ≡ self.old ++ (name, event.now) ∷ []) }
        ensures kept { OnErr result (self.new ≡ self.old) }
    {
        self.bind_shared(name, SharedEvent::of(alloc, event)?)
    }

    /// Binds one event more, and copies nothing. Want of memory leaves the value as it was.
    pub fn bind_shared(&mut self, name: u8, event: SharedEvent) -> Result<(), Memory>
        ensures bound { OnOk result (self.new ≡ self.old ++ (name, event) ∷ []) }
        ensures kept { OnErr result (self.new ≡ self.old) }
    {
        let block = block_behind(&self.pairs, name);
        self.pairs.push(Pair { name, block, event })?;
        Ok(())
    }

    /// Takes the event that was bound last away. Takes no memory.
    pub fn unbind(&mut self)
        requires { 0 < length self.old }
        ensures { self.new ≡ take (length self.old - 1) self.old }
    {
        self.pairs.pop();
    }

    /// Takes all events away and keeps the room for them. Takes no memory.
    pub fn clear(&mut self)
        ensures { self.new ≡ [] }
    {
        self.pairs.clear();
    }

    /// Takes all events away as `clear` does, and puts handles of them behind those in the list, the last one
    /// first: of those that stand in no page which a copy may share. Takes memory for the list alone: handles
    /// for which it is wanting are dropped.
    pub fn release(&mut self, handles: &mut Vec<SharedEvent>)
        ensures none { self.new ≡ [] }
        ensures handles { AreReleased (events_of self.old) handles.old.items handles.new.items }
    {
        self.pairs.release(handles);
    }

    /// The same events once more. No event is copied.
    pub fn copy(&self, alloc: Global) -> Result<Bound, Memory>
        ensures { IfOk result (λ bound. bound ≡ self.now) }
    {
        Ok(Bound {
            pairs: self.pairs.copy(alloc)?,
        })
    }

    /// The same events as those of another, in the rooms of this one. No event is copied. After want of memory none
    /// is bound.
    pub fn copy_from(&mut self, other: &Bound) -> Result<(), Memory>
        ensures ok { OnOk result (self.new ≡ other.now) }
        ensures err { OnErr result (self.new ≡ []) }
    {
        self.pairs.copy_from(&other.pairs)
    }

    /// Whether the same events are bound to the same names in the same order. Takes no memory.
    pub fn same(&self, other: &Bound) -> bool
        ensures { IsTrue result ↔ (self.now ≡ other.now) }
    {
        same_pairs(&self.pairs, &other.pairs)
    }

    /// The last event bound to the name, None exactly where there is none. Takes one step for each
    /// block of equal names from there to the end.
    pub fn get(&self, name: u8) -> Option<&Event>
        ensures { option_copied result ≡ option_map (λ pair. pair.1) (last_bound name self.now) }
    {
        match self.pairs.last_of(name) {
            Some(pair) => Some(pair.event.event()),
            None => None,
        }
    }
}
