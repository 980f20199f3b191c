// One partial match.
ghost use Rattle.std.specs.Prelude.{◌≡◌, ℕ, ◌<◌, ◌-◌, not, [], None, Some, length, IfOk, IsTrue, OnOk, OnErr, slice_index_or, false, map};
ghost use Rattle.std.specs.Option.{option_map};
ghost use Rattle.std.specs.List.{All, AllPairs, last_or, list_any};
ghost use Rattle.sp_base.specs.Numbers.{is_among};
ghost use Rattle.sp_match.specs.inside.Tally.{is_leaving};
ghost use Rattle.sp_match.specs.inside.Kept.{kept, stays, empty, grown, before, binds, but_last, last_under, name_under, undone, CanGrow, CanUndo};
ghost use Rattle.sp_match.specs.declared.run.Fate.TheVariants.{Stays};

use crate::Memory;
use sp_base::Numbers;
use sp_base::law::rising_same;
use sp_plan::{Binds, Bound, Element, SharedEvent};
use std::alloc::Global;

/// A partial match that is open.
#[derive(Drop)]
pub struct Run {
    /// 1 for the first run of the window, and so on in the order of their start.
    pub number: u32,
    /// Each bound name with the number of its event, in the order in which they were bound.
    pub bound: Vec<(u8, u32)>,
    /// The numbers of the events that it would use if it completed as it is.
    pub used: Numbers,
    // the bound events, as predicates read them
    pub(crate) events: Bound,
    // which names are bound
    pub(crate) names: [bool; 32],
    // how many names are bound
    pub(crate) bound_names: u32,
    // what counts for it next, where that was looked for since it bound its last event
    pub(crate) ahead: Option<Ahead>,
    pub(crate) fate: Fate,
}

/// What counts for a run next.
#[derive(Clone, Copy, Drop)]
pub(crate) struct Ahead {
    /// The first element that it hasn't filled.
    pub(crate) element: Option<Element>,
    /// Its last name, where it may be bound more than once.
    pub(crate) again: Option<u8>,
    /// The names that guard it are those from the first number on and below the second.
    pub(crate) guards: (u8, u8),
}

/// Whether a run stays open when the event has been handled.
#[derive(Clone, Copy, Drop)]
pub(crate) enum Fate {
    Stays,
    Completes,
    Leaves,
}

impl Binds for Run {
    ghost binds = { λ run. run.events };

    fn bound(&self) -> &Bound {
        &self.events
    }
}

// The name of a pair, where it is of the event of this number.
fn name_under(pair: (u8, u32), number: u32) -> Option<u8>
    ensures { result ≡ name_under number (Some pair) }
{
    if pair.1 == number { Some(pair.0) } else { None }
}

// Makes room for one number more where it is consumed; for others none is needed.
fn make_room(used: &mut Numbers, consumed: bool) -> Result<(), Memory>
    ensures list { used.new.list ≡ used.old.list }
    ensures room { OnOk result (IsTrue consumed → 0 < used.new.spare) }
{
    if consumed { used.reserve(1) } else { Ok(()) }
}

// The same numbers as others, in the room of these.
fn copy_numbers(alloc: Global, numbers: &mut Numbers, others: &Numbers) -> Result<(), Memory>
    ensures { OnOk result (numbers.new.list ≡ others.now.list) }
{
    // Lists that rise are equal where they have the same numbers.
    rising_same();
    numbers.clear();
    if others.list().is_empty() {
        return Ok(());
    }
    numbers.union(alloc, others)
}

impl Run {
    // A run that has bound no event. Takes no memory.
    pub(crate) fn new(alloc: Global, number: u32) -> Run
        ensures { kept result ≡ empty number }
    {
        Run {
            number,
            bound: Vec::new(alloc),
            used: Numbers::new(alloc),
            events: Bound::new(alloc),
            names: [false; 32],
            bound_names: 0,
            ahead: None,
            fate: Fate::Stays,
        }
    }

    // A run that has bound no event, in the rooms of this one. Takes no memory.
    pub(crate) fn renewed(mut self, number: u32) -> Run
        ensures { kept result ≡ empty number }
    {
        self.number = number;
        self.bound.clear();
        self.used.clear();
        self.events.clear();
        self.names = [false; 32];
        self.bound_names = 0;
        self.ahead = None;
        self.fate = Fate::Stays;
        self
    }

    // Whether it stays open.
    pub(crate) fn stays(&self) -> bool
        ensures { result ≡ stays self.now.fate }
    {
        matches!(self.fate, Fate::Stays)
    }

    // Whether it is abandoned.
    pub(crate) fn leaves(&self) -> bool
        ensures { result ≡ is_leaving self.now.fate }
    {
        matches!(self.fate, Fate::Leaves)
    }

    // Whether it has bound one of these numbers, under whatever name. Its numbers rise, so those below all
    // of these aren't looked at.
    pub(crate) fn holds_one(&self, numbers: &Numbers) -> bool
        requires { AllPairs (λ m n. m < n) (map (λ pair. pair.1) self.now.bound.items) }
        ensures { result
            ≡ list_any (λ pair. is_among numbers.now.list pair.1) self.now.bound.items }
    {
        let numbers_listed = numbers.list();
        if numbers_listed.is_empty() {
            return false;
        }
        let first = numbers_listed[0];
        let bound = self.bound.as_slice();
        let mut left = bound.len();
        while left > 0 {
            let (_, number) = bound[left - 1];
            if number < first {
                return false;
            }
            if numbers.has(number) {
                return true;
            }
            left -= 1;
        }
        false
    }

    // Binds an event to a name. What it may take next isn't looked for. After want of memory it is as before.
    pub(crate) fn grow(
        &mut self,
        name: u8,
        consumed: bool,
        number: u32,
        event: SharedEvent,
    ) -> Result<(), Memory>
        requires { CanGrow name number (kept self.old) }
        ensures grown { OnOk result
            (kept self.new ≡ grown name consumed number event (kept self.old)) }
        ensures err { OnErr result (kept self.new ≡ kept self.old) }
    {
        self.bound.reserve(1)?;
        make_room(&mut self.used, consumed)?;
        self.events.bind_shared(name, event)?;
        self.bound.push_reserved((name, number));
        if consumed {
            self.used.put(number);
        }
        if !self.names[name as usize] {
            self.bound_names += 1;
        }
        self.names[name as usize] = true;
        self.ahead = None;
        Ok(())
    }

    // The name of its last pair, where that is of the event of this number.
    pub(crate) fn last_under(&self, number: u32) -> Option<u8>
        ensures { result ≡ last_under number (kept self.now) }
    {
        match self.bound.last() {
            Some(pair) => name_under(*pair, number),
            None => None,
        }
    }

    // Whether the pair before its last one is of the name.
    pub(crate) fn repeats(&self, name: u8) -> bool
        ensures { IsTrue result → option_map (λ (pair : ℕ × ℕ). pair.0)
            (last_or None (but_last self.now.bound.items)) ≡ Some name }
    {
        let bound = self.bound.as_slice();
        bound.len() > 1 && bound[bound.len() - 2].0 == name
    }

    // Whether some event is bound to the name.
    fn binds(&self, name: u8) -> bool
        ensures { result ≡ binds name self.now.bound.items }
    {
        self.bound.as_slice().iter().any(|pair| pair.0 == name)
    }

    // Takes the last pair away, which the event of this number brought under the name.
    fn take_last(&mut self, name: u8, number: u32)
        requires named { name < 32 }
        requires some { 0 < length self.old.events }
        requires bound { 0 < self.old.bound_names }
        requires stays { self.old.fate ≡ Stays }
        requires unknown { self.old.ahead ≡ None }
        ensures { kept self.new ≡ undone number (Some name) (kept self.old) }
    {
        self.bound.pop();
        self.events.unbind();
        if self.used.has(number) {
            self.used.pop();
        }
        if !self.binds(name) {
            self.names[name as usize] = false;
            self.bound_names -= 1;
        }
    }

    // Takes the pair away that the event of this number brought, if it brought one: the run is as before the
    // event, and stays. What it may take next has to be looked for.
    pub(crate) fn undo(&mut self, number: u32)
        requires { CanUndo (kept self.old) }
        ensures { kept self.new ≡ before number (kept self.old) }
    {
        self.fate = Fate::Stays;
        self.ahead = None;
        if let Some(name) = self.last_under(number) {
            self.take_last(name, number);
        }
    }

    // The same run once more.
    pub(crate) fn copy(&self, alloc: Global) -> Result<Run, Memory>
        ensures { IfOk result (λ run. kept run ≡ kept self.now) }
    {
        let mut run = Run::new(alloc, self.number);
        run.copy_from(alloc, self)?;
        Ok(run)
    }

    // The same run as another, in the rooms of this one.
    pub(crate) fn copy_from(&mut self, alloc: Global, other: &Run) -> Result<(), Memory>
        ensures { OnOk result (kept self.new ≡ kept other.now) }
    {
        self.number = other.number;
        self.bound.clear();
        self.bound.extend_from_slice(&other.bound)?;
        copy_numbers(alloc, &mut self.used, &other.used)?;
        self.events.copy_from(&other.events)?;
        self.names = other.names;
        self.bound_names = other.bound_names;
        self.ahead = other.ahead;
        self.fate = other.fate;
        Ok(())
    }
}
