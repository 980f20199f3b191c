// What a run has bound.
ghost use Rattle.std.specs.Prelude.{◌≡◌, ℕ, ◌<◌, [], ◌∷◌, ◌++◌, ◌==◌, map, filter, slice_get, IfOk, OnOk};
ghost use Rattle.std.specs.List.{All, AllPairs, last_or, list_any};
ghost use Rattle.std.specs.Option.{option_map};
ghost use Rattle.sp_base.specs.Numbers.{is_among};
ghost use Rattle.sp_plan.specs.Bounds.{IsSmall, PredWithin};
ghost use Rattle.sp_plan.specs.Runs.{bound_events, holds_one, is_bound, is_consumed, numbers_under, used};
ghost use Rattle.sp_plan.specs.Values as values;

use sp_base::Numbers;
use sp_plan::{Bound, Event, Memory, Plan, Pred, SharedEvent, holds};
use std::alloc::Global;
use std::marker::Model;

/// The pairs of a run in the order in which they were bound: each a name with the number of its event, beside the
/// events as predicates read them. Contracts see the run.
#[derive(Drop)]
pub(crate) struct Pairs {
    pairs: Vec<(u8, u32)>,
    events: Bound,
}

impl Model for Pairs {
    ghost use Rattle.sp_plan.specs.Runs.{Run};

    ghost Value = { Run };

    ghost use Rattle.sp_scan.specs.inside.Joined.{joined, AreJoined};

    ghost view = { λ p. joined p.pairs.items p.events };

    ghost invariant = { λ p. AreJoined p.pairs.items p.events };
}

// Whether one of these pairs has one of the numbers.
fn have_one(pairs: &[(u8, u32)], numbers: &Numbers) -> bool
    ensures { result ≡ list_any (λ pair. is_among numbers.now.list pair.1) pairs.now }
{
    pairs.iter().any(|pair| numbers.has(pair.1))
}

// The same of pairs whose numbers rise: those below all of the numbers aren't looked at.
fn hold_one(pairs: &[(u8, u32)], numbers: &Numbers) -> bool
    requires { AllPairs (λ m n. m < n) (map (λ pair. pair.1) pairs.now) }
    ensures { result ≡ list_any (λ pair. is_among numbers.now.list pair.1) pairs.now }
{
    let Some(least) = numbers.list().first() else {
        return false;
    };
    let below = pairs.partition_point(|pair| pair.1 < *least);
    let (_, rest) = pairs.split_at(below);
    have_one(rest, numbers)
}

// The numbers of the pairs of a name.
fn under(alloc: Global, pairs: &[(u8, u32)], name: u8) -> Result<Numbers, Memory>
    requires { AllPairs (λ m n. m < n) (map (λ pair. pair.1) pairs.now) }
    ensures { IfOk result (λ numbers. numbers.list
        ≡ map (λ pair. pair.1) (filter (λ pair. pair.0 == name) pairs.now)) }
{
    let mut numbers = Numbers::new(alloc);
    for pair in pairs {
        if pair.0 == name {
            numbers.insert(pair.1)?;
        }
    }
    Ok(numbers)
}

// Whether the query consumes the events of a name.
fn is_consumed(plan: &Plan, name: u8) -> bool
    ensures { result ≡ is_consumed (slice_get plan.now.names name) }
{
    match plan.names.as_slice().get(name as usize) {
        Some(name) => name.consumed,
        None => false,
    }
}

// The numbers of the pairs of consumed names.
fn consumed(alloc: Global, plan: &Plan, pairs: &[(u8, u32)]) -> Result<Numbers, Memory>
    requires { AllPairs (λ m n. m < n) (map (λ pair. pair.1) pairs.now) }
    ensures { IfOk result (λ numbers. numbers.list ≡ map (λ pair. pair.1)
        (filter (λ pair. is_consumed (slice_get plan.now.names pair.0)) pairs.now)) }
{
    let mut numbers = Numbers::new(alloc);
    for pair in pairs {
        if is_consumed(plan, pair.0) {
            numbers.insert(pair.1)?;
        }
    }
    Ok(numbers)
}

impl Pairs {
    // No pair. Takes no memory.
    pub(crate) fn new(alloc: Global) -> Pairs
        ensures { result ≡ [] }
    {
        Pairs {
            pairs: Vec::new(alloc),
            events: Bound::new(alloc),
        }
    }

    // Binds the event of this number, which is past all of the pairs', to the name.
    pub(crate) fn bind(&mut self, name: u8, number: u32, event: SharedEvent) -> Result<(), Memory>
        requires past { All (λ pair. pair.number < number) self.old }
        requires small { IsSmall event }
        ensures { OnOk result (self.new ≡ self.old
            ++ (record { name = name; number = number; event = event }) ∷ []) }
    {
        self.pairs.reserve(1)?;
        self.events.bind_shared(name, event)?;
        self.pairs.push_reserved((name, number));
        Ok(())
    }

    // Whether an event is bound to the name. Takes one step for each block of equal names.
    pub(crate) fn has(&self, name: u8) -> bool
        ensures { result ≡ is_bound self.now name }
    {
        self.events.get(name).is_some()
    }

    // The name that was bound last.
    pub(crate) fn last_name(&self) -> Option<u8>
        ensures { result ≡ option_map (λ pair. pair.name) (last_or None self.now) }
    {
        match self.pairs.last() {
            Some(pair) => Some(pair.0),
            None => None,
        }
    }

    // Whether the predicate holds of the event at hand, over the events bound.
    pub(crate) fn fulfil(&self, pred: &Pred, event: &Event) -> bool
        requires within { PredWithin pred.now }
        requires small { IsSmall event.now }
        ensures { result ≡ values.holds pred.now event.now (bound_events self.now) }
    {
        holds(pred, event, &self.events)
    }

    // Whether one of these numbers is bound, under whatever name.
    pub(crate) fn hold_one(&self, numbers: &Numbers) -> bool
        ensures { result ≡ holds_one numbers.now.list self.now }
    {
        hold_one(&self.pairs, numbers)
    }

    // The numbers of the events bound to the name.
    pub(crate) fn numbers_under(&self, alloc: Global, name: u8) -> Result<Numbers, Memory>
        ensures { IfOk result (λ numbers. numbers.list ≡ numbers_under self.now name) }
    {
        under(alloc, &self.pairs, name)
    }

    // The numbers of the events bound to names that the query consumes.
    pub(crate) fn used(&self, alloc: Global, plan: &Plan) -> Result<Numbers, Memory>
        ensures { IfOk result (λ numbers. numbers.list ≡ used plan.now self.now) }
    {
        consumed(alloc, plan, &self.pairs)
    }
}
