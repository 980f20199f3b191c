// What is true of every plan and event. A law runs no code: who calls it has the fact.
ghost use Rattle.sp_plan.specs.Held.{HeldSidesStandAlone};
ghost use Rattle.sp_plan.specs.Known.{KnownIsRight, WhatMayNotHoldDoesNot};
ghost use Rattle.sp_plan.specs.Laws.{FittingEventsAreSmall, PlansAreThemselves, ReadingIsState, SamePredicatesHoldAlike};

/// Law: the numbers of an event that fits a plan are at most 10^15 in magnitude.
pub fn fitting_events_are_small()
    ensures { FittingEventsAreSmall }
{}

/// Law: a plan is the same as itself, as `Plan::same` says it.
pub fn plans_are_themselves()
    ensures { PlansAreThemselves }
{}

/// Law: predicates that are the same, as `Plan::same` asks it of the predicates of two plans, hold of
/// the same events.
pub fn same_predicates_hold_alike()
    ensures { SamePredicatesHoldAlike }
{}

/// Law: the reading of events by their numbers comes to the state of those of them that are there and
/// aren't skipped; other numbers to skip, and events behind those read, don't count.
pub fn reading_is_state()
    ensures { ReadingIsState }
{}

/// Law: a predicate that may not hold of an event, as `may_hold` says it, doesn't, whatever events are
/// bound.
pub fn what_may_not_hold_does_not()
    ensures { WhatMayNotHoldDoesNot }
{}

/// Law: what `known` answers is what the predicate comes to, whatever events are bound.
pub fn known_is_right()
    ensures { KnownIsRight }
{}

/// Law: what the held sides of a predicate come to for runs depends only on the last event that each has bound to
/// each name that one of them reads.
pub fn held_sides_stand_alone()
    ensures { HeldSidesStandAlone }
{}
