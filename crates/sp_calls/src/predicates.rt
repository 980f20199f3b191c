// What predicates say of events, where the events before are bound.
ghost use Rattle.sp_plan.specs.Bounds.{AllSmall, IsSmall, PredWithin};
ghost use Rattle.sp_plan.specs.Compiled.{IsCompiled};

use crate::text::AnswerText;
use sp_plan::{Bound, Event, Name, Plan, Pred, holds, value};
use std::alloc::{AllocError, Global};

// Appends whether the name's predicate holds of the event, and what both sides of a comparison come to.
fn push_name(name: &Name, event: &Event, bound: &Bound, out: &mut AnswerText)
    requires within { PredWithin name.now.pred }
    requires event { IsSmall event.now }
    requires bound { AllSmall bound.now }
{
    out.text(name.text.as_str());
    out.text(if holds(&name.pred, event, bound) {
        ": true"
    } else {
        ": false"
    });
    if let Pred::Test { left, right, .. } = &name.pred {
        out.number(" ", value(left, event, bound));
        out.number(" ", value(right, event, bound));
    }
    out.text("\n");
}

// Appends what the predicate of each name says of the event at its place, and binds that to the name.
fn push_names(
    alloc: Global,
    plan: &Plan,
    events: &[Event],
    bound: &mut Bound,
    out: &mut AnswerText,
) -> Result<(), AllocError>
    requires plan { IsCompiled plan.now }
    requires bound { AllSmall bound.old }
{
    // A law: the numbers of an event that fits are small, which predicates ask for.
    sp_plan::law::fitting_events_are_small();
    let mut number = 0u8;
    for name in plan.names.as_slice() {
        match events.get(number as usize) {
            Some(event) if plan.fits(event) => {
                push_name(name, event, bound, out);
                bound.bind(alloc, number, event)?;
            }
            _ => {}
        }
        number = number.saturating_add(1);
    }
    Ok(())
}

/// Appends for each name of the plan what its predicate says of the event at the name's place, where the
/// events before are bound to the names before.
pub(crate) fn predicates(
    alloc: Global,
    plan: &Plan,
    events: &[Event],
    out: &mut AnswerText,
) -> Result<(), AllocError>
    requires { IsCompiled plan.now }
{
    let mut bound = Bound::new(alloc);
    let pushed = push_names(alloc, plan, events, &mut bound, out);
    drop(bound);
    pushed
}
