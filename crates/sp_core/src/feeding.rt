// The next event, and the end of input.
ghost use Rattle.std.specs.Prelude.{◌≡◌, ◌+◌, ◌++◌, ◌∷◌, [], length, None, Some, IfOk, IfErr, OnOk, OnErr};
ghost use Rattle.sp_plan.specs.WindowNumbers.{Good};
ghost use Rattle.sp_group.specs.declared.step.Step.TheVariants as s;
ghost use Rattle.sp_core.specs.Faults.{IsFault};
ghost use Rattle.sp_core.specs.Running.{IsDone, after, refused};

use crate::rooms::{enter, make_room};
use crate::{Core, CoreFault, Memory, law};
use sp_base::limits::EVENT_LIMIT;
use sp_group::{Refusal, Step};
use sp_match::known_of;
use sp_plan::Event;
use std::alloc::Global;

impl Core {
    /// The next event, which fits the plan and whose time is not before the last one's. Answers its number,
    /// from 1. After a fault the core is as before; it is refused after the end of input, and where 1,048,576
    /// events were fed.
    pub fn feed(&mut self, alloc: Global, event: Event) -> Result<u32, CoreFault>
        requires good { Good self.old.plan (self.old.machine.events ++ event ∷ []) }
        ensures done { OnOk result (IsDone (s.Feed event) self.old self.new) }
        ensures number { IfOk result (λ number. number ≡ length self.old.machine.events + 1) }
        ensures err { OnErr result (self.new ≡ self.old) }
        ensures fault { IfErr result (IsFault self.old (s.Feed event)) }
    {
        if self.ended {
            return Err(CoreFault::Refused(Refusal::AfterEnd));
        }
        let fed = self.events.len() as u32;
        if fed >= EVENT_LIMIT {
            let limit = EVENT_LIMIT;
            return Err(CoreFault::Refused(Refusal::TooManyEvents { limit }));
        }
        match self.take_in(alloc, event) {
            Ok(()) => Ok(fed + 1),
            Err(_) => Err(CoreFault::Memory),
        }
    }

    // Takes in an event that is not refused.
    fn take_in(&mut self, alloc: Global, event: Event) -> Result<(), Memory>
        requires good { Good self.old.plan (self.old.machine.events ++ event ∷ []) }
        requires passes { refused self.old (s.Feed event) ≡ None }
        ensures ok { OnOk result (self.new ≡ after self.old (s.Feed event)) }
        ensures err { OnErr result (self.new ≡ self.old) }
    {
        // The state is one to which steps lead, and an event more leaves the runs of its versions as they
        // are.
        law::every_schedule();
        law::compiled_plans_are_lawful();
        self.events.reserve(1)?;
        self.known.reserve(1)?;
        make_room(&mut self.journal, self.tree.live())?;
        let copy = event.copy(alloc)?;
        self.windows.feed(alloc, &event)?;
        // There is room for both.
        self.known
            .push_reserved(known_of(alloc, &self.plan, &event));
        self.events.push_reserved(event);
        enter(&mut self.journal, Step::Feed(copy), 1);
        Ok(())
    }

    /// Input has ended. Takes no memory. After a refusal, which comes where it has ended before, the core is as
    /// before.
    pub fn end(&mut self) -> Result<(), Refusal>
        ensures done { OnOk result (IsDone s.End self.old self.new) }
        ensures err { OnErr result (self.new ≡ self.old) }
        ensures fault { IfErr result (λ refusal. refused self.old s.End ≡ Some refusal) }
    {
        // The state is one to which steps lead.
        law::every_schedule();
        if self.ended {
            return Err(Refusal::AfterEnd);
        }
        self.windows.end();
        self.ended = true;
        // There is room for it.
        enter(&mut self.journal, Step::End, 1);
        Ok(())
    }
}
