ghost use Rattle.std.specs.Prelude.{◌≡◌, ◌≤◌, ◌⊎◌, ℕ, Bool, true, List, [], ◌++◌, Option, Some};
ghost use Rattle.sp_plan.specs.declared.event.Event as event;
ghost use Rattle.sp_plan.specs.declared.plan.Plan.{Plan};
ghost use Rattle.sp_ports.specs.Giving.{given_by, given_at, AreGood};
ghost use Rattle.sp_ports.specs.Stopping.{StoppedFor};
ghost use Rattle.sp_ports.specs.declared.stop.Stop.{Stop};

use crate::stop::Stop;
use sp_plan::Event;
use std::alloc::Global;
use std::marker::Send;

/// What an intake answers when it is asked for the next event.
#[derive(Drop)]
pub enum Next {
    Event(Event),
    /// There are no more events: the end of its input was reached.
    End,
    /// It gives no more, for this reason, which is not the end of its input; its count of stops rose.
    Stop(Stop),
    /// Out of memory. No event was taken, and no count rose.
    Memory,
}

/// Gives events, one after another.
pub trait Intake: Send + Drop {
    /// The plan that its events fit.
    ghost plan: { Self → Plan };

    /// What no call changes, beside the plan: which intake it is.
    ghost token: { Self → ℕ };

    /// Whether the end of its input was reached.
    ghost ended: { Self → Bool };

    /// How often it stopped before the end of its input.
    ghost stops: { Self → ℕ };

    /// Why it gives no more, where it does not.
    ghost cause: { Self → Option Stop };

    /// From one state on it gave these events, in their order, and came to another.
    ghost gave: { Self → List event.Event → Self → Type 0 };

    /// Where it was not asked it gave none.
    ghost gave_none: { (intake : Self) → gave intake [] intake };

    /// What it gives fits its plan, the times never go back, and there are at most 1,048,576 events.
    ghost good: { (old : Self) (events : List event.Event) (new : Self) → gave old events new → AreGood (plan old) events };

    /// From one state on it gave events and came to another; the first list are those that it had given when it last
    /// asked the outside for more, none where it did not ask since. The second are all that it gave.
    ghost asked: { Self → List event.Event → List event.Event → Self → Type 0 };

    /// From where it stands it has not asked.
    ghost asked_none: { (intake : Self) → asked intake [] [] intake };

    /// What it gave, whenever it asked.
    ghost asked_gave: { (old : Self) (before events : List event.Event) (new : Self) → asked old before events new → gave old events new };

    /// What it gives next it has to ask the outside for.
    ghost must_ask: { Self → Type 0 };

    /// The next event, or why there is none. It asks the outside where no answer is at hand, and gives nothing
    /// between the first time that it asks and the last.
    fn next(&mut self, alloc: Global) -> Next
        ensures plan { plan self.new ≡ plan self.old }
        ensures token { token self.new ≡ token self.old }
        ensures given { (from : Self) (events : List event.Event) → gave from events self.old
            → gave from (events ++ given_by result) self.new }
        ensures end { result ≡ Next.End → ended self.new ≡ true }
        ensures stop { (why : Stop) → result ≡ Next.Stop why
            → StoppedFor stops cause self.old self.new why }
        ensures never_falls { stops self.old ≤ stops self.new }
        ensures memory { result ≡ Next.Memory → stops self.new ≡ stops self.old }
        ensures asked { (from : Self) (before events : List event.Event)
            → asked from before events self.old
            → (asked from before (events ++ given_by result) self.new)
            ⊎ (asked from events (events ++ given_by result) self.new) }
        ensures event { (given : event.Event) → result ≡ Next.Event given
            → (ended self.new ≡ ended self.old) × (stops self.new ≡ stops self.old) };

    /// The next answer, if it is there without asking the outside. Where it is not, all is as before.
    fn at_hand(&mut self, alloc: Global) -> Option<Next>
        ensures plan { plan self.new ≡ plan self.old }
        ensures token { token self.new ≡ token self.old }
        ensures given { (from : Self) (events : List event.Event) → gave from events self.old
            → gave from (events ++ given_at result) self.new }
        ensures end { result ≡ Some Next.End → ended self.new ≡ true }
        ensures stop { (why : Stop) → result ≡ Some (Next.Stop why)
            → StoppedFor stops cause self.old self.new why }
        ensures never_falls { stops self.old ≤ stops self.new }
        ensures memory { result ≡ Some Next.Memory → stops self.new ≡ stops self.old }
        ensures asked { (from : Self) (before events : List event.Event)
            → asked from before events self.old
            → asked from before (events ++ given_at result) self.new }
        ensures event { (given : event.Event) → result ≡ Some (Next.Event given)
            → (ended self.new ≡ ended self.old) × (stops self.new ≡ stops self.old) }
        ensures none { result ≡ None → must_ask self.new }
        ensures still_ended { result ≡ None → ended self.new ≡ ended self.old }
        ensures still_stops { result ≡ None → stops self.new ≡ stops self.old };
}
