ghost use Rattle.std.specs.Prelude.{◌≡◌, ◌<◌, ◌++◌, [], IfSome, OnSome};
ghost use Rattle.std.specs.Arc.{arc_value};
ghost use Rattle.std.specs.Vec.Iter.{into_iter_items, into_iter_len};
ghost use Rattle.std.proofs.Props.{props};
ghost use Rattle.sp_ports.specs.Giving.{AreGood};

use sp_plan::{Event, Plan};
use sp_ports::{Intake, Next, Stop};
use std::alloc::Global;
use std::sync::Arc;
use std::vec::IntoIter;

/// A list of events as an intake: it gives them in their order, moved out of it, and then answers that its input has
/// ended, or for what reason it stopped. It never asks the outside, and takes no memory.
#[derive(Drop)]
pub struct ListIntake {
    plan: Arc<Plan>,
    events: IntoIter<Event>,
    stop: Stop,
    // How often it answered that there are no more.
    told: u64,
    ghost good: { AreGood (arc_value plan) (into_iter_items events) } by { Prim.hlevel props },
    ghost last: { 0 < told → into_iter_len events ≡ 0 },
}

impl ListIntake {
    ghost use Rattle.sp_lists.specs.Listing.{listing, listed, answer, after};

    /// These events, which fit the plan, whose times never go back, and of which there are at most 1,048,576. `stop` is
    /// what comes behind them.
    pub fn new(plan: Arc<Plan>, events: Vec<Event>, stop: Stop) -> ListIntake
        requires { AreGood (arc_value plan) events.items }
        ensures { listing result ≡ listed (arc_value plan) events.items stop }
    {
        ListIntake {
            plan,
            events: events.into_iter(),
            stop,
            told: 0,
        }
    }

    /// The next event, or why there are no more. It never answers want of memory.
    pub fn give(&mut self) -> Next
        ensures answer { result ≡ answer (listing self.old) }
        ensures after { listing self.new ≡ after (listing self.old) }
    {
        if let Some(event) = self.events.next() {
            return Next::Event(event);
        }
        self.told = self.told.saturating_add(1);
        if self.stop.is_end() {
            Next::End
        } else {
            Next::Stop(self.stop)
        }
    }
}

impl Intake for ListIntake {
    ghost use Rattle.sp_lists.specs.Listing.{listing, has_ended, stops_of, cause_of, Gives, AsksNever};
    ghost use Rattle.sp_lists.specs.Laws as law;

    ghost plan = { λ list. arc_value list.plan };

    ghost token = { λ list. 0 };

    ghost ended = { λ list. has_ended (listing list) };

    ghost stops = { λ list. stops_of (listing list) };

    ghost cause = { λ list. cause_of (listing list) };

    ghost gave = { λ old events new. Gives (listing old) events (listing new) };

    ghost gave_none = { λ list. law.gives_none (listing list) };

    ghost good = { λ old events new gave. law.gives_good (listing old) (listing new) events old.good gave };

    ghost asked = { λ old before events new. AsksNever (listing old) before events (listing new) };

    ghost asked_none = { λ list. law.asks_never (listing list) };

    ghost asked_gave = { λ old before events new asked. asked.gave };

    ghost must_ask = { λ list. ⊥ };

    fn next(&mut self, _alloc: Global) -> Next {
        self.give()
    }

    fn at_hand(&mut self, _alloc: Global) -> Option<Next> {
        Some(self.give())
    }
}
