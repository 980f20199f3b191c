// One open run.
ghost use Rattle.std.specs.Prelude.{◌≡◌, ◌+◌, ◌<◌, [], ◌∷◌, ◌++◌, IfOk, OnOk};
ghost use Rattle.std.specs.List.{All};
ghost use Rattle.sp_plan.specs.Compiled.{IsCompiled};
ghost use Rattle.sp_plan.specs.Runs as definitions;
ghost use Rattle.sp_scan.specs.inside.Ahead.{IsAhead, IsReady};
ghost use Rattle.sp_scan.specs.inside.Offer.{IsOffer};

use crate::ahead::look_ahead;
use crate::offer::Offer;
use crate::pairs::Pairs;
use sp_plan::{Element, Memory, Plan, SharedEvent};
use std::alloc::Global;

/// What counts for a run next. It is looked for where the run binds an event, so that no event that it passes
/// over has its pairs looked through.
#[derive(Clone, Copy, Drop)]
pub(crate) struct Ahead {
    /// The first element that it hasn't filled.
    pub(crate) element: Option<Element>,
    /// Its last name, where that may be bound more than once.
    pub(crate) again: Option<u8>,
    /// The names that guard it are those of the elements from this place on that stand negated in front there.
    pub(crate) behind: usize,
    /// The names that count for it, as bits of a number: those under which it may take an event, those that guard it,
    /// and perhaps others. It passes an event over of which none of them may hold.
    pub(crate) names: u64,
}

/// A run that is open.
#[derive(Drop)]
pub(crate) struct Run {
    pub(crate) pairs: Pairs,
    pub(crate) ahead: Ahead,
}

impl Run {
    // A run that has bound no event. Takes no memory.
    pub(crate) fn new(alloc: Global, plan: &Plan) -> Run
        requires { IsCompiled plan.now }
        ensures none { result.pairs ≡ [] }
        ensures ahead { IsAhead plan.now [] result.ahead }
    {
        let pairs = Pairs::new(alloc);
        let ahead = look_ahead(plan, &pairs);
        Run { pairs, ahead }
    }

    // Binds the event at hand, of which this is a handle, to the name.
    pub(crate) fn bind(&mut self, offer: &Offer, name: u8, event: SharedEvent) -> Result<(), Memory>
        requires offer { IsOffer offer.now }
        requires event { event ≡ offer.now.event.now }
        requires ready { IsReady offer.now.plan.now offer.now.number self.old }
        ensures pairs { OnOk result (self.new.pairs ≡ self.old.pairs ++
            (record { name = name; number = offer.now.number; event = offer.now.event.now }) ∷ []) }
        ensures ready { OnOk result
            (IsReady offer.now.plan.now (offer.now.number + 1) self.new) }
    {
        self.pairs.bind(name, offer.number, event)?;
        self.ahead = look_ahead(offer.plan, &self.pairs);
        Ok(())
    }

    // A run that has bound the event at hand alone, to the name.
    pub(crate) fn begun(offer: &Offer, name: u8, event: SharedEvent) -> Result<Run, Memory>
        requires offer { IsOffer offer.now }
        requires event { event ≡ offer.now.event.now }
        ensures pairs { IfOk result (λ run. run.pairs ≡
            (record { name = name; number = offer.now.number; event = offer.now.event.now }) ∷ []) }
        ensures ready { IfOk result
            (λ run. IsReady offer.now.plan.now (offer.now.number + 1) run) }
    {
        let mut run = Run {
            pairs: Pairs::new(offer.alloc),
            ahead: offer.empty.ahead,
        };
        run.bind(offer, name, event)?;
        Ok(run)
    }

    // Whether every element is filled.
    pub(crate) fn is_complete(&self) -> bool
        ensures { (q : Plan) → IsAhead q self.now.pairs self.now.ahead
            → result ≡ definitions.is_complete q self.now.pairs }
    {
        self.ahead.element.is_none()
    }
}
