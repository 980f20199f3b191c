// One predictor after another takes the place of the one in work.
ghost use Rattle.std.specs.Prelude.{◌≡◌, ◌+◌, ◌∷◌, IfNone, IfSome, OnSome};
ghost use Rattle.sp_split.specs.Relieving.{AreDue, AreWithin, Relieved, crew_of, team_of};

use crate::Crew;
use sp_chance::Predictor;

/// The predictors that follow the one in work.
#[derive(Drop)]
pub(crate) struct Relay {
    /// Those that have not worked yet, the next one first.
    pub(crate) rest: Vec<Box<dyn Predictor>>,
    /// For each so many finished windows the next one goes to work; 0: never.
    pub(crate) every: u32,
    /// How many have gone to work.
    pub(crate) gone: u32,
}

impl Relay {
    // Takes out the next one, where one is due once so many windows are finished.
    pub(crate) fn next(&mut self, finished: u32) -> Option<Box<dyn Predictor>>
        requires { AreWithin self.old finished }
        ensures next { IfSome result (λ one. self.old.rest.items ≡ one ∷ self.new.rest.items) }
        ensures gone { OnSome result (self.new.gone ≡ self.old.gone + 1) }
        ensures none { IfNone result (self.new ≡ self.old) }
        ensures due { IfNone result (AreDue self.new finished) }
        ensures within { AreWithin self.new finished }
        ensures every { self.new.every ≡ self.old.every }
    {
        if self.every == 0 || self.rest.is_empty() || finished / self.every <= self.gone {
            return None;
        }
        self.gone += 1;
        Some(self.rest.remove(0))
    }
}

/// The predictor in work, and those that follow it.
#[derive(Drop)]
pub(crate) struct Team {
    pub(crate) first: Box<dyn Predictor>,
    pub(crate) relay: Relay,
}

impl Team {
    /// Of a crew before its run.
    pub(crate) fn of(crew: Crew) -> Team
        ensures { result ≡ team_of crew }
    {
        Team {
            first: crew.first,
            relay: Relay {
                rest: crew.rest,
                every: crew.every,
                gone: 0,
            },
        }
    }

    /// Those that are left of the crew.
    pub(crate) fn into_crew(self) -> Crew
        ensures { result ≡ crew_of self }
    {
        let Team { first, relay } = self;
        let Relay { rest, every, .. } = relay;
        Crew { first, rest, every }
    }

    /// Puts those to work that are due once so many windows are finished, one after another; the ones that worked are
    /// dropped. Takes no memory.
    pub(crate) fn relieve(&mut self, finished: u32)
        requires { AreWithin self.old.relay finished }
        ensures relieved { Relieved (λ one. named one) self.old self.new }
        ensures due { AreDue self.new.relay finished }
    {
        while let Some(next) = self.relay.next(finished) {
            self.first = next;
        }
    }
}
