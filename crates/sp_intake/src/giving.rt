ghost use Rattle.std.specs.Prelude.{◌≡◌, []};
ghost use Rattle.sp_intake.specs.Standing.{Gives, stop_in, is_whole};
ghost use Rattle.sp_intake.specs.Pieces.{Asked};
ghost use Rattle.sp_intake.specs.Asked.{late_in, standing, state_in, IsWaiting};

use crate::events::EventReader;
use sp_base::limits::PIECE_LIMIT;
use sp_io::Source;
use sp_ports::{Intake, Next};
use std::alloc::Global;

/// The input of a source as an intake: the events that its rows give, one a call. The source is asked for
/// a piece of 4,096 bytes only where no whole row is left of those before. After a faulty row, a limit or
/// a fault of the source each call is a stop; after want of memory each call is want of memory.
#[derive(Drop)]
pub struct Input<'a, S: Source> {
    source: &'a mut S,
    events: EventReader,
    // Room for what the source gives.
    piece: [u8; PIECE_LIMIT],
}

impl<'a, S: Source> Input<'a, S> {
    /// The input of a source that is read by these.
    pub fn over(source: &'a mut S, events: EventReader) -> Input<'a, S>
        ensures same { result.source.ghost_name ≡ source.entry.ghost_name }
        ensures source { result.source.now ≡ source.old }
        ensures events { result.events ≡ events }
    {
        Input {
            source,
            events,
            piece: [0; PIECE_LIMIT],
        }
    }

    /// The source, as it stands now.
    pub fn into_source(self) -> &'a mut S
        ensures same { result.ghost_name ≡ self.entry.source.ghost_name }
        ensures now { result.now ≡ self.entry.source.now }
    {
        let Input { source, .. } = self;
        source
    }

    /// How many events were late, and passed over.
    pub fn late(&self) -> u32
        ensures { result ≡ late_in self.now.events }
    {
        self.events.late()
    }
}

impl<'a, S: Source> Intake for Input<'a, S> {
    ghost use Rattle.sp_intake.specs.Laws as law;
    ghost use Rattle.sp_intake.specs.Asked.{plan_in};

    ghost plan = { λ input. plan_in input.events };

    ghost token = { λ input. input.source.ghost_name };

    ghost ended = { λ input. is_whole (stop_in (state_in input.events)) };

    ghost stops = { λ input. input.events.stops };

    ghost cause = { λ input. stop_in (state_in input.events) };

    ghost gave = { λ old events new. Gives (standing (S.state old.source.now) old.events) events (standing (S.state new.source.now) new.events) };

    ghost gave_none = { λ input. ([], law.gives_none (standing (S.state input.source.now) input.events) (law.sound_in (S.state input.source.now) input.events)) };

    ghost good = { λ old events new gave. law.gives_good (standing (S.state old.source.now) old.events) (standing (S.state new.source.now) new.events) events (law.holds_in old.events) new.events.rows.few gave };

    ghost asked = { λ old before events new. Asked (standing (S.state old.source.now) old.events) before events (standing (S.state new.source.now) new.events) };

    ghost asked_none = { λ input. law.asked_none (standing (S.state input.source.now) input.events) (law.sound_in (S.state input.source.now) input.events) };

    ghost asked_gave = { λ old before events new asked. law.asked_gives (standing (S.state old.source.now) old.events) before events (standing (S.state new.source.now) new.events) asked };

    ghost must_ask = { λ input. IsWaiting input.events };

    fn next(&mut self, alloc: Global) -> Next {
        for _ in 0..u64::MAX {
            if let Some(next) = self.events.at_hand(alloc) {
                return next;
            }
            let read = self.source.read(&mut self.piece);
            self.events.take(&self.piece, read);
        }
        Next::Memory
    }

    fn at_hand(&mut self, alloc: Global) -> Option<Next> {
        self.events.at_hand(alloc)
    }
}
