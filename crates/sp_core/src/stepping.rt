// The steps of a bench, kind by kind.
ghost use Rattle.std.specs.Prelude.{◌≡◌, ◌<◌, ◌≤◌, false, length, Some, IfOk, IfErr, OnOk, OnErr};
ghost use Rattle.std.specs.List.{insert};
ghost use Rattle.sp_group.specs.declared.step.Step.TheVariants as s;
ghost use Rattle.sp_group.specs.Steps.{event_answer};
ghost use Rattle.sp_piece.specs.Pieced.{after_step};
ghost use Rattle.sp_core.specs.Benched.{CanTake, IsAnswerTo, IsBenchFault, IsTaken, answered};
ghost use Rattle.sp_core.specs.OnBench.{HasCome, IsReadFault, IsReadable, came, ticket_in};
ghost use Rattle.sp_core.specs.Rooms.{room};

use crate::{Answer, Bench, CoreFault, Given, law};
use sp_group::{Label, Refusal};
use sp_piece::{Piece, Stepped};
use sp_plan::Event;
use std::alloc::Global;

// Reads the next event of a piece that was not given up, or the closing behind the last one.
fn read_on(alloc: Global, piece: &mut Piece) -> Result<Answer, CoreFault>
    requires whole { piece.old.short ≡ false }
    ensures done { OnOk result (IsReadable piece.old) }
    ensures next { OnOk result (piece.new ≡ after_step piece.old) }
    ensures answer { IfOk result
        (λ given. answered given ≡ event_answer (Some (ticket_in piece.old))) }
    ensures err { OnErr result (piece.new ≡ piece.old) }
    ensures fault { IfErr result (IsReadFault piece.old) }
{
    match piece.step(alloc)? {
        Stepped::Read { number, skipped } => Ok(Answer::Read { number, skipped }),
        Stepped::Closed => Ok(Answer::Closed),
        Stepped::Finished => {
            let position = piece.read();
            Err(CoreFault::Refused(Refusal::NothingToRead { position }))
        }
    }
}

// A piece comes to a place, for which there is room.
fn put_at(pieces: &mut Vec<Piece>, place: usize, piece: Piece)
    requires within { place ≤ length pieces.old.items }
    requires room { 0 < room pieces.old }
    ensures { pieces.new.items ≡ insert pieces.old.items place piece }
{
    let _ = pieces.insert(place, piece);
}

// What a return answers: the core has taken the piece back.
fn answer_to(given: Given) -> Answer
    requires { HasCome given }
    ensures { answered result ≡ came given }
{
    match given {
        Given::Home => Answer::Home,
        Given::Stale { .. } => Answer::Stale,
        Given::NotOut { .. } | Given::Differs { .. } => unreachable!(),
    }
}

impl Bench {
    // The next event of the input.
    pub(crate) fn feed(&mut self, alloc: Global, event: Event) -> Result<Answer, CoreFault>
        requires { CanTake self.old (s.Feed event) }
        ensures done { OnOk result (IsTaken (s.Feed event) self.old self.new) }
        ensures answer { IfOk result (IsAnswerTo self.old (s.Feed event)) }
        ensures err { OnErr result (self.new ≡ self.old) }
        ensures fault { IfErr result (IsBenchFault self.old (s.Feed event)) }
    {
        law::bench_laws();
        Ok(Answer::Fed(self.core.feed(alloc, event)?))
    }

    // The end of the input.
    pub(crate) fn end(&mut self) -> Result<Answer, CoreFault>
        ensures done { OnOk result (IsTaken s.End self.old self.new) }
        ensures answer { IfOk result (IsAnswerTo self.old s.End) }
        ensures err { OnErr result (self.new ≡ self.old) }
        ensures fault { IfErr result (IsBenchFault self.old s.End) }
    {
        law::bench_laws();
        self.core.end()?;
        Ok(Answer::Ended)
    }

    // A fresh version.
    pub(crate) fn spawn(
        &mut self,
        alloc: Global,
        parent: Option<u64>,
        label: Label,
    ) -> Result<Answer, CoreFault>
        ensures done { OnOk result (IsTaken (s.Spawn parent label) self.old self.new) }
        ensures answer { IfOk result (IsAnswerTo self.old (s.Spawn parent label)) }
        ensures err { OnErr result (self.new ≡ self.old) }
        ensures fault { IfErr result (IsBenchFault self.old (s.Spawn parent label)) }
    {
        law::bench_laws();
        // They tell what every label keeps.
        label.runs();
        Ok(Answer::Spawned(self.core.spawn(alloc, parent, label)?))
    }

    // The next unread events of a version go out, and lie on the bench.
    pub(crate) fn lease(
        &mut self,
        alloc: Global,
        version: u64,
        count: u32,
    ) -> Result<Answer, CoreFault>
        ensures done { OnOk result (IsTaken (s.Lease version count) self.old self.new) }
        ensures answer { IfOk result (IsAnswerTo self.old (s.Lease version count)) }
        ensures err { OnErr result (self.new ≡ self.old) }
        ensures fault { IfErr result (IsBenchFault self.old (s.Lease version count)) }
    {
        law::bench_laws();
        if let Some(refusal) = self.core.lease_refusal(version) {
            return Err(CoreFault::Refused(refusal));
        }
        self.pieces.reserve(1)?;
        let (lent, job) = self.core.lend(alloc, version, count)?;
        put_at(&mut self.pieces, 0, Piece::start(alloc, job));
        Ok(Answer::Leased(lent))
    }

    // The next event that lies under a ticket is read, or the closing behind the last one.
    pub(crate) fn read(&mut self, alloc: Global, ticket: u64) -> Result<Answer, CoreFault>
        ensures done { OnOk result (IsTaken (s.Event ticket) self.old self.new) }
        ensures answer { IfOk result (IsAnswerTo self.old (s.Event ticket)) }
        ensures err { OnErr result (self.new ≡ self.old) }
        ensures fault { IfErr result (IsBenchFault self.old (s.Event ticket)) }
    {
        law::bench_laws();
        // A piece stands where the core's ticket does.
        match self.core.place_of(ticket) {
            Some(place) => read_on(alloc, &mut self.pieces[place]),
            None => Err(CoreFault::Refused(Refusal::NoTicket { ticket })),
        }
    }

    // A ticket ends, and what was read comes home to its version, where that is live.
    pub(crate) fn give_back(&mut self, alloc: Global, ticket: u64) -> Result<Answer, CoreFault>
        ensures done { OnOk result (IsTaken (s.Return ticket) self.old self.new) }
        ensures answer { IfOk result (IsAnswerTo self.old (s.Return ticket)) }
        ensures err { OnErr result (self.new ≡ self.old) }
        ensures fault { IfErr result (IsBenchFault self.old (s.Return ticket)) }
    {
        law::bench_laws();
        // A piece stands where the core's ticket does.
        let Some(place) = self.core.place_of(ticket) else {
            return Err(CoreFault::Refused(Refusal::NoTicket { ticket }));
        };
        let piece = self.pieces.remove(place);
        match self.core.give_back(alloc, piece) {
            Ok(given) => Ok(answer_to(given)),
            Err(piece) => {
                put_at(&mut self.pieces, place, piece);
                Err(CoreFault::Memory)
            }
        }
    }

    // A version begins anew.
    pub(crate) fn roll(&mut self, version: u64) -> Result<Answer, CoreFault>
        ensures done { OnOk result (IsTaken (s.Roll version) self.old self.new) }
        ensures answer { IfOk result (IsAnswerTo self.old (s.Roll version)) }
        ensures err { OnErr result (self.new ≡ self.old) }
        ensures fault { IfErr result (IsBenchFault self.old (s.Roll version)) }
    {
        law::bench_laws();
        Ok(Answer::Rolled(self.core.roll(version)?))
    }

    // The root is finished.
    pub(crate) fn finish(&mut self) -> Result<Answer, CoreFault>
        ensures done { OnOk result (IsTaken s.Finish self.old self.new) }
        ensures answer { IfOk result (IsAnswerTo self.old s.Finish) }
        ensures err { OnErr result (self.new ≡ self.old) }
        ensures fault { IfErr result (IsBenchFault self.old s.Finish) }
    {
        law::bench_laws();
        Ok(Answer::Finished(self.core.finish()?))
    }
}
