ghost use Rattle.std.specs.Prelude.{◌≡◌, ◌≤◌, ◌+◌, true, false, length, OnOk, OnErr, IfOk, IfSome, IsTrue, IsFalse};
ghost use Rattle.sp_match.specs.public.Laws.{Below};
ghost use Rattle.sp_match.specs.public.Matching.{runs_of};
ghost use Rattle.sp_piece.specs.Pieced.{LedTo, StepsLead, Tells, after_step, answer, begun, has_closing, has_event, read_whole, refused};
ghost use Rattle.sp_piece.specs.Keeping.{HasReadOn};
ghost use Rattle.sp_piece.specs.Done.{lent_by};
ghost use Rattle.sp_piece.specs.declared.stepped.Stepped.TheVariants as s;

use crate::going::handle_closing;
use crate::own::Own;
use crate::reading::{read_all, read_next};
use crate::telling::Telling;
use crate::{Done, Job, Memory, Stepped};
use sp_hub::Named;
use sp_match::{Matcher, Moves};
use sp_plan::{Event, Listed};
use sp_share::{Held, Spares};
use std::alloc::Global;
use std::marker::Model;

/// A reading of what a job lends, event by event or all that is left at once. Contracts see the job, how many
/// events were read, whether the closing was, and whether memory was refused.
#[derive(Drop)]
pub struct Piece {
    job: Job,
    // where the reading has led to; none until the first event is handled that may change something
    matcher: Own,
    telling: Telling,
    read: u32,
    closed: bool,
    short: bool,
}

impl Model for Piece {
    ghost use Rattle.sp_piece.specs.Pieced.{Pieced};

    ghost Value = { Pieced };

    ghost use Rattle.sp_plan.specs.contracts.plan.Expr as expr;
    ghost use Rattle.sp_plan.specs.contracts.plan.Pred as pred;
    ghost use Rattle.std.specs.Coded.{codes};
    ghost use Rattle.sp_piece.specs.Lending.{coded_all_known};

    ghost coded = { Prim.hlevel (codes, expr.the_row.coded, pred.the_row.coded, coded_all_known) };

    ghost use Rattle.sp_piece.specs.Keeping.{IsKept};

    ghost view = { λ p. record { job = p.job; read = p.read; closed = p.closed; short = p.short } };

    ghost invariant = { λ p. IsKept (record { job = p.job; read = p.read; closed = p.closed; short = p.short }) p.matcher p.telling.entries };
}

impl Piece {
    /// A piece that has read nothing. Takes no memory. In the rooms of what served the job's matcher before it makes its
    /// own.
    pub fn start(alloc: Global, job: Job) -> Piece
        ensures { result ≡ begun job }
    {
        let (job, rooms) = job.shed();
        Piece {
            job,
            matcher: Own::new(rooms),
            telling: Telling::new(alloc),
            read: 0,
            closed: false,
            short: false,
        }
    }

    /// Reads the next lent event, passing over one of the snapshot; after the last one the window's
    /// closing, where the job lends it; then, and where the piece was given up, answers `Finished`, and
    /// nothing changes. After want of memory the piece is as before.
    pub fn step(&mut self, alloc: Global) -> Result<Stepped, Memory>
        ensures next { OnOk result (self.new ≡ after_step self.old) }
        ensures answer { IfOk result (λ stepped. stepped ≡ answer self.old) }
        ensures err { OnErr result (self.new ≡ self.old) }
    {
        if self.short {
            return Ok(Stepped::Finished);
        }
        if (self.read as usize) < self.job.events.as_slice().len() {
            return self.read_event(alloc);
        }
        if self.closed || !self.job.closes {
            return Ok(Stepped::Finished);
        }
        self.read_closing(alloc)
    }

    /// Reads all that is left: the lent events, passing over those of the snapshot, and then the window's
    /// closing, where the job lends it; where the piece was given up, nothing. The piece is what steps lead to.
    /// After want of memory it stands for what it has read, and can be read on.
    pub fn read_whole(&mut self, alloc: Global) -> Result<(), Memory>
        ensures steps { StepsLead self.old self.new }
        ensures whole { OnOk result (self.new ≡ read_whole self.old) }
        ensures end { OnOk result (answer self.new ≡ s.Finished) }
        ensures job { self.new.job ≡ self.old.job }
    {
        if self.short || self.closed {
            return Ok(());
        }
        self.read_events(alloc)?;
        if self.job.closes {
            self.read_closing(alloc)?;
        }
        Ok(())
    }

    /// The whole reading once more, to be kept: None where something that is lent was not read, or the piece was given
    /// up.
    pub fn keep(&self, alloc: Global) -> Result<Option<Done>, Memory>
        ensures { IfOk result (λ kept. IfSome kept (λ done. done ≡ lent_by self.now.job)) }
    {
        let job = &self.job;
        let events = job.events.as_slice();
        if self.short || (self.read as usize) < events.len() || self.closed != job.closes {
            return Ok(None);
        }
        Ok(Some(Done {
            before: job.before.again(alloc)?,
            events: Listed::of(Event::copies(alloc, events)?),
            first: job.first,
            snapshot: job.snapshot.copy(alloc)?,
            closes: job.closes,
            after: self.matcher.copy(alloc)?,
            telling: self.telling.copy(alloc)?,
        }))
    }

    /// Takes a reading up that was kept, in place of reading all that is lent, where nothing was read yet and what was
    /// lent is the same: the same events, with the same ones to be skipped, from the same runs, by a plan that is the same
    /// but for where its parts lie in memory. Answers whether it was. Else, and after want of memory, the piece is as
    /// before.
    pub fn take_up(&mut self, alloc: Global, done: &Done) -> Result<bool, Memory>
        ensures whole { IfOk result (λ taken. IsTrue taken → self.new ≡ read_whole self.old) }
        ensures not { IfOk result (λ taken. IsFalse taken → self.new ≡ self.old) }
        ensures err { OnErr result (self.new ≡ self.old) }
    {
        if self.short || self.closed || self.read > 0 || !done.lends_same(&self.job) {
            return Ok(false);
        }
        let (matcher, telling) = done.led(alloc, &self.job)?;
        self.matcher.set(matcher);
        self.telling = telling;
        self.read = self.job.events.as_slice().len() as u32;
        self.closed = self.job.closes;
        Ok(true)
    }

    // Reads all lent events that are left.
    fn read_events(&mut self, alloc: Global) -> Result<(), Memory>
        requires whole { self.old.short ≡ false }
        requires going { self.old.closed ≡ false }
        ensures on { HasReadOn self.old self.new }
        ensures ok { OnOk result (self.new.read ≡ length self.old.job.events) }
    {
        read_all(
            alloc,
            &self.job,
            &mut self.read,
            &mut self.matcher,
            &mut self.telling,
        )
    }

    // Reads the next lent event.
    fn read_event(&mut self, alloc: Global) -> Result<Stepped, Memory>
        requires { has_event self.old ≡ true }
        ensures next { OnOk result (self.new ≡ after_step self.old) }
        ensures answer { IfOk result (λ stepped. stepped ≡ answer self.old) }
        ensures err { OnErr result (self.new ≡ self.old) }
    {
        let number = self.job.first + self.read;
        if self.job.snapshot.has(number) {
            self.read += 1;
            return Ok(Stepped::Read {
                number,
                skipped: true,
            });
        }
        read_next(
            alloc,
            &self.job,
            &mut self.read,
            &mut self.matcher,
            &mut self.telling,
        )?;
        Ok(Stepped::Read {
            number,
            skipped: false,
        })
    }

    // Reads the closing.
    fn read_closing(&mut self, alloc: Global) -> Result<Stepped, Memory>
        requires { has_closing self.old ≡ true }
        ensures next { OnOk result (self.new ≡ after_step self.old) }
        ensures answer { IfOk result (λ stepped. stepped ≡ answer self.old) }
        ensures err { OnErr result (self.new ≡ self.old) }
    {
        let job = &self.job;
        let before = job.before.get();
        handle_closing(alloc, &mut self.matcher, before)?;
        self.closed = true;
        Ok(Stepped::Closed)
    }

    /// Its job, as it was lent.
    pub fn job(&self) -> &Job
        ensures { result.now ≡ self.now.job }
    {
        &self.job
    }

    /// How many of the lent events it has read, those that it passed over among them.
    pub fn read(&self) -> u32
        ensures read { result ≡ self.now.read }
        ensures most { result ≤ length self.now.job.events }
    {
        self.read
    }

    /// Which runs completed, in the order of the events that were read and not passed over; no other move is kept. One
    /// entry may tell of several events. What the runs wanted is told only where a match can consume an event.
    pub fn moves(&self) -> &[Moves]
        ensures { Tells self.now result.now }
    {
        &self.telling.entries
    }

    /// The matcher to which the reading has led so far, the one of the job where nothing was read.
    pub fn after(&self) -> &Matcher
        ensures led { LedTo self.now result.now }
    {
        self.matcher.led(self.job.before.get())
    }

    /// Gives the piece up, since memory was refused: no step reads any more of it.
    pub fn give_up(&mut self)
        ensures { self.new ≡ refused self.old }
    {
        self.short = true;
    }

    /// Whether memory was refused.
    pub fn short(&self) -> bool
        ensures { result ≡ self.now.short }
    {
        self.short
    }

    /// Whether it has read the closing, which comes behind all lent events.
    pub fn closed(&self) -> bool
        ensures closed { result ≡ self.now.closed }
        ensures last { result ≡ true → self.now.read ≡ length self.now.job.events }
        ensures lent { result ≡ true → self.now.job.closes ≡ true }
    {
        self.closed
    }

    /// The matcher to which the reading led, the one of the job where nothing was read. Takes no memory.
    pub fn into_after(self) -> Held
        ensures led { LedTo self result }
        ensures below { Below (self.job.first + self.read) (runs_of result) }
        ensures unread { self.read ≡ 0 → self.closed ≡ false → result ≡ self.job.before }
    {
        let Piece {
            job,
            matcher,
            telling: _,
            read: _,
            closed: _,
            short: _,
        } = self;
        match matcher.into_matcher() {
            Some(matcher) => Held::led(matcher, job.before),
            None => Held::of(job.before),
        }
    }

    /// Rooms in which no matcher had to be made are spare ones from then on. Takes no memory.
    pub fn shed(&mut self, spares: &mut Spares)
        ensures { self.new ≡ self.old }
    {
        spares.keep_some(self.matcher.take_rooms());
    }

    /// It counts no more: its matchers are spare ones from then on, if nobody else holds them. Takes no memory.
    pub fn retire(self, spares: &mut Spares) {
        spares.keep_some(self.matcher.into_rooms());
        self.job.before.retire(spares);
    }
}

impl Named for Piece {
    ghost ticket_of = { λ piece. piece.job.ticket };

    /// The ticket of its job.
    fn ticket(&self) -> u64 {
        self.job.ticket
    }
}
