ghost use Rattle.std.specs.Prelude.{◌≡◌, ◌≤◌, ◌+◌, ◌++◌, ◌∷◌, ℕ, [], length, false, Some, IfOk, IfErr, OnOk, OnErr};
ghost use Rattle.sp_base.specs.Limits.{batch_limit};
ghost use Rattle.sp_plan.specs.WindowNumbers.{Good};
ghost use Rattle.sp_group.specs.declared.step.Step.TheVariants as s;
ghost use Rattle.sp_group.specs.Steps.{out_count};
ghost use Rattle.sp_core.specs.Faults.{IsFault};
ghost use Rattle.sp_core.specs.Running.{IsDone, refused};
ghost use Rattle.sp_splitter.specs.Lending as definitions;
ghost use Rattle.sp_splitter.specs.Splitting.{IsBelowKept};
ghost use Rattle.sp_splitter.specs.Stages.{Goes, ReadOfCollected, StaysWithin, Went};
ghost use Rattle.sp_splitter.specs.Turning.{Turned};

use crate::gathering::gather;
use crate::lending::{Asking, longest_lease};
use crate::posting::post_kept;
use crate::turning::{guess_and_send, tidy};
use crate::unheard::Unheard;
use crate::{Memory, law};
use sp_chance::{Chances, Predictor};
use sp_core::{Core, CoreFault, Emitted};
use sp_group::Refusal;
use sp_hub::{Hub, Naming, Poster};
use sp_lend::{Lender, Lending, Loan, Reading};
use sp_plan::Event;
use std::alloc::Global;
use std::collections::VecDeque;
use std::mem;
use std::sync::Wait;

/// Owns a core, and takes all its steps but the readings, which instances do. Contracts see its fields, since
/// what a predictor means is a function, of which no model can be made.
#[derive(Drop)]
pub struct Splitter<B: Lending> {
    /// The machine. No ticket was out when the splitter was made.
    pub core: Lender<B>,
    /// How many instances work for it, at most 16. One place more is the splitter's own.
    pub instances: u32,
    /// How many events a lease asks for at most, 1 to 1,024, where a match can consume an event. Else it asks for up to 1,024.
    pub batch: u32,
    /// What holds open groups for likely or not. Nothing but the order of work rests on it.
    pub predictor: Box<dyn Predictor>,
    /// The chances of the last turn.
    pub chances: Chances,
    /// The jobs that were leased and not posted, since there was no room for them, the oldest first.
    pub kept: VecDeque<Loan<B>>,
    /// What was posted since an instance was last woken.
    pub unheard: Unheard,
}

impl<B: Lending> Splitter<B> {
    /// A splitter for a core of which no ticket is out. Takes no memory.
    pub fn new(
        alloc: Global,
        core: Lender<B>,
        instances: u32,
        batch: u32,
        predictor: Box<dyn Predictor>,
    ) -> Result<Splitter<B>, Memory>
        requires instances { instances ≤ 16 }
        requires some { 1 ≤ batch }
        requires most { batch ≤ batch_limit }
        requires none_out { core.machine.tickets ≡ [] }
        ensures core { IfOk result (λ splitter. splitter.core ≡ core) }
        ensures instances { IfOk result (λ splitter. splitter.instances ≡ instances) }
        ensures batch { IfOk result (λ splitter. splitter.batch ≡ batch) }
        ensures predictor { IfOk result (λ splitter. splitter.predictor ≡ predictor) }
        ensures chances { IfOk result (λ splitter. splitter.chances ≡ []) }
        ensures kept { IfOk result (λ splitter. splitter.kept.items ≡ []) }
    {
        Ok(Splitter {
            core,
            instances,
            batch,
            predictor,
            chances: Chances::new(alloc),
            kept: VecDeque::new(alloc),
            unheard: Unheard::new(),
        })
    }

    /// The next event, which fits the plan and whose time is not before the last one's, is fed to the core.
    /// Answers its number, from 1. After a fault all is as before.
    pub fn feed(&mut self, alloc: Global, event: Event) -> Result<u32, CoreFault>
        requires good { Good self.old.core.plan (self.old.core.machine.events ++ event ∷ []) }
        ensures done { OnOk result (IsDone (s.Feed event) self.old.core self.new.core) }
        ensures number { IfOk result (λ number. number ≡ length self.old.core.machine.events + 1) }
        ensures err { OnErr result (self.new ≡ self.old) }
        ensures fault { IfErr result (IsFault self.old.core (s.Feed event)) }
        ensures rest { self.new ≡ record self.old { core = self.new.core } }
        ensures goes { (n : ℕ) → Goes n self.old.core self.new.core }
        ensures within { (n batch : ℕ) → StaysWithin n batch self.old.core self.new.core }
        ensures out { out_count self.new.core.machine ≡ out_count self.old.core.machine }
    {
        law::known(&self.core);
        let number = self.core.feed(alloc, event)?;
        Ok(number)
    }

    /// Input has ended, and the core is told. Takes no memory. After a refusal, which comes where it has ended
    /// before, all is as before.
    pub fn end(&mut self) -> Result<(), Refusal>
        ensures done { OnOk result (IsDone s.End self.old.core self.new.core) }
        ensures err { OnErr result (self.new ≡ self.old) }
        ensures fault { IfErr result (λ refusal. refused self.old.core s.End ≡ Some refusal) }
        ensures rest { self.new ≡ record self.old { core = self.new.core } }
        ensures goes { (n : ℕ) → Goes n self.old.core self.new.core }
        ensures within { (n batch : ℕ) → StaysWithin n batch self.old.core self.new.core }
        ensures out { out_count self.new.core.machine ≡ out_count self.old.core.machine }
    {
        law::known(&self.core);
        self.core.end()?;
        Ok(())
    }

    /// The core.
    pub fn core(&self) -> &Core
        ensures { result.now ≡ self.now.core }
    {
        self.core.core()
    }

    /// The chances of the last turn, none before the first one.
    pub fn chances(&self) -> &Chances
        ensures { result.now ≡ self.now.chances }
    {
        &self.chances
    }

    /// Puts another predictor to work, and hands back the one that was. Nothing else changes: what that one has learned
    /// goes with it, and the chances stay those of the last turn. Takes no memory.
    pub fn exchange(&mut self, predictor: Box<dyn Predictor>) -> Box<dyn Predictor>
        ensures back { result ≡ self.old.predictor }
        ensures rest { self.new ≡ record self.old { predictor = predictor } }
    {
        mem::replace(&mut self.predictor, predictor)
    }
}

impl<B: Lending + Send> Splitter<B> {
    /// One turn, in this order. Every piece that is home is given back, and learned from. Every version in
    /// conflict is rolled. Windows are finished while the root is done. A root is made where none is live and its
    /// window has begun. Children are made while fewer than `instances + 1` versions are out or ready. Versions
    /// that are picked of the ready ones are leased, until as many tickets are out, and their jobs posted: where of late
    /// nearly every piece of a root let all its children go, children for one event each; a job
    /// for which the hub has no room is kept, and one whose version is gone is given back. Answers what each
    /// window that was finished emits. The predictor is the same one, by its name. After want of memory the splitter is only to be read or dropped: the steps
    /// that were done stand in the journal, and some of what they emitted may be lost.
    pub fn turn<L: Naming, R: Wait>(
        &mut self,
        rt: &R,
        alloc: Global,
        hub: &Hub<Loan<B>, Reading<B>, L>,
        by: &mut Poster<Reading<B>, L>,
    ) -> Result<Vec<Emitted>, Memory>
        requires instances { self.old.instances ≤ 16 }
        requires some { 1 ≤ self.old.batch }
        requires most { self.old.batch ≤ batch_limit }
        requires room { by.old.room ≡ self.old.instances + 1 }
        requires open { by.old.closed ≡ false }
        requires last { IsBelowKept by.old.last self.old.kept.items
            self.old.core.machine.next_ticket }
        ensures went { Went self.old.instances
            (definitions.longest_lease self.old.core.plan self.old.batch)
            self.old.core self.new.core }
        ensures read { ReadOfCollected self.old.core self.new.core by.old by.new }
        ensures rest { (self.new.instances ≡ self.old.instances)
            × (self.new.batch ≡ self.old.batch) }
        ensures name { named self.new.predictor ≡ named self.old.predictor }
        ensures room { by.new.room ≡ by.old.room }
        ensures open { by.new.closed ≡ false }
        ensures turned { IfOk result (λ finished. Turned (record {
          instances = self.old.instances;
          most = definitions.longest_lease self.old.core.plan self.old.batch;
          taught_before = taught self.old.predictor;
          taught = taught self.new.predictor;
          means = means self.new.predictor;
          chances = self.new.chances;
          kept_before = self.old.kept.items;
          kept = self.new.kept.items;
          before = by.old;
          by = by.new;
        })
            self.old.core self.new.core finished.items) }
        ensures last { OnOk result
            (IsBelowKept by.new.last self.new.kept.items self.new.core.machine.next_ticket) }
    {
        let most = longest_lease(self.core.core().plan(), self.batch);
        let predictor = &mut *self.predictor;
        let read = gather(rt, alloc, &mut self.core, predictor, hub, by)?;
        self.unheard.learn(read);
        let finished = tidy(alloc, &mut self.core)?;
        let asking = Asking {
            most,
            shy: self.unheard.are_shy(most),
        };
        self.chances = guess_and_send(
            alloc,
            &mut self.core,
            predictor,
            self.instances,
            asking,
            &mut self.kept,
        )?;
        post_kept(rt, hub, by, &mut self.kept, &mut self.unheard)?;
        Ok(finished)
    }
}
