// The core with its register.
ghost use Rattle.std.specs.Prelude.{◌≡◌, ◌≤◌, ◌+◌, ◌++◌, ◌∷◌, [], length, Some, IfOk, IfErr, IsTrue, OnOk, OnErr};
ghost use Rattle.sp_base.specs.Limits.{batch_limit};
ghost use Rattle.sp_plan.specs.WindowNumbers.{Good};
ghost use Rattle.sp_group.specs.declared.step.Step.TheVariants as s;
ghost use Rattle.sp_core.specs.Faults.{IsFault};
ghost use Rattle.sp_core.specs.Finishing.{IsEmitted};
ghost use Rattle.sp_core.specs.Leasing.{IsLeased};
ghost use Rattle.sp_core.specs.Returning.{IsCarried, IsGiven};
ghost use Rattle.sp_core.specs.Running.{IsDone, refused};
ghost use Rattle.sp_spread.specs.Calm.{AreCalm};
ghost use Rattle.sp_lend.specs.Truth.{StaysTrue, Vouches, WasLent};

use crate::boxed::{Boxed, empty_box};
use crate::front::Front;
use crate::loan::{Loan, Receipt};
use crate::memo::{Hint, Memo};
use crate::reading::Reading;
use crate::register::{Lending, Register, Rising};
use crate::{Memory, law};
use logbook::Word;
use sp_core::{Core, CoreFault, Emitted, Given};
use sp_group::{Label, Refusal};
use sp_piece::{Job, Piece};
use sp_plan::Event;
use std::alloc::{AllocError, Global};
use std::marker::Model;

// The most jobs that a register takes.
const MOST: u64 = 1 << 61;

/// A core that knows its leases again. Contracts see the core.
#[derive(Drop)]
pub struct Lender<L: Lending> {
    core: Core,
    head: Word<Job, u64, Rising>,
    // what is entered, as far as it was seen: all, since nobody else enters a job
    front: Front<L>,
    memo: Memo,
}

impl<L: Lending> Model for Lender<L> {
    ghost use Rattle.sp_core.specs.Running.{Running};
    ghost use Rattle.sp_plan.specs.contracts.plan.Expr as expr;
    ghost use Rattle.sp_plan.specs.contracts.plan.Pred as pred;
    ghost use Rattle.std.specs.Coded.{codes};
    ghost use Rattle.std.specs.Prelude.{◌≡◌};
    ghost use Rattle.sp_lend.specs.Registered.{head_of};
    ghost use Rattle.sp_lend.specs.Truth.{AreTrue};

    ghost Value = { Running };

    ghost coded = { Prim.hlevel (codes, expr.the_row.coded, pred.the_row.coded) };

    ghost view = { λ l. l.core };

    ghost invariant = { λ l. (l.head ≡ head_of L.book) × AreTrue l.core l.front };
}

impl<L: Lending> Lender<L> {
    /// A core with a register in which no job is entered. What was lent before has no receipt. Takes no memory.
    pub fn new(core: Core, register: Register) -> Lender<L>
        requires book { register.seen.book ≡ L.book }
        ensures { result ≡ core }
    {
        let Register { head, seen } = register;
        Lender {
            core,
            head,
            front: Front::first(seen),
            memo: Memo::new(),
        }
    }

    /// The core.
    pub fn core(&self) -> &Core
        ensures { result.now ≡ self.now }
    {
        &self.core
    }

    /// The core alone: what is out for it is compared from now on.
    pub fn into_core(self) -> Core
        ensures { result ≡ self }
    {
        let Lender {
            core,
            head: _,
            front: _,
            memo: _,
        } = self;
        core
    }

    // Whatever step its core takes, the jobs of the register stay true.
    fn stays(&self)
        ensures { StaysTrue self.now }
    {
        law::compiled_plans_are_lawful();
        law::lent_stays();
        // They tell what every core keeps.
        self.core.plan();
        self.core.finished();
    }

    // Enters a job that was lent, and answers its receipt: where there is room, and nobody else has entered a job.
    fn enter(&mut self, job: &Job) -> Option<Receipt<L>>
        requires lent { WasLent self.old.plan self.old.machine job.now }
        ensures same { self.new ≡ self.old }
        ensures receipt { Vouches result job.now }
    {
        let place = self.front.count();
        if place >= MOST {
            return None;
        }
        let mut front = self.front.again();
        if !front.enter(&self.head, job) {
            return None;
        }
        self.front = front.again();
        Some(Receipt { front, place })
    }

    // What goes along with a job that was lent.
    fn hint(&self, job: &Job) -> Hint {
        let tree = self.core.tree();
        let Some(held) = tree.get(job.version) else {
            return Hint::none();
        };
        // What the root has read is never lost.
        let may_be_lost = tree.parent(job.version).is_some();
        self.memo.hint(held.window, may_be_lost, job)
    }

    // Keeps what comes home with the reading of a job, where it is of a window that isn't finished.
    fn keep(&mut self, alloc: Global, hint: Hint, job: &Job)
        ensures { self.new ≡ self.old }
    {
        if hint.is_past(self.core.finished()) {
            return;
        }
        self.memo.put(alloc, hint, job);
    }

    // Whether a job is known to be what is out under its ticket, for a live version: it is entered, and that is out.
    fn is_known(&self, receipt: &Option<Receipt<L>>, job: &Job) -> bool
        requires receipt { Vouches receipt.now job.now }
        ensures { IsTrue result → IsCarried self.now job.now }
    {
        // It tells what every core keeps.
        self.core.finished();
        let Some(receipt) = receipt else {
            return false;
        };
        let Some(held) = self.core.tree().get(job.version) else {
            return false;
        };
        self.front.agree(&receipt.front);
        receipt.place < self.front.count() && held.out == Some(job.ticket)
    }

    // Gives a piece back to the core. Where it is known to be what was lent, nothing of it is compared.
    fn take_back(
        &mut self,
        alloc: Global,
        receipt: &Option<Receipt<L>>,
        piece: Piece,
    ) -> Result<Given, Piece>
        requires receipt { Vouches receipt.now piece.job }
        ensures given { IfOk result (IsGiven self.old self.new piece) }
        ensures err { OnErr result (self.new ≡ self.old) }
        ensures back { IfErr result (λ back. back ≡ piece) }
    {
        self.stays();
        if self.is_known(receipt, piece.job()) {
            self.core.come_home(alloc, piece)?;
            Ok(Given::Home)
        } else {
            self.core.give_back(alloc, piece)
        }
    }

    /// `Core::feed`.
    pub fn feed(&mut self, alloc: Global, event: Event) -> Result<u32, CoreFault>
        requires good { Good self.old.plan (self.old.machine.events ++ event ∷ []) }
        ensures done { OnOk result (IsDone (s.Feed event) self.old self.new) }
        ensures number { IfOk result (λ number. number ≡ length self.old.machine.events + 1) }
        ensures err { OnErr result (self.new ≡ self.old) }
        ensures fault { IfErr result (IsFault self.old (s.Feed event)) }
    {
        self.stays();
        self.core.feed(alloc, event)
    }

    /// `Core::end`.
    pub fn end(&mut self) -> Result<(), Refusal>
        ensures done { OnOk result (IsDone s.End self.old self.new) }
        ensures err { OnErr result (self.new ≡ self.old) }
        ensures fault { IfErr result (λ refusal. refused self.old s.End ≡ Some refusal) }
    {
        self.stays();
        self.core.end()
    }

    /// `Core::spawn`.
    pub fn spawn(
        &mut self,
        alloc: Global,
        parent: Option<u64>,
        label: Label,
    ) -> Result<u64, CoreFault>
        ensures done { OnOk result (IsDone (s.Spawn parent label) self.old self.new) }
        ensures id { IfOk result (λ id. id ≡ self.old.machine.next_id) }
        ensures err { OnErr result (self.new ≡ self.old) }
        ensures fault { IfErr result (IsFault self.old (s.Spawn parent label)) }
    {
        self.stays();
        // They tell what every label keeps.
        label.runs();
        self.core.spawn(alloc, parent, label)
    }

    /// `Core::lease`, with a receipt for the job.
    pub fn lease(&mut self, alloc: Global, version: u64, count: u32) -> Result<Loan<L>, CoreFault>
        requires some { 1 ≤ count }
        requires most { count ≤ batch_limit }
        ensures done { OnOk result (IsDone (s.Lease version count) self.old self.new) }
        ensures job { IfOk result (IsLeased self.old version count) }
        ensures err { OnErr result (self.new ≡ self.old) }
        ensures fault { IfErr result (IsFault self.old (s.Lease version count)) }
    {
        self.stays();
        let empty = empty_box(alloc)?;
        let job = self.core.lease(alloc, version, count)?;
        let receipt = self.enter(&job);
        let hint = self.hint(&job);
        Ok(Loan {
            piece: Boxed::begin(alloc, empty, job),
            receipt,
            hint,
        })
    }

    /// `Core::give_back`, but for want of memory the reading is let go: who calls it stops then. Where the reading has its
    /// receipt, nothing of it is compared.
    pub fn give_back(&mut self, alloc: Global, reading: Reading<L>) -> Result<Given, Memory>
        ensures given { IfOk result (IsGiven self.old self.new reading) }
        ensures err { OnErr result (self.new ≡ self.old) }
    {
        let Reading {
            piece,
            receipt,
            hint,
        } = reading;
        self.keep(alloc, hint, piece.get().job());
        let live = self.core.tree().live();
        match self.take_back(alloc, &receipt, piece.into_piece()) {
            Ok(given) => {
                if matches!(given, Given::Home) {
                    self.memo.note_home(live, self.core.tree().live());
                }
                Ok(given)
            }
            Err(_) => Err(AllocError),
        }
    }

    /// `Core::roll`.
    pub fn roll(&mut self, version: u64) -> Result<u64, Refusal>
        ensures done { OnOk result (IsDone (s.Roll version) self.old self.new) }
        ensures id { IfOk result (λ id. id ≡ self.old.machine.next_id) }
        ensures err { OnErr result (self.new ≡ self.old) }
        ensures fault { IfErr result (λ refusal. refused self.old (s.Roll version) ≡ Some refusal) }
    {
        self.stays();
        let rolled = self.core.roll(version);
        if rolled.is_ok() {
            self.memo.note_loss();
        }
        rolled
    }

    /// `Core::finish`.
    pub fn finish(&mut self) -> Result<Emitted, Refusal>
        ensures done { OnOk result (IsDone s.Finish self.old self.new) }
        ensures emitted { IfOk result (IsEmitted self.old) }
        ensures err { OnErr result (self.new ≡ self.old) }
        ensures fault { IfErr result (λ refusal. refused self.old s.Finish ≡ Some refusal) }
    {
        self.stays();
        let finished = self.core.finish();
        self.memo.forget_to(self.core.finished());
        finished
    }

    /// `Core::note_calm`.
    pub fn note_calm(&mut self)
        requires { AreCalm self.old.plan self.old.machine }
        ensures { self.new ≡ self.old }
    {
        self.core.note_calm();
    }
}
