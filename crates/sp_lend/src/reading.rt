// A piece with the receipt of its job.
ghost use Rattle.std.specs.Prelude.{◌≡◌, IsTrue, IsFalse, OnOk};
ghost use Rattle.sp_piece.specs.Pieced.{StepsLead, answer, begun, read_whole, refused};
ghost use Rattle.sp_piece.specs.declared.stepped.Stepped.TheVariants as s;

use crate::Memory;
use crate::boxed::Boxed;
use crate::loan::{Loan, Receipt};
use crate::memo::Hint;
use crate::register::Lending;
use sp_hub::Named;
use sp_piece::Piece;
use std::alloc::Global;
use std::marker::Model;

/// A reading of what was lent. Contracts see the piece.
#[derive(Drop)]
pub struct Reading<L: Lending> {
    pub(crate) piece: Boxed,
    // None where the register had no more room for its job
    pub(crate) receipt: Option<Receipt<L>>,
    pub(crate) hint: Hint,
}

impl<L: Lending> Model for Reading<L> {
    ghost use Rattle.sp_piece.specs.Pieced.{Pieced};
    ghost use Rattle.sp_plan.specs.contracts.plan.Expr as expr;
    ghost use Rattle.sp_plan.specs.contracts.plan.Pred as pred;
    ghost use Rattle.std.specs.Coded.{codes};
    ghost use Rattle.sp_piece.specs.Lending.{coded_all_known};
    ghost use Rattle.sp_lend.specs.Truth.{Vouches};

    ghost Value = { Pieced };

    ghost coded = { Prim.hlevel (codes, expr.the_row.coded, pred.the_row.coded, coded_all_known) };

    ghost view = { λ r. r.piece };

    ghost invariant = { λ r. Vouches r.receipt r.piece.job };
}

impl<L: Lending> Reading<L> {
    /// A piece that has read nothing. Takes no memory.
    pub fn start(loan: Loan<L>) -> Reading<L>
        ensures { result ≡ begun loan }
    {
        let Loan {
            piece,
            receipt,
            hint,
        } = loan;
        Reading {
            piece,
            receipt,
            hint,
        }
    }

    /// Reads all that is left, as `Piece::read_whole` does, or takes up what was kept of reading the same. After want of
    /// memory it stands for what it has read, and can be read on.
    pub fn read_whole(&mut self, alloc: Global) -> Result<(), Memory>
        ensures steps { StepsLead self.old self.new }
        ensures whole { OnOk result (self.new ≡ read_whole self.old) }
        ensures end { OnOk result (answer self.new ≡ s.Finished) }
        ensures job { self.new.job ≡ self.old.job }
    {
        if self.take_up(alloc) {
            return Ok(());
        }
        self.piece.read_whole(alloc)?;
        self.hint.keep(alloc, self.piece.get());
        Ok(())
    }

    // Takes up what was kept of reading the same, and answers whether it did.
    fn take_up(&mut self, alloc: Global) -> bool
        ensures whole { IsTrue result → self.new ≡ read_whole self.old }
        ensures steps { IsTrue result → StepsLead self.old self.new }
        ensures end { IsTrue result → answer self.new ≡ s.Finished }
        ensures job { self.new.job ≡ self.old.job }
        ensures not { IsFalse result → self.new ≡ self.old }
    {
        // They tell what every piece keeps.
        self.piece.read();
        self.piece.closed();
        self.hint.take_up(alloc, &mut self.piece)
    }

    /// Gives the piece up, since memory was refused: no step reads any more of it.
    pub fn give_up(&mut self)
        ensures { self.new ≡ refused self.old }
    {
        self.piece.give_up();
    }

    /// The piece.
    pub fn piece(&self) -> &Piece
        ensures { result.now ≡ self.now }
    {
        self.piece.get()
    }
}

impl<L: Lending> Named for Reading<L> {
    ghost ticket_of = { λ piece. piece.job.ticket };

    /// The ticket of its job.
    fn ticket(&self) -> u64 {
        self.piece().job().ticket
    }
}
