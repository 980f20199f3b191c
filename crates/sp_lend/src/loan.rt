// A job with its receipt.
ghost use Rattle.std.specs.Prelude.{◌≡◌};

use crate::boxed::Boxed;
use crate::front::Front;
use crate::memo::Hint;
use crate::register::Lending;
use sp_hub::Named;
use sp_piece::Job;
use std::marker::Model;

/// That a job is entered in the register, at a place, from 0. It has but eight bytes beside a count of as many.
#[derive(Drop)]
pub(crate) struct Receipt<L: Lending> {
    pub(crate) front: Front<L>,
    pub(crate) place: u64,
}

/// A job that was lent, with the piece that is to read it. Contracts see the job.
#[derive(Drop)]
pub struct Loan<L: Lending> {
    // it has read nothing
    pub(crate) piece: Boxed,
    // None where the register had no more room
    pub(crate) receipt: Option<Receipt<L>>,
    pub(crate) hint: Hint,
}

impl<L: Lending> Model for Loan<L> {
    ghost use Rattle.std.specs.Prelude.{◌≡◌};
    ghost use Rattle.sp_piece.specs.declared.job.Job.{Job};
    ghost use Rattle.sp_piece.specs.Pieced.{begun};
    ghost use Rattle.sp_plan.specs.contracts.plan.Expr as expr;
    ghost use Rattle.sp_plan.specs.contracts.plan.Pred as pred;
    ghost use Rattle.std.specs.Coded.{codes};
    ghost use Rattle.sp_piece.specs.Lending.{coded_all_known};
    ghost use Rattle.sp_lend.specs.Truth.{Vouches};

    ghost Value = { Job };

    ghost coded = { Prim.hlevel (codes, expr.the_row.coded, pred.the_row.coded, coded_all_known) };

    ghost view = { λ l. l.piece.job };

    ghost invariant = { λ l. (l.piece ≡ begun l.piece.job) × Vouches l.receipt l.piece.job };
}

impl<L: Lending> Loan<L> {
    /// The job.
    pub fn job(&self) -> &Job
        ensures { result.now ≡ self.now }
    {
        self.piece.get().job()
    }
}

impl<L: Lending> Named for Loan<L> {
    ghost ticket_of = { λ job. job.ticket };

    /// The ticket's number.
    fn ticket(&self) -> u64 {
        self.job().ticket
    }
}
