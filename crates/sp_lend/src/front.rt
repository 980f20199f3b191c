// A beginning of the register that was seen.
ghost use Rattle.std.specs.Prelude.{◌≡◌, ℕ, ◌<◌, ◌^◌, ◌++◌, ◌∷◌, [], length, MatchBool, Some, slice_get};
ghost use mathlib.Core.List.{IsPrefix};
ghost use Rattle.sp_lend.specs.Registered.{head_of};
ghost use Rattle.sp_piece.specs.declared.job.Job as piece;

use crate::register::{Enters, Lending, Nothing, Rising, Unruled};
use logbook::{Offer, Seen, Word};
use sp_piece::Job;
use std::marker::{Model, PhantomData};

/// A beginning of the register. Contracts see its jobs.
#[derive(Drop)]
pub(crate) struct Front<L: Lending> {
    count: u64,
    seen: Seen<Job, u64, Rising>,
    // it names `L` in a form that may go to any thread, whatever `L` is; no value of it is there
    of: PhantomData<Seen<L, u64, Unruled>>,
}

impl<L: Lending> Model for Front<L> {
    ghost use Rattle.std.specs.Prelude.{◌≡◌, List, length};
    ghost use Rattle.sp_piece.specs.declared.job.Job.{Job};
    ghost use Rattle.sp_plan.specs.contracts.plan.Expr as expr;
    ghost use Rattle.sp_plan.specs.contracts.plan.Pred as pred;
    ghost use Rattle.std.specs.Coded.{codes};
    ghost use Rattle.sp_piece.specs.Lending.{coded_all_known};

    ghost Value = { List Job };

    ghost coded = { Prim.hlevel (codes, expr.the_row.coded, pred.the_row.coded, coded_all_known) };

    ghost view = { λ f. f.seen.log };

    ghost invariant = { λ f. (f.count ≡ length f.seen.log) × (f.seen.book ≡ L.book) };
}

impl<L: Lending> Front<L> {
    /// The whole register, in which no job is entered.
    pub(crate) fn first(seen: Seen<Job, u64, Rising>) -> Front<L>
        requires book { seen.book ≡ L.book }
        requires empty { seen.log ≡ [] }
        ensures { result ≡ [] }
    {
        Front {
            count: 0,
            seen,
            of: PhantomData,
        }
    }

    /// How many jobs it has.
    pub(crate) fn count(&self) -> u64
        ensures { result ≡ length self.now }
    {
        self.count
    }

    /// A copy.
    pub(crate) fn again(&self) -> Front<L>
        ensures { result ≡ self.now }
    {
        Front {
            count: self.count,
            seen: self.seen.again(),
            of: PhantomData,
        }
    }

    /// Enters a job behind all that was seen, and answers whether it did. It did not where others were entered since.
    pub(crate) fn enter(&mut self, head: &Word<Job, u64, Rising>, job: &Job) -> bool
        requires head { head.now ≡ head_of L.book }
        requires room { length self.old < 2 ^ 62 }
        ensures { MatchBool result (self.new ≡ self.old ++ job.now ∷ []) (IsPrefix self.old self.new) }
    {
        let mut offer: Offer<Job, u64, Rising, Nothing> = self
            .seen
            .plain::<Nothing, Job, Enters>(job);
        let mut pen = self.seen.no_pen();
        let count = self.count;
        let found = head.compare_exchange::<Enters, Nothing>(
            count,
            count + 1,
            &mut self.seen,
            &mut offer,
            &mut pen,
        );
        self.count = if found == count { count + 1 } else { found };
        found == count
    }

    /// What stands in another beginning stands in this one too, as far as this one goes: both are of one register.
    pub(crate) fn agree(&self, other: &Front<L>)
        ensures { (place : ℕ) (job : piece.Job) → place < length self.now
            → slice_get other.now place ≡ Some job → slice_get self.now place ≡ Some job }
    {
        let mut both = self.seen.again();
        both.learn(&other.seen);
    }
}
