// A piece in a box of its own.
ghost use Rattle.std.specs.Prelude.{◌≡◌, ◌≤◌, length, true, IfOk, IsSome, OnErr, OnOk, IsTrue, IsFalse};
ghost use Rattle.sp_piece.specs.Pieced.{StepsLead, answer, begun, read_whole, refused};
ghost use Rattle.sp_piece.specs.declared.stepped.Stepped.TheVariants as s;

use crate::Memory;
use sp_piece::{Done, Job, Piece};
use std::alloc::Global;
use std::marker::Model;

/// A piece that lies in its box from its lease until it is home, so that what goes from hand to hand is small. Contracts
/// see the piece.
#[derive(Drop)]
pub(crate) struct Boxed {
    piece: Box<Option<Piece>>,
    ghost there: { IsSome piece.value },
}

impl Model for Boxed {
    ghost use Rattle.std.specs.Prelude.{IsSome};
    ghost use Rattle.sp_piece.specs.Pieced.{Pieced};
    ghost use Rattle.sp_plan.specs.contracts.plan.Expr as expr;
    ghost use Rattle.sp_plan.specs.contracts.plan.Pred as pred;
    ghost use Rattle.std.specs.Coded.{codes};
    ghost use Rattle.sp_piece.specs.Lending.{coded_all_known};
    ghost use Rattle.sp_lend.specs.Boxed.{boxed_in};

    ghost Value = { Pieced };

    ghost coded = { Prim.hlevel (codes, expr.the_row.coded, pred.the_row.coded, coded_all_known) };

    ghost view = { λ b. boxed_in b.piece.value b.there };
}

/// A box where no piece lies yet. It is made before a lease, which is not taken back where memory is wanting.
pub(crate) fn empty_box(alloc: Global) -> Result<Box<Option<Piece>>, Memory> {
    Ok(Box::new(alloc, None)?)
}

impl Boxed {
    /// A piece of a job that has read nothing, in this box. Takes no memory.
    pub(crate) fn begin(alloc: Global, mut piece: Box<Option<Piece>>, job: Job) -> Boxed
        ensures { result ≡ begun job }
    {
        *piece = Some(Piece::start(alloc, job));
        Boxed { piece }
    }

    /// The piece.
    pub(crate) fn get(&self) -> &Piece
        ensures { result.now ≡ self.now }
    {
        match &*self.piece {
            Some(piece) => piece,
            None => unreachable!(),
        }
    }

    /// `Piece::read`.
    pub(crate) fn read(&self) -> u32
        ensures read { result ≡ self.now.read }
        ensures most { result ≤ length self.now.job.events }
    {
        self.get().read()
    }

    /// `Piece::closed`.
    pub(crate) fn closed(&self) -> bool
        ensures closed { result ≡ self.now.closed }
        ensures last { result ≡ true → self.now.read ≡ length self.now.job.events }
        ensures lent { result ≡ true → self.now.job.closes ≡ true }
    {
        self.get().closed()
    }

    /// `Piece::read_whole`.
    pub(crate) fn read_whole(&mut self, alloc: Global) -> Result<(), Memory>
        ensures steps { StepsLead self.old self.new }
        ensures whole { OnOk result (self.new ≡ read_whole self.old) }
        ensures end { OnOk result (answer self.new ≡ s.Finished) }
        ensures job { self.new.job ≡ self.old.job }
    {
        match &mut *self.piece {
            Some(piece) => piece.read_whole(alloc),
            None => unreachable!(),
        }
    }

    /// `Piece::take_up`.
    pub(crate) fn take_up(&mut self, alloc: Global, done: &Done) -> Result<bool, Memory>
        ensures whole { IfOk result (λ taken. IsTrue taken → self.new ≡ read_whole self.old) }
        ensures not { IfOk result (λ taken. IsFalse taken → self.new ≡ self.old) }
        ensures err { OnErr result (self.new ≡ self.old) }
    {
        match &mut *self.piece {
            Some(piece) => piece.take_up(alloc, done),
            None => unreachable!(),
        }
    }

    /// `Piece::give_up`.
    pub(crate) fn give_up(&mut self)
        ensures { self.new ≡ refused self.old }
    {
        match &mut *self.piece {
            Some(piece) => piece.give_up(),
            None => unreachable!(),
        }
    }

    /// The piece, taken out of its box.
    pub(crate) fn into_piece(self) -> Piece
        ensures { result ≡ self }
    {
        match Box::into_inner(self.piece) {
            Some(piece) => piece,
            None => unreachable!(),
        }
    }
}
