// Pieces that are home are given back, and learned from.
ghost use Rattle.std.specs.Prelude.{◌≡◌, ◌+◌, ◌≤◌, ℕ, false, IsOk, OnOk};
ghost use Rattle.sp_core.specs.declared.given.Given as home;
ghost use Rattle.sp_core.specs.Returning.{IsGiven};
ghost use Rattle.sp_spread.specs.Journaled.{readings_entered};
ghost use Rattle.sp_splitter.specs.Gathering.{Gathered, IsLearned};
ghost use Rattle.sp_splitter.specs.Stages.{Collected, Goes, NoneEmitted, ReadOfCollected, Went};

use crate::learning::learn;
use crate::unheard::{Readings, has_children};
use crate::{Memory, law};
use sp_chance::Predictor;
use sp_core::Core;
use sp_hub::{Hub, Naming, Poster};
use sp_lend::{Lender, Lending, Loan, Reading};
use sp_piece::Piece;
use std::alloc::{AllocError, Global};
use std::sync::Wait;

// Learns from a piece, where its version is live.
fn learn_from(predictor: &mut dyn Predictor, core: &Core, piece: &Piece)
    ensures learned { IsLearned (taught predictor.old) (taught predictor.new) core.now piece.now }
    ensures name { named predictor.new ≡ named predictor.old }
{
    let Some(_) = core.tree().get(piece.job().version) else {
        return;
    };
    learn(predictor, piece.moves());
}

// Gives a piece back. One whose ticket is not out, and one that is not what was lent, are let go as one whose
// version is gone: nothing is known of pieces at home.
#[tactic(auto, using(crate::proofs::Stepping::went_none))]
fn give_back<B: Lending>(
    alloc: Global,
    core: &mut Lender<B>,
    piece: Reading<B>,
) -> Result<(), Memory>
    ensures went { (n batch : ℕ) → Went n batch core.old core.new }
    ensures goes { (n : ℕ) → Goes n core.old core.new }
    ensures emitted { NoneEmitted core.old core.new }
    ensures read { readings_entered core.new.journal ≤ readings_entered core.old.journal + 1 }
    ensures short { IsOk result → piece.short ≡ false }
    ensures given { OnOk result ((given : home.Given) × IsGiven core.old core.new piece given) }
{
    law::known(core);
    let short = piece.piece().short();
    drop(core.give_back(alloc, piece)?);
    if short { Err(AllocError) } else { Ok(()) }
}

/// Collects every piece that is home and gives it back. What came home is learned from, in its order. Answers how much
/// it has read. A piece that was given up for want of memory is answered as such, once it is given back.
pub(crate) fn gather<B: Lending + Send, L: Naming, R: Wait>(
    rt: &R,
    alloc: Global,
    core: &mut Lender<B>,
    predictor: &mut dyn Predictor,
    hub: &Hub<Loan<B>, Reading<B>, L>,
    by: &mut Poster<Reading<B>, L>,
) -> Result<Readings, Memory>
    ensures went { (n batch : ℕ) → Went n batch core.old core.new }
    ensures goes { OnOk result ((n : ℕ) → Goes n core.old core.new) }
    ensures emitted { NoneEmitted core.old core.new }
    ensures read { ReadOfCollected core.old core.new by.old by.new }
    ensures by { Collected by.old by.new }
    ensures gathered { OnOk result (Gathered (taught predictor.old) (taught predictor.new)
        core.old core.new by.old by.new) }
    ensures name { named predictor.new ≡ named predictor.old }
{
    let mut read = Readings::none();
    for _ in 0..by.waiting() {
        let Some(piece) = hub.collect(rt, by) else {
            return Ok(read);
        };
        read.add(piece.piece());
        let has_children = has_children(core.core(), piece.piece());
        learn_from(predictor, core.core(), piece.piece());
        give_back(alloc, core, piece)?;
        if has_children {
            read.add_home(core.core());
        }
    }
    Ok(read)
}
