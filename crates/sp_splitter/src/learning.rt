// What was read is learned from.
ghost use Rattle.std.specs.Prelude.{◌≡◌};
ghost use Rattle.sp_chance.specs.Taught.{TaughtOn};
ghost use Rattle.sp_splitter.specs.Gathering.{wanted_of};

use sp_chance::Predictor;
use sp_match::Moves;

/// Learns from what a piece did, in its order: how many events groups wanted before one more event, and after
/// it. The predictor's name stays.
pub fn learn(predictor: &mut dyn Predictor, moves: &[Moves])
    ensures taught { TaughtOn (taught predictor.old) (wanted_of moves.now) (taught predictor.new) }
    ensures name { named predictor.new ≡ named predictor.old }
{
    for entry in moves {
        predictor.learn_all(&entry.wanted);
    }
}
