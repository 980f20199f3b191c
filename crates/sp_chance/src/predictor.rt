ghost use Rattle.std.specs.Prelude.{◌≡◌, ◌∷◌, ℕ, List, []};
ghost use Rattle.sp_chance.specs.Taught.{TaughtOn};

use sp_wants::Wants;

/// Tells how likely it is that an open group completes. Nothing rests on its numbers but the choice of the
/// work that is done first.
pub trait Predictor: Drop + Send {
    /// Its name.
    ghost named: { Self → List ℕ };

    /// What `chance` answers for each pair of numbers.
    ghost means: { Self → ℕ → ℕ → ℕ };

    /// Whether these may be the pairs that it was taught, in their order. Where it keeps nothing of them, any may be.
    ghost taught: { Self → List (ℕ × ℕ) → Type 0 };

    /// The name by which it is chosen.
    fn name(&self) -> &str
        ensures { result.now ≡ named self.now };

    /// A group that wanted `from` events wants `to` after one more. The name stays; nothing is promised of
    /// the numbers.
    fn learn(&mut self, from: u32, to: u32)
        ensures name { named self.new ≡ named self.old }
        ensures taught { TaughtOn (taught self.old) ((from, to) ∷ []) (taught self.new) };

    /// Learns each of these pairs, in their order.
    fn learn_all(&mut self, pairs: &Wants)
        ensures name { named self.new ≡ named self.old }
        ensures taught { TaughtOn (taught self.old) pairs.now (taught self.new) }
    {
        for stretch in pairs.stretches() {
            for _ in 0..stretch.times {
                self.learn(stretch.before, stretch.after);
            }
        }
    }

    /// How likely `left` wanted events come among the next `events`, in 65,536ths; more counts as the whole.
    fn chance(&self, left: u32, events: u32) -> u32
        ensures { result ≡ means self.now left events };
}
