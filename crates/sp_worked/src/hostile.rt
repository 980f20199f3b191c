// Predictors whose numbers are of no use: whatever they answer, a run is to come to the same.
ghost use Rattle.std.specs.Prelude.{codes};

use sp_chance::Predictor;

/// Holds no group for likely.
#[derive(Drop)]
pub(crate) struct Zero;

impl Predictor for Zero {
    ghost named = { λ _. codes "zero" };

    ghost means = { λ _ _ _. 0 };

    ghost taught = { λ _ _. Unit {0} };

    fn name(&self) -> &str {
        "zero"
    }

    fn learn(&mut self, _from: u32, _to: u32) {}

    fn chance(&self, _left: u32, _events: u32) -> u32 {
        0
    }
}

/// Answers far more than the whole.
#[derive(Drop)]
pub(crate) struct Greatest;

impl Predictor for Greatest {
    ghost named = { λ _. codes "greatest" };

    ghost means = { λ _ _ _. 4294967295 };

    ghost taught = { λ _ _. Unit {0} };

    fn name(&self) -> &str {
        "greatest"
    }

    fn learn(&mut self, _from: u32, _to: u32) {}

    fn chance(&self, _left: u32, _events: u32) -> u32 {
        u32::MAX
    }
}

/// Answers something else after each pair that it learns.
#[derive(Drop)]
pub(crate) struct Fickle {
    pub(crate) learned: u32,
}

impl Predictor for Fickle {
    ghost named = { λ _. codes "fickle" };

    ghost means = { λ fickle _ _. fickle.learned };

    ghost taught = { λ _ _. Unit {0} };

    fn name(&self) -> &str {
        "fickle"
    }

    fn learn(&mut self, _from: u32, _to: u32) {
        self.learned = self.learned.wrapping_add(40_503);
    }

    fn chance(&self, _left: u32, _events: u32) -> u32 {
        self.learned
    }
}
