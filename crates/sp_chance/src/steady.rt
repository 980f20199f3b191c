ghost use Rattle.std.specs.Prelude.{◌≡◌, codes};

use crate::Predictor;
use std::marker::Model;

/// Holds all groups for equally likely to complete. Contracts see the share.
#[derive(Drop)]
pub struct Steady {
    share: u32,
}

impl Model for Steady {
    ghost use Rattle.std.specs.Prelude.{ℕ};

    ghost Value = { ℕ };

    ghost view = { λ s. s.share };
}

impl Steady {
    /// With this share, in 65,536ths.
    pub fn new(share: u32) -> Steady
        ensures { result ≡ share }
    {
        Steady { share }
    }
}

impl Predictor for Steady {
    ghost named = { λ _. codes "steady" };

    ghost means = { λ share _ _. share };

    ghost taught = { λ _ _. Unit {0} };

    fn name(&self) -> &str {
        "steady"
    }

    fn learn(&mut self, _from: u32, _to: u32)
        ensures { self.new ≡ self.old }
    {}

    fn chance(&self, _left: u32, _events: u32) -> u32 {
        self.share
    }
}
