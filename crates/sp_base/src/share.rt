ghost use Rattle.std.specs.Prelude.{◌≡◌, ℕ, ◌-◌, ◌*◌, ◌/◌, ◌≤◌, min};
ghost use Rattle.sp_base.specs.Limits.{whole_share};

use crate::limits::WHOLE_SHARE;
use std::marker::Model;

/// A share of a whole: a number of 65,536ths, from 0 to 65,536. Contracts see the number.
#[derive(Clone, Copy, Drop)]
pub struct Share {
    parts: u32,
}

impl Model for Share {
    ghost Value = { ℕ };

    ghost view = { λ s. s.parts };

    ghost invariant = { λ s. s.parts ≤ whole_share };

    ghost inverse = { λ n. record { parts = n } };
}

impl Share {
    /// The share of so many 65,536ths; what is more counts as the whole.
    pub fn new(n: u32) -> Share
        ensures { result ≡ min n whole_share }
    {
        Share {
            parts: n.min(WHOLE_SHARE),
        }
    }

    /// How many 65,536ths it is, from 0 to 65,536.
    pub fn get(self) -> u32
        ensures parts { result ≡ self }
        ensures most { result ≤ whole_share }
    {
        self.parts
    }

    /// The share of a share, rounded down.
    pub fn times(self, other: Share) -> Share
        ensures { result ≡ self * other / whole_share }
    {
        let product = u64::from(self.parts) * u64::from(other.parts);
        Share {
            parts: (product / u64::from(WHOLE_SHARE)) as u32,
        }
    }

    /// What is missing to the whole.
    pub fn rest(self) -> Share
        ensures { result ≡ whole_share - self }
    {
        Share {
            parts: WHOLE_SHARE - self.parts,
        }
    }
}
