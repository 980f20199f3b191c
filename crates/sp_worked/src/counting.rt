// Three predictors whose calls are counted, and of which it is told how long they are kept.
ghost use Rattle.std.specs.Prelude.{codes, if◌then◌else◌};

use sp_chance::Predictor;
use std::alloc::{AllocError, Global};
use std::sync::Arc;
use std::sync::atomic::AtomicU64;
use std::sync::atomic::Ordering::SeqCst;

// What a call of a predictor counts that isn't the first one of its name.
const FAR: u64 = 1_000_000_000;

/// Holds a group for more likely by a thousand with each pair that it has learned, whatever is asked.
#[derive(Drop)]
pub(crate) struct Counting {
    // Whether its name is `other`, and not `counting`.
    is_other: bool,
    thousands: u32,
    // What each call counts, where it is asked and where it is taught.
    weight: u64,
    asked: Arc<AtomicU64>,
    taught: Arc<AtomicU64>,
}

impl Predictor for Counting {
    ghost named = { λ counting. if counting.is_other then codes "other" else codes "counting" };

    ghost means = { λ counting _ _. counting.thousands };

    ghost taught = { λ _ _. Unit {0} };

    fn name(&self) -> &str {
        if self.is_other { "other" } else { "counting" }
    }

    fn learn(&mut self, _from: u32, _to: u32) {
        self.taught.fetch_add(self.weight, SeqCst);
        self.thousands = self.thousands.saturating_add(1_000);
    }

    fn chance(&self, _left: u32, _events: u32) -> u32 {
        self.asked.fetch_add(self.weight, SeqCst);
        self.thousands
    }
}

// Which of the three calls were made of that add up to this.
fn callers(calls: u64) -> &'static str {
    match calls {
        0 => "none",
        _ if calls < FAR => "first",
        _ => "others",
    }
}

/// What the calls of three predictors add up to.
#[derive(Drop)]
pub(crate) struct Counts {
    asked: Arc<AtomicU64>,
    taught: Arc<AtomicU64>,
}

impl Counts {
    pub(crate) fn new(alloc: Global) -> Result<Counts, AllocError> {
        Ok(Counts {
            asked: Arc::new(alloc, AtomicU64::new(0))?,
            taught: Arc::new(alloc, AtomicU64::new(0))?,
        })
    }

    // One of the three.
    fn one(&self, is_other: bool, weight: u64) -> Result<Counting, AllocError> {
        Ok(Counting {
            is_other,
            thousands: 0,
            weight,
            asked: self.asked.clone()?,
            taught: self.taught.clone()?,
        })
    }

    /// One of the name `other`.
    pub(crate) fn other(&self) -> Result<Counting, AllocError> {
        self.one(true, FAR)
    }

    /// The one of the name `counting` that is told from all others.
    pub(crate) fn first(&self) -> Result<Counting, AllocError> {
        self.one(false, 1)
    }

    /// Another one of that name.
    pub(crate) fn later(&self) -> Result<Counting, AllocError> {
        self.one(false, FAR)
    }

    /// Which of them were asked or taught.
    pub(crate) fn called(&self) -> &'static str {
        callers(
            self.asked
                .load(SeqCst)
                .saturating_add(self.taught.load(SeqCst)),
        )
    }

    /// Which of them were taught.
    pub(crate) fn taught(&self) -> &'static str {
        callers(self.taught.load(SeqCst))
    }

    /// How many of the three are still kept.
    pub(crate) fn kept(&self) -> usize {
        Arc::strong_count(&self.taught).saturating_sub(1)
    }
}
