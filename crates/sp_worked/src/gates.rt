// Gates that delay some of the jobs, or hold them until two are inside: whichever they are, a run is to come to the same.
use sp_instance::Gate;
use sp_sheet::{Delayed, Pair};
use std::hint::spin_loop;
use std::sync::atomic::AtomicU64;
use std::sync::atomic::Ordering::SeqCst;

// How often a delay looks whether it is over.
const LOOKS: u32 = 100_000;

// The same where each job is delayed, before it is done and behind it.
const FEW_LOOKS: u32 = 1_000;

// How often one who is held looks whether two have met, before all give up.
const MANY_LOOKS: u32 = 100_000_000;

// Of `met`: nobody has met yet, two have, the first one who was held gave up.
const NOT_YET: u64 = 0;

const MET: u64 = 1;

const GIVEN_UP: u64 = 2;

/// Delays or holds these jobs.
#[derive(Drop)]
pub(crate) struct Gates {
    delayed: Delayed,
    // How many wait: a number that a thread has to look at.
    waiting: AtomicU64,
    // How many of those that are to meet are inside.
    inside: AtomicU64,
    met: AtomicU64,
}

impl Gates {
    pub(crate) fn new(delayed: Delayed) -> Gates {
        Gates {
            delayed,
            waiting: AtomicU64::new(0),
            inside: AtomicU64::new(0),
            met: AtomicU64::new(NOT_YET),
        }
    }

    /// Whether two were inside at once, where jobs were held for that.
    pub(crate) fn told(&self) -> &'static str {
        match self.delayed {
            Delayed::Met(_) if self.met.load(SeqCst) == MET => "met\n",
            Delayed::Met(_) => "apart\n",
            _ => "",
        }
    }

    // Whether the job of this ticket is delayed at the seat of this number.
    fn delays(&self, seat: u32, ticket: u64) -> bool {
        match self.delayed {
            Delayed::None | Delayed::Met(_) => false,
            Delayed::First => ticket == 1,
            Delayed::AtSeat(number) => seat == number,
            Delayed::Odd => ticket % 2 == 1,
            Delayed::Each => true,
        }
    }

    // Looks so often whether the delay is over.
    fn look(&self, looks: u32) {
        self.waiting.fetch_add(1, SeqCst);
        for _ in 0..looks {
            // Never so few while this one waits.
            if self.waiting.load(SeqCst) == 0 {
                return;
            }
        }
        self.waiting.fetch_sub(1, SeqCst);
    }

    // Looks until two have met, or gives up, for all.
    fn hold(&self) {
        for _ in 0..MANY_LOOKS {
            if self.met.load(SeqCst) != NOT_YET {
                return;
            }
            spin_loop();
        }
        self.met.store(GIVEN_UP, SeqCst);
    }

    // Who is to meet another comes in.
    fn come_in(&self) {
        if self.inside.fetch_add(1, SeqCst) > 0 && self.met.load(SeqCst) == NOT_YET {
            self.met.store(MET, SeqCst);
        }
    }

    // The same goes out, once two have met.
    fn go_out(&self) {
        self.hold();
        self.inside.fetch_sub(1, SeqCst);
    }
}

// Whether a job at a seat is one of those that are to meet.
fn is_to_meet(pair: Pair, seat: u32, ticket: u64) -> bool {
    match pair {
        Pair::Seats => true,
        Pair::Instances => seat > 0,
        Pair::Trees => ticket == 1,
    }
}

impl Gate for Gates {
    fn enter(&self, seat: u32, ticket: u64) {
        match self.delayed {
            Delayed::Each => self.look(FEW_LOOKS),
            Delayed::Met(pair) if is_to_meet(pair, seat, ticket) => self.come_in(),
            Delayed::Met(Pair::Instances) => self.hold(),
            _ if self.delays(seat, ticket) => self.look(LOOKS),
            _ => {}
        }
    }

    fn leave(&self, seat: u32, ticket: u64) {
        match self.delayed {
            Delayed::Each => self.look(FEW_LOOKS),
            Delayed::Met(pair) if is_to_meet(pair, seat, ticket) => self.go_out(),
            _ => {}
        }
    }
}
