ghost use Rattle.std.specs.Prelude.{◌≡◌, ◌+◌, ◌%◌, ◌<◌, ◌≤◌, ◌↔◌, replicate, IfOk, IsTrue, codes};
ghost use Rattle.sp_chance.specs.Counted.{IsMove};
ghost use Rattle.sp_chance.specs.Learned as learning;
ghost use Rattle.sp_chance.specs.Matrices.{at, first, power};
ghost use Rattle.sp_chance.specs.Learned.{fresh, learned, learned_all, chance_of};

use crate::Predictor;
use crate::matrix::{STATES, WHOLE};
use crate::pairs::Pairs;
use crate::powers::{POWERS, Powers, worked_out};
use crate::recent::Recent;
use sp_base::Memory;
use sp_wants::Wants;
use std::alloc::Global;
use std::cell::RefCell;
use std::marker::Model;

/// How many events the first power stands for, and each further one adds.
const STEPS: u32 = 16;

/// Learns how groups move from so many wanted events to fewer, by a Markov model. Contracts see the last
/// pairs, how many were learned since the last turn, and the pairs of that turn, of which the matrices are.
/// These are worked out at the first answer behind the turn, and kept.
#[derive(Drop)]
pub struct Markov {
    recent: Recent,
    built: Pairs,
    // They know of which pairs they are: those of `built`, or those of an earlier turn.
    powers: RefCell<Powers>,
}

impl Model for Markov {
    ghost use Rattle.sp_chance.specs.Learned.{Learned, IsSound};

    ghost Value = { Learned };

    ghost view = { λ m. record { ring = m.recent.ring; since = m.recent.since; built = m.built } };

    ghost invariant = { λ m. IsSound m.recent.ring m.built };
}

// Whether a pair counts: from 1 to 32 wanted events to as many or fewer.
fn is_move(from: u32, to: u32) -> bool
    ensures value { result ≡ learning.is_move from to }
    ensures counts { IsTrue result ↔ IsMove (from, to) }
{
    from != 0 && (from as usize) < STATES && to <= from
}

impl Markov {
    /// One that has learned nothing yet. All memory is taken here.
    pub fn new(alloc: Global) -> Result<Markov, Memory>
        ensures { IfOk result (λ markov. markov ≡ fresh) }
    {
        let powers = Powers::new(alloc)?;
        Ok(Markov {
            recent: Recent::new(),
            built: Pairs::new(),
            powers: RefCell::new(powers),
        })
    }

    // The same pair so many times more, up to the last place of the ring at most. At a turn the matrices are
    // those of the last pairs from then on; these are only copied, since most are never asked about.
    fn note_some(&mut self, from: u32, to: u32, times: usize)
        requires counts { IsMove (from, to) }
        requires some { 0 < times }
        requires room { self.old.since % 256 + times ≤ 256 }
        ensures { self.new ≡ learned_all self.old (replicate times (from, to)) }
    {
        if self.recent.push_times(from, to, times) {
            self.built.replace(self.recent.whole());
        }
    }

    // The same pair so many times more.
    fn note(&mut self, from: u32, to: u32, times: usize)
        ensures { self.new ≡ learned_all self.old (replicate times (from, to)) }
    {
        if !is_move(from, to) {
            return;
        }
        let mut noted = 0;
        while noted < times {
            let some = self.recent.room().min(times - noted);
            self.note_some(from, to, some);
            noted += some;
        }
    }

    // How likely a state is to come to 0 in the events of a power. The numbers at hand serve where they are
    // of these pairs; where they are lent, which no call here leaves behind, they are worked out aside.
    fn number(&self, steps: usize, left: usize) -> u32
        requires steps { steps < 16 }
        requires left { left ≤ 32 }
        ensures { result ≡ at (power (first self.now.built) steps) left 0 }
    {
        match self.powers.try_borrow_mut() {
            Ok(mut powers) => powers.number(&self.built, steps, left),
            Err(_) => worked_out(&self.built, steps, left),
        }
    }
}

impl Predictor for Markov {
    ghost named = { λ _. codes "markov" };

    ghost means = { λ m left events. chance_of m.built left events };

    ghost taught = { λ m pairs. m ≡ learned_all fresh pairs };

    fn name(&self) -> &str {
        "markov"
    }

    /// Pairs that can't be, from no event or from more than 32, or to more events than from, are passed over.
    fn learn(&mut self, from: u32, to: u32)
        ensures { self.new ≡ learned self.old from to }
    {
        self.note(from, to, 1);
    }

    /// As `learn`, with one call for all of them. Equal pairs that follow one another cost little more than one.
    fn learn_all(&mut self, pairs: &Wants)
        ensures { self.new ≡ learned_all self.old pairs.now }
    {
        for stretch in pairs.stretches() {
            self.note(stretch.before, stretch.after, stretch.times);
        }
    }

    /// The first answer behind a turn works the matrices out; any later one finds them. No memory is taken.
    fn chance(&self, left: u32, events: u32) -> u32 {
        if left == 0 {
            return WHOLE as u32;
        }
        if events == 0 {
            return 0;
        }
        let power = events.div_ceil(STEPS).min(POWERS as u32) - 1;
        let state = left.min(STATES as u32 - 1);
        self.number(power as usize, state as usize)
    }
}
