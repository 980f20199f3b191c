ghost use Rattle.std.specs.Prelude.{◌≡◌, ◌+◌, ◌%◌, ◌<◌, ◌≤◌, [], ◌++◌, ◌==◌, map, replicate, if◌then◌else◌};
ghost use Rattle.circular_buffer.specs.Buffer.{keep_last};
ghost use Rattle.sp_base.specs.Limits.{renewal};
ghost use Rattle.sp_chance.specs.Counted.{decoded, IsMove};

use crate::pairs::{RECENT, encode};
use sp_base::limits::RENEWAL;
use std::marker::Model;

/// The last 256 pairs that were learned. Contracts see them, and how many were learned since the last turn.
#[derive(Drop)]
pub(crate) struct Recent {
    codes: [u16; RECENT],
    // This is also the place of the next pair, round the ring: a turn begins anew at its first place, since the
    // pairs between two turns go round it some times over.
    since: u32,
    // Whether there was a turn, so that no place is empty.
    full: bool,
}

impl Model for Recent {
    ghost use Rattle.std.specs.Prelude.{map, ◌<◌};
    ghost use Rattle.sp_base.specs.Limits.{renewal};
    ghost use Rattle.sp_chance.specs.Counted.{decoded};
    ghost use Rattle.sp_chance.specs.Recent.{Latest, ring_of};

    ghost Value = { Latest };

    ghost view = { λ r. record { ring = map decoded (ring_of r.codes r.since r.full); since = r.since } };

    ghost invariant = { λ r. r.since < renewal };
}

impl Recent {
    /// Of no pair yet.
    pub(crate) fn new() -> Recent
        ensures { result ≡ record { ring = []; since = 0 } }
    {
        Recent {
            codes: [0; RECENT],
            since: 0,
            full: false,
        }
    }

    /// How many pairs the ring takes up to its last place. A turn comes only there.
    pub(crate) fn room(&self) -> usize
        ensures left { self.now.since % 256 + result ≡ 256 }
        ensures some { 0 < result }
    {
        RECENT - self.since as usize % RECENT
    }

    /// The same pair so many times more, up to the last place of the ring at most. Whether they bring a turn.
    pub(crate) fn push_times(&mut self, from: u32, to: u32, times: usize) -> bool
        requires counts { IsMove (from, to) }
        requires room { self.old.since % 256 + times ≤ 256 }
        ensures within { self.old.since + times ≤ renewal }
        ensures ring { self.new.ring ≡ keep_last 256 (self.old.ring ++ replicate times (from, to)) }
        ensures turn { result ≡ (self.old.since + times == renewal) }
        ensures since { self.new.since
            ≡ (if self.old.since + times == renewal then 0 else self.old.since + times) }
    {
        let at = self.since as usize % RECENT;
        self.codes[at..at + times].fill(encode(from, to));
        self.since += times as u32;
        if self.since < RENEWAL {
            return false;
        }
        self.since = 0;
        self.full = true;
        true
    }

    /// The number of each pair, at a turn.
    pub(crate) fn whole(&self) -> &[u16]
        requires { self.now.since ≡ 0 }
        ensures { map decoded result.now ≡ self.now.ring }
    {
        if self.full { &self.codes } else { &[] }
    }
}
