ghost use Rattle.std.specs.Prelude.{◌≡◌, ◌≤◌, IsTrue, [], map, length};
ghost use Rattle.sp_chance.specs.Counted.{decoded, IsMove};

use std::marker::Model;

/// How many of the last pairs are kept.
pub(crate) const RECENT: usize = 256;

// A pair is one number: this many times where it leads from, and where it leads to.
const FROM: u32 = 64;

/// At most 256 pairs, in so few bytes that all of them are compared in some nanoseconds. Contracts see the
/// pairs.
#[derive(Drop)]
pub(crate) struct Pairs {
    codes: [u16; RECENT],
    count: usize,
}

impl Model for Pairs {
    ghost use Rattle.std.specs.Prelude.{ℕ, List, map, take, ◌≤◌};
    ghost use Rattle.sp_chance.specs.Counted.{decoded};

    ghost Value = { List (ℕ × ℕ) };

    ghost view = { λ p. map decoded (take p.count p.codes) };

    ghost invariant = { λ p. p.count ≤ 256 };
}

impl Pairs {
    /// None yet.
    pub(crate) fn new() -> Pairs
        ensures { result ≡ [] }
    {
        Pairs {
            codes: [0; RECENT],
            count: 0,
        }
    }

    /// The pairs of these numbers in place of others.
    pub(crate) fn replace(&mut self, codes: &[u16])
        requires { length codes.now ≤ 256 }
        ensures { self.new ≡ map decoded codes.now }
    {
        self.codes[..codes.len()].copy_from_slice(codes);
        self.count = codes.len();
    }

    /// The pairs of another in place of others.
    pub(crate) fn copy_from(&mut self, other: &Pairs)
        ensures { self.new ≡ other.now }
    {
        self.codes = other.codes;
        self.count = other.count;
    }

    /// Whether these are those pairs. Where they are copies of one list, they are found to be.
    pub(crate) fn are_those(&self, other: &Pairs) -> bool
        ensures { IsTrue result → self.now ≡ other.now }
    {
        self.count == other.count && are_same(&self.codes, &other.codes)
    }

    /// The pairs, each as one number.
    pub(crate) fn codes(&self) -> &[u16]
        ensures { map decoded result.now ≡ self.now }
    {
        &self.codes[..self.count]
    }
}

/// The number of a pair.
pub(crate) fn encode(from: u32, to: u32) -> u16
    requires { IsMove (from, to) }
    ensures { decoded result ≡ (from, to) }
{
    (from * FROM + to) as u16
}

/// Where the pair of a number leads from, and to.
pub(crate) fn decode(code: u16) -> (usize, usize)
    ensures { result ≡ decoded code }
{
    let code = u32::from(code);
    ((code / FROM) as usize, (code % FROM) as usize)
}

// Whether all numbers are the same. It looks at each, without a branch, so that many are compared at a time.
fn are_same(left: &[u16; RECENT], right: &[u16; RECENT]) -> bool
    ensures { IsTrue result → left.now ≡ right.now }
{
    let mut same = true;
    for index in 0..RECENT {
        same &= left[index] == right[index];
    }
    same
}
