// Tokens that stand for themselves alone.
ghost use Rattle.std.specs.Prelude.{◌≡◌, is_some};
ghost use Rattle.sp_query.specs.Grammar.{mark};

use sp_lex::{Kernel, Word};

/// A mark or a word that the grammar expects at one place, and that says nothing more.
#[derive(Clone, Copy, Drop)]
pub enum Mark {
    LeftRound,
    RightRound,
    LeftSquare,
    RightSquare,
    Comma,
    Dot,
    Plus,
    Minus,
    Bang,
    Event,
    Time,
    Pattern,
    Set,
    Define,
    As,
    Within,
    From,
    Every,
    When,
    Select,
    Consume,
    Dec,
    Not,
}

/// Whether a token is this one.
pub fn is_mark(kernel: &Kernel, which: Mark) -> bool
    ensures { result ≡ is_some (mark which kernel.now) }
{
    match (which, kernel) {
        (Mark::LeftRound, Kernel::LeftRound) => true,
        (Mark::RightRound, Kernel::RightRound) => true,
        (Mark::LeftSquare, Kernel::LeftSquare) => true,
        (Mark::RightSquare, Kernel::RightSquare) => true,
        (Mark::Comma, Kernel::Comma) => true,
        (Mark::Dot, Kernel::Dot) => true,
        (Mark::Plus, Kernel::Plus) => true,
        (Mark::Minus, Kernel::Minus) => true,
        (Mark::Bang, Kernel::Bang) => true,
        (Mark::Event, Kernel::Word(Word::Event)) => true,
        (Mark::Time, Kernel::Word(Word::Time)) => true,
        (Mark::Pattern, Kernel::Word(Word::Pattern)) => true,
        (Mark::Set, Kernel::Word(Word::Set)) => true,
        (Mark::Define, Kernel::Word(Word::Define)) => true,
        (Mark::As, Kernel::Word(Word::As)) => true,
        (Mark::Within, Kernel::Word(Word::Within)) => true,
        (Mark::From, Kernel::Word(Word::From)) => true,
        (Mark::Every, Kernel::Word(Word::Every)) => true,
        (Mark::When, Kernel::Word(Word::When)) => true,
        (Mark::Select, Kernel::Word(Word::Select)) => true,
        (Mark::Consume, Kernel::Word(Word::Consume)) => true,
        (Mark::Dec, Kernel::Word(Word::Dec)) => true,
        (Mark::Not, Kernel::Word(Word::Not)) => true,
        _ => false,
    }
}
