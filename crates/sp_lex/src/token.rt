// What a query's text is made of.
ghost use Rattle.std.specs.Prelude.{◌≡◌};
ghost use Rattle.sp_lex.specs.Spelling.{spelling};

use sp_base::Text;
use std::alloc::{AllocError, AllocFailed};

/// A part of a text, from this byte on and up to that one.
#[derive(Clone, Copy, Debug, Drop)]
pub struct Span {
    pub from: u32,
    pub to: u32,
}

/// A word of the language.
#[derive(Clone, Copy, Drop, PartialEq, Eq)]
pub enum Word {
    Event,
    Time,
    Pattern,
    Define,
    As,
    Within,
    Events,
    From,
    Every,
    When,
    Select,
    First,
    Last,
    Each,
    Consume,
    All,
    None,
    Set,
    Int,
    Dec,
    Text,
    And,
    Or,
    Not,
}

impl Word {
    /// How it is written.
    pub fn spelling(self) -> &'static str
        ensures { result.now ≡ spelling self }
    {
        match self {
            Word::Event => "EVENT",
            Word::Time => "TIME",
            Word::Pattern => "PATTERN",
            Word::Define => "DEFINE",
            Word::As => "AS",
            Word::Within => "WITHIN",
            Word::Events => "EVENTS",
            Word::From => "FROM",
            Word::Every => "EVERY",
            Word::When => "WHEN",
            Word::Select => "SELECT",
            Word::First => "FIRST",
            Word::Last => "LAST",
            Word::Each => "EACH",
            Word::Consume => "CONSUME",
            Word::All => "ALL",
            Word::None => "NONE",
            Word::Set => "SET",
            Word::Int => "INT",
            Word::Dec => "DEC",
            Word::Text => "TEXT",
            Word::And => "AND",
            Word::Or => "OR",
            Word::Not => "NOT",
        }
    }
}

/// What a token is.
#[derive(Drop)]
pub enum Kernel {
    Word(Word),
    Name(Text),
    /// A whole number, at most 10^15.
    Whole(u64),
    /// A number with so many decimals, 1 to 6, in units of the last one.
    Decimal { units: u64, scale: u8 },
    /// A text between quotes, each doubled quote inside of it as one.
    Literal(Text),
    LeftRound,
    RightRound,
    LeftSquare,
    RightSquare,
    Comma,
    Dot,
    Plus,
    Minus,
    Star,
    Bang,
    Equal,
    Unequal,
    Less,
    AtMost,
    Greater,
    AtLeast,
}

/// A token and where it stands.
#[derive(Drop)]
pub struct Token {
    pub kernel: Kernel,
    pub span: Span,
}

/// Why a text has no tokens, with the place of the first fault. It is told by its code and its place;
/// its message names neither.
#[derive(Debug, Drop, thiserror::Error)]
pub enum LexFault {
    /// The first byte of a character that begins no token.
    #[error("a character that begins no token")]
    BadCharacter { at: u32 },
    /// The quote that begins a literal without an end.
    #[error("a text without its closing quote")]
    OpenText { at: u32 },
    /// The first byte of a number with more than six decimals, or that passes 10^15 when it is read
    /// without its point.
    #[error("a number that is too long")]
    LongNumber { at: u32 },
    #[error("out of memory")]
    Memory,
}

impl From<AllocError> for LexFault {
    ghost use Rattle.sp_lex.specs.declared.token.LexFault.TheVariants.{Memory};

    ghost from_gives = { λ _ e. e ≡ Memory };

    fn from(_: AllocError) -> LexFault {
        LexFault::Memory
    }
}

impl<T: Drop> From<AllocFailed<T>> for LexFault {
    ghost use Rattle.sp_lex.specs.declared.token.LexFault.TheVariants.{Memory};

    ghost from_gives = { λ _ e. e ≡ Memory };

    fn from(_: AllocFailed<T>) -> LexFault {
        LexFault::Memory
    }
}
