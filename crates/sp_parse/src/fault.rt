// Why a text is no query.
ghost use Rattle.std.specs.Prelude.{◌≡◌};
ghost use Rattle.sp_parse.specs.Codes.{code_of, place_of};

use sp_query::LexFault;

/// Why a text is no query, to be told by its code and its place. Places are bytes of the text, from 0.
#[derive(Debug, Drop, thiserror::Error)]
#[error("the text is no query")]
pub enum ParseFault {
    /// The text has no tokens; never by want of memory.
    Lex(LexFault),
    /// The first token up to which the tokens begin no query, or the text's length where it ends too
    /// early.
    Unexpected { at: u32 },
    /// The token that opens level 65 of nesting.
    TooDeep { at: u32 },
    /// Want of memory.
    Memory,
}

impl ParseFault {
    /// The printed code: 1 to 3 for a fault of the tokens, 11 for `Unexpected`, 12 for `TooDeep`.
    /// Want of memory has none; it gives 0.
    pub fn code(&self) -> u8
        ensures { result ≡ code_of self.now }
    {
        match self {
            ParseFault::Lex(LexFault::BadCharacter { .. }) => 1,
            ParseFault::Lex(LexFault::OpenText { .. }) => 2,
            ParseFault::Lex(LexFault::LongNumber { .. }) => 3,
            ParseFault::Unexpected { .. } => 11,
            ParseFault::TooDeep { .. } => 12,
            ParseFault::Lex(LexFault::Memory) | ParseFault::Memory => 0,
        }
    }

    /// Its place in the text, in bytes from 0; 0 for want of memory.
    pub fn place(&self) -> u32
        ensures { result ≡ place_of self.now }
    {
        match self {
            ParseFault::Lex(LexFault::BadCharacter { at })
            | ParseFault::Lex(LexFault::OpenText { at })
            | ParseFault::Lex(LexFault::LongNumber { at })
            | ParseFault::Unexpected { at }
            | ParseFault::TooDeep { at } => *at,
            ParseFault::Lex(LexFault::Memory) | ParseFault::Memory => 0,
        }
    }
}
