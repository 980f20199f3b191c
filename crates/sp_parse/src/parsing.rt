// A whole query from its text.
ghost use Rattle.std.specs.Prelude.{◌≡◌, ◌≢◌, ◌⊎◌, ◌++◌, ◌<◌, ◌≤◌, ◌^◌, List, length, IfOk, IfErr, MatchResult};
ghost use Rattle.sp_lex.specs.declared.token.LexFault.{LexFault};
ghost use Rattle.sp_lex.specs.declared.token.Token.{Token};
ghost use Rattle.sp_query.specs.declared.query.Query.{Query};
ghost use Rattle.sp_query.specs.Queries.{IsQuery};
ghost use Rattle.sp_parse.specs.declared.fault.ParseFault.{ParseFault};
ghost use Rattle.sp_parse.specs.Parses.{Refuses, IsAll, place};

use crate::ParseFault;
use crate::query::parse_tokens;
use crate::stop::Stop;
use sp_query::{LexFault, Query, Token, lex};
use std::alloc::Global;

/// The fault of a text that has no tokens.
pub fn without_tokens(fault: LexFault) -> ParseFault
    ensures memory { fault ≡ LexFault.Memory → result ≡ ParseFault.Memory }
    ensures other { fault ≢ LexFault.Memory → result ≡ ParseFault.Lex fault }
{
    match fault {
        LexFault::Memory => ParseFault::Memory,
        fault => ParseFault::Lex(fault),
    }
}

/// Where the last so many tokens begin, or the text's length where there are none.
pub fn place_of(text: &str, tokens: &[Token], left: usize) -> u32
    requires text { length text.now < 2 ^ 32 }
    requires left { left ≤ length tokens.now }
    ensures { (front rest : List Token) → tokens.now ≡ front ++ rest → length rest ≡ left
        → result ≡ place text.now rest }
{
    if left == 0 {
        return text.len() as u32;
    }
    tokens[tokens.len() - left].span.from
}

/// The query that the text is, or the first place up to which it begins none. Texts are shorter than
/// 2^32 bytes. What follows `Lex` is a fault of the tokens, wherever it stands; of `Unexpected` and
/// `TooDeep` the one at the earlier token is answered.
pub fn parse(alloc: Global, text: &str) -> Result<Query, ParseFault>
    requires { length text.now < 2 ^ 32 }
    ensures found { IfOk result (λ query. IsQuery text.now query) }
    ensures only { (query : Query) → IsQuery text.now query → IsAll query result }
    ensures refused { IfErr result (λ fault. Refuses text.now fault) }
    ensures faults { (fault : ParseFault) → Refuses text.now fault → fault ≢ ParseFault.Memory
        → MatchResult result (λ query. ⊥) (λ e. (e ≡ fault) ⊎ (e ≡ ParseFault.Memory)) }
{
    let tokens = match lex(alloc, text) {
        Ok(tokens) => tokens,
        Err(fault) => return Err(without_tokens(fault)),
    };
    match parse_tokens(alloc, &tokens) {
        Ok(query) => Ok(query),
        Err(Stop::Memory) => Err(ParseFault::Memory),
        Err(Stop::Unexpected(left)) => Err(ParseFault::Unexpected {
            at: place_of(text, &tokens, left),
        }),
        Err(Stop::TooDeep(left)) => Err(ParseFault::TooDeep {
            at: place_of(text, &tokens, left),
        }),
    }
}
