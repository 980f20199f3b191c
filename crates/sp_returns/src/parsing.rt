// What matches return, from its text.
ghost use Rattle.std.specs.Prelude.{◌≡◌, ◌≢◌, ◌⊎◌, ◌<◌, ◌^◌, ◌++◌, ◌∷◌, [], ℕ, List, length, IfOk, IfErr, MatchResult, OnOk};
ghost use Rattle.sp_query.specs.declared.mark.Mark.TheVariants as m;
ghost use Rattle.sp_query.specs.Grammar as g;
ghost use Rattle.sp_parse.specs.declared.fault.ParseFault.{ParseFault};
ghost use Rattle.sp_parse.specs.declared.stop.Stop.{Stop};
ghost use Rattle.sp_parse.specs.Reads.{Answers, never};
ghost use Rattle.sp_returns.specs.declared.item.Return.{Return};
ghost use Rattle.sp_returns.specs.Follow.{after_items};
ghost use Rattle.sp_returns.specs.Grammar.{DerivesReturns, IsReturnList, Item};
ghost use Rattle.sp_returns.specs.Parses.{Halts, Refuses};

use crate::item::Return;
use sp_parse::ParseFault;
use sp_parse::columns::ident;
use sp_parse::expression::sum;
use sp_parse::parsing::{place_of, without_tokens};
use sp_parse::query::ended;
use sp_parse::stop::Stop;
use sp_parse::tokens::{behind, expect};
use sp_query::{Ident, Mark, Token, lex};
use std::alloc::{AllocError, Global};

// How many levels of nesting a sum may have.
const MOST_LEVELS: usize = 64;

// AS name
fn target<'a>(alloc: Global, tokens: &'a [Token]) -> Result<(Ident, &'a [Token]), Stop>
    ensures { (room : ℕ)
        → Answers (λ _. g.After m.As g.Name) never room tokens.now (λ p. (p.0, p.1.now)) result }
{
    let rest = expect(tokens, Mark::As)?;
    ident(alloc, rest)
}

// sum AS name
fn item<'a>(alloc: Global, tokens: &'a [Token], room: usize) -> Result<(Return, &'a [Token]), Stop>
    ensures { Answers Item never room tokens.now (λ p. (p.0, p.1.now)) result }
{
    let (tree, rest) = sum(alloc, tokens, room)?;
    let (name, rest) = target(alloc, rest)?;
    Ok((Return { tree, name }, rest))
}

// Puts an item behind a list.
fn add(list: &mut Vec<Return>, item: Return) -> Result<(), AllocError>
    ensures { OnOk result (list.new.items ≡ list.old.items ++ item ∷ []) }
{
    list.push(item)?;
    Ok(())
}

// sum AS name { "," sum AS name }
fn items<'a>(
    alloc: Global,
    tokens: &'a [Token],
    room: usize,
) -> Result<(Vec<Return>, &'a [Token]), Stop>
    ensures { Answers DerivesReturns after_items room tokens.now
        (λ p. (p.0.items, p.1.now)) result }
{
    let mut list = Vec::new(alloc);
    let (first, mut rest) = item(alloc, tokens, room)?;
    add(&mut list, first)?;
    'each: while let Some(next) = behind(rest, Mark::Comma) {
        let (more, after) = item(alloc, next, room)?;
        add(&mut list, more)?;
        rest = after;
    }
    Ok((list, rest))
}

// The items that the tokens are.
fn parse_tokens(alloc: Global, tokens: &[Token]) -> Result<Vec<Return>, Stop>
    ensures found { IfOk result (λ returns. DerivesReturns 64 tokens.now returns.items) }
    ensures all { (returns : List Return) → DerivesReturns 64 tokens.now returns
        → MatchResult result (λ answer. returns ≡ answer.items) (λ e. e ≡ Stop.Memory) }
    ensures halts { IfErr result (λ stop. Halts tokens.now stop) }
{
    ended(items(alloc, tokens, MOST_LEVELS))
}

/// The items that the text is, `sum AS name` with commas between them, or the first place up to which it
/// begins none. Texts are shorter than 2^32 bytes. What follows `Lex` is a fault of the tokens, wherever it
/// stands; of `Unexpected` and `TooDeep` the one at the earlier token is answered.
pub fn parse_returns(alloc: Global, text: &str) -> Result<Vec<Return>, ParseFault>
    requires { length text.now < 2 ^ 32 }
    ensures found { IfOk result (λ returns. IsReturnList text.now returns.items) }
    ensures only { (returns : List Return) → IsReturnList text.now returns
        → MatchResult result (λ answer. returns ≡ answer.items) (λ e. e ≡ ParseFault.Memory) }
    ensures refused { IfErr result (λ fault. Refuses text.now fault) }
    ensures faults { (fault : ParseFault) → Refuses text.now fault → fault ≢ ParseFault.Memory
        → MatchResult result (λ returns. ⊥) (λ e. (e ≡ fault) ⊎ (e ≡ ParseFault.Memory)) }
{
    let tokens = match lex(alloc, text) {
        Ok(tokens) => tokens,
        Err(fault) => return Err(without_tokens(fault)),
    };
    match parse_tokens(alloc, &tokens) {
        Ok(returns) => Ok(returns),
        Err(Stop::Memory) => Err(ParseFault::Memory),
        Err(Stop::Unexpected(left)) => Err(ParseFault::Unexpected {
            at: place_of(text, &tokens, left),
        }),
        Err(Stop::TooDeep(left)) => Err(ParseFault::TooDeep {
            at: place_of(text, &tokens, left),
        }),
    }
}
