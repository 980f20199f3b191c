// A whole query from tokens.
ghost use Rattle.std.specs.Prelude.{◌≡◌, ℕ, IfOk, IfErr};
ghost use Rattle.sp_query.specs.declared.mark.Mark.TheVariants as m;
ghost use Rattle.sp_query.specs.declared.query.Query.{Query};
ghost use Rattle.sp_query.specs.Grammar as g;
ghost use Rattle.sp_query.specs.Phrase.{Optional};
ghost use Rattle.sp_parse.specs.Clauses as clauses;
ghost use Rattle.sp_parse.specs.Follow.{after_definitions};
ghost use Rattle.sp_parse.specs.Parses.{Halts, IsFrom};
ghost use Rattle.sp_parse.specs.Reads.{Answers, Ends, among, never, reads_as};

use crate::clauses::{consume, policy, within};
use crate::columns::{columns, timed};
use crate::definitions::{definitions, opening};
use crate::pattern::elements;
use crate::stop::Stop;
use crate::tokens::begins;
use sp_query::{
    Ident, Mark, Query, QueryConsume, QueryElement, QueryOpening, Span, Token, Tree, Word,
};
use sqlite_items::Items;
use std::alloc::Global;

// How many levels of nesting a query may have.
const MOST_LEVELS: usize = 64;

// [ TIME name ]
fn time<'a>(alloc: Global, tokens: &'a [Token]) -> Result<(Option<Ident>, &'a [Token]), Stop>
    ensures { (room : ℕ)
        → Answers (λ _. Optional g.Timed)
        (among (reads_as (g.kernel (g.mark m.Time))) never) room tokens.now
        (λ p. (p.0, p.1.now)) result }
{
    if !begins(tokens, Mark::Time) {
        return Ok((None, tokens));
    }
    let (name, rest) = timed(alloc, tokens)?;
    Ok((Some(name), rest))
}

// [ DEFINE define { "," define } ]
fn defines<'a>(
    alloc: Global,
    tokens: &'a [Token],
    room: usize,
) -> Result<(Option<Items<(Ident, Tree)>>, &'a [Token]), Stop>
    ensures { Answers (λ n. Optional (g.Definitions n))
        (among (reads_as (g.kernel (g.mark m.Define))) after_definitions) room tokens.now
        (λ p. (p.0, p.1.now)) result }
{
    if !begins(tokens, Mark::Define) {
        return Ok((None, tokens));
    }
    let (list, rest) = definitions(alloc, tokens, room)?;
    Ok((Some(list), rest))
}

// The definitions, none where the clause is left out.
fn listed(alloc: Global, list: Option<Items<(Ident, Tree)>>) -> Items<(Ident, Tree)>
    ensures { result ≡ g.items list }
{
    match list {
        Some(list) => list,
        None => Items::new(alloc),
    }
}

// The clauses from WITHIN on.
#[derive(Drop)]
struct Ending {
    length: (u64, Word, Span),
    opening: QueryOpening,
    select: Word,
    consume: QueryConsume,
}

// The clauses from WITHIN on, one after another.
fn from_within<'a>(
    alloc: Global,
    tokens: &'a [Token],
    room: usize,
) -> Result<(Ending, &'a [Token]), Stop>
    ensures { Answers clauses.Ending never room tokens.now
        (λ p. ((p.0.length, (p.0.opening, (p.0.select, p.0.consume))), p.1.now)) result }
{
    let (length, rest) = within(alloc, tokens)?;
    let (opening, rest) = opening(alloc, rest, room)?;
    let (select, rest) = policy(alloc, rest)?;
    let (consume, rest) = consume(alloc, rest)?;
    let ending = Ending {
        length,
        opening,
        select,
        consume,
    };
    Ok((ending, rest))
}

// The clauses from PATTERN on.
#[derive(Drop)]
struct Body {
    elements: Items<QueryElement>,
    defines: Option<Items<(Ident, Tree)>>,
    ending: Ending,
}

// The clauses from PATTERN on, one after another.
fn from_pattern<'a>(
    alloc: Global,
    tokens: &'a [Token],
    room: usize,
) -> Result<(Body, &'a [Token]), Stop>
    ensures { Answers clauses.Body never room tokens.now
        (λ p. (
          (
            p.0.elements,
            (
              p.0.defines,
              (p.0.ending.length, (p.0.ending.opening, (p.0.ending.select, p.0.ending.consume))),
            ),
          ),
          p.1.now,
        )) result }
{
    let (elements, rest) = elements(alloc, tokens)?;
    let (defines, rest) = defines(alloc, rest, room)?;
    let (ending, rest) = from_within(alloc, rest, room)?;
    let body = Body {
        elements,
        defines,
        ending,
    };
    Ok((body, rest))
}

// The clauses of a query, one after another.
pub(crate) fn query<'a>(
    alloc: Global,
    tokens: &'a [Token],
    room: usize,
) -> Result<(Query, &'a [Token]), Stop>
    ensures { Answers g.Derives never room tokens.now (λ p. (p.0, p.1.now)) result }
{
    let (columns, rest) = columns(alloc, tokens)?;
    let (time, rest) = time(alloc, rest)?;
    let (body, rest) = from_pattern(alloc, rest, room)?;
    let query = Query {
        columns,
        time,
        elements: body.elements,
        defines: listed(alloc, body.defines),
        length: body.ending.length,
        opening: body.ending.opening,
        select: body.ending.select,
        consume: body.ending.consume,
    };
    Ok((query, rest))
}

/// What was read, where no token is behind it.
pub fn ended<'a, T: Drop>(read: Result<(T, &'a [Token]), Stop>) -> Result<T, Stop>
    ensures { Ends read.entry result }
{
    let (item, rest) = read?;
    if !rest.is_empty() {
        return Err(Stop::Unexpected(rest.len()));
    }
    Ok(item)
}

// The query that the tokens are.
pub(crate) fn parse_tokens(alloc: Global, tokens: &[Token]) -> Result<Query, Stop>
    ensures found { IfOk result (λ query. g.Derives 64 tokens.now query) }
    ensures only { IfOk result
        (λ answer. (levels : ℕ) (query : Query) → g.Derives levels tokens.now query
        → query ≡ answer) }
    ensures all { (query : Query) → g.Derives 64 tokens.now query → IsFrom query result }
    ensures halts { IfErr result (λ stop. Halts tokens.now stop) }
{
    ended(query(alloc, tokens, MOST_LEVELS))
}
