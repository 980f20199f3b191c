// What the names of the pattern are, and what opens a window: the clauses that hold predicates.
ghost use Rattle.std.specs.Prelude.{ℕ};
ghost use Rattle.sp_query.specs.declared.mark.Mark.TheVariants as m;
ghost use Rattle.sp_query.specs.declared.query.QueryOpening.TheVariants as o;
ghost use Rattle.sp_query.specs.Grammar as g;
ghost use Rattle.sp_query.specs.Phrase.{Built, Either};
ghost use Rattle.sp_parse.specs.Follow.{after_pred, after_definitions};
ghost use Rattle.sp_parse.specs.Reads.{Answers, never};

use crate::clauses::amount;
use crate::columns::ident;
use crate::list::added;
use crate::predicate::pred;
use crate::stop::Stop;
use crate::tokens::{begins, behind, expect, span_of};
use sp_query::{Ident, Mark, QueryOpening, Token, Tree};
use sqlite_items::Items;
use std::alloc::Global;

// name AS pred
fn definition<'a>(
    alloc: Global,
    tokens: &'a [Token],
    room: usize,
) -> Result<((Ident, Tree), &'a [Token]), Stop>
    ensures { Answers g.Definition after_pred room tokens.now (λ p. (p.0, p.1.now)) result }
{
    let (name, rest) = ident(alloc, tokens)?;
    let rest = expect(rest, Mark::As)?;
    let (tree, rest) = pred(alloc, rest, room)?;
    Ok(((name, tree), rest))
}

// define { "," define }
fn definition_list<'a>(
    alloc: Global,
    tokens: &'a [Token],
    room: usize,
) -> Result<(Items<(Ident, Tree)>, &'a [Token]), Stop>
    ensures { Answers (λ n. g.ListOf (g.Definition n)) after_definitions room tokens.now
        (λ p. (p.0, p.1.now)) result }
{
    let (mut list, mut rest) = added(Items::new(alloc), definition(alloc, tokens, room))?;
    'each: while let Some(next) = behind(rest, Mark::Comma) {
        (list, rest) = added(list, definition(alloc, next, room))?;
    }
    Ok((list, rest))
}

// DEFINE define { "," define }
pub(crate) fn definitions<'a>(
    alloc: Global,
    tokens: &'a [Token],
    room: usize,
) -> Result<(Items<(Ident, Tree)>, &'a [Token]), Stop>
    ensures { Answers g.Definitions after_definitions room tokens.now (λ p. (p.0, p.1.now)) result }
{
    let rest = expect(tokens, Mark::Define)?;
    definition_list(alloc, rest, room)
}

// EVERY whole ( EVENTS | TIME )
fn every<'a>(tokens: &'a [Token]) -> Result<(QueryOpening, &'a [Token]), Stop>
    ensures { (room : ℕ)
        → Answers (λ _. g.Every) never room tokens.now (λ p. (p.0, p.1.now)) result }
{
    let rest = expect(tokens, Mark::Every)?;
    let ((number, unit), rest) = amount(rest)?;
    let span = span_of(tokens, rest);
    Ok((QueryOpening::Every(number, unit, span), rest))
}

// WHEN pred
fn when<'a>(
    alloc: Global,
    tokens: &'a [Token],
    room: usize,
) -> Result<(QueryOpening, &'a [Token]), Stop>
    ensures { Answers
        (λ n. Built (λ tokens p. o.When p) (g.After m.When (g.Pred n))) after_pred room tokens.now
        (λ p. (p.0, p.1.now)) result }
{
    let rest = expect(tokens, Mark::When)?;
    let (tree, rest) = pred(alloc, rest, room)?;
    Ok((QueryOpening::When(tree), rest))
}

// EVERY whole ( EVENTS | TIME ) | WHEN pred
fn every_or_when<'a>(
    alloc: Global,
    tokens: &'a [Token],
    room: usize,
) -> Result<(QueryOpening, &'a [Token]), Stop>
    ensures { Answers
        (λ n. Either g.Every (Built (λ tokens p. o.When p) (g.After m.When (g.Pred n)))) after_pred
        room tokens.now (λ p. (p.0, p.1.now)) result }
{
    if begins(tokens, Mark::Every) {
        return every(tokens);
    }
    when(alloc, tokens, room)
}

// FROM ( EVERY whole ( EVENTS | TIME ) | WHEN pred )
pub(crate) fn opening<'a>(
    alloc: Global,
    tokens: &'a [Token],
    room: usize,
) -> Result<(QueryOpening, &'a [Token]), Stop>
    ensures { Answers g.Opening after_pred room tokens.now (λ p. (p.0, p.1.now)) result }
{
    let rest = expect(tokens, Mark::From)?;
    every_or_when(alloc, rest, room)
}
