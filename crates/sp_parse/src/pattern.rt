// The pattern.
ghost use Rattle.std.specs.Prelude.{◌≡◌, ℕ};
ghost use Rattle.sp_query.specs.declared.mark.Mark.TheVariants as m;
ghost use Rattle.sp_query.specs.Grammar as g;
ghost use Rattle.sp_parse.specs.Follow.{element_head};
ghost use Rattle.sp_parse.specs.Reads.{Answers, among, heads, never, reads_as};

use crate::columns::ident;
use crate::list::added;
use crate::stop::Stop;
use crate::tokens::{begins, begins_name, behind, closed, expect, span_of};
use sp_query::{Ident, Mark, QueryElement, Token};
use sqlite_items::Items;
use std::alloc::Global;

// name [ "+" ]
fn single<'a>(alloc: Global, tokens: &'a [Token]) -> Result<(QueryElement, &'a [Token]), Stop>
    ensures { (room : ℕ)
        → Answers (λ _. g.Single) (reads_as (g.kernel (g.mark m.Plus))) room tokens.now
        (λ p. (p.0, p.1.now)) result }
{
    let (name, rest) = ident(alloc, tokens)?;
    match behind(rest, Mark::Plus) {
        Some(after) => {
            let span = span_of(tokens, after);
            Ok((QueryElement::Plus(name, span), after))
        }
        None => Ok((QueryElement::One(name), rest)),
    }
}

// name name { name }
fn names<'a>(alloc: Global, tokens: &'a [Token]) -> Result<(Items<Ident>, &'a [Token]), Stop>
    ensures { (room : ℕ)
        → Answers (λ _. g.Names) (among never (reads_as (g.kernel g.name))) room tokens.now
        (λ p. (p.0, p.1.now)) result }
{
    let (list, rest) = added(Items::new(alloc), ident(alloc, tokens))?;
    let (mut list, mut rest) = added(list, ident(alloc, rest))?;
    'each: while begins_name(rest) {
        (list, rest) = added(list, ident(alloc, rest))?;
    }
    Ok((list, rest))
}

// SET "(" name name { name } ")"
fn set<'a>(alloc: Global, tokens: &'a [Token]) -> Result<(Items<Ident>, &'a [Token]), Stop>
    ensures { (room : ℕ)
        → Answers
        (λ _. g.After m.Set (g.Between m.LeftRound g.Names m.RightRound)) never room tokens.now
        (λ p. (p.0, p.1.now)) result }
{
    let rest = expect(tokens, Mark::Set)?;
    let rest = expect(rest, Mark::LeftRound)?;
    closed(names(alloc, rest), Mark::RightRound)
}

// "!" name
fn negated<'a>(alloc: Global, tokens: &'a [Token]) -> Result<(QueryElement, &'a [Token]), Stop>
    ensures { (room : ℕ)
        → Answers (λ _. g.Negated) never room tokens.now (λ p. (p.0, p.1.now)) result }
{
    let rest = expect(tokens, Mark::Bang)?;
    let (name, rest) = ident(alloc, rest)?;
    let span = span_of(tokens, rest);
    Ok((QueryElement::Never(name, span), rest))
}

// name [ "+" ] | SET "(" name name { name } ")" | "!" name
fn element<'a>(alloc: Global, tokens: &'a [Token]) -> Result<(QueryElement, &'a [Token]), Stop>
    ensures { (room : ℕ)
        → Answers (λ _. g.Element) (reads_as (g.kernel (g.mark m.Plus))) room tokens.now
        (λ p. (p.0, p.1.now)) result }
{
    if begins(tokens, Mark::Set) {
        let (names, rest) = set(alloc, tokens)?;
        return Ok((QueryElement::Set(names), rest));
    }
    if begins(tokens, Mark::Bang) {
        return negated(alloc, tokens);
    }
    single(alloc, tokens)
}

// Whether a name, SET or the mark of a negated name is first.
fn begins_element(tokens: &[Token]) -> bool
    ensures { result ≡ heads element_head tokens.now }
{
    begins_name(tokens) || begins(tokens, Mark::Set) || begins(tokens, Mark::Bang)
}

// element { element }
fn element_row<'a>(
    alloc: Global,
    tokens: &'a [Token],
) -> Result<(Items<QueryElement>, &'a [Token]), Stop>
    ensures { (room : ℕ)
        → Answers (λ _. g.MoreOf (g.Alone g.Element) g.Element)
        (among (reads_as (g.kernel (g.mark m.Plus))) element_head) room tokens.now
        (λ p. (p.0, p.1.now)) result }
{
    let (mut list, mut rest) = added(Items::new(alloc), element(alloc, tokens))?;
    'each: while begins_element(rest) {
        (list, rest) = added(list, element(alloc, rest))?;
    }
    Ok((list, rest))
}

// PATTERN "(" element { element } ")"
pub(crate) fn elements<'a>(
    alloc: Global,
    tokens: &'a [Token],
) -> Result<(Items<QueryElement>, &'a [Token]), Stop>
    ensures { (room : ℕ)
        → Answers (λ _. g.Elements) never room tokens.now (λ p. (p.0, p.1.now)) result }
{
    let rest = expect(tokens, Mark::Pattern)?;
    let rest = expect(rest, Mark::LeftRound)?;
    closed(element_row(alloc, rest), Mark::RightRound)
}
