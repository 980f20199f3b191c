// The window's length, the policy and what a match consumes.
ghost use Rattle.std.specs.Prelude.{ℕ};
ghost use Rattle.sp_query.specs.declared.mark.Mark.TheVariants as m;
ghost use Rattle.sp_query.specs.Grammar as g;
ghost use Rattle.sp_parse.specs.Reads.{Answers, Takes, among, never, reads_as};

use crate::columns::ident;
use crate::list::added;
use crate::stop::Stop;
use crate::tokens::{begins, behind, closed, expect, span_of, whole};
use sp_query::{Ident, Kernel, Mark, QueryConsume, Span, Token, Word};
use sqlite_items::Items;
use std::alloc::Global;

// EVENTS | TIME
fn unit<'a>(tokens: &'a [Token]) -> Result<(Word, &'a [Token]), Stop>
    ensures { Takes (g.kernel g.unit) tokens.now (λ p. (p.0, p.1.now)) result }
{
    match tokens.split_first() {
        Some((first, rest)) => match &first.kernel {
            Kernel::Word(Word::Events) => Ok((Word::Events, rest)),
            Kernel::Word(Word::Time) => Ok((Word::Time, rest)),
            _ => Err(Stop::Unexpected(tokens.len())),
        },
        None => Err(Stop::Unexpected(0)),
    }
}

// whole ( EVENTS | TIME )
pub(crate) fn amount<'a>(tokens: &'a [Token]) -> Result<((u64, Word), &'a [Token]), Stop>
    ensures { (room : ℕ)
        → Answers (λ _. g.Amount) never room tokens.now (λ p. (p.0, p.1.now)) result }
{
    let (count, rest) = whole(tokens)?;
    let (word, rest) = unit(rest)?;
    Ok(((count, word), rest))
}

// WITHIN whole ( EVENTS | TIME )
pub(crate) fn within<'a>(
    alloc: Global,
    tokens: &'a [Token],
) -> Result<((u64, Word, Span), &'a [Token]), Stop>
    ensures { (room : ℕ)
        → Answers (λ _. g.Within) never room tokens.now (λ p. (p.0, p.1.now)) result }
{
    let length = expect(tokens, Mark::Within)?;
    let ((count, word), rest) = amount(length)?;
    let span = span_of(length, rest);
    Ok(((count, word, span), rest))
}

// FIRST | LAST | EACH
fn chosen<'a>(tokens: &'a [Token]) -> Result<(Word, &'a [Token]), Stop>
    ensures { Takes (g.kernel g.policy) tokens.now (λ p. (p.0, p.1.now)) result }
{
    match tokens.split_first() {
        Some((first, rest)) => match &first.kernel {
            Kernel::Word(Word::First) => Ok((Word::First, rest)),
            Kernel::Word(Word::Last) => Ok((Word::Last, rest)),
            Kernel::Word(Word::Each) => Ok((Word::Each, rest)),
            _ => Err(Stop::Unexpected(tokens.len())),
        },
        None => Err(Stop::Unexpected(0)),
    }
}

// SELECT ( FIRST | LAST | EACH )
pub(crate) fn policy<'a>(alloc: Global, tokens: &'a [Token]) -> Result<(Word, &'a [Token]), Stop>
    ensures { (room : ℕ)
        → Answers (λ _. g.Policy) never room tokens.now (λ p. (p.0, p.1.now)) result }
{
    let rest = expect(tokens, Mark::Select)?;
    chosen(rest)
}

// ALL | NONE
fn all_or_none<'a>(tokens: &'a [Token]) -> Result<(QueryConsume, &'a [Token]), Stop>
    ensures { Takes (g.kernel g.all_or_none) tokens.now (λ p. (p.0, p.1.now)) result }
{
    match tokens.split_first() {
        Some((first, rest)) => match &first.kernel {
            Kernel::Word(Word::All) => Ok((QueryConsume::All, rest)),
            Kernel::Word(Word::None) => Ok((QueryConsume::None, rest)),
            _ => Err(Stop::Unexpected(tokens.len())),
        },
        None => Err(Stop::Unexpected(0)),
    }
}

// name { "," name }
fn name_list<'a>(alloc: Global, tokens: &'a [Token]) -> Result<(Items<Ident>, &'a [Token]), Stop>
    ensures { (room : ℕ)
        → Answers (λ _. g.ListOf g.Name)
        (among never (reads_as (g.kernel (g.mark m.Comma)))) room tokens.now
        (λ p. (p.0, p.1.now)) result }
{
    let (mut list, mut rest) = added(Items::new(alloc), ident(alloc, tokens))?;
    'each: while let Some(next) = behind(rest, Mark::Comma) {
        (list, rest) = added(list, ident(alloc, next))?;
    }
    Ok((list, rest))
}

// "(" name { "," name } ")"
fn consumed<'a>(alloc: Global, tokens: &'a [Token]) -> Result<(Items<Ident>, &'a [Token]), Stop>
    ensures { (room : ℕ)
        → Answers (λ _. g.Between m.LeftRound (g.ListOf g.Name) m.RightRound) never room tokens.now
        (λ p. (p.0, p.1.now)) result }
{
    let rest = expect(tokens, Mark::LeftRound)?;
    closed(name_list(alloc, rest), Mark::RightRound)
}

// CONSUME ( ALL | NONE | "(" name { "," name } ")" )
pub(crate) fn consume<'a>(
    alloc: Global,
    tokens: &'a [Token],
) -> Result<(QueryConsume, &'a [Token]), Stop>
    ensures { (room : ℕ)
        → Answers (λ _. g.Consume) never room tokens.now (λ p. (p.0, p.1.now)) result }
{
    let rest = expect(tokens, Mark::Consume)?;
    if begins(rest, Mark::LeftRound) {
        let (names, rest) = consumed(alloc, rest)?;
        return Ok((QueryConsume::Names(names), rest));
    }
    all_or_none(rest)
}
