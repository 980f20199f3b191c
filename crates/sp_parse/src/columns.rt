// The columns of a query, and its time.
ghost use Rattle.std.specs.Prelude.{ℕ};
ghost use Rattle.sp_query.specs.declared.mark.Mark.TheVariants as m;
ghost use Rattle.sp_query.specs.Grammar as g;
ghost use Rattle.sp_query.specs.Phrase.{One};
ghost use Rattle.sp_parse.specs.Reads.{Answers, Takes, among, never, reads_as};

use crate::list::added;
use crate::stop::Stop;
use crate::tokens::{begins, behind, closed, expect, name, span_of, whole};
use sp_query::{Ident, Kernel, Mark, QueryColumn, Token, Word};
use sqlite_items::Items;
use std::alloc::Global;

/// name
pub fn ident<'a>(alloc: Global, tokens: &'a [Token]) -> Result<(Ident, &'a [Token]), Stop>
    ensures { (room : ℕ)
        → Answers (λ _. g.Name) never room tokens.now (λ p. (p.0, p.1.now)) result }
{
    let (text, rest) = name(alloc, tokens)?;
    let span = span_of(tokens, rest);
    Ok((Ident { text, span }, rest))
}

// INT | TEXT
fn plain_kind<'a>(tokens: &'a [Token]) -> Result<(Word, &'a [Token]), Stop>
    ensures { Takes (g.kernel g.plain_kind) tokens.now (λ p. (p.0, p.1.now)) result }
{
    match tokens.split_first() {
        Some((first, rest)) => match &first.kernel {
            Kernel::Word(Word::Int) => Ok((Word::Int, rest)),
            Kernel::Word(Word::Text) => Ok((Word::Text, rest)),
            _ => Err(Stop::Unexpected(tokens.len())),
        },
        None => Err(Stop::Unexpected(0)),
    }
}

// DEC whole
fn digits<'a>(tokens: &'a [Token]) -> Result<(u64, &'a [Token]), Stop>
    ensures { (room : ℕ)
        → Answers (λ _. g.After m.Dec (One (g.kernel g.whole))) never room tokens.now
        (λ p. (p.0, p.1.now)) result }
{
    let rest = expect(tokens, Mark::Dec)?;
    whole(rest)
}

// INT | TEXT | DEC whole
fn kind<'a>(tokens: &'a [Token]) -> Result<((Word, u64), &'a [Token]), Stop>
    ensures { (room : ℕ)
        → Answers (λ _. g.KindOf) never room tokens.now (λ p. (p.0, p.1.now)) result }
{
    if begins(tokens, Mark::Dec) {
        let (count, rest) = digits(tokens)?;
        return Ok(((Word::Dec, count), rest));
    }
    let (word, rest) = plain_kind(tokens)?;
    Ok(((word, 0), rest))
}

// name ( INT | DEC whole | TEXT )
fn column<'a>(alloc: Global, tokens: &'a [Token]) -> Result<(QueryColumn, &'a [Token]), Stop>
    ensures { (room : ℕ)
        → Answers (λ _. g.Column) never room tokens.now (λ p. (p.0, p.1.now)) result }
{
    let (name, rest) = ident(alloc, tokens)?;
    let ((kind, digits), rest) = kind(rest)?;
    let span = span_of(tokens, rest);
    let column = QueryColumn {
        name,
        kind,
        digits,
        span,
    };
    Ok((column, rest))
}

// column { "," column }
fn column_list<'a>(
    alloc: Global,
    tokens: &'a [Token],
) -> Result<(Items<QueryColumn>, &'a [Token]), Stop>
    ensures { (room : ℕ)
        → Answers (λ _. g.ListOf g.Column)
        (among never (reads_as (g.kernel (g.mark m.Comma)))) room tokens.now
        (λ p. (p.0, p.1.now)) result }
{
    let (mut list, mut rest) = added(Items::new(alloc), column(alloc, tokens))?;
    'each: while let Some(next) = behind(rest, Mark::Comma) {
        (list, rest) = added(list, column(alloc, next))?;
    }
    Ok((list, rest))
}

// EVENT "(" column { "," column } ")"
pub(crate) fn columns<'a>(
    alloc: Global,
    tokens: &'a [Token],
) -> Result<(Items<QueryColumn>, &'a [Token]), Stop>
    ensures { (room : ℕ)
        → Answers (λ _. g.Columns) never room tokens.now (λ p. (p.0, p.1.now)) result }
{
    let rest = expect(tokens, Mark::Event)?;
    let rest = expect(rest, Mark::LeftRound)?;
    closed(column_list(alloc, rest), Mark::RightRound)
}

// TIME name
pub(crate) fn timed<'a>(alloc: Global, tokens: &'a [Token]) -> Result<(Ident, &'a [Token]), Stop>
    ensures { (room : ℕ)
        → Answers (λ _. g.Timed) never room tokens.now (λ p. (p.0, p.1.now)) result }
{
    let rest = expect(tokens, Mark::Time)?;
    ident(alloc, rest)
}
