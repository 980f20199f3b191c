// Single tokens at the front of others.
ghost use Rattle.std.specs.Prelude.{◌≡◌, ◌∷◌, ◌++◌, ◌<◌, List, length, is_some, IfOk, MatchOption, Some, None};
ghost use Rattle.sp_lex.specs.declared.token.Token.{Token};
ghost use Rattle.sp_query.specs.Grammar as g;
ghost use Rattle.sp_parse.specs.Reads.{Closes, Takes, head_as};

use crate::stop::Stop;
use sp_plan::Text;
use sp_query::{Kernel, Mark, Span, Token, is_mark};
use std::alloc::Global;

// Whether this mark is first.
pub(crate) fn begins(tokens: &[Token], mark: Mark) -> bool
    ensures { result ≡ is_some (head_as (g.kernel (g.mark mark)) tokens.now) }
{
    match tokens.split_first() {
        Some((first, _)) => is_mark(&first.kernel, mark),
        None => false,
    }
}

/// The rest behind a mark.
pub fn expect<'a>(tokens: &'a [Token], mark: Mark) -> Result<&'a [Token], Stop>
    ensures { Takes (g.kernel (g.mark mark)) tokens.now (λ rest. (tt, rest.now)) result }
{
    match tokens.split_first() {
        Some((first, rest)) => {
            if is_mark(&first.kernel, mark) {
                return Ok(rest);
            }
            Err(Stop::Unexpected(tokens.len()))
        }
        None => Err(Stop::Unexpected(0)),
    }
}

// Whether a name is first.
pub(crate) fn begins_name(tokens: &[Token]) -> bool
    ensures { result ≡ is_some (head_as (g.kernel g.name) tokens.now) }
{
    match tokens.split_first() {
        Some((first, _)) => match &first.kernel {
            Kernel::Name(_) => true,
            _ => false,
        },
        None => false,
    }
}

// A name's text, and the rest behind it.
pub(crate) fn name<'a>(alloc: Global, tokens: &'a [Token]) -> Result<(Text, &'a [Token]), Stop>
    ensures { Takes (g.kernel g.name) tokens.now (λ p. (p.0, p.1.now)) result }
{
    match tokens.split_first() {
        Some((first, rest)) => match &first.kernel {
            Kernel::Name(text) => match text.copy(alloc) {
                Ok(text) => Ok((text, rest)),
                Err(_) => Err(Stop::Memory),
            },
            _ => Err(Stop::Unexpected(tokens.len())),
        },
        None => Err(Stop::Unexpected(0)),
    }
}

// A whole number, and the rest behind it.
pub(crate) fn whole<'a>(tokens: &'a [Token]) -> Result<(u64, &'a [Token]), Stop>
    ensures { Takes (g.kernel g.whole) tokens.now (λ p. (p.0, p.1.now)) result }
{
    match tokens.split_first() {
        Some((first, rest)) => match &first.kernel {
            Kernel::Whole(number) => Ok((*number, rest)),
            _ => Err(Stop::Unexpected(tokens.len())),
        },
        None => Err(Stop::Unexpected(0)),
    }
}

// What was read, where this mark is behind it, and the rest behind the mark.
pub(crate) fn closed<'a, T: Drop>(
    read: Result<(T, &'a [Token]), Stop>,
    mark: Mark,
) -> Result<(T, &'a [Token]), Stop>
    ensures { Closes (g.kernel (g.mark mark)) read.entry result }
{
    let (item, rest) = read?;
    let rest = expect(rest, mark)?;
    Ok((item, rest))
}

// The span of the tokens before the rest.
pub(crate) fn span_of(tokens: &[Token], rest: &[Token]) -> Span
    requires { length rest.now < length tokens.now }
    ensures { (front : List Token) → tokens.now ≡ front ++ rest.now → result ≡ g.span front }
{
    Span {
        from: tokens[0].span.from,
        to: tokens[tokens.len() - rest.len() - 1].span.to,
    }
}

/// The rest behind a mark, if it is first.
pub fn behind<'a>(tokens: &'a [Token], mark: Mark) -> Option<&'a [Token]>
    ensures { MatchOption result (head_as (g.kernel (g.mark mark)) tokens.now ≡ None)
        (λ rest. (t : Token) × (tokens.now ≡ t ∷ rest.now) × (g.mark mark t.kernel ≡ Some tt)) }
{
    let (first, rest) = tokens.split_first()?;
    if is_mark(&first.kernel, mark) {
        return Some(rest);
    }
    None
}
