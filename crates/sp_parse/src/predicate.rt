// Predicates.
ghost use Rattle.sp_query.specs.Grammar as g;
ghost use Rattle.sp_parse.specs.Follow.{after_sum, after_conj, after_pred};
ghost use Rattle.sp_parse.specs.Reads.{Answers, Operator, Takes, never};

use crate::expression::sum;
use crate::stop::Stop;
use crate::tokens::{begins, closed, expect, span_of};
use crate::trees::{joined, unary};
use sp_plan::Compare;
use sp_query::{Kernel, Mark, Node, Token, Tree, Word};
use std::alloc::Global;

// "=" | "<>" | "<" | "<=" | ">" | ">="
fn compare(tokens: &[Token]) -> Result<(Node, &[Token]), Stop>
    ensures { Takes (g.kernel g.compare) tokens.now (λ p. (p.0, p.1.now)) result }
{
    match tokens.split_first() {
        Some((first, rest)) => match &first.kernel {
            Kernel::Equal => Ok((Node::Test(Compare::Equal), rest)),
            Kernel::Unequal => Ok((Node::Test(Compare::Unequal), rest)),
            Kernel::Less => Ok((Node::Test(Compare::Less), rest)),
            Kernel::AtMost => Ok((Node::Test(Compare::AtMost), rest)),
            Kernel::Greater => Ok((Node::Test(Compare::Greater), rest)),
            Kernel::AtLeast => Ok((Node::Test(Compare::AtLeast), rest)),
            _ => Err(Stop::Unexpected(tokens.len())),
        },
        None => Err(Stop::Unexpected(0)),
    }
}

// sum compare sum
fn test<'a>(alloc: Global, tokens: &'a [Token], room: usize) -> Result<(Tree, &'a [Token]), Stop>
    ensures { Answers (λ n. g.TestOf (g.Sum n)) after_sum room tokens.now
        (λ p. (p.0, p.1.now)) result }
{
    let (first, rest) = sum(alloc, tokens, room)?;
    let (node, rest) = compare(rest)?;
    joined(alloc, tokens, first, node, sum(alloc, rest, room))
}

// sum compare sum | NOT atom | "[" pred "]"
#[cycle(atom)]
fn atom<'a>(alloc: Global, tokens: &'a [Token], room: usize) -> Result<(Tree, &'a [Token]), Stop>
    ensures { Answers g.Atom after_sum room tokens.now (λ p. (p.0, p.1.now)) result }
{
    if begins(tokens, Mark::Not) {
        if room == 0 {
            return Err(Stop::TooDeep(tokens.len()));
        }
        return denied(alloc, tokens, room - 1);
    }
    if begins(tokens, Mark::LeftSquare) {
        if room == 0 {
            return Err(Stop::TooDeep(tokens.len()));
        }
        return squared(alloc, tokens, room - 1);
    }
    test(alloc, tokens, room)
}

// NOT atom
#[cycle(atom)]
fn denied<'a>(alloc: Global, tokens: &'a [Token], room: usize) -> Result<(Tree, &'a [Token]), Stop>
    ensures { Answers (λ n. g.Applied Mark.Not Node.Not (g.Atom n)) after_sum room tokens.now
        (λ p. (p.0, p.1.now)) result }
{
    let rest = expect(tokens, Mark::Not)?;
    let (part, rest) = atom(alloc, rest, room)?;
    let tree = unary(alloc, Node::Not, part, span_of(tokens, rest))?;
    Ok((tree, rest))
}

// "[" pred "]"
#[cycle(atom)]
fn squared<'a>(alloc: Global, tokens: &'a [Token], room: usize) -> Result<(Tree, &'a [Token]), Stop>
    ensures { Answers
        (λ n. g.Between Mark.LeftSquare (g.Pred n) Mark.RightSquare) never room tokens.now
        (λ p. (p.0, p.1.now)) result }
{
    let rest = expect(tokens, Mark::LeftSquare)?;
    closed(pred(alloc, rest, room), Mark::RightSquare)
}

// AND
fn both_hold(tokens: &[Token]) -> Option<(Node, &[Token])>
    ensures { Operator (g.kernel g.both_hold) tokens.now result }
{
    let (first, rest) = tokens.split_first()?;
    match &first.kernel {
        Kernel::Word(Word::And) => Some((Node::And, rest)),
        _ => None,
    }
}

// OR
fn one_holds(tokens: &[Token]) -> Option<(Node, &[Token])>
    ensures { Operator (g.kernel g.one_holds) tokens.now result }
{
    let (first, rest) = tokens.split_first()?;
    match &first.kernel {
        Kernel::Word(Word::Or) => Some((Node::Or, rest)),
        _ => None,
    }
}

// atom { AND atom }
#[cycle(atom)]
fn conj<'a>(alloc: Global, tokens: &'a [Token], room: usize) -> Result<(Tree, &'a [Token]), Stop>
    ensures { Answers (λ n. g.ConjOf (g.Atom n)) after_conj room tokens.now
        (λ p. (p.0, p.1.now)) result }
{
    let (mut tree, mut rest) = atom(alloc, tokens, room)?;
    while let Some((node, behind)) = both_hold(rest) {
        (tree, rest) = joined(alloc, tokens, tree, node, atom(alloc, behind, room))?;
    }
    Ok((tree, rest))
}

// conj { OR conj }
#[cycle(atom)]
pub(crate) fn pred<'a>(
    alloc: Global,
    tokens: &'a [Token],
    room: usize,
) -> Result<(Tree, &'a [Token]), Stop>
    ensures { Answers g.Pred after_pred room tokens.now (λ p. (p.0, p.1.now)) result }
{
    let (mut tree, mut rest) = conj(alloc, tokens, room)?;
    while let Some((node, behind)) = one_holds(rest) {
        (tree, rest) = joined(alloc, tokens, tree, node, conj(alloc, behind, room))?;
    }
    Ok((tree, rest))
}
