// Expressions.
ghost use Rattle.std.specs.Prelude.{ℕ};
ghost use Rattle.sp_query.specs.Grammar as g;
ghost use Rattle.sp_parse.specs.Follow.{after_factor, after_term, after_sum};
ghost use Rattle.sp_parse.specs.Reads.{Answers, Operator, Takes, never};

use crate::stop::Stop;
use crate::tokens::{begins, begins_name, closed, expect, name, span_of};
use crate::trees::{joined, leaf, unary};
use sp_plan::Text;
use sp_query::{Kernel, Mark, Node, Token, Tree};
use std::alloc::Global;

// What a constant is, and the rest behind it.
fn constant_node<'a>(alloc: Global, tokens: &'a [Token]) -> Result<(Node, &'a [Token]), Stop>
    ensures { Takes (g.kernel g.constant) tokens.now (λ p. (p.0, p.1.now)) result }
{
    match tokens.split_first() {
        Some((first, rest)) => match &first.kernel {
            Kernel::Whole(number) => Ok((Node::Whole(*number), rest)),
            Kernel::Decimal { units, scale } => Ok((
                Node::Decimal {
                    units: *units,
                    scale: *scale,
                },
                rest,
            )),
            Kernel::Literal(text) => match text.copy(alloc) {
                Ok(text) => Ok((Node::Literal(text), rest)),
                Err(_) => Err(Stop::Memory),
            },
            _ => Err(Stop::Unexpected(tokens.len())),
        },
        None => Err(Stop::Unexpected(0)),
    }
}

// whole | decimal | literal
fn constant<'a>(alloc: Global, tokens: &'a [Token]) -> Result<(Tree, &'a [Token]), Stop>
    ensures { (room : ℕ)
        → Answers (λ _. g.Constant) never room tokens.now (λ p. (p.0, p.1.now)) result }
{
    let (node, rest) = constant_node(alloc, tokens)?;
    Ok((leaf(alloc, node, span_of(tokens, rest)), rest))
}

// "." name
fn dotted<'a>(alloc: Global, tokens: &'a [Token]) -> Result<(Text, &'a [Token]), Stop>
    ensures { (room : ℕ)
        → Answers (λ _. g.Dotted) never room tokens.now (λ p. (p.0, p.1.now)) result }
{
    let rest = expect(tokens, Mark::Dot)?;
    name(alloc, rest)
}

// name [ "." name ]
fn named<'a>(alloc: Global, tokens: &'a [Token]) -> Result<(Tree, &'a [Token]), Stop>
    ensures { (room : ℕ)
        → Answers (λ _. g.Named) after_factor room tokens.now (λ p. (p.0, p.1.now)) result }
{
    let (first, rest) = name(alloc, tokens)?;
    if !begins(rest, Mark::Dot) {
        return Ok((leaf(alloc, Node::Own(first), span_of(tokens, rest)), rest));
    }
    let (second, rest) = dotted(alloc, rest)?;
    Ok((
        leaf(alloc, Node::Earlier(first, second), span_of(tokens, rest)),
        rest,
    ))
}

// whole | decimal | literal | name [ "." name ]
fn operand<'a>(alloc: Global, tokens: &'a [Token]) -> Result<(Tree, &'a [Token]), Stop>
    ensures { (room : ℕ)
        → Answers (λ _. g.Operand) after_factor room tokens.now (λ p. (p.0, p.1.now)) result }
{
    if begins_name(tokens) {
        return named(alloc, tokens);
    }
    constant(alloc, tokens)
}

// operand | "-" factor | "(" sum ")"
#[cycle(factor)]
fn factor<'a>(alloc: Global, tokens: &'a [Token], room: usize) -> Result<(Tree, &'a [Token]), Stop>
    ensures { Answers g.Factor after_factor room tokens.now (λ p. (p.0, p.1.now)) result }
{
    if begins(tokens, Mark::Minus) {
        if room == 0 {
            return Err(Stop::TooDeep(tokens.len()));
        }
        return negated(alloc, tokens, room - 1);
    }
    if begins(tokens, Mark::LeftRound) {
        if room == 0 {
            return Err(Stop::TooDeep(tokens.len()));
        }
        return enclosed(alloc, tokens, room - 1);
    }
    operand(alloc, tokens)
}

// "-" factor
#[cycle(factor)]
fn negated<'a>(alloc: Global, tokens: &'a [Token], room: usize) -> Result<(Tree, &'a [Token]), Stop>
    ensures { Answers
        (λ n. g.Applied Mark.Minus Node.Minus (g.Factor n)) after_factor room tokens.now
        (λ p. (p.0, p.1.now)) result }
{
    let rest = expect(tokens, Mark::Minus)?;
    let (part, rest) = factor(alloc, rest, room)?;
    let tree = unary(alloc, Node::Minus, part, span_of(tokens, rest))?;
    Ok((tree, rest))
}

// "(" sum ")"
#[cycle(factor)]
fn enclosed<'a>(
    alloc: Global,
    tokens: &'a [Token],
    room: usize,
) -> Result<(Tree, &'a [Token]), Stop>
    ensures { Answers
        (λ n. g.Between Mark.LeftRound (g.Sum n) Mark.RightRound) never room tokens.now
        (λ p. (p.0, p.1.now)) result }
{
    let rest = expect(tokens, Mark::LeftRound)?;
    closed(sum(alloc, rest, room), Mark::RightRound)
}

// "*"
fn times(tokens: &[Token]) -> Option<(Node, &[Token])>
    ensures { Operator (g.kernel g.times) tokens.now result }
{
    let (first, rest) = tokens.split_first()?;
    match &first.kernel {
        Kernel::Star => Some((Node::Mul, rest)),
        _ => None,
    }
}

// "+" | "-"
fn plus(tokens: &[Token]) -> Option<(Node, &[Token])>
    ensures { Operator (g.kernel g.plus) tokens.now result }
{
    let (first, rest) = tokens.split_first()?;
    match &first.kernel {
        Kernel::Plus => Some((Node::Add, rest)),
        Kernel::Minus => Some((Node::Sub, rest)),
        _ => None,
    }
}

// factor { "*" factor }
#[cycle(factor)]
fn term<'a>(alloc: Global, tokens: &'a [Token], room: usize) -> Result<(Tree, &'a [Token]), Stop>
    ensures { Answers (λ n. g.TermOf (g.Factor n)) after_term room tokens.now
        (λ p. (p.0, p.1.now)) result }
{
    let (mut tree, mut rest) = factor(alloc, tokens, room)?;
    while let Some((node, behind)) = times(rest) {
        (tree, rest) = joined(alloc, tokens, tree, node, factor(alloc, behind, room))?;
    }
    Ok((tree, rest))
}

/// term { ( "+" | "-" ) term }
#[cycle(factor)]
pub fn sum<'a>(alloc: Global, tokens: &'a [Token], room: usize) -> Result<(Tree, &'a [Token]), Stop>
    ensures { Answers g.Sum after_sum room tokens.now (λ p. (p.0, p.1.now)) result }
{
    let (mut tree, mut rest) = term(alloc, tokens, room)?;
    while let Some((node, behind)) = plus(rest) {
        (tree, rest) = joined(alloc, tokens, tree, node, term(alloc, behind, room))?;
    }
    Ok((tree, rest))
}
