// The tokens of a whole text.
ghost use Rattle.std.specs.Prelude.{◌≡◌, ◌≢◌, ◌⊎◌, ◌<◌, ◌++◌, ◌^◌, List, ℕ, length, IfOk, IfErr, MatchResult, true};
ghost use Rattle.sp_lex.specs.declared.token.LexFault.{LexFault};
ghost use Rattle.sp_lex.specs.declared.token.Token.{Token};
ghost use Rattle.sp_lex.specs.Spelling as s;
ghost use Rattle.sp_lex.specs.Reading.{Reads, Stops};

use crate::bytes::{is_digit, is_letter, skip};
use crate::fault::Fault;
use crate::literal::literal;
use crate::mark::mark_at;
use crate::number::number_at;
use crate::word::name_at;
use crate::{Kernel, LexFault, Span, Token};
use std::alloc::Global;

// The literal in front of the rest of a text, which begins with a quote, and what is behind it.
fn literal_at<'a>(alloc: Global, text: &'a str, here: &'a [u8]) -> Result<(Kernel, &'a [u8]), Fault>
    requires place { (front : List ℕ) × (text.now ≡ front ++ here.now) }
    requires quote { s.heads s.is_quote here.now ≡ true }
    ensures token { IfOk result (λ p. Reads here.now p.0 p.1.now) }
    ensures stops { IfErr result (λ e. Stops here.now e) }
{
    let Some(inside) = text.get(text.len() - here.len() + 1..) else {
        unreachable!();
    };
    match literal(alloc, inside)? {
        Some((value, behind)) => Ok((Kernel::Literal(value), behind.as_bytes())),
        None => Err(Fault::OpenText),
    }
}

// The token in front of the rest of a text, and what is behind it.
fn token_at<'a>(alloc: Global, text: &'a str, here: &'a [u8]) -> Result<(Kernel, &'a [u8]), Fault>
    requires { (front : List ℕ) × (text.now ≡ front ++ here.now) }
    ensures token { IfOk result (λ p. Reads here.now p.0 p.1.now) }
    ensures short { IfOk result (λ p. s.IsLong here.now → ⊥) }
    ensures stops { IfErr result (λ e. Stops here.now e) }
{
    let Some(first) = here.first() else {
        return Err(Fault::BadCharacter);
    };
    if is_letter(*first) {
        return Ok(name_at(alloc, here)?);
    }
    if is_digit(*first) {
        return match number_at(here) {
            Some(token) => Ok(token),
            None => Err(Fault::LongNumber),
        };
    }
    if *first == b'\'' {
        return literal_at(alloc, text, here);
    }
    match mark_at(here) {
        Some(token) => Ok(token),
        None => Err(Fault::BadCharacter),
    }
}

/// The tokens of the text, or the first place from which it has none.
pub fn lex(alloc: Global, text: &str) -> Result<Vec<Token>, LexFault>
    requires { length text.now < 2 ^ 32 }
    ensures found { IfOk result (λ tokens. s.Tokens 0 text.now tokens.items) }
    ensures only { (ts : List Token) → s.Tokens 0 text.now ts
        → MatchResult result (λ tokens. ts ≡ tokens.items) (λ e. e ≡ LexFault.Memory) }
    ensures refused { IfErr result (λ e. s.Refuses text.now e) }
    ensures faults { (fault : LexFault) → s.Refuses text.now fault → fault ≢ LexFault.Memory
        → MatchResult result (λ tokens. ⊥) (λ e. (e ≡ fault) ⊎ (e ≡ LexFault.Memory)) }
{
    let mut tokens = Vec::new(alloc);
    let mut rest = text.as_bytes();
    'each: while !rest.is_empty() {
        let here = skip(rest);
        if here.is_empty() {
            return Ok(tokens);
        }
        let from = (text.len() - here.len()) as u32;
        match token_at(alloc, text, here) {
            Ok((kernel, after)) => {
                let to = (text.len() - after.len()) as u32;
                tokens.push(Token {
                    kernel,
                    span: Span { from, to },
                })?;
                rest = after;
            }
            Err(fault) => return Err(fault.at(from)),
        }
    }
    Ok(tokens)
}
