// The tokens of a text, each with its span.
use crate::given::LONGEST;
use crate::text::AnswerText;
use sp_lex::{Kernel, LexFault, Token, lex};
use std::alloc::{AllocError, Global};
use std::str;

// What a mark or an operator is called.
fn mark_name(kernel: &Kernel) -> &'static str {
    match kernel {
        Kernel::LeftRound => "left round",
        Kernel::RightRound => "right round",
        Kernel::LeftSquare => "left square",
        Kernel::RightSquare => "right square",
        Kernel::Comma => "comma",
        Kernel::Dot => "dot",
        Kernel::Plus => "plus",
        Kernel::Minus => "minus",
        Kernel::Star => "star",
        Kernel::Bang => "bang",
        Kernel::Equal => "equal",
        Kernel::Unequal => "unequal",
        Kernel::Less => "less",
        Kernel::AtMost => "at most",
        Kernel::Greater => "greater",
        Kernel::AtLeast => "at least",
        _ => "",
    }
}

// Appends what a token is.
fn push_kernel(kernel: &Kernel, out: &mut AnswerText) {
    let (kind, text) = match kernel {
        Kernel::Word(word) => ("word ", word.spelling()),
        Kernel::Name(name) => ("name ", name.as_str()),
        Kernel::Literal(text) => ("literal ", text.as_str()),
        Kernel::Whole(number) => return out.number("whole ", *number as i128),
        Kernel::Decimal { units, scale } => {
            out.number("decimal ", *units as i128);
            return out.number(" ", *scale as i128);
        }
        _ => ("", mark_name(kernel)),
    };
    out.text(kind);
    out.text(text);
}

// Appends a token.
fn push_token(token: &Token, out: &mut AnswerText) {
    push_kernel(&token.kernel, out);
    out.number(" ", token.span.from as i128);
    out.number("..", token.span.to as i128);
    out.text("\n");
}

// Appends why a text has no tokens.
fn push_fault(fault: LexFault, out: &mut AnswerText) -> Result<(), AllocError> {
    let (why, at) = match fault {
        LexFault::BadCharacter { at } => ("a character that begins no token, at byte ", at),
        LexFault::OpenText { at } => ("a text without its closing quote, from byte ", at),
        LexFault::LongNumber { at } => ("a number that is too long, at byte ", at),
        LexFault::Memory => return Err(AllocError),
    };
    out.number(why, at as i128);
    out.text("\n");
    Ok(())
}

/// Appends a line for each token of the input, or the fault.
pub(crate) fn tokens(alloc: Global, input: &[u8], out: &mut AnswerText) -> Result<(), AllocError> {
    let text = str::from_utf8(input).unwrap_or("");
    if text.len() > LONGEST {
        return Ok(());
    }
    match lex(alloc, text) {
        Ok(tokens) => {
            for token in &tokens {
                push_token(token, out);
            }
            Ok(())
        }
        Err(fault) => push_fault(fault, out),
    }
}
