// Texts between quotes.
ghost use Rattle.std.specs.Prelude.{◌≡◌, ◌∷◌, ◌++◌, List, ℕ, IfOk, IfSome, IfNone};
ghost use Rattle.sp_lex.specs.Spelling as s;
ghost use Rattle.sp_lex.specs.Reading.{Inside};

use sp_base::Text;
use std::alloc::{AllocError, Global};

/// The value of a literal and what is behind it, from behind its first quote; None where it has no
/// end.
pub(crate) fn literal(alloc: Global, text: &str) -> Result<Option<(Text, &str)>, AllocError>
    ensures found { IfOk result (λ o. IfSome o (λ p. Inside text.now p.0 p.1.now)) }
    ensures none { IfOk result
        (λ o. IfNone o ((value rest : List ℕ) → Inside text.now value rest → ⊥)) }
{
    let mut value = String::new(alloc);
    let mut rest = text;
    'each: while let Some((piece, behind)) = rest.split_once('\'') {
        value.push_str(piece)?;
        match behind.strip_prefix('\'') {
            Some(more) => {
                value.push('\'')?;
                rest = more;
            }
            None => return Ok(Some((Text::of(value), behind))),
        }
    }
    Ok(None)
}
