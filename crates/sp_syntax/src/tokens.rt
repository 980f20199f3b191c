// Single tokens as they are written: each with a blank behind it.
ghost use Rattle.std.specs.Prelude.{◌≡◌, ◌∷◌, ◌++◌, [], OnOk, string_bytes};
ghost use Rattle.std.specs.Fmt.{decimal};
ghost use Rattle.sp_lex.specs.Spelling as s;
ghost use Rattle.sp_syntax.specs.Printing.{Adds, IsDecimalOf};

use std::alloc::AllocError;
use std::fmt::Write;

// A token that is written so.
pub(crate) fn token(out: &mut String, text: &str) -> Result<(), AllocError>
    ensures { OnOk result (string_bytes out.new ≡ string_bytes out.old ++ (text.now ++ 32 ∷ [])) }
{
    out.push_str(text)?;
    out.push_str(" ")?;
    Ok(())
}

// A whole number.
pub(crate) fn whole(out: &mut String, number: u64) -> Result<(), AllocError>
    ensures { OnOk result
        (string_bytes out.new ≡ string_bytes out.old ++ (decimal number ++ 32 ∷ [])) }
{
    write!(out, "{number} ")?;
    Ok(())
}

// A number with so many decimals, in units of the last one.
pub(crate) fn scaled(out: &mut String, units: u64, scale: u8) -> Result<(), AllocError>
    ensures { OnOk result
        (Adds (string_bytes out.old) (string_bytes out.new) (IsDecimalOf units scale)) }
{
    if scale == 0 {
        write!(out, "{units}.")?;
        return Ok(());
    }
    scaled(out, units / 10, scale - 1)?;
    let last = units % 10;
    write!(out, "{last}")?;
    Ok(())
}

// A text between quotes, with each quote inside of it doubled.
pub(crate) fn literal(out: &mut String, text: &str) -> Result<(), AllocError>
    ensures { OnOk result
        (string_bytes out.new
        ≡ string_bytes out.old ++ (39 ∷ (s.doubled text.now ++ 39 ∷ 32 ∷ []))) }
{
    out.push_str("'")?;
    let mut rest = text;
    'each: while let Some((piece, behind)) = rest.split_once('\'') {
        out.push_str(piece)?;
        out.push_str("''")?;
        rest = behind;
    }
    out.push_str(rest)?;
    out.push_str("' ")?;
    Ok(())
}
