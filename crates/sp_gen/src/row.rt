// The rows of events.
ghost use Rattle.std.specs.Prelude.{◌≡◌, ◌++◌, codes, string_bytes, OnOk};
ghost use Rattle.sp_gen.specs.Generated as g;

use crate::Memory;
use std::fmt::Write;

// The symbol of a quarter, from 0 to 3.
fn symbol(quarter: u32) -> &'static str
    ensures { result.now ≡ g.symbol quarter }
{
    match quarter {
        0 => "AA",
        1 => "BB",
        2 => "CC",
        _ => "DD",
    }
}

// Adds a price of so many hundredths, with four decimals.
fn push_price(out: &mut String, hundredths: u32) -> Result<(), Memory>
    ensures { OnOk result (string_bytes out.new ≡ string_bytes out.old ++ g.price_text hundredths) }
{
    let (whole, tenths, rest) = (hundredths / 100, hundredths / 10 % 10, hundredths % 10);
    write!(out, "{whole}.{tenths}{rest}00")?;
    Ok(())
}

/// Adds the row of the event of this number, for which this number was drawn.
pub(crate) fn push_row(out: &mut String, number: u32, drawn: u32) -> Result<(), Memory>
    ensures { OnOk result (string_bytes out.new
        ≡ string_bytes out.old ++ (g.row_text number drawn ++ codes "\n")) }
{
    let upper = drawn / 65_536;
    let symbol = symbol(upper / 16_384);
    write!(out, "{number},{symbol},")?;
    push_price(out, 10_000 + upper % 4_096)?;
    out.push_str(",100\n")
}
