ghost use Rattle.std.specs.Prelude.{◌≡◌, string_bytes, IfOk};
ghost use Rattle.sp_gen.specs.Generated.{generated};

use crate::Memory;
use crate::draw::next_drawn;
use crate::row::push_row;
use std::alloc::Global;

const HEADER: &str = "at,sym,price,size\n";

// The bytes of the longest row: that of an event whose number has ten digits.
const LONGEST_ROW: usize = 27;

/// The header and the rows of so many events, each with a line feed, drawn from the seed: any two numbers
/// of 32 bits will do. A row is the event's number, from 1, one of four symbols, a price with four
/// decimals, and 100. docs/formats.md says how they are drawn.
pub fn generate(alloc: Global, events: u32, seed: u32) -> Result<String, Memory>
    ensures { IfOk result (λ text. string_bytes text ≡ generated events seed) }
{
    let room = HEADER.len() + LONGEST_ROW * events as usize;
    let mut out = String::with_capacity(alloc, room)?;
    out.push_str(HEADER)?;
    let mut drawn = seed;
    for before in 0..events {
        drawn = next_drawn(drawn);
        push_row(&mut out, before + 1, drawn)?;
    }
    Ok(out)
}
