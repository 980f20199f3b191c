// Lists of numbers as texts.
ghost use Rattle.std.specs.Prelude.{◌≡◌, ◌<◌, ◌^◌, ◌++◌, OnOk, OnErr, length, take, string_bytes};
ghost use Rattle.std.specs.Fmt.{decimal};
ghost use Rattle.std.specs.List.{All};
ghost use Rattle.sp_base.specs.Commas.{more, commas, list_text};

use crate::Memory;
use itoa::Buffer;

// Adds a number. After want of memory the text is as before.
fn push_number(out: &mut String, number: u32) -> Result<(), Memory>
    ensures text { OnOk result (string_bytes out.new ≡ string_bytes out.old ++ decimal number) }
    ensures err { OnErr result (string_bytes out.new ≡ string_bytes out.old) }
{
    out.push_str(Buffer::new().format(number))
}

// Adds numbers, each after a comma. After want of memory some of that stands behind the text.
fn push_more(out: &mut String, numbers: &[u32]) -> Result<(), Memory>
    ensures text { OnOk result (string_bytes out.new ≡ string_bytes out.old ++ more numbers.now) }
    ensures err { OnErr result (take (length (string_bytes out.old)) (string_bytes out.new)
        ≡ string_bytes out.old) }
{
    for number in numbers {
        out.push_str(",")?;
        push_number(out, *number)?;
    }
    Ok(())
}

// Adds numbers joined by commas. After want of memory some of that stands behind the text.
fn push_joined(out: &mut String, numbers: &[u32]) -> Result<(), Memory>
    ensures text { OnOk result (string_bytes out.new ≡ string_bytes out.old ++ commas numbers.now) }
    ensures err { OnErr result (take (length (string_bytes out.old)) (string_bytes out.new)
        ≡ string_bytes out.old) }
{
    if let [first, rest @ ..] = numbers {
        push_number(out, *first)?;
        push_more(out, rest)?;
    }
    Ok(())
}

/// Adds numbers joined by commas. After want of memory the text is as before.
pub fn push_commas(out: &mut String, numbers: &[u32]) -> Result<(), Memory>
    ensures text { OnOk result (string_bytes out.new ≡ string_bytes out.old ++ commas numbers.now) }
    ensures small { All (λ n. n < 2 ^ 32) numbers.now }
    ensures err { OnErr result (string_bytes out.new ≡ string_bytes out.old) }
{
    let before = out.len();
    if let Err(fault) = push_joined(out, numbers) {
        out.truncate(before);
        return Err(fault);
    }
    Ok(())
}

/// Adds numbers joined by commas, or a dash where there are none. After want of memory the text is as before.
pub fn push_list(out: &mut String, numbers: &[u32]) -> Result<(), Memory>
    ensures text { OnOk result
        (string_bytes out.new ≡ string_bytes out.old ++ list_text numbers.now) }
    ensures small { All (λ n. n < 2 ^ 32) numbers.now }
    ensures err { OnErr result (string_bytes out.new ≡ string_bytes out.old) }
{
    if numbers.is_empty() {
        return out.push_str("-");
    }
    push_commas(out, numbers)
}
