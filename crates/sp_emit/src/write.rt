// Lines of matches.
ghost use Rattle.std.specs.Prelude.{◌≡◌, ◌<◌, ◌^◌, ◌++◌, IfOk, OnOk, OnErr, length, take, slice_get, string_bytes, codes};
ghost use Rattle.std.specs.Fmt.{decimal};
ghost use Rattle.std.specs.List.{All, flat_map};
ghost use Rattle.sp_base.specs.Commas.{commas, list_text};
ghost use Rattle.sp_emit.specs.Matches.{ArePlaces, Binds, IsHeld, IsLine};
ghost use Rattle.sp_plan.specs.Lines.{line, binding_text, name_text};

use itoa::Buffer;
use sp_base::{push_commas, push_list};
use sp_plan::{Match, Memory, Places, Plan};
use std::alloc::Global;

// Room for the line of a match with few events.
const ROOM: usize = 96;

/// Adds a number. After want of memory the text is as before.
pub(crate) fn push_number(out: &mut String, number: u64) -> Result<(), Memory>
    ensures text { OnOk result (string_bytes out.new ≡ string_bytes out.old ++ decimal number) }
    ensures err { OnErr result (string_bytes out.new ≡ string_bytes out.old) }
{
    out.push_str(Buffer::new().format(number))
}

// Adds the window's number and the match's own. After want of memory some of that stands behind the text.
fn push_head(out: &mut String, found: &Match) -> Result<(), Memory>
    ensures text { OnOk result
        (string_bytes out.new ≡ string_bytes out.old ++ codes "w=" ++ decimal found.now.window
        ++ codes " m=" ++ decimal found.now.number) }
    ensures window { OnOk result (found.now.window < 2 ^ 32) }
    ensures number { OnOk result (found.now.number < 2 ^ 64) }
    ensures err { OnErr result (take (length (string_bytes out.old)) (string_bytes out.new)
        ≡ string_bytes out.old) }
{
    out.push_str("w=")?;
    push_number(out, u64::from(found.window))?;
    out.push_str(" m=")?;
    push_number(out, found.number)
}

// Adds the numbers of events. After want of memory the text is as before.
fn push_places(out: &mut String, places: &Places) -> Result<(), Memory>
    ensures text { OnOk result (string_bytes out.new ≡ string_bytes out.old ++ commas places.now) }
    ensures are { ArePlaces places.now }
    ensures err { OnErr result (string_bytes out.new ≡ string_bytes out.old) }
{
    push_commas(out, places.list())
}

// Adds the text of a name. After want of memory the text is as before.
fn push_name(out: &mut String, plan: &Plan, name: u8) -> Result<(), Memory>
    ensures text { OnOk result
        (string_bytes out.new ≡ string_bytes out.old ++ name_text (slice_get plan.now.names name)) }
    ensures err { OnErr result (string_bytes out.new ≡ string_bytes out.old) }
{
    match plan.names.as_slice().get(name as usize) {
        Some(own) => Ok(out.push_str(own.text.as_str())?),
        None => Ok(()),
    }
}

// Adds a name with its events. After want of memory some of that stands behind the text.
fn push_binding(out: &mut String, plan: &Plan, name: u8, places: &Places) -> Result<(), Memory>
    ensures text { OnOk result
        (string_bytes out.new ≡ string_bytes out.old ++ binding_text plan.now (name, places.now)) }
    ensures byte { OnOk result (name < 2 ^ 8) }
    ensures are { OnOk result (ArePlaces places.now) }
    ensures err { OnErr result (take (length (string_bytes out.old)) (string_bytes out.new)
        ≡ string_bytes out.old) }
{
    out.push_str(" ")?;
    push_name(out, plan, name)?;
    out.push_str("=")?;
    push_places(out, places)
}

// Adds each name with its events. After want of memory some of that stands behind the text.
fn push_bindings(out: &mut String, plan: &Plan, bound: &[(u8, Places)]) -> Result<(), Memory>
    ensures text { OnOk result
        (string_bytes out.new
        ≡ string_bytes out.old ++ flat_map (binding_text plan.now) bound.now) }
    ensures names { OnOk result (All (λ pair. pair.0 < 2 ^ 8) bound.now) }
    ensures are { OnOk result (All (λ pair. ArePlaces pair.1) bound.now) }
    ensures err { OnErr result (take (length (string_bytes out.old)) (string_bytes out.new)
        ≡ string_bytes out.old) }
{
    for (name, places) in bound {
        push_binding(out, plan, *name, places)?;
    }
    Ok(())
}

// Adds the consumed numbers, or a dash where there are none. After want of memory the text is as before.
fn push_used(out: &mut String, used: &Places) -> Result<(), Memory>
    ensures text { OnOk result (string_bytes out.new ≡ string_bytes out.old ++ list_text used.now) }
    ensures are { ArePlaces used.now }
    ensures err { OnErr result (string_bytes out.new ≡ string_bytes out.old) }
{
    push_list(out, used.list())
}

// Adds the line of a match. After want of memory some of it stands behind the text.
fn push_line(out: &mut String, plan: &Plan, found: &Match) -> Result<(), Memory>
    ensures line { OnOk result
        (string_bytes out.new ≡ string_bytes out.old ++ line plan.now found.now) }
    ensures held { OnOk result (IsHeld found.now) }
    ensures err { OnErr result (take (length (string_bytes out.old)) (string_bytes out.new)
        ≡ string_bytes out.old) }
{
    out.reserve(ROOM)?;
    push_head(out, found)?;
    push_bindings(out, plan, found.bound.as_slice())?;
    out.push_str(" used=")?;
    push_used(out, &found.used)?;
    out.push_str("\n")?;
    Ok(())
}

/// Adds the line of a match behind a text, whose room may so be used from line to line: the window's
/// number, the match's own number, each bound name with the numbers of its events, the numbers of the
/// events that it consumes or a dash, and one line feed. The text of a name that the plan hasn't is empty.
/// Where each name of the plan is bound once, in its order, to at least one event, `read_match_line` gives
/// the match back. After want of memory the text is as before.
pub fn push_match_line(out: &mut String, plan: &Plan, found: &Match) -> Result<(), Memory>
    ensures line { OnOk result
        (string_bytes out.new ≡ string_bytes out.old ++ line plan.now found.now) }
    ensures back { Binds plan.now found.now
        → OnOk result (IsLine plan.now found.now (line plan.now found.now)) }
    ensures err { OnErr result (string_bytes out.new ≡ string_bytes out.old) }
{
    let before = out.len();
    if let Err(fault) = push_line(out, plan, found) {
        out.truncate(before);
        return Err(fault);
    }
    Ok(())
}

/// The line of a match, as `push_match_line` adds it.
pub fn match_line(alloc: Global, plan: &Plan, found: &Match) -> Result<String, Memory>
    ensures line { IfOk result (λ text. string_bytes text ≡ line plan.now found.now) }
    ensures back { Binds plan.now found.now
        → IfOk result (λ text. IsLine plan.now found.now (string_bytes text)) }
{
    let mut out = String::new(alloc);
    push_match_line(&mut out, plan, found)?;
    Ok(out)
}
