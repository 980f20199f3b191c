// The lines of a state of the machine.
ghost use Rattle.std.specs.Prelude.{◌≡◌, ◌++◌, length, map, codes, string_bytes, IfOk, OnOk, OnErr};
ghost use Rattle.std.specs.Fmt.{decimal};
ghost use Rattle.std.specs.List.{flat_map};
ghost use Rattle.sp_base.specs.Commas.{list_text};
ghost use Rattle.sp_emit.specs.StateLines.{group_text, groups_text, head_line, id_text, lines_of_state, ticket_line, truth_text, version_line};
ghost use Rattle.sp_group.specs.Seen.{seen, seen_group, seen_ticket, seen_version};

use crate::write::push_number;
use sp_base::{Numbers, push_list};
use sp_group::{Label, State, TicketLine, VersionLine};
use sp_plan::{Listed, Memory};
use std::alloc::Global;
use std::fmt::Write;

// Room for a line with few numbers.
const ROOM: usize = 128;

/// Adds a number, or a dash where there is none. After want of memory the text is as before.
pub fn push_id(out: &mut String, id: Option<u64>) -> Result<(), Memory>
    ensures text { OnOk result (string_bytes out.new ≡ string_bytes out.old ++ id_text id) }
    ensures err { OnErr result (string_bytes out.new ≡ string_bytes out.old) }
{
    match id {
        Some(id) => push_number(out, id),
        None => out.push_str("-"),
    }
}

/// Adds 1 where it is so, and else 0. After want of memory the text is as before.
pub fn push_truth(out: &mut String, truth: bool) -> Result<(), Memory>
    ensures text { OnOk result (string_bytes out.new ≡ string_bytes out.old ++ truth_text truth) }
    ensures err { OnErr result (string_bytes out.new ≡ string_bytes out.old) }
{
    out.push_str(if truth { "1" } else { "0" })
}

/// Adds numbers joined by commas, or a dash where there are none. After want of memory the text is as before.
pub fn push_numbers(out: &mut String, numbers: &Numbers) -> Result<(), Memory>
    ensures text { OnOk result
        (string_bytes out.new ≡ string_bytes out.old ++ list_text numbers.now.list) }
    ensures err { OnErr result (string_bytes out.new ≡ string_bytes out.old) }
{
    push_list(out, numbers.list())
}

// Adds the runs of a label, or a dash where there are none.
fn push_label(out: &mut String, label: &Label) -> Result<(), Memory>
    ensures { OnOk result (string_bytes out.new ≡ string_bytes out.old ++ list_text label.now) }
{
    push_list(out, label.runs())
}

// Adds an open group.
fn push_group(out: &mut String, group: &(u32, Numbers)) -> Result<(), Memory>
    ensures { OnOk result
        (string_bytes out.new ≡ string_bytes out.old ++ group_text (seen_group group.now)) }
{
    let (run, numbers) = group;
    write!(out, "{run}:")?;
    push_numbers(out, numbers)
}

// Adds open groups, each after a semicolon.
fn push_more_groups(out: &mut String, groups: &[(u32, Numbers)]) -> Result<(), Memory>
    ensures { OnOk result (string_bytes out.new
        ≡ string_bytes out.old
        ++ flat_map (λ group. codes ";" ++ group_text group) (map seen_group groups.now)) }
{
    for group in groups {
        out.push_str(";")?;
        push_group(out, group)?;
    }
    Ok(())
}

// Adds open groups joined by semicolons, or a dash where there are none.
fn push_groups(out: &mut String, groups: &Listed<(u32, Numbers)>) -> Result<(), Memory>
    ensures { OnOk result (string_bytes out.new
        ≡ string_bytes out.old ++ groups_text (map seen_group groups.now)) }
{
    match groups.as_slice() {
        [] => out.push_str("-"),
        [first, rest @ ..] => {
            push_group(out, first)?;
            push_more_groups(out, rest)
        }
    }
}

// Adds how many windows have begun, how many are finished, and how many versions are live.
fn push_counts(out: &mut String, state: &State) -> Result<(), Memory>
    ensures { OnOk result (string_bytes out.new
        ≡ string_bytes out.old ++ (codes " windows=" ++ decimal state.now.windows
        ++ codes " finished=" ++ decimal state.now.finished ++ codes " live=" ++ decimal (length state.now.versions))) }
{
    let (windows, finished) = (state.windows, state.finished);
    let live = state.versions.as_slice().len();
    write!(out, " windows={windows} finished={finished} live={live}")?;
    Ok(())
}

// The line of the state itself.
fn head_line(alloc: Global, state: &State) -> Result<String, Memory>
    ensures { IfOk result (λ line. string_bytes line ≡ head_line (seen state.now)) }
{
    let events = state.events;
    let mut out = String::with_capacity(alloc, ROOM)?;
    write!(out, "state events={events} ended=")?;
    push_truth(&mut out, state.ended)?;
    push_counts(&mut out, state)?;
    out.push_str(" consumed=")?;
    push_numbers(&mut out, &state.consumed)?;
    out.push_str("\n")?;
    Ok(out)
}

// The line of a live version.
fn version_line(alloc: Global, version: &VersionLine) -> Result<String, Memory>
    ensures { IfOk result (λ line. string_bytes line ≡ version_line (seen_version version.now)) }
{
    let (id, window, position) = (version.id, version.window, version.position);
    let mut out = String::with_capacity(alloc, ROOM)?;
    write!(out, "v={id} parent=")?;
    push_id(&mut out, version.parent)?;
    write!(out, " window={window} label=")?;
    push_label(&mut out, &version.label)?;
    write!(out, " position={position} skipped=")?;
    push_numbers(&mut out, &version.skipped)?;
    out.push_str(" done=")?;
    push_truth(&mut out, version.done)?;
    out.push_str(" out=")?;
    push_id(&mut out, version.out)?;
    out.push_str(" groups=")?;
    push_groups(&mut out, &version.groups)?;
    out.push_str("\n")?;
    Ok(out)
}

// The line of a ticket that is out.
fn ticket_line(alloc: Global, ticket: &TicketLine) -> Result<String, Memory>
    ensures { IfOk result (λ line. string_bytes line ≡ ticket_line (seen_ticket ticket.now)) }
{
    let (number, version) = (ticket.ticket, ticket.version);
    let (first, count, read) = (ticket.first, ticket.count, ticket.read);
    let mut out = String::with_capacity(alloc, ROOM)?;
    write!(
        out,
        "t={number} v={version} first={first} count={count} read={read} snapshot="
    )?;
    push_numbers(&mut out, &ticket.snapshot)?;
    out.push_str(" closes=")?;
    push_truth(&mut out, ticket.closes)?;
    out.push_str("\n")?;
    Ok(out)
}

// Adds the lines of live versions.
fn add_versions(
    alloc: Global,
    versions: &[VersionLine],
    lines: &mut Vec<String>,
) -> Result<(), Memory>
    ensures { OnOk result (map string_bytes lines.new.items
        ≡ map string_bytes lines.old.items ++ map version_line (map seen_version versions.now)) }
{
    for version in versions {
        lines.push(version_line(alloc, version)?)?;
    }
    Ok(())
}

// Adds the lines of tickets.
fn add_tickets(alloc: Global, tickets: &[TicketLine], lines: &mut Vec<String>) -> Result<(), Memory>
    ensures { OnOk result (map string_bytes lines.new.items
        ≡ map string_bytes lines.old.items ++ map ticket_line (map seen_ticket tickets.now)) }
{
    for ticket in tickets {
        lines.push(ticket_line(alloc, ticket)?)?;
    }
    Ok(())
}

/// The lines of a state, each with its line feed: of the state itself; of the live versions; of the tickets that
/// are out. docs/formats.md says what they hold.
pub fn state_lines(alloc: Global, state: &State) -> Result<Vec<String>, Memory>
    ensures { IfOk result
        (λ lines. map string_bytes lines.items ≡ lines_of_state (seen state.now)) }
{
    let versions = state.versions.as_slice();
    let tickets = state.tickets.as_slice();
    let mut lines = Vec::with_capacity(alloc, 1 + versions.len() + tickets.len())?;
    lines.push(head_line(alloc, state)?)?;
    add_versions(alloc, versions, &mut lines)?;
    add_tickets(alloc, tickets, &mut lines)?;
    Ok(lines)
}
