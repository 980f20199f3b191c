// The state as it is printed.
ghost use Rattle.std.specs.Prelude.{◌≡◌, map, IfOk};
ghost use Rattle.std.specs.Option.{option_map};
ghost use Rattle.sp_group.specs.Seen.{seen, seen_group, seen_ticket, seen_version, state_seen, ticket_seen};
ghost use Rattle.sp_core.specs.Carrying.{ticket_of};
ghost use Rattle.sp_core.specs.Printing.{groups_held, lent_seen, line_at, tree_seen};

use crate::{Core, Lent, Memory};
use sp_base::Numbers;
use sp_group::{State, TicketLine, VersionLine};
use sp_match::Matcher;
use sp_plan::Listed;
use sp_tree::Tree;
use sp_version::Version;
use std::alloc::Global;

// The open groups of a matcher, by run.
fn open_groups(alloc: Global, matcher: &Matcher) -> Result<Listed<(u32, Numbers)>, Memory>
    ensures { IfOk result (λ groups. map seen_group groups ≡ groups_held matcher.now) }
{
    let mut groups = Vec::new(alloc);
    for run in matcher.open_runs() {
        if !run.used.list().is_empty() {
            groups.push((run.number, run.used.copy(alloc)?))?;
        }
    }
    Ok(Listed::of(groups))
}

// A live version; None exactly where the id isn't live.
fn version_line(alloc: Global, tree: &Tree<Version>, id: u64) -> Result<Option<VersionLine>, Memory>
    ensures { IfOk result (λ line. option_map seen_version line ≡ line_at tree.now id) }
{
    let (Some(label), Some(held)) = (tree.label(id), tree.get(id)) else {
        return Ok(None);
    };
    Ok(Some(VersionLine {
        id,
        parent: tree.parent(id),
        window: held.window,
        label: label.copy(alloc)?,
        position: held.position,
        skipped: held.skipped.copy(alloc)?,
        done: held.done,
        out: held.out,
        groups: open_groups(alloc, held.matcher.get())?,
    }))
}

// The live versions, by rising id.
fn version_lines(alloc: Global, tree: &Tree<Version>) -> Result<Listed<VersionLine>, Memory>
    ensures { IfOk result (λ lines. map seen_version lines ≡ tree_seen tree.now) }
{
    tree.live();
    let ids = tree.walk(alloc)?;
    let mut lines = Vec::with_capacity(alloc, ids.len())?;
    for id in &ids {
        if let Some(line) = version_line(alloc, tree, *id)? {
            lines.push(line)?;
        }
    }
    Ok(Listed::of(lines))
}

// A ticket, of which no reading has come home yet.
fn ticket_line(alloc: Global, lent: &Lent) -> Result<TicketLine, Memory>
    ensures { IfOk result (λ line. seen_ticket line ≡ ticket_seen (ticket_of lent.now)) }
{
    Ok(TicketLine {
        ticket: lent.ticket,
        version: lent.version,
        first: lent.first,
        count: lent.count,
        read: 0,
        snapshot: lent.snapshot.copy(alloc)?,
        closes: lent.closes,
    })
}

// The tickets that are out, by rising number; they stand with the newest first.
fn ticket_lines(alloc: Global, tickets: &[Lent]) -> Result<Listed<TicketLine>, Memory>
    ensures { IfOk result (λ lines. map seen_ticket lines ≡ lent_seen tickets.now) }
{
    let mut lines = Vec::with_capacity(alloc, tickets.len())?;
    for lent in tickets {
        lines.push(ticket_line(alloc, lent)?)?;
    }
    lines.reverse();
    Ok(Listed::of(lines))
}

impl Core {
    /// The state as it is printed: the live versions by rising id, and the tickets that are out by rising
    /// number, those of versions that are not live any more among them. Each ticket is unread: what was read
    /// under it counts once it has come home. Takes time by the square of how many versions are live.
    pub fn state(&self, alloc: Global) -> Result<State, Memory>
        ensures { IfOk result (λ s. seen s ≡ state_seen self.now.plan self.now.machine) }
    {
        let versions = version_lines(alloc, &self.tree)?;
        let tickets = ticket_lines(alloc, &self.tickets)?;
        Ok(State {
            events: self.events.len() as u32,
            ended: self.ended,
            windows: self.windows.count(),
            finished: self.finished,
            emitted: self.emitted.len() as u64,
            consumed: self.consumed.copy(alloc)?,
            versions,
            tickets,
        })
    }
}
