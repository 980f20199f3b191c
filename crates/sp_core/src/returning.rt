// What comes of a piece that is given back.
ghost use Rattle.std.specs.Prelude.{◌≡◌, ◌↔◌, ◌+◌, ◌<◌, ◌≤◌, ◌++◌, ◌∷◌, [], None, Some, IfOk, IfErr, IfSome, IsNone, IsSome, IsTrue, OnOk, OnErr};
ghost use Rattle.sp_group.specs.declared.step.Step.TheVariants as s;
ghost use Rattle.sp_group.specs.Machine.{Ticket, ticket_at, version_at};
ghost use Rattle.sp_core.specs.Carrying.{ticket_of};
ghost use Rattle.sp_rules.specs.Returning.{readings};
ghost use Rattle.sp_tree.specs.Grown.{AreGrown};
ghost use Rattle.sp_core.specs.Returning.{CanComeHome, HasValues, IsCarried, IsGiven, IsHome, IsPlaceOf, reading_entries, with_none_out, without_ticket};
ghost use Rattle.sp_core.specs.Rooms.{room};
ghost use Rattle.sp_core.specs.Running.{after, once};
ghost use Rattle.sp_core.specs.Homecoming.{AreLeft};
ghost use Rattle.sp_core.specs.Settling.{CanBring, CanSettle, CanTakeUp, HasRooms, HasTakenUp, IsFrom, IsPassing, IsSameTree, IsSettled, IsWithin};

use crate::homecoming::{Brought, bring, decide_ended, is_grouped, make_ready, take_up};
use crate::news::{hear, window_of};
use crate::rooms::{enter, make_room, make_rooms_for};
use crate::{Core, Given, Lent, Memory, law};
use sp_base::Numbers;
use sp_group::{Entry, Label, Outcome, Step};
use sp_piece::{Job, Piece};
use sp_plan::Event;
use sp_tree::Tree;
use sp_version::Version;
use std::alloc::{AllocError, Global};
use std::mem;

// Whether a job has the values of what went out.
fn has_values(job: &Job, lent: &Lent) -> bool
    ensures { IsTrue result ↔ HasValues job.now lent.now }
{
    job.version == lent.version
        && job.first == lent.first
        && job.closes == lent.closes
        && job.snapshot.list() == lent.snapshot.list()
}

// Nothing is out for a version from now on.
fn put_back_for(tree: &mut Tree<Version>, version: u64)
    ensures { tree.new ≡ with_none_out tree.old version }
{
    if let Some(held) = tree.get_mut(version) {
        held.out = None;
    }
}

// How many readings of its ticket a piece has made.
fn readings_of(piece: &Piece) -> u32
    ensures readings { result ≡ readings piece.now.read piece.now.closed }
    ensures within { IsWithin piece.now }
{
    let read = piece.read();
    if piece.closed() { read + 1 } else { read }
}

// Enters so many readings of a ticket, as one entry, if there are any.
fn enter_readings(journal: &mut Vec<Entry>, ticket: u64, times: u32)
    requires { 0 < room journal.old }
    ensures items { journal.new.items ≡ journal.old.items ++ reading_entries ticket times }
    ensures kept { room journal.old ≤ room journal.new + 1 }
{
    if times > 0 {
        enter(journal, Step::Event { ticket }, times);
    }
}

// Enters so many readings of a ticket, and its return.
fn enter_return(journal: &mut Vec<Entry>, ticket: u64, times: u32)
    requires { 1 < room journal.old }
    ensures items { journal.new.items
        ≡ journal.old.items ++ reading_entries ticket times ++ once (s.Return ticket) ∷ [] }
    ensures kept { room journal.old ≤ room journal.new + 2 }
{
    enter_readings(journal, ticket, times);
    enter(journal, Step::Return { ticket }, 1);
}

// What a piece brings home to its version.
fn brings(alloc: Global, tree: &Tree<Version>, piece: &Piece) -> Result<Brought, Memory>
    requires { CanBring tree.now piece.now }
    ensures { IfOk result (IsFrom tree.now piece.now) }
{
    let version = piece.job().version;
    let Some(held) = tree.get(version) else {
        unreachable!()
    };
    let Some(groups) = Label::new(alloc, tree.groups(version))? else {
        unreachable!()
    };
    let brought = bring(alloc, held.window, groups, piece.after(), piece.moves())?;
    brought.groups.runs();
    Ok(brought)
}

// A group that opened and completed in what a piece read, if there is one. No child of its owner can have foreseen
// it, so that none stays.
fn passing_group(tree: &Tree<Version>, piece: &Piece, completed: &[u32]) -> Option<u32>
    ensures { IfSome result (IsPassing tree.now piece.now completed.now) }
{
    let open = tree.groups(piece.job().version);
    for run in completed {
        if !open.contains(run) && !is_grouped(piece.after(), *run) {
            return Some(*run);
        }
    }
    None
}

// The version of a piece, which has room for it, takes up what was read and brought.
fn take_up_in(tree: &mut Tree<Version>, piece: Piece, passed: &Numbers, brought: &mut Brought)
    requires { CanTakeUp tree.old piece passed.now.list brought.old }
    ensures taken { HasTakenUp tree.old piece brought.old tree.new }
    ensures rest { AreLeft brought.old brought.new }
{
    let Some(held) = tree.get_mut(piece.job().version) else {
        unreachable!()
    };
    take_up(held, piece, passed, brought);
}

// The version of a piece, which has room for it, gets the groups that are brought, takes up what was read and
// brought, and its groups that are open no more are decided. After want of memory the tree is as before.
fn settle_all(
    alloc: Global,
    tree: &mut Tree<Version>,
    piece: Piece,
    passed: &Numbers,
    mut brought: Brought,
) -> Result<(), Piece>
    requires can { CanSettle tree.old piece brought }
    requires rooms { HasRooms tree.old piece passed.now.list brought }
    ensures ok { OnOk result (IsSettled tree.old piece brought tree.new) }
    ensures grown { OnOk result (AreGrown tree.new) }
    ensures err { OnErr result (tree.new ≡ tree.old) }
    ensures back { IfErr result (λ back. back ≡ piece) }
{
    let version = piece.job().version;
    let groups = mem::replace(&mut brought.groups, Label::empty(alloc));
    let Ok(()) = tree.set_groups(alloc, version, groups) else {
        return Err(piece);
    };
    take_up_in(tree, piece, passed, &mut brought);
    tree.live();
    decide_ended(tree, version, &brought.completed);
    tree.live();
    Ok(())
}

// The same, where a group opened and completed in what was read. That one is set and decided first: then no child
// is left, and the other groups take no memory.
fn settle_after(
    alloc: Global,
    tree: &mut Tree<Version>,
    piece: Piece,
    passed: &Numbers,
    mut brought: Brought,
    run: u32,
) -> Result<(), Piece>
    requires can { CanSettle tree.old piece brought }
    requires rooms { HasRooms tree.old piece passed.now.list brought }
    requires passing { IsPassing tree.old piece brought.completed.items run }
    ensures ok { OnOk result (IsSettled tree.old piece brought tree.new) }
    ensures grown { OnOk result (AreGrown tree.new) }
    ensures err { OnErr result (tree.new ≡ tree.old) }
    ensures back { IfErr result (λ back. back ≡ piece) }
{
    // What the one decision comes to, and that it leaves no child.
    law::one_decision_first::<Version>();
    law::decisions_add_up::<Version>();
    tree.live();
    let version = piece.job().version;
    let mut groups = mem::replace(&mut brought.groups, Label::empty(alloc));
    groups.runs();
    let Ok(()) = tree.open_group(alloc, version, run) else {
        return Err(piece);
    };
    take_up_in(tree, piece, passed, &mut brought);
    tree.live();
    tree.decide(version, run, Outcome::Completed);
    groups.remove(run);
    groups.runs();
    // No child is left.
    let _ = tree.set_groups(alloc, version, groups);
    tree.live();
    decide_ended(tree, version, &brought.completed);
    tree.live();
    Ok(())
}

// The version of a piece takes up what was read and brought, and its groups that are open no more are
// decided. After want of memory the tree is the same but for the version's rooms.
fn settle(
    alloc: Global,
    tree: &mut Tree<Version>,
    piece: Piece,
    brought: Brought,
) -> Result<(), Piece>
    requires { CanSettle tree.old piece brought }
    ensures ok { OnOk result (IsSettled tree.old piece brought tree.new) }
    ensures grown { OnOk result (AreGrown tree.new) }
    ensures err { OnErr result (IsSameTree tree.old piece.job.version tree.new) }
    ensures back { IfErr result (λ back. back ≡ piece) }
{
    let Some(held) = tree.get_mut(piece.job().version) else {
        unreachable!()
    };
    let Ok(passed) = make_ready(alloc, held, &piece, &brought) else {
        return Err(piece);
    };
    match passing_group(tree, &piece, &brought.completed) {
        Some(run) => settle_after(alloc, tree, piece, &passed, brought, run),
        None => settle_all(alloc, tree, piece, &passed, brought),
    }
}

impl Core {
    // Where the ticket of that number stands.
    pub(crate) fn place_of(&self, ticket: u64) -> Option<usize>
        ensures some { IfSome result (IsPlaceOf self.now.machine.tickets ticket) }
        ensures none { IsNone result → ticket_at self.now.machine.tickets ticket ≡ None }
    {
        for i in 0..self.tickets.len() {
            if self.tickets[i].ticket == ticket {
                return Some(i);
            }
        }
        None
    }

    /// Whether a job is what is out under its ticket, for a live version, so that its piece can come home. Compares
    /// each event, and the runs.
    pub fn is_carried(&self, job: &Job) -> bool
        ensures { IsTrue result ↔ IsCarried self.now job.now }
    {
        // The state is one to which steps lead: what is out for a live version was fed.
        law::every_schedule();
        law::windows_hold();
        let Some(place) = self.place_of(job.ticket) else {
            return false;
        };
        let lent = &self.tickets[place];
        let Some(held) = self.tree.get(lent.version) else {
            return false;
        };
        let from = lent.first as usize - 1;
        let events = &self.events[from..from + lent.count as usize];
        has_values(job, lent)
            && Event::all_same(job.events.as_slice(), events)
            && held.matcher.get().same(job.before.get())
    }

    // Ends a ticket that is out, with nothing read.
    fn end_ticket(&mut self, ticket: u64) -> Result<Lent, Memory>
        requires out { IsSome (ticket_at self.old.machine.tickets ticket) }
        ensures lent { IfOk result
            (λ lent. ticket_at self.old.machine.tickets ticket ≡ Some (ticket_of lent)) }
        ensures ok { OnOk result (self.new ≡ after self.old (s.Return ticket)) }
        ensures left { OnOk result (self.new.machine ≡ without_ticket self.old.machine ticket) }
        ensures err { OnErr result (self.new ≡ self.old) }
    {
        // The state is one to which steps lead: no other ticket is out for its version.
        law::every_schedule();
        let Some(place) = self.place_of(ticket) else {
            unreachable!()
        };
        make_room(&mut self.journal, self.tree.live())?;
        let lent = self.tickets.remove(place);
        put_back_for(&mut self.tree, lent.version);
        enter(&mut self.journal, Step::Return { ticket }, 1);
        Ok(lent)
    }

    // Rooms that a piece didn't need are spare ones from now on.
    fn shed(&mut self, piece: &mut Piece)
        ensures same { self.new ≡ self.old }
        ensures piece { piece.new ≡ piece.old }
    {
        piece.shed(&mut self.spares);
    }

    // The matchers of a piece that counts no more are spare ones from now on.
    fn retire(&mut self, piece: Piece)
        ensures { self.new ≡ self.old }
    {
        piece.retire(&mut self.spares);
    }

    /// A piece comes home whose job is what is out under its ticket, for a live version, as its caller knows, or
    /// asks by `is_carried`: what it read is the version's, and the ticket ends. Nothing is compared. After want
    /// of memory, which hands the piece back, the ticket is still out and the core is as before.
    pub fn come_home(&mut self, alloc: Global, mut piece: Piece) -> Result<(), Piece>
        requires { CanComeHome self.old piece }
        ensures home { OnOk result (IsHome self.old self.new piece) }
        ensures err { OnErr result (self.new ≡ self.old) }
        ensures back { IfErr result (λ back. back ≡ piece) }
    {
        self.shed(&mut piece);
        self.take_home(alloc, piece)
    }

    // The same, of a piece that has shed its rooms.
    fn take_home(&mut self, alloc: Global, piece: Piece) -> Result<(), Piece>
        requires { CanComeHome self.old piece }
        ensures home { OnOk result (IsHome self.old self.new piece) }
        ensures err { OnErr result (self.new ≡ self.old) }
        ensures back { IfErr result (λ back. back ≡ piece) }
    {
        law::home_laws();
        let ticket = piece.job().ticket;
        let times = readings_of(&piece);
        let Some(place) = self.place_of(ticket) else {
            unreachable!()
        };
        let Ok(brought) = brings(alloc, &self.tree, &piece) else {
            return Err(piece);
        };
        let window = window_of(&self.tree, piece.job().version);
        let first = piece.job().first;
        let Ok(()) = self.news.reserve(1) else {
            return Err(piece);
        };
        let Ok(()) = make_rooms_for(
            alloc,
            &self.tree,
            &brought,
            &mut self.journal,
            &mut self.emitted,
            &mut self.consumed,
        ) else {
            return Err(piece);
        };
        settle(alloc, &mut self.tree, piece, brought)?;
        hear(&mut self.news, window, first);
        self.tickets.remove(place);
        enter_return(&mut self.journal, ticket, times);
        Ok(())
    }

    /// A piece is given back, and its ticket ends: what it read is its version's, where that is live and the
    /// piece's job is what was lent to it. `NotOut` comes exactly where its ticket is not out, and nothing changes
    /// then; else `Stale` exactly where its version is not live, and `Differs` exactly where the job is not what was
    /// lent. After want of memory, which hands the piece back, the ticket is still out and the core is as before.
    pub fn give_back(&mut self, alloc: Global, piece: Piece) -> Result<Given, Piece>
        ensures given { IfOk result (IsGiven self.old self.new piece) }
        ensures err { OnErr result (self.new ≡ self.old) }
        ensures back { IfErr result (λ back. back ≡ piece) }
    {
        let ticket = piece.job().ticket;
        let Some(place) = self.place_of(ticket) else {
            // By a call, since a proof has each part of what is let go at a way out.
            drop(piece);
            return Ok(Given::NotOut { ticket });
        };
        let version = self.tickets[place].version;
        if self.is_carried(piece.job()) {
            self.come_home(alloc, piece)?;
            return Ok(Given::Home);
        }
        let live = self.tree.get(version).is_some();
        let Ok(lent) = self.end_ticket(ticket) else {
            return Err(piece);
        };
        if live {
            return Ok(Given::Differs { lent, piece });
        }
        drop(lent);
        self.retire(piece);
        Ok(Given::Stale { version })
    }
}
