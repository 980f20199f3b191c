// What a piece brings home, made before anything is changed.
ghost use Rattle.std.specs.Prelude.{◌≡◌, ◌+◌, ◌<◌, ◌≤◌, ◌++◌, [], map, length, IfOk, IfErr, IfSome, OnOk, OnErr};
ghost use Rattle.std.specs.List.{All, flat_map};
ghost use Rattle.sp_base.specs.Numbers.{with_numbers};
ghost use Rattle.sp_group.specs.Family.{entry_at};
ghost use Rattle.sp_tree.specs.Grown.{kin};
ghost use Rattle.sp_core.specs.Homecoming.{AreLeft, AreNumbered, CanDecide, HasAll, HasOpenRuns, HasRoomFor, HasRuns, IsBrought, IsDecided, IsReady, IsSameButRooms, IsTakenUp, IsWith, completions, completions_in, has_group, is_grouped, outcome_of, spent_run, unnumbered_told, used_told};

use crate::rooms::count_of;
use crate::{Memory, law};
use sp_base::Numbers;
use sp_group::{Label, Outcome};
use sp_match::{Matcher, Move, Moves, Run, match_of};
use sp_piece::Piece;
use sp_plan::Match;
use sp_tree::Tree;
use sp_version::Version;
use std::alloc::Global;

// What a piece brings home beside its matcher.
#[derive(Drop)]
pub(crate) struct Brought {
    // The matches of the runs that completed, twice.
    pub(crate) matches: Vec<Match>,
    pub(crate) copies: Vec<Match>,
    // The runs that completed and used an event.
    pub(crate) completed: Vec<u32>,
    // The numbers that they used.
    pub(crate) used: Numbers,
    // The groups of the version that were open, are open now, or completed.
    pub(crate) groups: Label,
}

// Adds the matches of the runs that complete by these moves, which are not numbered yet.
fn add_matches(
    alloc: Global,
    window: u32,
    moves: &[Move],
    matches: &mut Vec<Match>,
) -> Result<(), Memory>
    ensures { OnOk result (matches.new.items
        ≡ matches.old.items ++ map (unnumbered_told window) (completions_in moves.now)) }
{
    for one in moves {
        if let Move::Completed { bound, used, .. } = one {
            matches.push(match_of(alloc, window, 0, bound.as_slice(), used)?)?;
        }
    }
    Ok(())
}

// The matches of the runs that completed, which are not numbered yet.
fn matches_of(alloc: Global, window: u32, moves: &[Moves]) -> Result<Vec<Match>, Memory>
    ensures { IfOk result
        (λ matches. matches.items ≡ map (unnumbered_told window) (completions moves.now)) }
{
    let mut matches = Vec::new(alloc);
    for told in moves {
        add_matches(alloc, window, &told.list, &mut matches)?;
    }
    Ok(matches)
}

// Adds the runs that complete by these moves and used an event.
fn add_completed(moves: &[Move], runs: &mut Vec<u32>) -> Result<(), Memory>
    ensures { OnOk result (runs.new.items
        ≡ runs.old.items ++ flat_map spent_run (completions_in moves.now)) }
{
    for one in moves {
        if let Move::Completed { run, used, .. } = one {
            if !used.list().is_empty() {
                runs.push(*run)?;
            }
        }
    }
    Ok(())
}

// The runs that completed and used an event.
fn completed_of(alloc: Global, moves: &[Moves]) -> Result<Vec<u32>, Memory>
    ensures { IfOk result (λ runs. runs.items ≡ flat_map spent_run (completions moves.now)) }
{
    let mut runs = Vec::new(alloc);
    for told in moves {
        add_completed(&told.list, &mut runs)?;
    }
    Ok(runs)
}

// Takes in the numbers that the runs used which complete by these moves.
fn add_used(alloc: Global, moves: &[Move], numbers: &mut Numbers) -> Result<(), Memory>
    ensures { OnOk result (numbers.new.list
        ≡ with_numbers numbers.old.list (flat_map used_told (completions_in moves.now))) }
{
    // Rising lists are the same where they have the same members, and numbers rise.
    law::rising_same();
    numbers.list();
    for one in moves {
        if let Move::Completed { used, .. } = one {
            numbers.union(alloc, used)?;
        }
    }
    Ok(())
}

// The numbers that the runs used which completed.
fn used_of(alloc: Global, moves: &[Moves]) -> Result<Numbers, Memory>
    ensures { IfOk result
        (λ numbers. numbers.list ≡ with_numbers [] (flat_map used_told (completions moves.now))) }
{
    let mut numbers = Numbers::new(alloc);
    for told in moves {
        add_used(alloc, &told.list, &mut numbers)?;
    }
    Ok(numbers)
}

// Takes a run in, if it isn't among the groups.
fn add_group(groups: &mut Label, run: u32) -> Result<(), Memory>
    requires { 1 ≤ run }
    ensures { OnOk result (IsWith groups.old run groups.new) }
{
    if groups.has(run) {
        return Ok(());
    }
    groups.insert(run)
}

// Takes these runs in.
fn add_groups(groups: &mut Label, runs: &[u32]) -> Result<(), Memory>
    requires { All (λ run. 1 ≤ run) runs.now }
    ensures { OnOk result (HasRuns groups.old runs.now groups.new) }
{
    for run in runs {
        add_group(groups, *run)?;
    }
    Ok(())
}

// Takes those of the runs in that hold an event for consumption.
fn add_open_groups(groups: &mut Label, runs: &[Run]) -> Result<(), Memory>
    requires { All (λ run. 1 ≤ run.number) runs.now }
    ensures { OnOk result (HasOpenRuns groups.old runs.now groups.new) }
{
    for run in runs {
        if !run.used.list().is_empty() {
            add_group(groups, run.number)?;
        }
    }
    Ok(())
}

// The groups of a version with those that are open after a reading, and those that completed.
fn groups_with(mut groups: Label, after: &Matcher, completed: &[u32]) -> Result<Label, Memory>
    requires numbered { AreNumbered after.now }
    requires given { All (λ run. 1 ≤ run) completed.now }
    ensures { IfOk result (HasAll groups after.now completed.now) }
{
    add_open_groups(&mut groups, after.open_runs())?;
    add_groups(&mut groups, completed)?;
    Ok(groups)
}

// Whether one of the runs has that number and holds an event for consumption.
fn has_group(runs: &[Run], number: u32) -> bool
    ensures { result ≡ has_group runs.now number }
{
    runs.iter()
        .any(|run| run.number == number && !run.used.list().is_empty())
}

// Whether an open run of that number holds an event for consumption.
pub(crate) fn is_grouped(matcher: &Matcher, number: u32) -> bool
    ensures { result ≡ is_grouped matcher.now number }
{
    has_group(matcher.open_runs(), number)
}

// Makes what a reading brings home to a version of the window, which had these open groups.
pub(crate) fn bring(
    alloc: Global,
    window: u32,
    groups: Label,
    after: &Matcher,
    moves: &[Moves],
) -> Result<Brought, Memory>
    requires numbered { AreNumbered after.now }
    requires given { All (λ run. 1 ≤ run) (flat_map spent_run (completions moves.now)) }
    ensures { IfOk result (IsBrought window groups after.now moves.now) }
{
    let completed = completed_of(alloc, moves)?;
    let groups = groups_with(groups, after, &completed)?;
    Ok(Brought {
        matches: matches_of(alloc, window, moves)?,
        copies: matches_of(alloc, window, moves)?,
        completed,
        used: used_of(alloc, moves)?,
        groups,
    })
}

// Takes in numbers for which there is room.
fn put_all(numbers: &mut Numbers, more: &[u32])
    requires { length more.now ≤ numbers.old.spare }
    ensures { numbers.new.list ≡ with_numbers numbers.old.list more.now }
{
    // Rising lists are the same where they have the same members, and numbers rise.
    law::rising_same();
    numbers.list();
    for n in more {
        numbers.put(*n);
    }
}

// Makes room in a version for what a piece brings, and gives what the version skips by it.
pub(crate) fn make_ready(
    alloc: Global,
    held: &mut Version,
    piece: &Piece,
    brought: &Brought,
) -> Result<Numbers, Memory>
    ensures same { IsSameButRooms held.old held.new }
    ensures ready { IfOk result (λ passed. IsReady held.new piece.now passed.list brought.now) }
{
    let job = piece.job();
    let passed = job.snapshot.cut_to(alloc, 0, job.first + piece.read())?;
    make_rooms(held, &passed, brought)?;
    Ok(passed)
}

// Makes room in a version for what comes.
fn make_rooms(held: &mut Version, passed: &Numbers, brought: &Brought) -> Result<(), Memory>
    ensures same { IsSameButRooms held.old held.new }
    ensures ok { OnOk result (HasRoomFor held.new passed.now.list brought.now) }
{
    held.skipped.reserve(count_of(passed)?)?;
    held.used.reserve(count_of(&brought.used)?)?;
    held.matches.reserve(brought.matches.len())?;
    held.copies.reserve(brought.copies.len())
}

// The version, which has room for it, takes up what was read and brought. Takes no memory.
pub(crate) fn take_up(held: &mut Version, piece: Piece, passed: &Numbers, brought: &mut Brought)
    requires few { held.old.position + piece.read < 4294967296 }
    requires ready { IsReady held.old piece passed.now.list brought.old }
    ensures taken { IsTakenUp held.old piece brought.old held.new }
    ensures rest { AreLeft brought.old brought.new }
{
    held.position += piece.read();
    held.done = held.done || piece.closed();
    held.out = None;
    // Its handle of what was lent is put away first, so that the piece's is the last one.
    held.matcher.clear();
    held.matcher = piece.into_after();
    put_all(&mut held.skipped, passed.list());
    put_all(&mut held.used, brought.used.list());
    let _ = held.matches.append(&mut brought.matches);
    let _ = held.copies.append(&mut brought.copies);
}

// What became of a group that is open no more.
fn outcome_of(completed: &[u32], run: u32) -> Outcome
    ensures { result ≡ outcome_of completed.now run }
{
    if completed.contains(&run) {
        Outcome::Completed
    } else {
        Outcome::Abandoned
    }
}

// Whether the matcher of a live version has a group still.
fn has_open(tree: &Tree<Version>, owner: u64, run: u32) -> bool
    ensures { IfSome (entry_at kin tree.now.entries owner)
        (λ e. result ≡ is_grouped e.value.matcher run) }
{
    match tree.get(owner) {
        Some(held) => is_grouped(held.matcher.get(), run),
        None => false,
    }
}

// Decides each open group of a live version that its matcher has no more.
pub(crate) fn decide_ended(tree: &mut Tree<Version>, owner: u64, completed: &[u32])
    requires { CanDecide tree.old owner }
    ensures { IsDecided tree.old owner completed.now tree.new }
{
    // Decisions one after another come to what they do together.
    law::decisions_add_up::<Version>();
    let mut i = 0;
    while i < tree.groups(owner).len() {
        let run = tree.groups(owner)[i];
        if has_open(tree, owner, run) {
            i += 1;
        } else {
            tree.decide(owner, run, outcome_of(completed, run));
        }
    }
}
