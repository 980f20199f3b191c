// The root is finished: its matches are emitted, what they used is consumed, and its child is the root.
ghost use Rattle.std.specs.Prelude.{◌≡◌, ◌+◌, ◌<◌, ◌≤◌, ◌||◌, ℕ, [], length, Some, IfOk, IfErr, IfSome, OnOk, OnErr};
ghost use Rattle.std.specs.List.Sorted.{IsStrictlyIncreasing};
ghost use Rattle.sp_base.specs.Numbers.{is_among};
ghost use Rattle.sp_group.specs.Family.{entry_at};
ghost use Rattle.sp_group.specs.Machine as machine;
ghost use Rattle.sp_group.specs.declared.step.Step.TheVariants as s;
ghost use Rattle.sp_tree.specs.Changes.{promoted};
ghost use Rattle.sp_tree.specs.Grown.{AreGrown, groups_of, kin, pruned, root_in};
ghost use Rattle.sp_core.specs.Finishing.{IsEmitted, IsHandedOut, IsSettled, done_root, heir_conflict, held_at, numbered};
ghost use Rattle.sp_core.specs.Rooms.{room};
ghost use Rattle.sp_core.specs.Running.{IsDone, refused};

use crate::rolling::begin_anew;
use crate::rooms::enter;
use crate::{Core, Emitted, law};
use sp_base::Numbers;
use sp_group::{Label, Refusal, Step};
use sp_plan::Match;
use sp_tree::Tree;
use sp_version::Version;
use std::mem;

// Numbers matches on, from this number.
fn number_from(matches: &mut Vec<Match>, first: u64)
    requires { first + length matches.old.items ≤ 18446744073709551615 }
    ensures { matches.new.items ≡ numbered first matches.old.items }
{
    let mut number = first;
    for found in matches.iter_mut() {
        found.number = number;
        number += 1;
    }
}

// Takes numbers in, for which there is room.
fn consume(consumed: &mut Numbers, used: &Numbers)
    requires spare { length used.now.list ≤ consumed.old.spare }
    requires rising { IsStrictlyIncreasing consumed.old.list }
    ensures members { (i : ℕ)
        → is_among consumed.new.list i
        ≡ (is_among consumed.old.list i || is_among used.now.list i) }
    ensures rising { IsStrictlyIncreasing consumed.new.list }
    ensures spare { consumed.old.spare ≤ consumed.new.spare + length used.now.list }
{
    for number in used.list() {
        consumed.put(*number);
    }
}

// Emits the matches of a version, for which there is room, and consumes what they used; answers them once more.
fn hand_out(held: &mut Version, emitted: &mut Vec<Match>, consumed: &mut Numbers) -> Vec<Match>
    requires room { length held.old.copies.items ≤ room emitted.old }
    requires spare { length held.old.used.list ≤ consumed.old.spare }
    requires rising { IsStrictlyIncreasing consumed.old.list }
    ensures { IsHandedOut held.old emitted.old emitted.new consumed.old consumed.new result.items }
{
    let first = emitted.len() as u64 + 1;
    number_from(&mut held.matches, first);
    number_from(&mut held.copies, first);
    // There is room for them.
    let _ = emitted.append(&mut held.copies);
    consume(consumed, &held.used);
    let alloc = *held.matches.allocator();
    mem::replace(&mut held.matches, Vec::new(alloc))
}

// The root, which has no open group, goes out of the tree; answers its matches.
fn pop(
    tree: &mut Tree<Version>,
    root: u64,
    emitted: &mut Vec<Match>,
    consumed: &mut Numbers,
) -> Vec<Match>
    requires root { root_in tree.old.entries ≡ Some root }
    requires groups { groups_of (entry_at kin tree.old.entries root) ≡ [] }
    requires room { IfSome (held_at tree.old root) (λ v. length v.copies.items ≤ room emitted.old) }
    requires spare { IfSome (held_at tree.old root) (λ v. length v.used.list ≤ consumed.old.spare) }
    requires rising { IsStrictlyIncreasing consumed.old.list }
    ensures tree { tree.new ≡ pruned (promoted root) tree.old }
    ensures grown { AreGrown tree.new }
    ensures handed { IfSome (held_at tree.old root)
        (λ v. IsHandedOut v emitted.old emitted.new consumed.old consumed.new result.items) }
{
    let Some(held) = tree.get_mut(root) else {
        unreachable!()
    };
    let matches = hand_out(held, emitted, consumed);
    tree.promote();
    // It tells what every tree keeps.
    tree.live();
    matches
}

// The root begins anew where it is to roll; answers the root from then on.
fn settle(tree: &mut Tree<Version>, rolls: bool) -> Option<u64>
    requires next { tree.old.next < 18446744073709551615 }
    requires grown { AreGrown tree.old }
    ensures tree { IsSettled tree.old (root_in tree.old.entries) rolls tree.new }
    ensures root { result ≡ root_in tree.new.entries }
    ensures grown { AreGrown tree.new }
{
    let root = tree.root()?;
    if rolls {
        Some(begin_anew(tree, root))
    } else {
        Some(root)
    }
}

impl Core {
    // The root and its window, where it is done.
    fn done_root(&self) -> Option<(u64, u32)>
        ensures { result ≡ done_root (machine.root_in self.now.machine.versions) }
    {
        let root = self.tree.root()?;
        let held = self.tree.get(root)?;
        if held.done {
            Some((root, held.window))
        } else {
            None
        }
    }

    // The conflict of the root's child, with what the root's matches used consumed. The root is done, so that
    // it has no open group, and its child the empty label.
    fn heir_conflict(&self, root: u64) -> Option<u32>
        requires { (window : ℕ)
            × (done_root (machine.root_in self.now.machine.versions) ≡ Some (root, window)) }
        ensures { result
            ≡ heir_conflict self.now.plan self.now.machine
            (machine.root_in self.now.machine.versions) }
    {
        // The state is one to which steps lead: a root that is done has one child at most, with the empty
        // label.
        law::every_schedule();
        let label = Label::empty(*self.journal.allocator());
        let child = self.tree.child(root, &label)?;
        self.conflict_of(child)
    }

    /// The root, which has read its window's closing, is finished: its matches are emitted, numbered behind
    /// those of the windows before, and what they used is consumed; its child is the root then, and where it is
    /// in conflict begins anew. Takes no memory. After a refusal, which comes where no version is live and
    /// where the root is not done, the core is as before.
    pub fn finish(&mut self) -> Result<Emitted, Refusal>
        ensures done { OnOk result (IsDone s.Finish self.old self.new) }
        ensures emitted { IfOk result (IsEmitted self.old) }
        ensures err { OnErr result (self.new ≡ self.old) }
        ensures fault { IfErr result (λ refusal. refused self.old s.Finish ≡ Some refusal) }
    {
        // The state is one to which steps lead; and rising lists are the same where they have the same
        // members.
        law::every_schedule();
        law::compiled_plans_are_lawful();
        law::rising_same();
        let finished = self.finished;
        let Some((root, window)) = self.done_root() else {
            return Err(Refusal::NotDone { finished });
        };
        let rolls = self.heir_conflict(root).is_some();
        let matches = pop(&mut self.tree, root, &mut self.emitted, &mut self.consumed);
        let root = settle(&mut self.tree, rolls);
        // It is the window behind those that were finished.
        self.finished = window;
        enter(&mut self.journal, Step::Finish, 1);
        Ok(Emitted {
            window,
            matches,
            root,
        })
    }
}
