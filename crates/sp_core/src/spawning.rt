// Fresh versions: a root, or a child under a guess.
ghost use Rattle.std.specs.Prelude.{◌≡◌, ◌+◌, ◌<◌, None, Some, not, find, length, IfOk, IfErr, OnOk, OnErr};
ghost use Rattle.sp_base.specs.Numbers.{is_among};
ghost use Rattle.sp_group.specs.declared.step.Step.TheVariants as s;
ghost use Rattle.sp_tree.specs.Grown.{CanStand, with_child};
ghost use Rattle.sp_core.specs.Faults.{IsFault};
ghost use Rattle.sp_core.specs.Running.{IsDone, after, refused};
ghost use Rattle.sp_core.specs.Spawning.{spawned_window};

use crate::rooms::{enter, make_room};
use crate::{Core, CoreFault, Memory, law};
use sp_group::{Label, Refusal, Step};
use sp_tree::Tree;
use sp_version::Version;
use std::alloc::{AllocError, Global};

// Whether a run has one of the open groups.
fn is_open(groups: &[u32], run: u32) -> bool
    ensures { result ≡ is_among groups.now run }
{
    groups.iter().any(|group| *group == run)
}

// The first run of a label that has none of the open groups.
fn first_not_open(groups: &[u32], label: &[u32]) -> Option<u32>
    ensures { result ≡ find (λ run. not (is_among groups.now run)) label.now }
{
    label.iter().find(|run| !is_open(groups, **run)).copied()
}

// Puts a version under a parent, and answers its id, and its label once more. One that isn't taken in is let go.
fn plant(
    alloc: Global,
    tree: &mut Tree<Version>,
    parent: Option<u64>,
    label: Label,
    version: Version,
) -> Result<(u64, Label), Memory>
    requires next { tree.old.next < 18446744073709551615 }
    requires stands { CanStand tree.old parent label }
    ensures id { IfOk result (λ pair. pair.0 ≡ tree.old.next) }
    ensures label { IfOk result (λ pair. pair.1 ≡ label) }
    ensures room { OnOk result (length tree.old.entries < tree.old.bound) }
    ensures added { OnOk result (tree.new ≡ with_child tree.old parent label version) }
    ensures err { OnErr result (tree.new ≡ tree.old) }
{
    let Ok(copy) = label.copy(alloc) else {
        drop(version);
        return Err(AllocError);
    };
    match tree.add(alloc, parent, label, version) {
        Ok(id) => Ok((id, copy)),
        Err(fault) => {
            drop(fault);
            Err(AllocError)
        }
    }
}

impl Core {
    // Why a root is refused.
    fn root_refusal(&self, label: &Label) -> Option<Refusal>
        ensures { result ≡ refused self.now (s.Spawn None label.now) }
    {
        // The state is one to which steps lead: no more windows are finished than are closed, and these are
        // few.
        law::every_schedule();
        law::closed_come_first();
        law::windows_are_few();
        if let Some(child) = self.tree.root() {
            return Some(Refusal::LabelTaken { child });
        }
        if self.windows.count() <= self.finished {
            return Some(Refusal::NoWindow {
                number: self.finished + 1,
            });
        }
        match label.runs().first() {
            Some(group) => Some(Refusal::NotOpen { group: *group }),
            None => None,
        }
    }

    // Why a child of that label is refused.
    fn child_refusal(&self, parent: u64, label: &Label) -> Option<Refusal>
        ensures { result ≡ refused self.now (s.Spawn (Some parent) label.now) }
    {
        // The state is one to which steps lead: the window of a live version is one of few.
        law::every_schedule();
        law::windows_are_few();
        let Some(held) = self.tree.get(parent) else {
            return Some(Refusal::NotLive { version: parent });
        };
        if self.windows.count() <= held.window {
            return Some(Refusal::NoWindow {
                number: held.window + 1,
            });
        }
        if let Some(group) = first_not_open(self.tree.groups(parent), label.runs()) {
            return Some(Refusal::NotOpen { group });
        }
        if let Some(child) = self.tree.child(parent, label) {
            return Some(Refusal::LabelTaken { child });
        }
        let (live, bound) = (self.tree.live(), self.tree.bound());
        if live == bound {
            Some(Refusal::Full { live, bound })
        } else {
            None
        }
    }

    // Puts a fresh version under a parent, which is not refused.
    fn put_under(
        &mut self,
        alloc: Global,
        parent: Option<u64>,
        label: Label,
        window: u32,
    ) -> Result<u64, Memory>
        requires passes { refused self.old (s.Spawn parent label) ≡ None }
        requires window { spawned_window self.old.machine parent ≡ window }
        ensures ok { OnOk result (self.new ≡ after self.old (s.Spawn parent label)) }
        ensures id { IfOk result (λ id. id ≡ self.old.machine.next_id) }
        ensures err { OnErr result (self.new ≡ self.old) }
    {
        // The state is one to which steps lead, a window that has begun is there, and a plan is the same as
        // itself.
        law::every_schedule();
        law::windows_hold();
        law::plans_are_themselves();
        let Some(place) = self.windows.get(window) else {
            unreachable!()
        };
        make_room(&mut self.journal, self.tree.live())?;
        let plan = self.plan.clone()?;
        let version = Version::new(alloc, plan, window, place.first, &mut self.spares)?;
        let (id, label) = plant(alloc, &mut self.tree, parent, label, version)?;
        enter(&mut self.journal, Step::Spawn { parent, label }, 1);
        Ok(id)
    }

    /// A fresh version: below `parent`, of the window behind the parent's, under the guess that of the
    /// parent's open groups exactly those of the label complete; or a root, of the first window that is not
    /// finished, with no parent and the empty label. Answers its id. After a fault the core is as before. A
    /// root is refused where one is live, where its window has not begun, and where the label is not empty. A
    /// child is refused where the parent is not live, the next window has not begun, a run of the label has no
    /// open group of the parent, the parent has a child of that label, and where as many versions are live as
    /// the bound allows.
    pub fn spawn(
        &mut self,
        alloc: Global,
        parent: Option<u64>,
        label: Label,
    ) -> Result<u64, CoreFault>
        ensures done { OnOk result (IsDone (s.Spawn parent label) self.old self.new) }
        ensures id { IfOk result (λ id. id ≡ self.old.machine.next_id) }
        ensures err { OnErr result (self.new ≡ self.old) }
        ensures fault { IfErr result (IsFault self.old (s.Spawn parent label)) }
    {
        let refusal = match parent {
            Some(parent) => self.child_refusal(parent, &label),
            None => self.root_refusal(&label),
        };
        if let Some(refusal) = refusal {
            return Err(CoreFault::Refused(refusal));
        }
        let window = self.window_under(parent);
        Ok(self.put_under(alloc, parent, label, window)?)
    }

    // The number of the window behind a live parent's, or of the first one that is not finished.
    fn window_under(&self, parent: Option<u64>) -> u32
        ensures { result ≡ spawned_window self.now.machine parent }
    {
        // The state is one to which steps lead: the numbers of windows are small.
        law::every_schedule();
        law::closed_come_first();
        law::windows_are_few();
        match parent {
            None => self.finished + 1,
            Some(parent) => match self.tree.get(parent) {
                Some(held) => held.window + 1,
                None => 0,
            },
        }
    }
}
