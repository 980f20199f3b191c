// What a core shows.
ghost use Rattle.std.specs.Prelude.{◌≡◌, []};
ghost use Rattle.sp_base.specs.Numbers.{with_numbers};
ghost use Rattle.sp_plan.specs.Compiled.{IsCompiled};
ghost use Rattle.sp_plan.specs.Sequential.{seq};
ghost use Rattle.sp_window.specs.Standing.{Stands};
ghost use Rattle.sp_group.specs.Steps.{replay};
ghost use Rattle.sp_rules.specs.Schedules.{Reached};
ghost use Rattle.sp_core.specs.Showing.{AreUnread, IsTreeOf};

use crate::{Core, law};
use sp_base::Numbers;
use sp_group::Entry;
use sp_plan::{Event, Match, Plan};
use sp_tree::Tree;
use sp_version::Version;
use sp_window::Windows;

impl Core {
    /// The live versions, each with its matcher, its matches, and its open groups.
    pub fn tree(&self) -> &Tree<Version>
        ensures { IsTreeOf self.now result.now }
    {
        &self.tree
    }

    /// The plan, which is compiled.
    pub fn plan(&self) -> &Plan
        ensures plan { result.now ≡ self.now.plan }
        ensures compiled { IsCompiled result.now }
    {
        &self.plan
    }

    /// The events fed, the first of them with number 1.
    pub fn events(&self) -> &[Event]
        ensures { result.now ≡ self.now.machine.events }
    {
        &self.events
    }

    /// Their windows.
    pub fn windows(&self) -> &Windows
        ensures plan { result.now.plan ≡ self.now.plan }
        ensures stands { Stands result.now self.now.machine.events self.now.machine.ended }
    {
        &self.windows
    }

    /// How many windows are finished. They are closed; the state of the machine is one to which steps lead, and
    /// keeps what each of these keeps. Nothing is read of a ticket that is out: what was read under it counts once
    /// it has come home.
    pub fn finished(&self) -> u32
        ensures number { result ≡ self.now.machine.finished }
        ensures reached { Reached self.now.plan self.now.bound self.now.machine }
        ensures unread { AreUnread self.now.machine.tickets }
    {
        // The state is one to which steps lead.
        law::every_schedule();
        self.finished
    }

    /// The steps that were done, each as an entry of its own, but that the readings of a piece that came home
    /// are one entry before its return. From them comes the state of the machine.
    pub fn journal(&self) -> &[Entry]
        ensures entries { result.now ≡ self.now.journal }
        ensures replays { replay self.now.plan self.now.bound result.now ≡ self.now.machine }
    {
        &self.journal
    }

    /// The matches of the finished windows, in their order: those of the windows processed one after another.
    pub fn emitted(&self) -> &[Match]
        ensures matches { result.now ≡ self.now.machine.emitted }
        ensures sequential { result.now
            ≡ (seq self.now.plan self.now.machine.events self.now.machine.finished).matches }
    {
        // The state is one to which steps lead.
        law::every_schedule();
        &self.emitted
    }

    /// The numbers of the events that they used: what processing the windows one after another consumes.
    pub fn consumed(&self) -> &Numbers
        ensures numbers { result.now.list ≡ self.now.machine.consumed }
        ensures sequential { result.now.list
            ≡ with_numbers []
            (seq self.now.plan self.now.machine.events self.now.machine.finished).consumed }
    {
        // The state is one to which steps lead.
        law::every_schedule();
        &self.consumed
    }
}
