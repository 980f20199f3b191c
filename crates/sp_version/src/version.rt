ghost use Rattle.std.specs.Prelude.{◌≡◌, false, None, [], IfOk};
ghost use Rattle.std.specs.Arc.{arc_value};
ghost use Rattle.sp_plan.specs.Compiled.{IsCompiled};

use crate::Memory;
use crate::search::least_among;
use sp_base::Numbers;
use sp_match::Matcher;
use sp_plan::{Match, Plan};
use sp_share::{Held, Spares};
use std::alloc::Global;
use std::sync::Arc;

/// One processing of a window, under a guess of what earlier windows consume.
#[derive(Drop)]
pub struct Version {
    /// The window's number, from 1.
    pub window: u32,
    /// The number of the window's first event.
    pub first: u32,
    /// How many events of the window it has read, those that it skipped among them.
    pub position: u32,
    /// The numbers of those that it skipped, since they were suppressed for it.
    pub skipped: Numbers,
    /// The partial matches over the events that it read and did not skip.
    pub matcher: Held,
    /// Its matches, in the order of their completion. A match has the number 0 until it is written.
    pub matches: Vec<Match>,
    /// The same matches once more, so that one list can be handed out and the other kept.
    pub copies: Vec<Match>,
    /// The numbers of the events that its matches used.
    pub used: Numbers,
    /// Whether it has read its window's closing.
    pub done: bool,
    /// The ticket that is out for it.
    pub out: Option<u64>,
}

impl Version {
    ghost use Rattle.sp_version.specs.Reads.{conflict};

    /// A version that has read nothing. Its matcher is made in the rooms of a spare one where there is one.
    pub fn new(
        alloc: Global,
        plan: Arc<Plan>,
        window: u32,
        first: u32,
        spares: &mut Spares,
    ) -> Result<Version, Memory>
        requires { IsCompiled (arc_value plan) }
        ensures window { IfOk result (λ v. v.window ≡ window) }
        ensures first { IfOk result (λ v. v.first ≡ first) }
        ensures position { IfOk result (λ v. v.position ≡ 0) }
        ensures skipped { IfOk result (λ v. v.skipped.list ≡ []) }
        ensures plan { IfOk result (λ v. v.matcher.plan ≡ arc_value plan) }
        ensures none { IfOk result (λ v. v.matcher.open_runs ≡ []) }
        ensures count { IfOk result (λ v. v.matcher.started ≡ 0) }
        ensures matches { IfOk result (λ v. v.matches.items ≡ []) }
        ensures copies { IfOk result (λ v. v.copies.items ≡ []) }
        ensures used { IfOk result (λ v. v.used.list ≡ []) }
        ensures done { IfOk result (λ v. v.done ≡ false) }
        ensures out { IfOk result (λ v. v.out ≡ None) }
    {
        let matcher = spares.housed(alloc, Matcher::new(alloc, plan)?)?;
        Ok(Version {
            window,
            first,
            position: 0,
            skipped: Numbers::new(alloc),
            matcher: Held::new(matcher),
            matches: Vec::new(alloc),
            copies: Vec::new(alloc),
            used: Numbers::new(alloc),
            done: false,
            out: None,
        })
    }

    /// Makes it as new, for the same window and plan. Takes no memory, and keeps its rooms.
    pub fn restart(&mut self)
        ensures window { self.new.window ≡ self.old.window }
        ensures first { self.new.first ≡ self.old.first }
        ensures position { self.new.position ≡ 0 }
        ensures skipped { self.new.skipped.list ≡ [] }
        ensures plan { self.new.matcher.plan ≡ self.old.matcher.plan }
        ensures none { self.new.matcher.open_runs ≡ [] }
        ensures count { self.new.matcher.started ≡ 0 }
        ensures matches { self.new.matches.items ≡ [] }
        ensures copies { self.new.copies.items ≡ [] }
        ensures used { self.new.used.list ≡ [] }
        ensures done { self.new.done ≡ false }
        ensures out { self.new.out ≡ None }
    {
        self.position = 0;
        self.skipped.clear();
        self.matcher.clear();
        self.matches.clear();
        self.copies.clear();
        self.used.clear();
        self.done = false;
        self.out = None;
    }

    /// The least event that it has read, did not skip, and that is among the suppressed numbers; None
    /// exactly where there is none. Takes no memory.
    pub fn conflict(&self, suppressed: &Numbers) -> Option<u32>
        ensures { result ≡ conflict self.now suppressed.now.list }
    {
        least_among(suppressed.list(), self.first, self.position, &self.skipped)
    }
}
