ghost use Rattle.std.specs.Prelude.{◌≡◌, ℕ, ◌+◌, ◌^◌, ◌<◌, true, ◌↔◌, [], ◌++◌, length, map, IsTrue, IfOk, OnOk, OnErr, slice_index_or};
ghost use Rattle.std.specs.Arc.{arc_value};
ghost use Rattle.sp_plan.specs.Compiled.{IsCompiled};
ghost use Rattle.sp_plan.specs.Events.{fits};
ghost use Rattle.sp_plan.specs.Same.{SamePlan};
ghost use Rattle.sp_match.specs.inside.Handling as handling;
ghost use Rattle.sp_match.specs.public.Laws.{Below};
ghost use Rattle.sp_match.specs.public.Seen.{all_seen, seen_run};
ghost use Rattle.sp_wants.specs.Stretches.{repeated};

use crate::Memory;
use crate::all_runs::{copies, copy_all, same_runs};
use crate::handling::handle_all;
use crate::holdings::Holdings;
use crate::known::Known;
use crate::leaving::abandon_all;
use crate::lefts::Lefts;
use crate::moves::Moves;
use crate::offer::Offer;
use crate::run::Run;
use crate::settling::{end_all, end_event, undo};
use crate::stock::Stock;
use crate::takers::{Takers, takers_of};
use crate::wanting::{left, want_as_before};
use sp_plan::{Event, Plan, law};
use sp_wants::Wants;
use std::alloc::Global;
use std::marker::Model;
use std::sync::Arc;

/// The partial matches of one window: which are open, and how many have started. Contracts see the plan,
/// the open runs with their events, and the count.
#[derive(Drop)]
pub struct Matcher {
    plan: Arc<Plan>,
    runs: Vec<Run>,
    count: u32,
    // what the open runs want, from one event to the next
    lefts: Lefts,
    // what runs that ended have left for later ones
    stock: Stock,
    // what is kept for asking predicates once for all open runs
    holdings: Holdings,
    // which of the open runs take the event at hand; a room that is used again
    takers: Takers,
}

impl Model for Matcher {
    ghost use Rattle.std.specs.Prelude.{map};
    ghost use Rattle.std.specs.Arc.{arc_value};
    ghost use Rattle.sp_match.specs.public.Matching.{Matching};

    ghost Value = { Matching };

    ghost use Rattle.sp_plan.specs.contracts.plan.Expr as expr;
    ghost use Rattle.sp_plan.specs.contracts.plan.Pred as pred;
    ghost use Rattle.std.specs.Coded.{codes};

    ghost coded = { Prim.hlevel (codes, expr.the_row.coded, pred.the_row.coded) };

    ghost use Rattle.sp_match.specs.inside.Kept.{all_kept, pairs, started};
    ghost use Rattle.sp_match.specs.inside.Keeping.{IsKept};
    ghost use Rattle.sp_match.specs.inside.Takers.{IsHeld};
    ghost use Rattle.sp_match.specs.inside.Wanted.{AreLeft};

    ghost view = { λ m. record {
      plan = arc_value m.plan;
      open_runs = map started (all_kept m.runs.items);
      started = m.count;
    } };

    ghost invariant = { λ m. IsKept (arc_value m.plan) m.count (all_kept m.runs.items)
        × IsHeld (arc_value m.plan) (map pairs (all_kept m.runs.items)) m.holdings
        × AreLeft (arc_value m.plan) (all_kept m.runs.items) m.lefts };
}

// How many runs have started, where one more may have.
fn count_after(count: u32, began: bool) -> u32
    requires { count + 1 < 2 ^ 32 }
    ensures { result ≡ handling.count_after count began }
{
    if began { count + 1 } else { count }
}

impl Matcher {
    ghost use Rattle.sp_plan.specs.Compiled.{IsCompiled};
    ghost use Rattle.sp_plan.specs.Windows.{Numbered};
    ghost use Rattle.sp_match.specs.public.Known.{IsKnown, is_ignored};
    ghost use Rattle.sp_match.specs.public.Matching.{IsAfter, SameMatching, SameRuns, TellsClosing, TellsEvent, TellsWanted, left_at, runs_of, shown, wanted_as_before};

    /// No run is open, and none has started. Takes no memory.
    pub fn new(alloc: Global, plan: Arc<Plan>) -> Result<Matcher, Memory>
        requires { IsCompiled (arc_value plan) }
        ensures plan { IfOk result (λ m. m.plan ≡ arc_value plan) }
        ensures none { IfOk result (λ m. m.open_runs ≡ []) }
        ensures count { IfOk result (λ m. m.started ≡ 0) }
    {
        Ok(Matcher {
            plan,
            runs: Vec::new(alloc),
            count: 0,
            lefts: Lefts::new(alloc),
            stock: Stock::new(alloc),
            holdings: Holdings::new(alloc),
            takers: Takers::new(alloc),
        })
    }

    /// The open runs, in the order of their start.
    pub fn open_runs(&self) -> &[Run]
        ensures { map seen_run result.now ≡ map (shown self.now.plan) self.now.open_runs }
    {
        &self.runs
    }

    /// Forgets all runs. Takes no memory: their rooms are kept for later ones where there is room for them.
    pub fn clear(&mut self)
        ensures plan { self.new.plan ≡ self.old.plan }
        ensures none { self.new.open_runs ≡ [] }
        ensures count { self.new.started ≡ 0 }
    {
        end_all(&mut self.runs, &mut self.stock);
        self.count = 0;
        self.holdings.forget();
        self.lefts.forget();
    }

    /// Handles the next visible event: the open runs are offered it, the oldest first, and then it may
    /// start one. The moves are cleared first, and tell of it then; their room is used again. After want
    /// of memory the matcher is as before, and there are no moves.
    pub fn offer_into(
        &mut self,
        alloc: Global,
        number: u32,
        event: &Event,
        moves: &mut Moves,
    ) -> Result<(), Memory>
        requires fits { fits self.old.plan event.now ≡ true }
        requires below { Below number (runs_of self.old) }
        ensures stands { OnOk result (IsAfter (number, event.now) self.old self.new) }
        ensures told { OnOk result
            (TellsEvent (number, event.now) self.old (all_seen moves.new.list.items)) }
        ensures wanted { OnOk result
            (TellsWanted (number, event.now) self.old moves.new.wanted) }
        ensures below { OnOk result (Below (number + 1) (runs_of self.new)) }
        ensures plan { self.new.plan ≡ self.old.plan }
        ensures err { OnErr result (self.new ≡ self.old) }
        ensures cleared { OnErr result
            ((moves.new.list.items ≡ []) × (moves.new.wanted ≡ [])) }
    {
        self.offer_known::<true>(alloc, number, event, Known::Any, moves)
    }

    /// Whether an event of which this is known changes nothing, as far as that tells: no run takes it, none
    /// leaves, and it starts none.
    pub fn ignores(&self, known: Known) -> bool
        ensures value { result ≡ is_ignored known self.now.open_runs }
        ensures stands { IsTrue result → (x : Numbered) → IsKnown self.now.plan x.1 known
            → IsAfter x self.now self.now }
        ensures told { IsTrue result → (x : Numbered) → IsKnown self.now.plan x.1 known
            → TellsEvent x self.now [] }
        ensures wanted { IsTrue result → (x : Numbered) → IsKnown self.now.plan x.1 known
            → TellsWanted x self.now (wanted_as_before self.now) }
    {
        match known {
            Known::Never => true,
            Known::Onward => self.runs.is_empty(),
            Known::Any => false,
        }
    }

    /// Adds behind the list, so many times, what the open runs want where an event changes nothing: as many
    /// events after it as before it. What stood in the room is forgotten. After want of memory the list is as
    /// before.
    pub fn add_wanted(&self, times: u32, room: &mut Wants, wanted: &mut Wants) -> Result<(), Memory>
        ensures added { OnOk result
            (wanted.new ≡ wanted.old ++ repeated times (wanted_as_before self.now)) }
        ensures err { OnErr result (wanted.new ≡ wanted.old) }
    {
        if self.lefts.is_fresh {
            return wanted.extend_times(&self.lefts.wants, times);
        }
        room.clear();
        want_as_before(&self.plan, &self.runs, room)?;
        wanted.extend_times(room, times)
    }

    /// Handles the next visible event, of which this is known, as `offer_into` does, but tells what the runs
    /// want only where that is WANTED. After want of memory the matcher is as before, and there are no moves.
    #[inline(always)]
    pub fn offer_known<const WANTED: bool>(
        &mut self,
        alloc: Global,
        number: u32,
        event: &Event,
        known: Known,
        moves: &mut Moves,
    ) -> Result<(), Memory>
        requires fits { fits self.old.plan event.now ≡ true }
        requires below { Below number (runs_of self.old) }
        requires known { IsKnown self.old.plan event.now known }
        ensures stands { OnOk result (IsAfter (number, event.now) self.old self.new) }
        ensures told { OnOk result
            (TellsEvent (number, event.now) self.old (all_seen moves.new.list.items)) }
        ensures wanted { IsTrue WANTED → OnOk result
            (TellsWanted (number, event.now) self.old moves.new.wanted) }
        ensures below { OnOk result (Below (number + 1) (runs_of self.new)) }
        ensures plan { self.new.plan ≡ self.old.plan }
        ensures err { OnErr result (self.new ≡ self.old) }
        ensures cleared { OnErr result
            ((moves.new.list.items ≡ []) × (moves.new.wanted ≡ [])) }
    {
        // The numbers of an event that fits are small, which predicates ask for.
        law::fitting_events_are_small();
        let open = self.runs.len();
        let is_told = takers_of(
            alloc,
            &self.plan,
            event,
            &self.runs,
            &mut self.holdings,
            &mut self.takers,
        );
        let offer = Offer {
            alloc,
            plan: &self.plan,
            number,
            event,
            known,
            is_told,
            takers: &self.takers,
        };
        match handle_all::<WANTED>(
            &offer,
            &mut self.stock,
            &mut self.runs,
            &mut self.lefts,
            self.count,
            moves,
        ) {
            Ok(started) => {
                let is_quiet = moves.list.is_empty();
                let handled = self.runs.len();
                end_event(
                    &offer,
                    &mut self.runs,
                    &mut self.stock,
                    &mut self.holdings,
                    open,
                    is_quiet,
                );
                self.lefts.outlive::<WANTED>(self.runs.len() == handled);
                self.count = count_after(self.count, started);
                Ok(())
            }
            Err(memory) => {
                undo(&mut self.runs, open, number);
                self.holdings.forget();
                self.lefts.forget();
                moves.clear();
                Err(memory)
            }
        }
    }

    /// Handles the next visible event as `offer_into` does, and gives new moves.
    pub fn offer(&mut self, alloc: Global, number: u32, event: &Event) -> Result<Moves, Memory>
        requires fits { fits self.old.plan event.now ≡ true }
        requires below { Below number (runs_of self.old) }
        ensures stands { OnOk result (IsAfter (number, event.now) self.old self.new) }
        ensures told { IfOk result
            (λ moves. TellsEvent (number, event.now) self.old (all_seen moves.list.items)) }
        ensures wanted { IfOk result
            (λ moves. TellsWanted (number, event.now) self.old moves.wanted) }
        ensures below { OnOk result (Below (number + 1) (runs_of self.new)) }
        ensures plan { self.new.plan ≡ self.old.plan }
        ensures err { OnErr result (self.new ≡ self.old) }
    {
        self.offer_known_of(alloc, number, event, Known::Any)
    }

    /// Handles the next visible event, of which this is known, as `offer` does, and gives new moves. These
    /// take a list only where something is told, and one of what the runs want only where some are open.
    pub fn offer_known_of(
        &mut self,
        alloc: Global,
        number: u32,
        event: &Event,
        known: Known,
    ) -> Result<Moves, Memory>
        requires fits { fits self.old.plan event.now ≡ true }
        requires below { Below number (runs_of self.old) }
        requires known { IsKnown self.old.plan event.now known }
        ensures stands { OnOk result (IsAfter (number, event.now) self.old self.new) }
        ensures told { IfOk result
            (λ moves. TellsEvent (number, event.now) self.old (all_seen moves.list.items)) }
        ensures wanted { IfOk result
            (λ moves. TellsWanted (number, event.now) self.old moves.wanted) }
        ensures below { OnOk result (Below (number + 1) (runs_of self.new)) }
        ensures plan { self.new.plan ≡ self.old.plan }
        ensures err { OnErr result (self.new ≡ self.old) }
    {
        let mut moves = Moves::new(alloc);
        self.offer_known::<true>(alloc, number, event, known, &mut moves)?;
        Ok(moves)
    }

    /// How many events the run at this place among the open ones, from 0, wants at least: one for each
    /// name that it hasn't bound.
    pub fn left(&self, place: u32) -> u32
        requires { place < length self.now.open_runs }
        ensures { result ≡ left_at self.now place }
    {
        left(&self.plan, &self.runs[place as usize])
    }

    /// The window is closed: all open runs are abandoned, by run number. After want of memory the
    /// matcher is as before.
    pub fn close(&mut self, alloc: Global) -> Result<Moves, Memory>
        ensures none { OnOk result (self.new.open_runs ≡ []) }
        ensures count { self.new.started ≡ self.old.started }
        ensures plan { self.new.plan ≡ self.old.plan }
        ensures told { IfOk result
            (λ moves. TellsClosing self.old (all_seen moves.list.items)) }
        ensures wanted { IfOk result (λ moves. moves.wanted ≡ []) }
        ensures err { OnErr result (self.new ≡ self.old) }
    {
        let mut moves = Moves::new(alloc);
        abandon_all(&self.runs, &mut moves.list)?;
        end_all(&mut self.runs, &mut self.stock);
        self.holdings.forget();
        self.lefts.forget();
        Ok(moves)
    }

    /// The same runs once more, with the same plan. The plan and the bound events are shared, not copied.
    pub fn copy(&self, alloc: Global) -> Result<Matcher, Memory>
        ensures { IfOk result (λ m. m ≡ self.now) }
    {
        law::plans_are_themselves();
        self.copy_under(alloc, self)
    }

    /// The same runs once more, under the plan of another matcher, which is the same plan but for where its parts lie in
    /// memory. That plan and the bound events are shared, not copied.
    pub fn copy_under(&self, alloc: Global, host: &Matcher) -> Result<Matcher, Memory>
        requires { SamePlan self.now.plan host.now.plan }
        ensures plan { IfOk result (λ m. m.plan ≡ host.now.plan) }
        ensures runs { IfOk result (λ m. m.open_runs ≡ self.now.open_runs) }
        ensures count { IfOk result (λ m. m.started ≡ self.now.started) }
    {
        Ok(Matcher {
            plan: Arc::try_clone(&host.plan)?,
            runs: copies(alloc, &self.runs)?,
            count: self.count,
            lefts: Lefts::new(alloc),
            stock: Stock::new(alloc),
            holdings: Holdings::new(alloc),
            takers: Takers::new(alloc),
        })
    }

    /// The same matcher once more, as `copy` makes it, in the rooms of one that served before, of whatever plan. What
    /// is left over of the rooms serves later runs.
    pub fn copy_in(&self, alloc: Global, mut rooms: Matcher) -> Result<Matcher, Memory>
        ensures { IfOk result (λ m. m ≡ self.now) }
    {
        rooms.plan = Arc::try_clone(&self.plan)?;
        copy_all(alloc, &self.runs, &mut rooms.runs, &mut rooms.stock)?;
        rooms.count = self.count;
        rooms.lefts.copy_from(&self.lefts);
        rooms.holdings.copy_from(alloc, &self.holdings);
        Ok(rooms)
    }

    /// Whether both have the same open runs, with equal events, and as many runs have started. The plans
    /// are not compared: where both share theirs, the matchers are equal then. Takes no memory.
    pub fn same_runs(&self, other: &Matcher) -> bool
        ensures same { IsTrue result ↔ SameRuns self.now other.now }
        ensures shared { self.now.plan ≡ other.now.plan
            → IsTrue result ↔ (self.now ≡ other.now) }
    {
        if self.count != other.count {
            return false;
        }
        same_runs(&self.runs, &other.runs)
    }

    /// Whether both have the same plan, but for where its parts lie in memory, and the same runs with
    /// equal events. Where they share the plan they are equal then. Takes no memory. The plans are
    /// compared whole, at each call; `same_runs` leaves them out.
    pub fn same(&self, other: &Matcher) -> bool
        ensures same { IsTrue result ↔ SameMatching self.now other.now }
        ensures shared { self.now.plan ≡ other.now.plan
            → IsTrue result ↔ (self.now ≡ other.now) }
    {
        // So where both share a plan, only the runs count.
        law::plans_are_themselves();
        if !self.same_runs(other) {
            return false;
        }
        self.plan.same(&other.plan)
    }
}
