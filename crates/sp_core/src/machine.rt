ghost use Rattle.std.specs.Prelude.{◌≡◌, ◌≤◌, IfOk};
ghost use Rattle.std.specs.Arc.{arc_value};
ghost use Rattle.sp_base.specs.Limits.{live_limit};
ghost use Rattle.sp_plan.specs.Compiled.{IsCompiled};
ghost use Rattle.sp_core.specs.Running.{begun};

use crate::news::News;
use crate::{Lent, Memory};
use sp_base::Numbers;
use sp_group::Entry;
use sp_match::Known;
use sp_plan::{Event, Match, Plan};
use sp_share::Spares;
use sp_tree::Tree;
use sp_version::Version;
use sp_window::Windows;
use std::alloc::Global;
use std::marker::Model;
use std::sync::Arc;

/// The speculative machine. Contracts see the plan, the `bound`, how many versions may be live at a time,
/// the state of the machine, and the journal of the steps that were done.
#[derive(Drop)]
pub struct Core {
    pub(crate) plan: Arc<Plan>,
    pub(crate) events: Vec<Event>,
    // What is known of each of them.
    pub(crate) known: Vec<Known>,
    pub(crate) windows: Windows,
    pub(crate) ended: bool,
    pub(crate) finished: u32,
    pub(crate) emitted: Vec<Match>,
    pub(crate) consumed: Numbers,
    pub(crate) tree: Tree<Version>,
    // What is out, the newest first.
    pub(crate) tickets: Vec<Lent>,
    pub(crate) next_ticket: u64,
    pub(crate) journal: Vec<Entry>,
    // What came home since no version was in conflict.
    pub(crate) news: Vec<News>,
    // Matchers that served, whose rooms versions and pieces use.
    pub(crate) spares: Spares,
}

impl Model for Core {
    ghost use Rattle.sp_core.specs.Running.{Running};

    ghost Value = { Running };

    ghost use Rattle.sp_plan.specs.contracts.plan.Expr as expr;
    ghost use Rattle.sp_plan.specs.contracts.plan.Pred as pred;
    ghost use Rattle.std.specs.Coded.{codes};

    ghost coded = { Prim.hlevel (codes, expr.the_row.coded, pred.the_row.coded) };

    ghost use Rattle.sp_core.specs.Holding.{IsCore, holding, running};

    ghost view = { λ c. running (holding c) };

    ghost invariant = { λ c. IsCore (holding c) };
}

impl Core {
    /// The machine before its first step, for a compiled plan; at most `bound` versions, 1 to 4,096, are
    /// live at a time.
    pub fn new(alloc: Global, plan: Arc<Plan>, bound: u32) -> Result<Core, Memory>
        requires compiled { IsCompiled (arc_value plan) }
        requires some { 1 ≤ bound }
        requires most { bound ≤ live_limit }
        ensures { IfOk result (λ core. core ≡ begun (arc_value plan) bound) }
    {
        let windows = Windows::new(alloc, plan.clone()?)?;
        let tree = Tree::new(alloc, bound)?;
        tree.live();
        let journal = Vec::with_capacity(alloc, 1)?;
        let spares = Spares::new(alloc)?;
        Ok(Core {
            plan,
            events: Vec::new(alloc),
            known: Vec::new(alloc),
            windows,
            ended: false,
            finished: 0,
            emitted: Vec::new(alloc),
            consumed: Numbers::new(alloc),
            tree,
            tickets: Vec::new(alloc),
            next_ticket: 1,
            journal,
            news: Vec::new(alloc),
            spares,
        })
    }
}
