// The parts of the command `graph` that need no engine: its texts, which are two queries and what matches of the first
// return, and what comes to the second query.
ghost use Rattle.std.specs.Prelude.{◌≡◌, ◌≢◌, ◌≤◌, ℕ, List, length, IfOk, IfErr, Err};
ghost use Rattle.sp_base.specs.Limits.{query_limit};
ghost use Rattle.sp_load.specs.Loads.{IsUnread};
ghost use Rattle.sp_load.specs.Places.{place_of, text_of};
ghost use Rattle.sp_graph.specs.Answers.{IsDerived};
ghost use Rattle.sp_graph.specs.Derived.{Deriving};
ghost use Rattle.sp_commands.specs.Graph.{AreFor, IsSecondGiven, IsTask, RefusesGraph, RefusesTexts};

use crate::asked::Graph;
use crate::ends::{status_of, status_of_refusal, status_of_second};
use crate::given::Given;
use sp_answer::Status;
use sp_base::limits::QUERY_LIMIT;
use sp_graph::Derived;
use sp_intake::Stop;
use sp_io::Files;
use sp_load::{QueryText, plan_of_text, second_plan, text_at};
use sp_plan::{Expr, Plan};
use sp_returns::{ReturnsRefusal, returns_of_text};
use std::alloc::Global;

/// The plans of two queries, and for each column of the second the expression by which a match of the first gives its
/// value.
#[derive(Drop)]
pub struct GraphTask {
    pub first: Plan,
    pub second: Plan,
    pub returns: Vec<Expr>,
}

// What the texts ask for, or the status that refuses them: a fault of the first query counts before one of the second,
// and that before one of what is returned.
fn task_of(
    alloc: Global,
    first: &QueryText,
    second: &str,
    returns: &str,
) -> Result<GraphTask, Status>
    requires first { length (text_of first.now) ≤ query_limit }
    requires second { length second.now ≤ query_limit }
    requires returns { length returns.now ≤ query_limit }
    ensures task { IfOk result (AreFor (text_of first.now) second.now returns.now) }
    ensures refused { IfErr result (RefusesTexts (text_of first.now) second.now returns.now) }
{
    let first = match plan_of_text(alloc, first) {
        Ok(plan) => plan,
        Err(refusal) => return Err(status_of_refusal(refusal)),
    };
    let second = match second_plan(alloc, second) {
        Ok(plan) => plan,
        Err(refusal) => return Err(status_of_second(refusal)),
    };
    match returns_of_text(alloc, returns, &first, &second) {
        Ok(returns) => Ok(GraphTask {
            first,
            second,
            returns,
        }),
        Err(ReturnsRefusal::Memory) => Err(Status::Memory),
        Err(ReturnsRefusal::Fault { code, place }) => Err(Status::Returns { code, place }),
    }
}

// A text has more bytes than one may have.
fn too_long() -> Status
    ensures { result ≡ Status.Limited query_limit }
{
    Status::Limited {
        limit: u64::from(QUERY_LIMIT),
    }
}

/// What a graph asks for, from its texts, or the status that refuses it: first the text or the file of the first query,
/// then the length of the second query, then that of what is returned, and then what they say, in that order.
pub fn graph_task<F: Files>(alloc: Global, asked: Graph, files: &mut F) -> Result<GraphTask, Status>
    ensures task { IfOk result (IsTask (F.held files.old) (place_of asked.entry.place)
        asked.entry.second.now asked.entry.returns.now) }
    ensures refused { IfErr result (RefusesGraph (F.held files.old) (place_of asked.entry.place)
        asked.entry.second.now asked.entry.returns.now) }
    ensures held { F.held files.new ≡ F.held files.old }
    ensures fault { result ≡ Err Status.Read
        → IsUnread (place_of asked.entry.place) (F.faults files.old) (F.faults files.new) }
    ensures no_fault { result ≢ Err Status.Read → (name : List ℕ)
        → F.faults files.new name ≡ F.faults files.old name }
{
    let Graph {
        place,
        second,
        returns,
    } = asked;
    let first = match text_at(alloc, place, files) {
        Ok(first) => first,
        Err(refusal) => return Err(status_of_refusal(refusal)),
    };
    let limit = QUERY_LIMIT as usize;
    if second.len() > limit {
        return Err(too_long());
    }
    if returns.len() > limit {
        return Err(too_long());
    }
    task_of(alloc, &first, second, returns)
}

/// What is given to the second query, where matches of the first gave this and there was nothing more for the first
/// one. A limit that was passed counts where the input was read to its end.
pub fn second_given(stop: Stop, derived: Derived) -> Given
    ensures { (d : Deriving) → IsDerived d derived → IsSecondGiven stop d result }
{
    match derived {
        Derived::UpTo { events, limit } if stop.is_end() => Given {
            events,
            stop: Stop::Open,
            status: Status::Limited { limit },
        },
        Derived::All(events) | Derived::UpTo { events, .. } => Given {
            events,
            stop,
            status: status_of(stop),
        },
    }
}
