// The command `graph`: the matches of one query over the input become the events of a second, whose lines are written.
ghost use Rattle.std.specs.Prelude.{◌≡◌, false, IfOk, map, string_bytes};
ghost use Rattle.std.specs.Arc.{arc_value};
ghost use Rattle.sp_plan.specs.Compiled.{IsCompiled};
ghost use Rattle.sp_plan.specs.Sequential.{whole};
ghost use Rattle.sp_graph.specs.Derived.{derived};
ghost use Rattle.sp_graph.specs.Returns.{AreReturns};
ghost use Rattle.sp_ports.specs.Giving.{AreGood};
ghost use Rattle.sp_ports.specs.Stopping.{is_end};
ghost use Rattle.sp_load.specs.Places.{place_of};
ghost use Rattle.sp_answer.specs.Outcome.{ending};
ghost use Rattle.sp_answer.specs.Promise.{filed, Served};
ghost use Rattle.sp_answer.specs.Ran.{outside, Ran};
ghost use Rattle.sp_commands.specs.Commands.{files_at};
ghost use Rattle.sp_commands.specs.Graph.{GraphOutcome, IsPlanGraph, IsSecondGiven};
ghost use Rattle.sp_top.specs.Asked.{IsSpeed};

use crate::asked::GraphRun;
use crate::law;
use crate::listing::drive_events;
use crate::workshop::Workshop;
use sp_answer::Status;
use sp_cli::Speed;
use sp_commands::{
    Given, GraphTask, graph_task, second_given, shared, write_lines, written_status,
};
use sp_graph::derive;
use sp_instance::Gate;
use sp_intake::{NamedEvents, read_named};
use sp_io::{Files, Sink, Source};
use sp_plan::{Expr, Memory, Plan};
use sp_split::{Crew, Ended};
use std::sync::{Arc, Wait};
use std::thread::Threads;

// The plans of both queries, and for each column of the second what a match of the first returns.
#[derive(Drop)]
struct Link {
    first: Arc<Plan>,
    second: Arc<Plan>,
    returns: Vec<Expr>,
}

// What is given to the second query, and the predictors that are left.
#[derive(Drop)]
struct Fed {
    given: Given,
    crew: Crew,
}

// Drives the first query over its events, and gives to the second what its matches return. Of the first run nothing but
// the predictors is left then.
fn feed_second<G: Gate, R: Threads + Wait + Sync>(
    shop: &Workshop<'_, G, R>,
    link: &Link,
    speed: &Speed,
    crew: Crew,
    named: NamedEvents,
) -> Result<Fed, Memory>
    requires compiled { IsCompiled (arc_value link.now.first) }
    requires returns { AreReturns (arc_value link.now.first) (arc_value link.now.second)
        link.now.returns.items }
    requires speed { IsSpeed speed.now }
    requires good { AreGood (arc_value link.now.first) named.events.items }
    ensures given { let q = arc_value link.now.first in
        let found = (whole q named.events.items (is_end named.stop)).matches in
        let d = derived link.now.returns.items named.events.items
        (map string_bytes named.texts.items) (arc_value link.now.second) found in
        IfOk result (λ fed. IsSecondGiven named.stop d fed.given) }
    ensures good { IfOk result (λ fed. AreGood (arc_value link.now.second) fed.given.events.items) }
{
    let NamedEvents {
        events,
        stop,
        texts,
    } = named;
    // the numbers of events that fit a plan keep their limit
    law::fitting_events_are_small();
    let Ended { core, crew, .. } = drive_events(shop, &link.first, speed, crew, events, stop)?;
    let derived = derive(
        shop.alloc,
        &link.returns,
        core.events(),
        core.emitted(),
        &texts,
        &link.second,
    )?;
    let given = second_given(stop, derived);
    Ok(Fed { given, crew })
}

// Runs the first query over the input, and the second over what the matches of the first return.
fn run_graph<S: Source, K: Sink, G: Gate, R: Threads + Wait + Sync>(
    shop: &Workshop<'_, G, R>,
    task: GraphTask,
    speed: &Speed,
    crew: Crew,
    input: &mut S,
    out: &mut K,
) -> Status
    requires first { IsCompiled task.first }
    requires second { IsCompiled task.second }
    requires returns { AreReturns task.first task.second task.returns.items }
    requires speed { IsSpeed speed.now }
    requires not_ended { (S.state input.old).ended ≡ false }
    ensures { Ran (IsPlanGraph task.first task.returns.items task.second)
        (outside (S.state input.old) (K.state out.old))
        (outside (S.state input.new) (K.state out.new))
        (ending result) }
{
    let GraphTask {
        first,
        second,
        returns,
    } = task;
    let Ok(first) = shared(shop.alloc, first) else {
        return Status::Memory;
    };
    let Ok(second) = shared(shop.alloc, second) else {
        return Status::Memory;
    };
    let Ok(named) = read_named(shop.alloc, &first, input) else {
        return Status::Memory;
    };
    let link = Link {
        first,
        second,
        returns,
    };
    let Ok(fed) = feed_second(shop, &link, speed, crew, named) else {
        return Status::Memory;
    };
    let Fed { given, crew } = fed;
    let Given {
        events,
        stop,
        status,
    } = given;
    let Ok(ended) = drive_events(shop, &link.second, speed, crew, events, stop) else {
        return Status::Memory;
    };
    let written = write_lines(shop.alloc, &link.second, ended.core.emitted(), out);
    written_status(status, written)
}

/// Runs the query that stands there over the input, and the second one over what the matches of the first return, both
/// by the speculative engine.
pub(crate) fn graph<S: Source, F: Files, K: Sink, G: Gate, R: Threads + Wait + Sync>(
    shop: &Workshop<'_, G, R>,
    asked: GraphRun,
    crew: Crew,
    input: &mut S,
    files: &mut F,
    out: &mut K,
) -> Status
    requires speed { IsSpeed asked.speed.now }
    requires not_ended { (S.state input.old).ended ≡ false }
    ensures { let place = place_of asked.entry.texts.place in
        Served (files_at place)
        (GraphOutcome place asked.entry.texts.second.now asked.entry.texts.returns.now)
        (filed (F.held files.old) (F.faults files.old))
        (filed (F.held files.new) (F.faults files.new))
        (outside (S.state input.old) (K.state out.old))
        (outside (S.state input.new) (K.state out.new))
        (ending result) }
{
    match graph_task(shop.alloc, asked.texts, files) {
        Ok(task) => run_graph(shop, task, asked.speed, crew, input, out),
        Err(status) => status,
    }
}
