// A splitter, and its instances side by side with it where they are wanted, at a hub of their own.
ghost use Rattle.std.specs.Prelude.{◌≡◌, ◌≤◌, ◌<◌, ◌+◌, [], true, None, Some, IfOk, OnOk, List, drop, length, map, vec_len, vec_capacity};
ghost use Rattle.std.specs.List.{All, range_with_len};
ghost use Rattle.std.specs.Thread.{IsSync};
ghost use Rattle.sp_base.specs.Limits.{batch_limit};
ghost use Rattle.sp_core.specs.Running.{begun};
ghost use Rattle.sp_split.specs.Prompt.{IsPrompt};
ghost use Rattle.sp_split.specs.Relay.{Relayed};
ghost use Rattle.sp_split.specs.Relieving.{AreDue, Relieved, crew_of};
ghost use Rattle.sp_split.specs.Serving.{Ends, IsServing, MayServe, Serves, WoundUp, ending};
ghost use Rattle.sp_split.specs.Stopping.{IsThrough};
ghost use Rattle.sp_split.specs.Stretches.{IsUnderWay, ServesOn};
ghost use Rattle.sp_split.specs.declared.feeding.Fed.TheVariants as f;

use crate::attending::{Seating, attend_all, dismiss};
use crate::feeding::Fed;
use crate::office::Office;
use crate::serving::{Crewed, Desk, Served, Serving, leave, serve, serve_on};
use crate::{Crew, Ended, Memory, Went, law};
use sp_hub::{History, Hub, Naming, Opened, Poster, Seat};
use sp_instance::Gate;
use sp_lend::{Lending, Loan, Reading};
use sp_ports::{Intake, Outlet};
use std::alloc::{AllocError, Global};
use std::sync::Wait;
use std::thread;
use std::thread::Threads;

/// The way in and the way out.
#[derive(Drop)]
pub(crate) struct Ways<I: Intake, O: Outlet> {
    pub(crate) intake: I,
    pub(crate) outlet: O,
}

// The splitter's own seat, and those of its instances.
fn part<B: Lending, L: Naming>(
    seats: Vec<Seat<Reading<B>, L>>,
) -> (Seat<Reading<B>, L>, Vec<Seat<Reading<B>, L>>)
    requires some { 0 < vec_len seats }
    requires free { All (λ s. s.holding ≡ None) seats.items }
    ensures mine { result.0.holding ≡ None }
    ensures others { All (λ s. s.holding ≡ None) result.1.items }
    ensures rest { result.1.items ≡ drop 1 seats.items }
    ensures len { vec_len result.1 + 1 ≡ vec_len seats }
    ensures room { vec_len result.1 < vec_capacity result.1 }
{
    let mut seats = seats;
    let mine = seats.remove(0);
    (mine, seats)
}

// Runs the instances on threads of their own, and goes on with the splitter on this one, until it closes the hub.
fn beside<
    B: Lending + Send,
    L: Naming + Send + Sync,
    I: Intake,
    O: Outlet,
    G: Gate,
    R: Threads + Wait + Sync,
>(
    office: &Office<'_, B, L, G, R>,
    seating: Seating<B, L>,
    serving: Serving<'_, B, L, R>,
    ways: Ways<I, O>,
) -> (Seating<B, L>, Served<B, L>, Ways<I, O>)
    requires free { All (λ s. s.holding ≡ None) seating.seats }
    requires ready { IsServing serving.desk.splitter.instances serving.desk.splitter.batch
        serving.desk.splitter.kept.items serving.desk.splitter.core
        serving.desk.by serving.desk.seat }
    requires due { AreDue serving.relay serving.desk.splitter.core.machine.finished }
    requires under_way { IsUnderWay I.gave I.asked I.ended I.stops I.cause I.plan ways.intake
        serving.desk.splitter.core (O.state ways.outlet) serving.fed }
    requires plan { O.plan ways.outlet ≡ serving.desk.splitter.core.plan }
    ensures len { length result.0.seats ≡ length seating.seats }
    ensures room { result.0.room ≡ seating.room }
    ensures numbers { map (λ s. s.number) result.0.seats ≡ map (λ s. s.number) seating.seats }
    ensures over { All (λ s. s.over ≡ true) result.0.seats }
    ensures served { ServesOn I.gave I.asked I.ended I.stops I.cause I.plan
        ways.intake result.2.intake serving.entry.desk.splitter.core
        (O.state ways.outlet) (O.state result.2.outlet) serving.entry.fed
        serving.entry.desk.splitter.instances serving.entry.desk.splitter.batch
        result.1.end (length result.1.by.got) }
    ensures relieved { OnOk result.1.end (Relieved (λ one. named one)
        (record { first = serving.entry.desk.splitter.predictor; relay = serving.entry.relay })
        result.1.team) }
    ensures due { IfOk result.1.end (λ end. IsThrough (Some end.why)
        → AreDue result.1.team.relay end.core.machine.finished) }
    ensures closed { result.1.by.closed ≡ true }
    ensures same { (I.plan result.2.intake ≡ I.plan ways.intake)
        × (I.token result.2.intake ≡ I.token ways.intake) }
    ensures same_out { (O.plan result.2.outlet ≡ O.plan ways.outlet)
        × (O.token result.2.outlet ≡ O.token ways.outlet) }
{
    let Office {
        rt,
        alloc,
        hub,
        gate,
    } = *office;
    // Where no thread can be made the second branch runs first, and closes the hub. The other way round the
    // instances would wait for jobs, and the splitter would never go on.
    let (seating, (served, ways)) = thread::join(
        rt,
        || -> Seating<B, L>
            requires { IsSync R.row × All (λ s. s.holding ≡ None) seating.seats }
            ensures { (length result.seats ≡ length seating.seats) × (result.room ≡ seating.room)
                × (map (λ s. s.number) result.seats ≡ map (λ s. s.number) seating.seats)
                × All (λ s. s.over ≡ true) result.seats }
        {
            let mut seating = seating;
            attend_all(rt, alloc, hub, gate, &mut seating);
            seating
        },
        || -> (Served<B, L>, Ways<I, O>)
            requires { IsServing serving.desk.splitter.instances serving.desk.splitter.batch
                serving.desk.splitter.kept.items serving.desk.splitter.core
                serving.desk.by serving.desk.seat
                × AreDue serving.relay serving.desk.splitter.core.machine.finished
                × IsUnderWay I.gave I.asked I.ended I.stops I.cause I.plan ways.intake
                serving.desk.splitter.core (O.state ways.outlet) serving.fed
                × (O.plan ways.outlet ≡ serving.desk.splitter.core.plan) }
            ensures served { ServesOn I.gave I.asked I.ended I.stops I.cause I.plan
                ways.intake result.1.intake serving.entry.desk.splitter.core
                (O.state ways.outlet) (O.state result.1.outlet) serving.entry.fed
                serving.entry.desk.splitter.instances serving.entry.desk.splitter.batch
                result.0.end (length result.0.by.got) }
            ensures relieved { OnOk result.0.end (Relieved (λ one. named one)
                (record {
                  first = serving.entry.desk.splitter.predictor;
                  relay = serving.entry.relay;
                }) result.0.team) }
            ensures due { IfOk result.0.end (λ end. IsThrough (Some end.why)
                → AreDue result.0.team.relay end.core.machine.finished) }
            ensures closed { result.0.by.closed ≡ true }
            ensures same { (I.plan result.1.intake ≡ I.plan ways.intake)
                × (I.token result.1.intake ≡ I.token ways.intake) }
            ensures same_out { (O.plan result.1.outlet ≡ O.plan ways.outlet)
                × (O.token result.1.outlet ≡ O.token ways.outlet) }
        {
            let mut ways = ways;
            let served = serve(office, serving, &mut ways.intake, &mut ways.outlet);
            (served, ways)
        },
    );
    (seating, served, ways)
}

// Serves alone at first, with each job done on this thread, and beside the instances from where one of them is wanted: a
// run that is over before starts no thread. Either way each of the instances' seats is told that no job will come.
fn with_instances<
    B: Lending + Send,
    L: Naming + Send + Sync,
    I: Intake,
    O: Outlet,
    G: Gate,
    R: Threads + Wait + Sync,
>(
    office: &Office<'_, B, L, G, R>,
    seating: Seating<B, L>,
    serving: Serving<'_, B, L, R>,
    ways: Ways<I, O>,
) -> (Seating<B, L>, Served<B, L>, Ways<I, O>)
    requires free { All (λ s. s.holding ≡ None) seating.seats }
    requires may { MayServe serving.desk.splitter.core serving.desk.splitter.instances
        serving.desk.splitter.batch serving.desk.splitter.kept.items serving.desk.by
        serving.desk.seat (I.plan ways.intake) (O.plan ways.outlet) }
    requires none { serving.relay.gone ≡ 0 }
    requires begins { serving.fed ≡ f.More }
    ensures len { length result.0.seats ≡ length seating.seats }
    ensures room { result.0.room ≡ seating.room }
    ensures numbers { map (λ s. s.number) result.0.seats ≡ map (λ s. s.number) seating.seats }
    ensures over { All (λ s. s.over ≡ true) result.0.seats }
    ensures served { Serves (λ events. I.gave ways.intake events result.2.intake)
        (I.ended result.2.intake)
        (I.stops ways.intake) (I.stops result.2.intake) (I.cause result.2.intake)
        serving.entry.desk.splitter.instances serving.entry.desk.splitter.batch
        serving.entry.desk.splitter.core (O.state ways.outlet) (O.state result.2.outlet)
        result.1.end (length result.1.by.got) }
    ensures relieved { OnOk result.1.end (Relieved (λ one. named one)
        (record { first = serving.entry.desk.splitter.predictor; relay = serving.entry.relay })
        result.1.team) }
    ensures due { IfOk result.1.end (λ end. IsThrough (Some end.why)
        → AreDue result.1.team.relay end.core.machine.finished) }
    ensures closed { result.1.by.closed ≡ true }
    ensures prompt { IsPrompt (I.asked ways.intake) result.2.intake
        serving.entry.desk.splitter.core.plan (O.state ways.outlet) (O.state result.2.outlet) }
    ensures same { (I.plan result.2.intake ≡ I.plan ways.intake)
        × (I.token result.2.intake ≡ I.token ways.intake) }
    ensures same_out { (O.plan result.2.outlet ≡ O.plan ways.outlet)
        × (O.token result.2.outlet ≡ O.token ways.outlet) }
{
    let (mut seating, mut serving, mut ways) = (seating, serving, ways);
    let Some(end) = serve_on(
        office,
        &mut serving,
        true,
        &mut ways.intake,
        &mut ways.outlet,
    ) else {
        return beside(office, seating, serving, ways);
    };
    let served = leave(office, serving, end);
    dismiss(office, &mut seating);
    (seating, served, ways)
}

// What the hub did, once it is closed and all its seats are back, those of the instances and the splitter's own.
fn wind_up<B: Lending + Send, L: Naming>(
    hub: Hub<Loan<B>, Reading<B>, L>,
    by: Poster<Reading<B>, L>,
    others: Vec<Seat<Reading<B>, L>>,
    mine: Seat<Reading<B>, L>,
) -> History
    requires closed { by.closed ≡ true }
    requires whole { vec_len others + 1 ≡ hub.seats }
    requires room { vec_len others < vec_capacity others }
    requires numbers { map (λ s. s.number) others.items ≡ range_with_len 1 (vec_len others) }
    requires over { All (λ s. s.over ≡ true) others.items }
    ensures { WoundUp hub.seats (length by.got) result }
{
    let mut seats = others;
    seats.push_reserved(mine);
    match hub.finish(by, seats) {
        Ok(history) => history,
        Err(_) => unreachable!(),
    }
}

/// Runs a splitter whose core has done no step, and its instances, at a hub that is opened for them; the ways in
/// and out come back as they stand then.
pub(crate) fn under<
    B: Lending + Send,
    L: Naming + Send + Sync,
    I: Intake,
    O: Outlet,
    G: Gate,
    R: Threads + Wait + Sync,
>(
    rt: &R,
    alloc: Global,
    opened: Opened<Reading<B>>,
    crewed: Crewed<B>,
    gate: &G,
    ways: Ways<I, O>,
) -> (Result<Ended, Memory>, Ways<I, O>)
    requires name { (opened.name ≡ L.name) × (opened.parts ≡ L.parts)
        × (opened.table ≡ L.table) }
    requires places { (opened.seats ≡ crewed.splitter.instances + 1)
        × (opened.room ≡ crewed.splitter.instances + 1) }
    requires fresh { crewed.splitter.core
        ≡ begun crewed.splitter.core.plan crewed.splitter.core.bound }
    requires instances { (0 < crewed.splitter.instances) × (crewed.splitter.instances ≤ 16) }
    requires batch { (1 ≤ crewed.splitter.batch) × (crewed.splitter.batch ≤ batch_limit) }
    requires kept { crewed.splitter.kept.items ≡ [] }
    requires none { crewed.relay.gone ≡ 0 }
    requires intake_plan { I.plan ways.intake ≡ crewed.splitter.core.plan }
    requires outlet_plan { O.plan ways.outlet ≡ crewed.splitter.core.plan }
    ensures ends { Ends (λ events. I.gave ways.intake events result.1.intake)
        (I.ended result.1.intake)
        (I.stops ways.intake) (I.stops result.1.intake) (I.cause result.1.intake)
        crewed.splitter.instances crewed.splitter.batch crewed.splitter.core
        (O.state ways.outlet) (O.state result.1.outlet) result.0 }
    ensures crew { IfOk result.0 (λ end. Relayed (λ one. named one)
        (crew_of (record { first = crewed.splitter.predictor; relay = crewed.relay })) end.crew
        end.why end.core.machine.finished) }
    ensures prompt { IsPrompt (I.asked ways.intake) result.1.intake crewed.splitter.core.plan
        (O.state ways.outlet) (O.state result.1.outlet) }
    ensures same { (I.plan result.1.intake ≡ I.plan ways.intake)
        × (I.token result.1.intake ≡ I.token ways.intake) }
    ensures same_out { (O.plan result.1.outlet ≡ O.plan ways.outlet)
        × (O.token result.1.outlet ≡ O.token ways.outlet) }
{
    law::returns_follow_readings();
    let (hub, by, seats) = match Hub::<Loan<B>, Reading<B>, L>::new(alloc, opened) {
        Ok(made) => made,
        Err(AllocError) => return (Err(AllocError), ways),
    };
    let (seat, others) = part(seats);
    let seating = Seating::of(others);
    let Crewed { splitter, relay } = crewed;
    let serving = Serving {
        rt,
        hub: &hub,
        desk: Desk { splitter, by, seat },
        relay,
        fed: Fed::More,
    };
    let office = Office {
        rt,
        alloc,
        hub: &hub,
        gate,
    };
    let (seating, served, ways) = with_instances(&office, seating, serving, ways);
    let Served {
        by,
        seat,
        team,
        end,
    } = served;
    let history = wind_up(hub, by, seating.into_seats(), seat);
    (with_history(end, history, team.into_crew()), ways)
}

// How it ended, with what the hub did, and those that are left of the crew.
fn with_history(end: Result<Went, Memory>, history: History, crew: Crew) -> Result<Ended, Memory>
    ensures { result ≡ ending history crew end }
{
    let Went { core, why } = end?;
    Ok(Ended {
        core,
        why,
        history,
        crew,
    })
}
