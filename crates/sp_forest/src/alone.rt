// A part by itself, driven by a core of its own.
ghost use Rattle.std.specs.Prelude.{◌≡◌, ◌≢◌, ◌<◌, false, map, IfOk};
ghost use Rattle.std.specs.Arc.{arc_value};
ghost use Rattle.std.specs.List.{All};
ghost use Rattle.sp_plan.specs.Compiled.{IsCompiled};
ghost use Rattle.sp_ports.specs.Giving.{AreGood};
ghost use Rattle.sp_ports.specs.Stopping.{is_end};
ghost use Rattle.sp_split.specs.declared.ended.Why.TheVariants as w;
ghost use Rattle.sp_forest.specs.Drivable.{CanBeDriven, CanMove, HasGoneOver, IsThrough, moved_matches};
ghost use Rattle.sp_parts.specs.Seen.{seen};
ghost use Rattle.sp_forest.specs.Setting.{IsSetting};
ghost use Rattle.sp_parts.specs.Shifted as spec;

use crate::ground::Ground;
use crate::setting::Setting;
use sp_chance::Predictor;
use sp_core::Core;
use sp_instance::Gate;
use sp_lists::{ListIntake, Unkept};
use sp_parts::{Part, shifted};
use sp_plan::{Event, Match, Memory, Plan};
use sp_ports::Stop;
use sp_split::{Crew, Ended, Why, drive};
use std::alloc::{AllocError, Global};
use std::sync::{Arc, Wait};
use std::thread::Threads;

// Drives a core of its own by this plan over these events, up to what comes behind them.
fn drive_events<G: Gate, R: Threads + Wait + Sync>(
    ground: &Ground<'_, G, R>,
    plan: &Arc<Plan>,
    predictor: Box<dyn Predictor>,
    events: Vec<Event>,
    stop: Stop,
) -> Result<Ended, Memory>
    requires compiled { IsCompiled (arc_value plan.now) }
    requires setting { IsSetting ground.now.setting }
    requires good { AreGood (arc_value plan.now) events.items }
    ensures gone { IfOk result (λ end. HasGoneOver (arc_value plan.now) events.items stop
        end.core end.why) }
    ensures name { IfOk result (λ end. IsThrough end.why
        → named end.crew.first ≡ named predictor) }
{
    let Ground {
        rt,
        alloc,
        gate,
        setting,
        ..
    } = *ground;
    let (plan_in, plan_out) = (plan.clone()?, plan.clone()?);
    let core = Core::new(alloc, plan.clone()?, setting.live)?;
    let crew = Crew {
        first: predictor,
        rest: Vec::new(alloc),
        every: 0,
    };
    let mut intake = ListIntake::new(plan_in, events, stop);
    let mut outlet = Unkept::new(plan_out);
    let Setting {
        instances,
        batch,
        ..
    } = setting;
    let ended = drive(
        rt,
        alloc,
        core,
        instances,
        batch,
        crew,
        &mut intake,
        &mut outlet,
        gate,
    );
    drop(intake);
    drop(outlet);
    ended
}

// Matches of a part as those of the whole input, but for the matches before them.
fn moved_on(alloc: Global, own: &[Match], part: &Part) -> Result<Vec<Match>, Memory>
    requires first { 0 < part.now.first }
    requires moves { All (CanMove (seen part.now)) own.now }
    ensures { IfOk result (λ found. found.items ≡ map (spec.shifted (seen part.now) 0) own.now) }
{
    let mut found = Vec::new(alloc);
    for one in own {
        found.push(shifted(alloc, one, part, 0)?)?;
    }
    Ok(found)
}

// What comes behind a part's events.
fn stop_of(closed: bool, stop: Stop) -> Stop
    requires { closed ≡ false → is_end stop ≡ false }
    ensures { is_end result ≡ closed }
{
    if closed { Stop::End } else { stop }
}

// The matches of a part as those of the whole input but for the matches before them, where its core ended so.
fn found_by(alloc: Global, own: &[Match], why: Why, part: &Part) -> Result<Vec<Match>, Memory>
    requires first { 0 < part.now.first }
    requires taken { why ≢ w.Refused }
    requires moves { IsThrough why → All (CanMove (seen part.now)) own.now }
    ensures through { IfOk result (λ found. IsThrough why) }
    ensures found { IfOk result
        (λ found. found.items ≡ map (spec.shifted (seen part.now) 0) own.now) }
{
    match why {
        Why::Whole | Why::Stopped(_) => moved_on(alloc, own, part),
        Why::Refused => unreachable!(),
        Why::Memory => Err(AllocError),
    }
}

/// Drives a part by this plan and a core of its own: its matches, as those of the whole input but for the matches of
/// the parts before it; and the predictor that learned.
pub(crate) fn drive_part<G: Gate, R: Threads + Wait + Sync>(
    ground: &Ground<'_, G, R>,
    plan: &Arc<Plan>,
    predictor: Box<dyn Predictor>,
    part: Part,
) -> Result<(Vec<Match>, Box<dyn Predictor>), Memory>
    requires compiled { IsCompiled (arc_value plan.now) }
    requires setting { IsSetting ground.now.setting }
    requires part { CanBeDriven (arc_value plan.now) ground.now.stop (seen part) }
    ensures found { IfOk result (λ end. end.0.items
        ≡ moved_matches (arc_value plan.now) (seen part)) }
    ensures name { IfOk result (λ end. named end.1 ≡ named predictor) }
{
    let alloc = ground.alloc;
    let Part {
        first,
        windows,
        closed,
        events,
    } = part;
    let stop = stop_of(closed, ground.stop);
    let Ended {
        core,
        why,
        history,
        crew,
    } = drive_events(ground, plan, predictor, events, stop)?;
    let place = Part {
        first,
        windows,
        closed,
        events: Vec::new(alloc),
    };
    let found = found_by(alloc, core.emitted(), why, &place);
    drop(core);
    drop(history);
    Ok((found?, crew.first))
}
