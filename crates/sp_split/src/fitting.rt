// A core gets what works for it: its register is named first, then its hub, whose type has the register's name.
ghost use Rattle.std.specs.Prelude.{◌≡◌, ◌≤◌, ◌<◌, ◌+◌, [], IfOk};
ghost use Rattle.sp_base.specs.Limits.{batch_limit};
ghost use Rattle.sp_core.specs.Running.{begun};
ghost use Rattle.sp_split.specs.Prompt.{IsPrompt};
ghost use Rattle.sp_split.specs.Relay.{Relayed};
ghost use Rattle.sp_split.specs.Relieving.{crew_of};
ghost use Rattle.sp_split.specs.Serving.{Ends};

use crate::joining::{Ways, under};
use crate::relay::Relay;
use crate::serving::Crewed;
use crate::{Crew, Ended, Memory};
use sp_core::Core;
use sp_hub::Opened;
use sp_instance::Gate;
use sp_lend::{Lender, Lending, Reading, Register};
use sp_ports::{Intake, Outlet};
use sp_splitter::Splitter;
use std::alloc::{AllocError, Global};
use std::marker::Brand;
use std::sync::Wait;
use std::thread::Threads;

/// A core, and what is to work for it.
#[derive(Drop)]
pub(crate) struct Outfit {
    pub(crate) core: Core,
    /// How many instances, 0 to 16.
    pub(crate) instances: u32,
    /// How many events are fed between two turns, and lent at a time, 1 to 1,024.
    pub(crate) batch: u32,
    pub(crate) crew: Crew,
}

// A hub that is not named yet, with places for the instances and one more, and a splitter with its crew.
fn fit<B: Lending + Send>(
    alloc: Global,
    register: Register,
    outfit: Outfit,
) -> Result<(Opened<Reading<B>>, Crewed<B>), Memory>
    requires book { register.seen.book ≡ B.book }
    requires few { outfit.instances ≤ 16 }
    requires batch { (1 ≤ outfit.batch) × (outfit.batch ≤ batch_limit) }
    requires none_out { outfit.core.machine.tickets ≡ [] }
    ensures places { IfOk result (λ made. (made.0.seats ≡ outfit.instances + 1)
        × (made.0.room ≡ outfit.instances + 1)) }
    ensures core { IfOk result (λ made. made.1.splitter.core ≡ outfit.core) }
    ensures terms { IfOk result (λ made. (made.1.splitter.instances ≡ outfit.instances)
        × (made.1.splitter.batch ≡ outfit.batch)) }
    ensures kept { IfOk result (λ made. made.1.splitter.kept.items ≡ []) }
    ensures crew { IfOk result (λ made. crew_of
        (record { first = made.1.splitter.predictor; relay = made.1.relay }) ≡ outfit.crew) }
    ensures none { IfOk result (λ made. made.1.relay.gone ≡ 0) }
{
    let Outfit {
        core,
        instances,
        batch,
        crew,
    } = outfit;
    let Crew { first, rest, every } = crew;
    let lender = Lender::<B>::new(core, register);
    let splitter = Splitter::new(alloc, lender, instances, batch, first)?;
    let relay = Relay {
        rest,
        every,
        gone: 0,
    };
    let places = instances + 1;
    let opened = Opened::new(alloc, places, places)?;
    Ok((opened, Crewed { splitter, relay }))
}

/// Runs a core that has done no step, with its instances, by a register in which no job is entered; the ways in and out
/// come back as they stand then.
pub(crate) fn with_register<
    B: Lending + Send,
    I: Intake,
    O: Outlet,
    G: Gate,
    R: Threads + Wait + Sync,
>(
    rt: &R,
    alloc: Global,
    register: Register,
    outfit: Outfit,
    gate: &G,
    ways: Ways<I, O>,
) -> (Result<Ended, Memory>, Ways<I, O>)
    requires book { register.seen.book ≡ B.book }
    requires fresh { outfit.core ≡ begun outfit.core.plan outfit.core.bound }
    requires instances { (0 < outfit.instances) × (outfit.instances ≤ 16) }
    requires batch { (1 ≤ outfit.batch) × (outfit.batch ≤ batch_limit) }
    requires intake_plan { I.plan ways.intake ≡ outfit.core.plan }
    requires outlet_plan { O.plan ways.outlet ≡ outfit.core.plan }
    ensures ends { Ends (λ events. I.gave ways.intake events result.1.intake)
        (I.ended result.1.intake)
        (I.stops ways.intake) (I.stops result.1.intake) (I.cause result.1.intake)
        outfit.instances outfit.batch outfit.core
        (O.state ways.outlet) (O.state result.1.outlet) result.0 }
    ensures crew { IfOk result.0 (λ end. Relayed (λ one. named one) outfit.crew end.crew end.why
        end.core.machine.finished) }
    ensures prompt { IsPrompt (I.asked ways.intake) result.1.intake outfit.core.plan
        (O.state ways.outlet) (O.state result.1.outlet) }
    ensures same { (I.plan result.1.intake ≡ I.plan ways.intake)
        × (I.token result.1.intake ≡ I.token ways.intake) }
    ensures same_out { (O.plan result.1.outlet ≡ O.plan ways.outlet)
        × (O.token result.1.outlet ≡ O.token ways.outlet) }
{
    let (opened, crewed) = match fit::<B>(alloc, register, outfit) {
        Ok(made) => made,
        Err(AllocError) => return (Err(AllocError), ways),
    };
    under::<B, Brand, _, _, _, _>(rt, alloc, opened, crewed, gate, ways)
}
