ghost use Rattle.std.specs.Prelude.{◌≡◌, ◌++◌, string_bytes, IfOk, OnOk};
ghost use Rattle.std.specs.List.{All};
ghost use Rattle.sp_base.specs.Commas.{list_text};
ghost use Rattle.sp_sched.specs.Schedules.{CanStand, IsSchedule, schedule_text, step_text};

use crate::{Memory, TraceStep};
use sp_base::push_list;
use sp_group::Label;
use std::alloc::Global;
use std::fmt::Write;

// Room for a step and its line feed; one with long numbers or a long label takes more.
const STEP_ROOM: usize = 16;

// Adds the runs of a label, or a dash where there are none.
fn push_label(out: &mut String, label: &Label) -> Result<(), Memory>
    ensures { OnOk result (string_bytes out.new ≡ string_bytes out.old ++ list_text label.now) }
{
    push_list(out, label.runs())
}

// Adds the text of a step.
fn push_step(out: &mut String, step: &TraceStep) -> Result<(), Memory>
    ensures { OnOk result (string_bytes out.new ≡ string_bytes out.old ++ step_text step.now) }
{
    match step {
        TraceStep::Feed => out.push_str("feed")?,
        TraceStep::End => out.push_str("end")?,
        TraceStep::Spawn { parent: None, .. } => out.push_str("spawn root")?,
        TraceStep::Spawn {
            parent: Some(parent),
            label,
        } => {
            write!(out, "spawn {parent} ")?;
            push_label(out, label)?;
        }
        TraceStep::Lease { version, count } => write!(out, "lease {version} {count}")?,
        TraceStep::Event { ticket } => write!(out, "event {ticket}")?,
        TraceStep::Return { ticket } => write!(out, "return {ticket}")?,
        TraceStep::Roll { version } => write!(out, "roll {version}")?,
        TraceStep::Finish => out.push_str("finish")?,
        TraceStep::State => out.push_str("state")?,
    }
    Ok(())
}

/// Steps as a text, each on a line of its own, which is read back as the same steps.
pub fn print_schedule(alloc: Global, steps: &[TraceStep]) -> Result<String, Memory>
    requires { All CanStand steps.now }
    ensures text { IfOk result (λ text. string_bytes text ≡ schedule_text steps.now) }
    ensures back { IfOk result (λ text. IsSchedule (string_bytes text) steps.now) }
{
    let mut out = String::with_capacity(alloc, steps.len().saturating_mul(STEP_ROOM))?;
    for step in steps {
        push_step(&mut out, step)?;
        out.push_str("\n")?;
    }
    Ok(out)
}
