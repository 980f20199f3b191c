// The step that a line is.
ghost use Rattle.std.specs.Prelude.{◌≡◌, ◌++◌, ◌∷◌, [], codes, IfOk};
ghost use Rattle.sp_sched.specs.Reading.{Answers, IsStepText, parts};

use crate::cut::cut;
use crate::label::label_of;
use crate::number::{MOST_NAMED, number};
use crate::{Memory, TraceStep};
use sp_base::limits::BATCH_LIMIT;
use sp_group::Label;
use std::alloc::Global;

// The step that is one word.
fn bare_step(word: &[u8]) -> Option<TraceStep>
    requires { parts 32 word.now ≡ word.now ∷ [] }
    ensures { Answers (IsStepText word.now) result }
{
    match word {
        b"feed" => Some(TraceStep::Feed),
        b"end" => Some(TraceStep::End),
        b"finish" => Some(TraceStep::Finish),
        b"state" => Some(TraceStep::State),
        _ => None,
    }
}

// What stands behind `spawn `: `root`, or a parent and a label.
fn spawn_of(alloc: Global, text: &[u8]) -> Result<Option<TraceStep>, Memory>
    ensures { IfOk result (Answers (IsStepText (codes "spawn " ++ text.now))) }
{
    if text == b"root".as_slice() {
        return Ok(Some(TraceStep::Spawn {
            parent: None,
            label: Label::empty(alloc),
        }));
    }
    let Some((parent, label)) = cut(text, b' ') else {
        return Ok(None);
    };
    let Some(parent) = number(parent, MOST_NAMED) else {
        return Ok(None);
    };
    match label_of(alloc, label)? {
        Some(label) => Ok(Some(TraceStep::Spawn {
            parent: Some(parent),
            label,
        })),
        None => Ok(None),
    }
}

// What stands behind `lease `: a version and a count.
fn lease_of(text: &[u8]) -> Option<TraceStep>
    ensures { Answers (IsStepText (codes "lease " ++ text.now)) result }
{
    let Some((version, count)) = cut(text, b' ') else {
        return None;
    };
    let Some(version) = number(version, MOST_NAMED) else {
        return None;
    };
    let Some(count) = number(count, u64::from(BATCH_LIMIT)) else {
        return None;
    };
    Some(TraceStep::Lease {
        version,
        count: count as u32,
    })
}

// What stands behind `event `.
fn event_of(text: &[u8]) -> Option<TraceStep>
    ensures { Answers (IsStepText (codes "event " ++ text.now)) result }
{
    number(text, MOST_NAMED).map(|ticket| TraceStep::Event { ticket })
}

// What stands behind `return `.
fn return_of(text: &[u8]) -> Option<TraceStep>
    ensures { Answers (IsStepText (codes "return " ++ text.now)) result }
{
    number(text, MOST_NAMED).map(|ticket| TraceStep::Return { ticket })
}

// What stands behind `roll `.
fn roll_of(text: &[u8]) -> Option<TraceStep>
    ensures { Answers (IsStepText (codes "roll " ++ text.now)) result }
{
    number(text, MOST_NAMED).map(|version| TraceStep::Roll { version })
}

/// The step that a line is; None exactly where it is none.
pub(crate) fn step_of(alloc: Global, line: &[u8]) -> Result<Option<TraceStep>, Memory>
    ensures { IfOk result (Answers (IsStepText line.now)) }
{
    let Some((word, rest)) = cut(line, b' ') else {
        return Ok(bare_step(line));
    };
    match word {
        b"spawn" => spawn_of(alloc, rest),
        b"lease" => Ok(lease_of(rest)),
        b"event" => Ok(event_of(rest)),
        b"return" => Ok(return_of(rest)),
        b"roll" => Ok(roll_of(rest)),
        _ => Ok(None),
    }
}
