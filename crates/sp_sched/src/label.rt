// Labels as they stand in a schedule: runs joined by commas, or a dash for none.
ghost use Rattle.std.specs.Prelude.{IfOk, option_map};
ghost use Rattle.sp_sched.specs.Reading.{Answers, AreCommaText, AreRunsText};

use crate::Memory;
use crate::number::number;
use sp_group::Label;
use std::alloc::Global;

// The numbers that a text joins by commas, each from 1 and of 32 bits; None exactly where it is none such.
fn runs_of(alloc: Global, text: &[u8]) -> Result<Option<Vec<u32>>, Memory>
    ensures { IfOk result
        (λ runs. Answers (AreCommaText text.now) (option_map (λ v. v.items) runs)) }
{
    let mut runs = Vec::new(alloc);
    for part in text.split(|b| *b == b',') {
        let Some(run) = number(part, u64::from(u32::MAX)) else {
            return Ok(None);
        };
        runs.push(run as u32)?;
    }
    Ok(Some(runs))
}

/// The label that a text is; None exactly where it is none.
pub(crate) fn label_of(alloc: Global, text: &[u8]) -> Result<Option<Label>, Memory>
    ensures { IfOk result (Answers (AreRunsText text.now)) }
{
    if text == b"-".as_slice() {
        return Ok(Some(Label::empty(alloc)));
    }
    match runs_of(alloc, text)? {
        Some(runs) => Label::new(alloc, &runs),
        None => Ok(None),
    }
}
