// Schedules, read and printed.
use crate::text::AnswerText;
use sp_sched::{SchedFault, print_schedule, read_schedule};
use std::alloc::{AllocError, Global};

// The longest schedule that is read.
const LONGEST: usize = 100_000;

/// Appends the steps of a schedule as they are printed, or its first bad line.
pub(crate) fn schedule(alloc: Global, text: &[u8], out: &mut AnswerText) {
    if text.len() > LONGEST {
        return;
    }
    match read_schedule(alloc, text) {
        Ok(steps) => {
            out.made(print_schedule(alloc, &steps));
            drop(steps);
        }
        Err(SchedFault::BadStep { line }) => {
            out.number("bad line ", line as i128);
            out.text("\n");
        }
        Err(SchedFault::Memory) => out.made(Err(AllocError)),
    }
}
