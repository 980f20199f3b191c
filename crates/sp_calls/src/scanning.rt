// The matches of one window by the scan of the certificates.
ghost use Rattle.std.specs.Arc.{arc_value};
ghost use Rattle.sp_plan.specs.Compiled.{IsCompiled};

use crate::given::numbers_of;
use crate::sequence::{all_fit, push_bound};
use crate::text::AnswerText;
use sp_base::Numbers;
use sp_plan::{Event, Plan};
use sp_scan::scanned;
use std::alloc::{AllocError, Global};
use std::sync::Arc;

// The numbers that the word behind the query lists; none where there is no such word, or they don't rise.
fn skipped_of(alloc: Global, words: &[String]) -> Result<Numbers, AllocError> {
    let text = match words.get(1) {
        Some(word) => word.as_str(),
        None => "-",
    };
    match Numbers::from_list(alloc, &numbers_of(alloc, text)?)? {
        Some(numbers) => Ok(numbers),
        None => Ok(Numbers::new(alloc)),
    }
}

/// Appends the matches of the events as one window, those that the second word lists left out.
pub(crate) fn scan(
    alloc: Global,
    plan: &Arc<Plan>,
    events: &[Event],
    words: &[String],
    out: &mut AnswerText,
) -> Result<(), AllocError>
    requires { IsCompiled (arc_value plan.now) }
{
    if events.len() > 1000 || !all_fit(plan, events) {
        out.text("events that don't fit\n");
        return Ok(());
    }
    let skipped = skipped_of(alloc, words)?;
    for found in &scanned(alloc, plan, events, 1, events.len() as u32, &skipped)? {
        push_bound(found.bound.as_slice(), &found.used, out);
    }
    Ok(())
}
