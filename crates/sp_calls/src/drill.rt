// Generated rows, and the summary of a run over them.
use crate::given::{long_number, number};
use crate::text::AnswerText;
use sp_emit::summary_text;
use sp_gen::generate;
use std::alloc::Global;

/// Appends the rows of as many events as the first word says, drawn from the second.
pub(crate) fn generated(alloc: Global, words: &[String], out: &mut AnswerText) {
    if let [events, seed] = words {
        out.made(generate(alloc, number(events.as_str()), number(seed.as_str())));
    }
}

/// Appends the summary of so many events, windows, matches and consumed events.
pub(crate) fn summary(alloc: Global, words: &[String], out: &mut AnswerText) {
    if let [events, windows, matches, consumed] = words {
        let events = number(events.as_str());
        let windows = number(windows.as_str());
        let matches = long_number(matches.as_str());
        let consumed = number(consumed.as_str());
        out.made(summary_text(alloc, events, windows, matches, consumed));
    }
}
