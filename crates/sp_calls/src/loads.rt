// Loads of files.
use crate::given::number;
use crate::text::AnswerText;
use sp_io::{Files, MemFiles};
use std::alloc::Global;

/// Loads the files that the words name, each with its limit behind the name, and appends what is found.
pub(crate) fn loads(alloc: Global, words: &[String], files: &mut MemFiles, out: &mut AnswerText) {
    for pair in words.chunks(2) {
        if let [name, limit] = pair {
            let found = files.load(alloc, name.as_str(), number(limit.as_str()));
            out.made(format!(in alloc; "{found:?}\n"));
            drop(found);
        }
    }
}
