// What a journal tells of the run that it is of.
use crate::text::AnswerText;
use sp_group::{Entry, Step};
use std::alloc::{AllocError, Global};

// How often each kind of step stands in a journal.
#[derive(Drop)]
struct Counts {
    spawned: u64,
    rolled: u64,
    finished: u64,
    // How many pieces came back, and how many of them to a version that was live.
    returned: u64,
    home: u64,
    // How many events and closings these had read.
    read: u64,
}

// Counts one more.
fn one_more(count: &mut u64) {
    *count = count.saturating_add(1);
}

impl Counts {
    // Counts an entry. What a piece has read that came home is one of its own.
    fn take(&mut self, entry: &Entry) {
        match &entry.step {
            Step::Spawn { .. } => one_more(&mut self.spawned),
            Step::Event { .. } => {
                one_more(&mut self.home);
                self.read = self.read.saturating_add(u64::from(entry.times));
            }
            Step::Return { .. } => one_more(&mut self.returned),
            Step::Roll { .. } => one_more(&mut self.rolled),
            Step::Finish => one_more(&mut self.finished),
            Step::Feed(_) | Step::End | Step::Lease { .. } => {}
        }
    }

    // Appends them as a line.
    fn push(&self, out: &mut AnswerText) {
        out.number("spawned=", i128::from(self.spawned));
        out.number(" rolled=", i128::from(self.rolled));
        out.number(" finished=", i128::from(self.finished));
        out.number(" returned=", i128::from(self.returned));
        out.number(" home=", i128::from(self.home));
        out.last(" read=", self.read);
    }
}

/// How often each kind of step stands in a journal, in a line: versions that were made and rolled, windows that
/// were finished, pieces that came back, those of them that came home, and what these had read.
pub fn counts_of(alloc: Global, journal: &[Entry]) -> Result<String, AllocError> {
    let mut counts = Counts {
        spawned: 0,
        rolled: 0,
        finished: 0,
        returned: 0,
        home: 0,
        read: 0,
    };
    for entry in journal {
        counts.take(entry);
    }
    let mut out = AnswerText::new(alloc);
    counts.push(&mut out);
    out.into_text()
}

// Appends a step that makes or leases a version, as it stands in a schedule.
fn push_step(step: &Step, out: &mut AnswerText) {
    match step {
        Step::Spawn { parent: None, .. } => out.text("spawn root\n"),
        Step::Spawn {
            parent: Some(parent),
            label,
        } => {
            out.number("spawn ", i128::from(*parent));
            out.text(" ");
            out.commas(label.runs());
            out.text("\n");
        }
        Step::Lease { version, count } => {
            out.number("lease ", i128::from(*version));
            out.last(" ", u64::from(*count));
        }
        _ => {}
    }
}

// Whether the step tells that a piece came back.
fn is_back(step: &Step) -> bool {
    matches!(step, Step::Event { .. } | Step::Return { .. })
}

/// The versions that were made and leased before the first piece came back, in their order, a line for each such
/// step as it stands in a schedule.
pub fn beginning_of(alloc: Global, journal: &[Entry]) -> Result<String, AllocError> {
    let mut out = AnswerText::new(alloc);
    for entry in journal {
        if is_back(&entry.step) {
            break;
        }
        push_step(&entry.step, &mut out);
    }
    out.into_text()
}
