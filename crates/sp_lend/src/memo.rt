// Readings that are kept, so that later jobs that lend the same can take them up.
ghost use Rattle.std.specs.Prelude.{◌≡◌, IsTrue, IsFalse};
ghost use Rattle.sp_piece.specs.Pieced.{read_whole};

use crate::boxed::Boxed;
use sp_piece::{Done, Job, Piece};
use std::alloc::Global;
use std::sync::Arc;

// The most readings that are kept at a time.
const MOST: usize = 64;

// Fewer events, or fewer open runs before them, are read as soon as looked up.
const DEAR: usize = 8;

// Readings are kept until so many came home behind the last one that was lost, and eight times as many where others were
// lost before it.
const LOSS: u32 = 8;

const MOST_LOSSES: u32 = 8 * LOSS;

/// What goes along with a job, and home with its reading. Nothing rests on it: whoever reads takes up what is kept only
/// where that is a reading of what the job lends.
#[derive(Drop)]
pub(crate) struct Hint {
    // the window of the job's version
    window: u32,
    // whether the reading is to be kept
    keeps: bool,
    // before the reading one that may be taken up in its place, and behind it the one that is kept of it
    done: Option<Arc<Done>>,
}

impl Hint {
    /// Nothing is to be kept, and nothing is there to be taken up.
    pub(crate) fn none() -> Hint {
        Hint {
            window: 0,
            keeps: false,
            done: None,
        }
    }

    /// Whether its window is among the first ones, so many.
    pub(crate) fn is_past(&self, finished: u32) -> bool {
        self.window <= finished
    }

    /// Has a piece take up the reading that was kept, and answers whether it did: then the piece is read, and the same
    /// reading stays kept. It does where what its job lends is the same, and memory isn't refused.
    pub(crate) fn take_up(&mut self, alloc: Global, piece: &mut Boxed) -> bool
        ensures whole { IsTrue result → piece.new ≡ read_whole piece.old }
        ensures not { IsFalse result → piece.new ≡ piece.old }
    {
        let Some(done) = self.done.take() else {
            return false;
        };
        let Ok(true) = piece.take_up(alloc, &done) else {
            return false;
        };
        self.done = Some(done);
        true
    }

    /// Keeps the reading of a piece that was read, where it is to be kept and memory isn't refused.
    pub(crate) fn keep(&mut self, alloc: Global, piece: &Piece) {
        if !self.keeps {
            return;
        }
        let Ok(Some(done)) = piece.keep(alloc) else {
            return;
        };
        self.done = Arc::new(alloc, done).ok();
    }
}

// A reading that is kept, of a version of that window.
#[derive(Drop)]
struct Kept {
    window: u32,
    done: Arc<Done>,
}

/// The readings that are kept, of windows that aren't finished, and whether it is worth keeping more.
#[derive(Drop)]
pub(crate) struct Memo {
    // the newest last; None until one is kept
    kept: Option<Vec<Kept>>,
    // rises where readings are lost, and falls with each piece that comes home without a loss
    losses: u32,
}

impl Memo {
    /// Nothing is kept. Takes no memory.
    pub(crate) fn new() -> Memo {
        Memo {
            kept: None,
            losses: 0,
        }
    }

    /// What goes along with a job of a version of that window, of which a later version may be sent to read the same
    /// again, or never is.
    pub(crate) fn hint(&self, window: u32, again: bool, job: &Job) -> Hint {
        Hint {
            window,
            keeps: again && self.losses > 0 && is_dear(job),
            done: self.find(window, job),
        }
    }

    // The reading of a job of that window which lends as this one does.
    fn find(&self, window: u32, job: &Job) -> Option<Arc<Done>> {
        let kept = self.kept.as_ref()?;
        let one = kept
            .iter()
            .find(|one| one.window == window && one.done.lends_as(job))?;
        Arc::try_clone(&one.done).ok()
    }

    /// Keeps what comes home with the reading of a job, where something does, in place of what a job that lends as this one
    /// has left. Where there is no room the oldest reading is let go, and where memory is refused this one.
    pub(crate) fn put(&mut self, alloc: Global, hint: Hint, job: &Job) {
        let Hint {
            window,
            keeps: _,
            done,
        } = hint;
        let Some(done) = done else {
            return;
        };
        let mut kept = match self.kept.take() {
            Some(kept) => kept,
            None => Vec::new(alloc),
        };
        kept.retain(|one| one.window != window || !one.done.lends_as(job));
        if kept.len() >= MOST {
            kept.remove(0);
        }
        if kept.reserve(1).is_ok() {
            kept.push_reserved(Kept { window, done });
        }
        self.kept = Some(kept);
    }

    /// Lets go the readings of windows up to that one, which is finished.
    pub(crate) fn forget_to(&mut self, finished: u32) {
        if let Some(kept) = &mut self.kept {
            kept.retain(|one| one.window > finished);
        }
    }

    /// A piece came home, before which so many versions were live, and so many are left. Where half of them went, or more,
    /// what they read is lost: of a group that was foreseen, the versions that guessed right stay.
    pub(crate) fn note_home(&mut self, before: u32, left: u32) {
        if left <= before / 2 {
            self.note_loss();
        } else {
            self.losses = self.losses.saturating_sub(1);
        }
    }

    /// What versions have read is lost.
    pub(crate) fn note_loss(&mut self) {
        self.losses = self.losses.saturating_add(LOSS).min(MOST_LOSSES);
    }
}

// Whether reading what a job lends takes much longer than to compare and to copy the runs before it and behind it.
fn is_dear(job: &Job) -> bool {
    job.events.as_slice().len() >= DEAR && job.before.get().open_runs().len() >= DEAR
}
