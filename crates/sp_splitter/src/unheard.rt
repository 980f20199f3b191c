// How much work goes by before an instance is woken.
ghost use Rattle.std.specs.Prelude.{◌≡◌};

use sp_core::Core;
use sp_piece::{Job, Piece};

// So many visits are worth waking an instance: a visit, of an event at an open run, takes some 50 nanoseconds, so these take
// twice as long as a thread takes to wake.
const WORTH_WAKING: u64 = 2_048;

// What a piece of a root counts among those of late, of which each turn in which one came home takes an eighth away: so
// eight times as much is the most.
const ONE_HOME: u64 = 256;

// Fewer tell nothing yet.
const SOME_HOMES: u64 = 4 * ONE_HOME;

/// What came home in a turn: how much was read, in events and in visits of events at open runs; and how many pieces were
/// a root's that had children, and of these how many let all the children go.
#[derive(Clone, Copy, Drop)]
pub(crate) struct Readings {
    events: u64,
    visits: u64,
    homes: u64,
    parted: u64,
}

// How many visits a piece was: as many as it tells what runs wanted; and where that isn't told, its events each met as many
// runs as were open halfway between its beginning and its end.
fn visits_of(piece: &Piece) -> u64 {
    let job = piece.job();
    if job.wants {
        let mut told: u64 = 0;
        for entry in piece.moves() {
            told = told.saturating_add(entry.wanted.count());
        }
        return told;
    }
    let before = job.before.get().open_runs().len() as u64;
    let after = piece.after().open_runs().len() as u64;
    (piece.read() as u64).saturating_mul(before.saturating_add(after)) / 2
}

impl Readings {
    /// Nothing was read.
    pub(crate) fn none() -> Readings {
        Readings {
            events: 0,
            visits: 0,
            homes: 0,
            parted: 0,
        }
    }

    /// Takes in what a piece has read.
    pub(crate) fn add(&mut self, piece: &Piece) {
        self.events = self.events.saturating_add(piece.read() as u64);
        self.visits = self.visits.saturating_add(visits_of(piece));
    }

    /// Takes in that a root's piece came home, which had children, and whether it has some still.
    pub(crate) fn add_home(&mut self, core: &Core) {
        self.homes = self.homes.saturating_add(ONE_HOME);
        if core.tree().live() <= 1 {
            self.parted = self.parted.saturating_add(ONE_HOME);
        }
    }

    // At how many runs an event was, on average.
    fn runs(&self) -> u64 {
        self.visits / self.events.max(1)
    }
}

/// How much work was posted since an instance was last woken, in visits of events at open runs. Where work comes in small
/// jobs, the splitter does most of it itself, and instances are woken for what adds up; a dear job, which is worth it by
/// itself, wakes one wherever one waits. Nothing but the time of a run rests on it.
#[derive(Drop)]
pub struct Unheard {
    visits: u64,
    // the job that was taken in last is dear
    dear: bool,
    // what was read of late: what was read before counts half whenever pieces come home
    lately: Readings,
}

/// Whether a piece is a root's that has children.
pub(crate) fn has_children(core: &Core, piece: &Piece) -> bool {
    core.tree().live() > 1 && core.tree().root() == Some(piece.job().version)
}

// What is left of a count once some came home: seven eighths, and all of it where none did.
fn fading(count: u64, homes: u64) -> u64 {
    if homes == 0 { count } else { count - count / 8 }
}

impl Unheard {
    /// As much as is worth waking for: the first job that can be told of is.
    pub fn new() -> Unheard {
        Unheard {
            visits: WORTH_WAKING,
            dear: false,
            lately: Readings::none(),
        }
    }

    /// Takes in what came home in a turn.
    pub(crate) fn learn(&mut self, read: Readings) {
        if read.events == 0 && read.homes == 0 {
            return;
        }
        self.lately = Readings {
            events: (self.lately.events / 2).saturating_add(read.events),
            visits: (self.lately.visits / 2).saturating_add(read.visits),
            homes: fading(self.lately.homes, read.homes).saturating_add(read.homes),
            parted: fading(self.lately.parted, read.homes).saturating_add(read.parted),
        };
    }

    /// Whether children are to be shy, as `asked` has it: of late nearly every piece of a root let all its children go,
    /// so that what they read ahead of it is mostly lost, and a batch of events takes no longer to read than an instance
    /// takes to wake. Where it takes longer, instances would have nothing to do meanwhile.
    pub(crate) fn are_shy(&self, batch: u32) -> bool {
        let Readings { homes, parted, .. } = self.lately;
        let batch_visits = self.lately.runs().saturating_mul(batch as u64);
        homes >= SOME_HOMES && parted >= homes - homes / 8 && batch_visits < WORTH_WAKING
    }

    /// Whether the job that was taken in last is dear.
    pub fn is_dear(&self) -> bool
        ensures { result ≡ self.now.dear }
    {
        self.dear
    }

    /// Takes a job in, and answers whether an instance is to be woken for it: for each that is dear, and for what adds up,
    /// but for the first one that a turn posts, which the splitter does itself.
    pub(crate) fn is_worth_waking(&mut self, job: &Job, first: bool) -> bool {
        let visits = self.reckoned(job);
        self.dear = visits >= WORTH_WAKING;
        if first && !self.dear {
            return false;
        }
        self.visits = self.visits.saturating_add(visits);
        if self.visits < WORTH_WAKING {
            return false;
        }
        self.visits = 0;
        true
    }

    // How many visits a job is reckoned to take. A window that has just begun has few runs open, of which an event may
    // begin many: as many are reckoned with as events met of late.
    fn reckoned(&self, job: &Job) -> u64 {
        let events = job.events.as_slice().len() as u64;
        let runs = (job.before.get().open_runs().len() as u64).max(self.lately.runs());
        events.saturating_mul(runs.saturating_add(1))
    }
}
