// What a run works with, and what commands come to.
ghost use Rattle.std.specs.Prelude.{◌≡◌, None};

use sp_answer::Status;
use sp_instance::Gate;
use sp_split::Ended;
use std::alloc::Global;
use std::sync::Wait;
use std::thread::Threads;

/// What a run works with: the runtime that starts its threads, the allocator, and the gate round each of the
/// jobs that its instances do.
#[derive(Drop)]
pub(crate) struct Workshop<'a, G: Gate, R: Threads + Wait + Sync> {
    pub(crate) rt: &'a R,
    pub(crate) alloc: Global,
    pub(crate) gate: &'a G,
}

/// The status of a command, and of a run what it ended with, where there is such an end.
#[derive(Drop)]
pub(crate) struct CommandEnd {
    pub(crate) status: Status,
    pub(crate) ended: Option<Ended>,
}

impl CommandEnd {
    /// A status alone.
    pub(crate) fn of(status: Status) -> CommandEnd
        ensures { result ≡ record { status = status; ended = None } }
    {
        let ended = None;
        CommandEnd { status, ended }
    }
}
