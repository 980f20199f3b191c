// Whether a run is over.
ghost use Rattle.std.specs.Prelude.{◌≡◌};
ghost use Rattle.sp_split.specs.Stopping.{why_fed, why_over};

use crate::Why;
use crate::feeding::Fed;
use sp_ports::OutFault;

// Why a run is over where every closed window is finished, if it is.
fn why_fed(fed: Fed) -> Option<Why>
    ensures { result ≡ why_fed fed }
{
    match fed {
        Fed::More | Fed::Dry => None,
        Fed::End => Some(Why::Whole),
        Fed::Stop(stop) => Some(Why::Stopped(stop)),
    }
}

/// Why a run is over behind a turn, if it is: by how feeding ended, by how the matches were put, and by
/// whether every closed window is finished.
pub(crate) fn why_over(fed: Fed, put: Result<(), OutFault>, all: bool) -> Option<Why>
    ensures { result ≡ why_over fed put all }
{
    match put {
        Ok(()) => { if all { why_fed(fed) } else { None } }
        Err(OutFault::Failed) => Some(Why::Refused),
        Err(OutFault::Memory) => Some(Why::Memory),
    }
}
