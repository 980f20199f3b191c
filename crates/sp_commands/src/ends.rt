// The status of each cause that ends a command.
ghost use Rattle.std.specs.Prelude.{◌≡◌};
ghost use Rattle.sp_commands.specs.Ends as ends;

use sp_answer::{Status, Written};
use sp_intake::{Failure, Stop};
use sp_load::Refusal;
use sp_plan::Memory;
use sp_slack::LateRule;

/// Why the reading of the input stopped.
pub fn status_of(stop: Stop) -> Status
    ensures { result ≡ ends.status_of stop }
{
    match stop {
        Stop::End => Status::Done,
        Stop::Failed(Failure::Row { code, row, column }) => Status::Input { code, row, column },
        Stop::Failed(Failure::Limit { limit }) => Status::Limited {
            limit: u64::from(limit),
        },
        Stop::Open => Status::Read,
    }
}

/// Why a file was not loaded, or why there is no plan.
pub fn status_of_refusal(refusal: Refusal) -> Status
    ensures { result ≡ ends.status_of_refusal refusal }
{
    match refusal {
        Refusal::Memory => Status::Memory,
        Refusal::Read => Status::Read,
        Refusal::Limited { limit } => Status::Limited {
            limit: u64::from(limit),
        },
        Refusal::Query { code, place } => Status::Query { code, place },
    }
}

/// Why there is no plan of a second query.
pub(crate) fn status_of_second(refusal: Refusal) -> Status
    ensures { result ≡ ends.status_of_second refusal }
{
    match refusal {
        Refusal::Query { code, place } => Status::Second { code, place },
        other => status_of_refusal(other),
    }
}

/// The status of a reading that passed over so many late events, or refused the first.
pub fn late_status(rule: LateRule, rows: u32, stop: Stop) -> Status
    ensures { result ≡ ends.late_status rule rows stop }
{
    match (rule, stop) {
        (LateRule::Drop, Stop::End) => Status::DoneLate { rows },
        _ => status_of(stop),
    }
}

/// The status of a command whose reading has this one, and whose lines were written so.
pub fn written_status(status: Status, written: Result<Written, Memory>) -> Status
    ensures { result ≡ ends.written_status status written }
{
    match written {
        Ok(Written::All) => status,
        Ok(Written::Failed) => Status::Write,
        Err(_) => Status::Memory,
    }
}
