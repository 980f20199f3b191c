ghost use Rattle.std.specs.Prelude.{◌≡◌};
ghost use Rattle.std.proofs.Props.{props};
ghost use Rattle.sp_piece.specs.Lending.{IsLendable, all_known-prop};
ghost use Rattle.sp_piece.specs.Reading as reading;

use sp_base::Numbers;
use sp_hub::Named;
use sp_match::{Known, Matcher};
use sp_plan::{Event, Listed, Plan};
use sp_share::Shared;

/// Whether a match can consume an event: where none can, no run has a group.
pub fn consumes(plan: &Plan) -> bool
    ensures { result ≡ reading.consumes plan.now }
{
    plan.names.as_slice().iter().any(|name| name.consumed)
}

/// What is lent to be read, with all that the reading needs. Its events fit the plan of `before`, which
/// is compiled as each matcher's is, and what is said to be known of each of them is so; the first one's
/// number is above each number that an open run of `before` holds and above the count of its runs; and
/// no event's number passes 1,048,576.
#[derive(Drop)]
pub struct Job {
    /// The ticket's number, from 1.
    pub ticket: u64,
    /// The version to which the events are lent.
    pub version: u64,
    /// The number of the first lent event.
    pub first: u32,
    /// The matcher of the version before these events.
    pub before: Shared,
    /// The lent events, numbered from `first` on.
    pub events: Listed<Event>,
    /// What is known of each of them.
    pub known: Listed<Known>,
    /// The numbers of those that are to be skipped.
    pub snapshot: Numbers,
    /// Whether the window's closing comes behind them.
    pub closes: bool,
    /// Whether what the open runs want is to be told: where a match can consume an event.
    pub wants: bool,
    pub ghost lendable: { IsLendable before events known first } by { Prim.hlevel (props, all_known-prop) },
    pub ghost wanting: { wants ≡ reading.consumes before.plan } by { Prim.hlevel props },
}

impl Job {
    // The same, and the matcher that served its own before, which is taken out of it.
    pub(crate) fn shed(self) -> (Job, Option<Matcher>)
        ensures { result.0 ≡ self }
    {
        let Job {
            ticket,
            version,
            first,
            mut before,
            events,
            known,
            snapshot,
            closes,
            wants,
        } = self;
        let worn = before.take_worn();
        let job = Job {
            ticket,
            version,
            first,
            before,
            events,
            known,
            snapshot,
            closes,
            wants,
        };
        (job, worn)
    }
}

impl Named for Job {
    ghost ticket_of = { λ job. job.ticket };

    /// The ticket's number.
    fn ticket(&self) -> u64 {
        self.ticket
    }
}
