// What is kept of a window.
ghost use Rattle.std.specs.Prelude.{◌≡◌, ◌≤◌, ◌+◌, length, drop, Some};
ghost use Rattle.std.specs.List.{prefix_len};
ghost use Rattle.sp_base.specs.Limits.{event_limit};
ghost use Rattle.sp_window.specs.Limits as spec;

// Where a window stops.
#[derive(Clone, Copy, Drop)]
pub(crate) enum Limit {
    // Before the event of this number.
    AtNumber(u32),
    // Before the first event of this time or a later one.
    AtTime(u64),
}

// A window by the number of its first event, and of its last once no event can join it.
#[derive(Clone, Copy, Drop)]
pub(crate) struct Record {
    pub(crate) first: u32,
    pub(crate) limit: Limit,
    pub(crate) end: Option<u32>,
}

impl Limit {
    // Whether no event can join after so many events, the last of them of this time.
    fn is_reached(self, fed: u32, time: u64) -> bool
        requires { fed ≤ event_limit }
        ensures { result ≡ spec.is_reached self fed time }
    {
        match self {
            Limit::AtNumber(number) => number <= fed + 1,
            Limit::AtTime(until) => until <= time,
        }
    }

    // The last event before the limit, where the event of this number is the first to reach it.
    fn last_before(self, fed: u32) -> u32
        ensures { result ≡ spec.last_before self fed }
    {
        match self {
            Limit::AtNumber(number) => number.saturating_sub(1),
            Limit::AtTime(_) => fed.saturating_sub(1),
        }
    }
}

// Closes the windows from place `closed` on whose limit is reached, up to the first one whose limit
// is not, and gives the place behind them. The last event has the number `fed`, and this time.
pub(crate) fn close_reached(records: &mut [Record], closed: usize, fed: u32, time: u64) -> usize
    requires within { closed ≤ length records.old }
    requires few { fed ≤ event_limit }
    ensures records { records.new ≡ spec.settled closed fed time records.old }
    ensures count { result
        ≡ closed + prefix_len (λ r. spec.is_reached r.limit fed time) (drop closed records.old) }
{
    for at in closed..records.len() {
        let limit = records[at].limit;
        if !limit.is_reached(fed, time) {
            return at;
        }
        records[at].end = Some(limit.last_before(fed));
    }
    records.len()
}

// Closes all windows from place `closed` on at the last event, which has the number `fed`.
pub(crate) fn close_all(records: &mut [Record], closed: usize, fed: u32)
    requires { closed ≤ length records.old }
    ensures { records.new ≡ spec.closed_from closed fed records.old }
{
    for at in closed..records.len() {
        records[at].end = Some(fed);
    }
}
