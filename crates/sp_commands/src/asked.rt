// What the words ask of a trace, of a check and of a graph, how late events may come, and where the query of a command stands.
ghost use Rattle.std.specs.Prelude.{◌≡◌, true};
ghost use Rattle.sp_cli.specs.Commands.{source_seen};
ghost use Rattle.sp_intake.specs.LooseLaws.{punctual};
ghost use Rattle.sp_load.specs.Places as places;
ghost use Rattle.sp_commands.specs.Commands as commands;

use sp_cli::QuerySource;
use sp_load::Place;
use sp_slack::LateRule;

/// A run of the machine over a schedule.
#[derive(Clone, Copy, Drop)]
pub struct Trace<'a> {
    /// Where the query stands.
    pub place: Place<'a>,
    /// The name of the schedule's file.
    pub schedule: &'a str,
    /// The most versions that may be live at a time.
    pub live: u32,
}

/// A listing, held against the query over the input.
#[derive(Clone, Copy, Drop)]
pub struct Check<'a> {
    /// Where the query stands.
    pub place: Place<'a>,
    /// The name of the listing's file.
    pub listing: &'a str,
}

/// A run of a second query over what the matches of a first one return.
#[derive(Clone, Copy, Drop)]
pub struct Graph<'a> {
    /// Where the first query stands.
    pub place: Place<'a>,
    /// The text of the second query.
    pub second: &'a str,
    /// The text of what matches of the first return.
    pub returns: &'a str,
}

/// How far behind the greatest time before it an event may come, 0 to 10^15, and what becomes of one that is later.
#[derive(Clone, Copy, Drop)]
pub struct Lateness {
    pub slack: i64,
    pub rule: LateRule,
}

impl Lateness {
    /// Whether no time may go back: there is no slack, and a late event is refused.
    pub fn is_punctual(self) -> bool
        ensures { result ≡ true → commands.lateness self.slack self.rule ≡ punctual }
    {
        self.slack == 0 && matches!(self.rule, LateRule::Refuse)
    }
}

/// The place that the words say.
pub fn place_of(query: &QuerySource) -> Place<'_>
    ensures { places.place_of result ≡ commands.place_of (source_seen query.now) }
{
    match query {
        QuerySource::Text(text) => Place::Word(text.as_str()),
        QuerySource::File(name) => Place::File(name.as_str()),
    }
}
