// What the values of options say.
ghost use Rattle.std.specs.Prelude.{◌≡◌, ◌≤◌, Some, None, IfOk, IfErr, OnOk, OnErr, length, map, option_map, string_bytes};
ghost use Rattle.clap.specs.Words.{first_of};
ghost use Rattle.sp_cli.specs.Numbers.{number, number_said, numbers_said};
ghost use Rattle.sp_cli.specs.Numbers as listed;
ghost use Rattle.sp_cli.specs.Commands.{source_seen, speed_seen, number_seen, rows_in};
ghost use Rattle.sp_cli.specs.Commands as specs;

use crate::command::{QuerySource, Speed, UsageFault};
use clap::ArgMatches;
use sp_base::limits::{BATCH_LIMIT, LIVE_LIMIT, NUMBER_LIMIT, ROTATE_LIMIT};
use sp_slack::LateRule;
use std::alloc::Global;

/// A number of one to ten digits that an option says: the option's name, the least and the greatest that it may
/// be, and what it is where the option is left out.
#[derive(Clone, Copy, Drop)]
pub(crate) struct NumberOption {
    pub(crate) name: &'static str,
    pub(crate) least: u32,
    pub(crate) greatest: u32,
    pub(crate) left_out: u32,
}

// How many versions may be live.
#[rattlefmt::skip]
const LIVE: NumberOption = NumberOption { name: "live", least: 1, greatest: LIVE_LIMIT, left_out: 64 };

/// How many trees a run has.
#[rattlefmt::skip]
pub(crate) const TREES: NumberOption = NumberOption { name: "trees", least: 1, greatest: 16, left_out: 1 };

// The numbers that say how a run works, in the order of `numbers_of` in `specs/Commands.antt`.
#[rattlefmt::skip]
const SPEED_NUMBERS: [NumberOption; 4] = [
    NumberOption { name: "instances", least: 0, greatest: 16, left_out: 2 },
    LIVE,
    NumberOption { name: "batch", least: 1, greatest: BATCH_LIMIT, left_out: 64 },
    NumberOption { name: "rotate", least: 0, greatest: ROTATE_LIMIT, left_out: 0 },
];

/// The options of the numbers that say how a run works.
pub(crate) fn speed_numbers() -> &'static [NumberOption]
    ensures { map number_seen result.now ≡ listed.speed_numbers }
{
    &SPEED_NUMBERS
}

// The most digits of a number.
const DIGITS: usize = 10;

// The most digits of the slack.
const SLACK_DIGITS: usize = 16;

// The number of one to so many digits, from the least to the greatest, that the text writes.
fn long_number_of(text: &str, digits: usize, least: u64, greatest: u64) -> Result<u64, UsageFault>
    ensures ok { IfOk result (λ n. number digits least greatest text.now ≡ Some n) }
    ensures within { IfOk result (λ n. n ≤ greatest) }
    ensures usage { IfErr result (λ _. number digits least greatest text.now ≡ None) }
{
    // a sign is no digit, though a number may be read behind it
    if text.len() > digits || text.as_bytes().first() == Some(&b'+') {
        return Err(UsageFault::Usage);
    }
    match text.parse::<u64>() {
        Ok(n) if least <= n && n <= greatest => Ok(n),
        _ => Err(UsageFault::Usage),
    }
}

/// The number from the least to the greatest that the text writes: one to ten digits.
pub(crate) fn number_of(text: &str, least: u32, greatest: u32) -> Result<u32, UsageFault>
    ensures ok { IfOk result (λ n. number 10 least greatest text.now ≡ Some n) }
    ensures usage { IfErr result (λ _. number 10 least greatest text.now ≡ None) }
{
    let n = long_number_of(text, DIGITS, u64::from(least), u64::from(greatest))?;
    Ok(n as u32)
}

/// The value of the option of this name, where it is there.
pub(crate) fn value_of<'a>(matches: &ArgMatches<'a>, name: &str) -> Option<&'a str>
    ensures { option_map (λ text. text.now) result ≡ first_of name.now (rows_in matches.now) }
{
    matches.get_str(name)
}

/// A copy of the value of the option of this name, which has to be there.
pub(crate) fn text_in(
    alloc: Global,
    matches: &ArgMatches<'_>,
    name: &str,
) -> Result<String, UsageFault>
    ensures ok { IfOk result
        (λ text. first_of name.now (rows_in matches.now) ≡ Some (string_bytes text)) }
    ensures usage { IfErr result
        (λ e. e ≡ UsageFault.Usage → first_of name.now (rows_in matches.now) ≡ None) }
{
    let Some(text) = value_of(matches, name) else {
        return Err(UsageFault::Usage);
    };
    Ok(String::from_str(alloc, text)?)
}

// The number that the option says.
fn number_at(matches: &ArgMatches<'_>, option: NumberOption) -> Result<u32, UsageFault>
    ensures ok { IfOk result (λ n.
        number_said (number_seen option) (first_of option.name.now (rows_in matches.now))
        ≡ Some n) }
    ensures usage { IfErr result (λ _.
        number_said (number_seen option) (first_of option.name.now (rows_in matches.now))
        ≡ None) }
{
    match value_of(matches, option.name) {
        Some(text) => number_of(text, option.least, option.greatest),
        None => Ok(option.left_out),
    }
}

/// How many versions may be live.
pub(crate) fn live_in(matches: &ArgMatches<'_>) -> Result<u32, UsageFault>
    ensures ok { IfOk result (λ n. specs.live_in (rows_in matches.now) ≡ Some n) }
    ensures usage { IfErr result (λ _. specs.live_in (rows_in matches.now) ≡ None) }
{
    number_at(matches, LIVE)
}

/// Where the query stands: just one of its two options says it.
pub(crate) fn source_in(alloc: Global, matches: &ArgMatches<'_>) -> Result<QuerySource, UsageFault>
    ensures ok { IfOk result
        (λ read. specs.source_in (rows_in matches.now) ≡ Some (source_seen read)) }
    ensures usage { IfErr result
        (λ e. e ≡ UsageFault.Usage → specs.source_in (rows_in matches.now) ≡ None) }
{
    match (value_of(matches, "query"), value_of(matches, "file")) {
        (Some(text), None) => Ok(QuerySource::Text(String::from_str(alloc, text)?)),
        (None, Some(name)) => Ok(QuerySource::File(String::from_str(alloc, name)?)),
        _ => Err(UsageFault::Usage),
    }
}

/// How far behind the greatest time before it an event may come.
pub(crate) fn slack_in(matches: &ArgMatches<'_>) -> Result<i64, UsageFault>
    ensures ok { IfOk result (λ slack. specs.slack_in (rows_in matches.now) ≡ Some slack) }
    ensures usage { IfErr result (λ _. specs.slack_in (rows_in matches.now) ≡ None) }
{
    let Some(text) = value_of(matches, "slack") else {
        return Ok(0);
    };
    let slack = long_number_of(text, SLACK_DIGITS, 0, NUMBER_LIMIT)?;
    Ok(slack as i64)
}

/// What becomes of an event that comes later.
pub(crate) fn late_in(matches: &ArgMatches<'_>) -> Result<LateRule, UsageFault>
    ensures ok { IfOk result (λ rule. specs.late_in (rows_in matches.now) ≡ Some rule) }
    ensures usage { IfErr result (λ _. specs.late_in (rows_in matches.now) ≡ None) }
{
    match value_of(matches, "late") {
        None | Some("refuse") => Ok(LateRule::Refuse),
        Some("drop") => Ok(LateRule::Drop),
        Some(_) => Err(UsageFault::Usage),
    }
}

/// How many trees a run has.
pub(crate) fn trees_in(matches: &ArgMatches<'_>) -> Result<u32, UsageFault>
    ensures ok { IfOk result (λ n. specs.trees_in (rows_in matches.now) ≡ Some n) }
    ensures usage { IfErr result (λ _. specs.trees_in (rows_in matches.now) ≡ None) }
{
    number_at(matches, TREES)
}

/// Whether a run lists the proofs of its windows. `clap` gives a flag the value `true` where it stands among the
/// words, and `false` where it doesn't.
pub(crate) fn proof_in(matches: &ArgMatches<'_>) -> bool
    ensures { result ≡ specs.proof_in (rows_in matches.now) }
{
    value_of(matches, "proof") == Some("true")
}

// Writes what each of the options says to its place among the numbers.
fn read_numbers(
    matches: &ArgMatches<'_>,
    options: &[NumberOption],
    numbers: &mut [u32],
) -> Result<(), UsageFault>
    requires { length numbers.old ≡ length options.now }
    ensures ok { OnOk result (numbers_said (λ name. first_of name (rows_in matches.now))
        (map number_seen options.now) ≡ Some numbers.new) }
    ensures usage { OnErr result (numbers_said (λ name. first_of name (rows_in matches.now))
        (map number_seen options.now) ≡ None) }
{
    for i in 0..options.len() {
        numbers[i] = number_at(matches, options[i])?;
    }
    Ok(())
}

/// How a run works.
pub(crate) fn speed_in(alloc: Global, matches: &ArgMatches<'_>) -> Result<Speed, UsageFault>
    ensures ok { IfOk result
        (λ read. specs.speed_in (rows_in matches.now) ≡ Some (speed_seen read)) }
    ensures usage { IfErr result
        (λ e. e ≡ UsageFault.Usage → specs.speed_in (rows_in matches.now) ≡ None) }
{
    let mut numbers = [0; SPEED_NUMBERS.len()];
    read_numbers(matches, speed_numbers(), &mut numbers)?;
    let [instances, live, batch, rotate] = numbers;
    let name = value_of(matches, "predictor").unwrap_or("markov");
    let predictor = String::from_str(alloc, name)?;
    Ok(Speed {
        instances,
        live,
        batch,
        predictor,
        rotate,
    })
}
