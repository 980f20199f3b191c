// The options of each command as commands of `clap`, and what it finds at words.
ghost use Rattle.std.specs.Prelude.{◌≡◌, Some, None, true, false, fold, map, IfOk, IfErr, string_bytes};
ghost use Rattle.clap.specs.Words.{app_of, rule_of, with_rule, is_simple_and_free};
ghost use Rattle.sp_cli.specs.Commands.{number_seen, rows_in};
ghost use Rattle.sp_cli.specs.Options.{option, flag, no_options, with_query, with_number, with_speed, with_lateness, found};
ghost use Rattle.sp_cli.specs.Options as specs;

use crate::command::UsageFault;
use crate::values::{NumberOption, TREES, speed_numbers};
use clap::error::ErrorKind;
use clap::{Arg, ArgAction, ArgMatches};
use std::alloc::{AllocError, Global};

// The option of this long name. It takes one text.
fn one_text<'a>(alloc: Global, name: &'a str) -> Arg<'a>
    ensures rule { rule_of result ≡ option name.entry.now }
    ensures local { result.global ≡ false }
{
    Arg::new(alloc, name).long(name).action(ArgAction::Set)
}

// No options. All words count, and `--help` is no option either.
fn bare<'a>(alloc: Global) -> clap::Command<'a>
    ensures { app_of result ≡ no_options }
{
    clap::Command::new(alloc, "options")
        .no_binary_name(true)
        .disable_help_flag(true)
}

// With one more option.
fn with_option<'a>(
    command: clap::Command<'a>,
    option: Arg<'a>,
) -> Result<clap::Command<'a>, AllocError>
    requires { option.global ≡ false }
    ensures { IfOk result
        (λ more. app_of more ≡ with_rule (app_of command.entry) (rule_of option.entry)) }
{
    command.arg(option)
}

// With one more option of this long name alone.
fn with_text<'a>(
    alloc: Global,
    command: clap::Command<'a>,
    name: &'a str,
) -> Result<clap::Command<'a>, AllocError>
    ensures { IfOk result
        (λ more. app_of more ≡ with_rule (app_of command.entry) (option name.entry.now)) }
{
    with_option(command, one_text(alloc, name))
}

// With one more flag of this long name.
fn with_flag<'a>(
    alloc: Global,
    command: clap::Command<'a>,
    name: &'a str,
) -> Result<clap::Command<'a>, AllocError>
    ensures { IfOk result
        (λ more. app_of more ≡ with_rule (app_of command.entry) (flag name.entry.now)) }
{
    let flag = Arg::new(alloc, name).long(name).action(ArgAction::SetTrue);
    with_option(command, flag)
}

// With the two options that say where the query stands.
fn with_query<'a>(
    alloc: Global,
    command: clap::Command<'a>,
) -> Result<clap::Command<'a>, AllocError>
    ensures { IfOk result (λ more. app_of more ≡ specs.with_query (app_of command.entry)) }
{
    let command = with_option(command, one_text(alloc, "query").short('q'))?;
    with_option(command, one_text(alloc, "file").short('f'))
}

// With the options of these numbers.
fn with_numbers<'a>(
    alloc: Global,
    mut command: clap::Command<'a>,
    options: &[NumberOption],
) -> Result<clap::Command<'a>, AllocError>
    ensures { IfOk result (λ more.
        app_of more ≡ fold with_number (app_of command.entry) (map number_seen options.now)) }
{
    for option in options {
        command = with_text(alloc, command, option.name)?;
    }
    Ok(command)
}

// With the options that say how a run works: its numbers, and its predictor.
fn with_speed<'a>(
    alloc: Global,
    command: clap::Command<'a>,
) -> Result<clap::Command<'a>, AllocError>
    ensures { IfOk result (λ more. app_of more ≡ specs.with_speed (app_of command.entry)) }
{
    let command = with_numbers(alloc, command, speed_numbers())?;
    with_text(alloc, command, "predictor")
}

// With the options that say which events come too late, and what becomes of them.
fn with_lateness<'a>(
    alloc: Global,
    command: clap::Command<'a>,
) -> Result<clap::Command<'a>, AllocError>
    ensures { IfOk result (λ more. app_of more ≡ specs.with_lateness (app_of command.entry)) }
{
    let command = with_text(alloc, command, "slack")?;
    with_text(alloc, command, "late")
}

/// The options of `run`.
pub(crate) fn run_options<'a>(alloc: Global) -> Result<clap::Command<'a>, AllocError>
    ensures options { IfOk result (λ command. app_of command ≡ specs.run_options) }
    ensures simple { IfOk result (λ command. is_simple_and_free (app_of command) ≡ true) }
{
    let command = with_query(alloc, bare(alloc))?;
    let command = with_lateness(alloc, with_speed(alloc, command)?)?;
    let command = with_text(alloc, command, TREES.name)?;
    with_flag(alloc, command, "proof")
}

/// The options of `plain`.
pub(crate) fn plain_options<'a>(alloc: Global) -> Result<clap::Command<'a>, AllocError>
    ensures options { IfOk result (λ command. app_of command ≡ specs.plain_options) }
    ensures simple { IfOk result (λ command. is_simple_and_free (app_of command) ≡ true) }
{
    with_lateness(alloc, with_query(alloc, bare(alloc))?)
}

/// The options of `trace`.
pub(crate) fn trace_options<'a>(alloc: Global) -> Result<clap::Command<'a>, AllocError>
    ensures options { IfOk result (λ command. app_of command ≡ specs.trace_options) }
    ensures simple { IfOk result (λ command. is_simple_and_free (app_of command) ≡ true) }
{
    let command = with_query(alloc, bare(alloc))?;
    let command = with_text(alloc, command, "schedule")?;
    with_text(alloc, command, "live")
}

/// The options of `drill`.
pub(crate) fn drill_options<'a>(alloc: Global) -> Result<clap::Command<'a>, AllocError>
    ensures options { IfOk result (λ command. app_of command ≡ specs.drill_options) }
    ensures simple { IfOk result (λ command. is_simple_and_free (app_of command) ≡ true) }
{
    with_speed(alloc, bare(alloc))
}

/// The options of `check`.
pub(crate) fn check_options<'a>(alloc: Global) -> Result<clap::Command<'a>, AllocError>
    ensures options { IfOk result (λ command. app_of command ≡ specs.check_options) }
    ensures simple { IfOk result (λ command. is_simple_and_free (app_of command) ≡ true) }
{
    let command = with_query(alloc, bare(alloc))?;
    with_text(alloc, command, "list")
}

/// The options of `graph`.
pub(crate) fn graph_options<'a>(alloc: Global) -> Result<clap::Command<'a>, AllocError>
    ensures options { IfOk result (λ command. app_of command ≡ specs.graph_options) }
    ensures simple { IfOk result (λ command. is_simple_and_free (app_of command) ≡ true) }
{
    let command = with_query(alloc, bare(alloc))?;
    let command = with_text(alloc, command, "then")?;
    let command = with_text(alloc, command, "return")?;
    with_speed(alloc, command)
}

/// What is found at the words, or `Usage` where they are refused.
pub(crate) fn find_options<'a>(
    options: clap::Command<'a>,
    words: &'a [String],
) -> Result<ArgMatches<'a>, UsageFault>
    requires { is_simple_and_free (app_of options) ≡ true }
    ensures matches { IfOk result (λ m.
        found (app_of options.entry) (map string_bytes words.entry.now) ≡ Some (rows_in m)) }
    ensures usage { IfErr result (λ e. e ≡ UsageFault.Usage
        → found (app_of options.entry) (map string_bytes words.entry.now) ≡ None) }
{
    match options.try_get_matches_from(words) {
        Ok(matches) => Ok(matches),
        Err(error) => match error.kind() {
            ErrorKind::OutOfMemory => Err(UsageFault::Memory),
            _ => Err(UsageFault::Usage),
        },
    }
}
