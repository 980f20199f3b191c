// The command that words are.
ghost use Rattle.std.specs.Prelude.{◌≡◌, Some, None, map, IfOk, IfErr, string_bytes};
ghost use Rattle.sp_cli.specs.Commands.{command_of, run_at, plain_at, trace_at, drill_at, check_at, graph_at, seen};

use crate::command::{Command, UsageFault};
use crate::options::{
    check_options, drill_options, find_options, graph_options, plain_options, run_options,
    trace_options,
};
use crate::values::{
    late_in, live_in, number_of, proof_in, slack_in, source_in, speed_in, text_in, trees_in,
};
use sp_base::limits::EVENT_LIMIT;
use std::alloc::Global;

// What stands behind `run`.
fn read_run(alloc: Global, words: &[String]) -> Result<Command, UsageFault>
    ensures command { IfOk result (λ read. run_at (map string_bytes words.now) ≡ Some (seen read)) }
    ensures usage { IfErr result
        (λ e. e ≡ UsageFault.Usage → run_at (map string_bytes words.now) ≡ None) }
{
    let matches = find_options(run_options(alloc)?, words)?;
    let query = source_in(alloc, &matches)?;
    let speed = speed_in(alloc, &matches)?;
    let slack = slack_in(&matches)?;
    let late = late_in(&matches)?;
    let trees = trees_in(&matches)?;
    let proof = proof_in(&matches);
    // each of several trees keeps its predictor
    if trees > 1 && speed.rotate > 0 {
        return Err(UsageFault::Usage);
    }
    Ok(Command::Run {
        query,
        speed,
        slack,
        late,
        trees,
        proof,
    })
}

// What stands behind `plain`.
fn read_plain(alloc: Global, words: &[String]) -> Result<Command, UsageFault>
    ensures command { IfOk result
        (λ read. plain_at (map string_bytes words.now) ≡ Some (seen read)) }
    ensures usage { IfErr result
        (λ e. e ≡ UsageFault.Usage → plain_at (map string_bytes words.now) ≡ None) }
{
    let matches = find_options(plain_options(alloc)?, words)?;
    let query = source_in(alloc, &matches)?;
    let slack = slack_in(&matches)?;
    let late = late_in(&matches)?;
    Ok(Command::Plain { query, slack, late })
}

// What stands behind `trace`.
fn read_trace(alloc: Global, words: &[String]) -> Result<Command, UsageFault>
    ensures command { IfOk result
        (λ read. trace_at (map string_bytes words.now) ≡ Some (seen read)) }
    ensures usage { IfErr result
        (λ e. e ≡ UsageFault.Usage → trace_at (map string_bytes words.now) ≡ None) }
{
    let matches = find_options(trace_options(alloc)?, words)?;
    let query = source_in(alloc, &matches)?;
    let schedule = text_in(alloc, &matches, "schedule")?;
    let live = live_in(&matches)?;
    Ok(Command::Trace {
        query,
        schedule,
        live,
    })
}

// What stands behind `drill`: its events and its seed by their places, and then options.
fn read_drill(alloc: Global, words: &[String]) -> Result<Command, UsageFault>
    ensures command { IfOk result
        (λ read. drill_at (map string_bytes words.now) ≡ Some (seen read)) }
    ensures usage { IfErr result
        (λ e. e ≡ UsageFault.Usage → drill_at (map string_bytes words.now) ≡ None) }
{
    let [events, seed, rest @ ..] = words else {
        return Err(UsageFault::Usage);
    };
    let events = number_of(events.as_str(), 1, EVENT_LIMIT)?;
    let seed = number_of(seed.as_str(), 0, u32::MAX)?;
    let matches = find_options(drill_options(alloc)?, rest)?;
    let speed = speed_in(alloc, &matches)?;
    Ok(Command::Drill {
        events,
        seed,
        speed,
    })
}

// What stands behind `check`.
fn read_check(alloc: Global, words: &[String]) -> Result<Command, UsageFault>
    ensures command { IfOk result
        (λ read. check_at (map string_bytes words.now) ≡ Some (seen read)) }
    ensures usage { IfErr result
        (λ e. e ≡ UsageFault.Usage → check_at (map string_bytes words.now) ≡ None) }
{
    let matches = find_options(check_options(alloc)?, words)?;
    let query = source_in(alloc, &matches)?;
    let list = text_in(alloc, &matches, "list")?;
    Ok(Command::Check { query, list })
}

// What stands behind `graph`.
fn read_graph(alloc: Global, words: &[String]) -> Result<Command, UsageFault>
    ensures command { IfOk result
        (λ read. graph_at (map string_bytes words.now) ≡ Some (seen read)) }
    ensures usage { IfErr result
        (λ e. e ≡ UsageFault.Usage → graph_at (map string_bytes words.now) ≡ None) }
{
    let matches = find_options(graph_options(alloc)?, words)?;
    let query = source_in(alloc, &matches)?;
    let then = text_in(alloc, &matches, "then")?;
    let returns = text_in(alloc, &matches, "return")?;
    let speed = speed_in(alloc, &matches)?;
    Ok(Command::Graph {
        query,
        then,
        returns,
        speed,
    })
}

/// The command that the words are: the first is its name. `Usage` comes only where they are none; want of
/// memory may come at any words that are read.
pub fn read_words(alloc: Global, words: &[String]) -> Result<Command, UsageFault>
    ensures command { IfOk result
        (λ read. command_of (map string_bytes words.now) ≡ Some (seen read)) }
    ensures usage { result ≡ Err UsageFault.Usage → command_of (map string_bytes words.now) ≡ None }
{
    let [name, rest @ ..] = words else {
        return Err(UsageFault::Usage);
    };
    match name.as_str() {
        "run" => read_run(alloc, rest),
        "plain" => read_plain(alloc, rest),
        "trace" => read_trace(alloc, rest),
        "drill" => read_drill(alloc, rest),
        "check" => read_check(alloc, rest),
        "graph" => read_graph(alloc, rest),
        _ => Err(UsageFault::Usage),
    }
}
