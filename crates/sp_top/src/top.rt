// The words, and the answer to them.
ghost use Rattle.std.specs.Prelude.{◌≡◌, ◌≢◌, ◌≤◌, ℕ, List, false, None, map, string_bytes};
ghost use Rattle.sp_answer.specs.Outcome.{ending, number_of};
ghost use Rattle.sp_answer.specs.Promise.{filed, Served};
ghost use Rattle.sp_answer.specs.Ran.{outside};
ghost use Rattle.sp_cli.specs.Commands.{seen};
ghost use Rattle.sp_top.specs.Asked.{IsGraphOf, IsManner, IsRunOf, IsSpeed};
ghost use Rattle.sp_cli.specs.Limits.{IsWithin};
ghost use Rattle.sp_commands.specs.Commands.{files_of, IsCommand, IsUnendedFor, ReadsInput};
ghost use Rattle.sp_commands.specs.Outcome.{Answers, CommandOutcome, Promise};
ghost use Rattle.sp_top.specs.Predictors.{AsksNoPredictor};
ghost use Rattle.sp_top.specs.Prompt.{RunsPromptly};
ghost use Rattle.sp_top.specs.Report.{Reported, Reporting};

use crate::asked::{GraphRun, Manner, Run};
use crate::choosing::{crew_of, predictors_of};
use crate::drill::drill;
use crate::graph::graph;
use crate::law;
use crate::run::run;
use crate::trees::run_by_parts;
use crate::workshop::{CommandEnd, Workshop};
use sp_answer::{Status, tell};
use sp_chance::Predictor;
use sp_cli::{Command, UsageFault, read_words};
use sp_commands::{Check, Graph, Lateness, Trace, check, place_of, plain, trace};
use sp_instance::Gate;
use sp_io::{Files, Sink, Source};
use sp_split::Ended;
use std::alloc::Global;
use std::sync::Wait;
use std::thread::Threads;

// Does what a run asks, by one tree or by several. What it comes to is an answer to all words that are this run.
fn carry_run<S: Source, F: Files, K: Sink, G: Gate, R: Threads + Wait + Sync>(
    shop: &Workshop<'_, G, R>,
    asked: Run,
    input: &mut S,
    files: &mut F,
    out: &mut K,
    predictors: Vec<Box<dyn Predictor>>,
) -> CommandEnd
    requires manner { IsManner asked.manner }
    requires some { 1 ≤ asked.trees }
    requires not_ended { (S.state input.old).ended ≡ false }
    ensures answers { (words : List (List ℕ)) → IsRunOf asked.entry words
        → Answers (map (λ one. named one) predictors.items) words
        (filed (F.held files.old) (F.faults files.old))
        (filed (F.held files.new) (F.faults files.new))
        (outside (S.state input.old) (K.state out.old))
        (outside (S.state input.new) (K.state out.new))
        result.status }
    ensures report { (words : List (List ℕ)) → IsRunOf asked.entry words
        → Reporting (map (λ one. named one) predictors.items) words (F.held files.old)
        (S.state input.old).left (S.state input.new).left result.status result.ended }
    ensures prompt { (words : List (List ℕ)) → IsRunOf asked.entry words
        → RunsPromptly words (F.held files.old) (outside (S.state input.old) (K.state out.old))
        (outside (S.state input.new) (K.state out.new)) }
{
    if asked.trees > 1 {
        return match predictors_of(predictors, asked.manner.speed, asked.trees) {
            Some(chosen) => { CommandEnd::of(run_by_parts(shop, asked, chosen, input, files, out)) }
            None => CommandEnd::of(Status::Usage),
        };
    }
    match crew_of(predictors, asked.manner.speed) {
        Some(crew) => run(shop, asked, crew, input, files, out),
        None => CommandEnd::of(Status::Usage),
    }
}

// Does what a graph asks. What it comes to is an answer to all words that are this graph.
fn carry_graph<S: Source, F: Files, K: Sink, G: Gate, R: Threads + Wait + Sync>(
    shop: &Workshop<'_, G, R>,
    asked: GraphRun,
    input: &mut S,
    files: &mut F,
    out: &mut K,
    predictors: Vec<Box<dyn Predictor>>,
) -> CommandEnd
    requires speed { IsSpeed asked.speed.now }
    requires not_ended { (S.state input.old).ended ≡ false }
    ensures answers { (words : List (List ℕ)) → IsGraphOf asked.entry words
        → Answers (map (λ one. named one) predictors.items) words
        (filed (F.held files.old) (F.faults files.old))
        (filed (F.held files.new) (F.faults files.new))
        (outside (S.state input.old) (K.state out.old))
        (outside (S.state input.new) (K.state out.new))
        result.status }
    ensures ended { result.ended ≡ None }
{
    match crew_of(predictors, asked.speed) {
        Some(crew) => CommandEnd::of(graph(shop, asked, crew, input, files, out)),
        None => CommandEnd::of(Status::Usage),
    }
}

// Does what a command asks that needs no predictor.
fn carry_alone<S: Source, F: Files, K: Sink, G: Gate, R: Threads + Wait + Sync>(
    shop: &Workshop<'_, G, R>,
    command: &Command,
    input: &mut S,
    files: &mut F,
    out: &mut K,
) -> Status
    requires alone { AsksNoPredictor (seen command.now) }
    requires within { IsWithin (seen command.now) }
    requires not_ended { (S.state input.old).ended ≡ false }
    ensures { Served (files_of (seen command.now)) (CommandOutcome (seen command.now))
        (filed (F.held files.old) (F.faults files.old))
        (filed (F.held files.new) (F.faults files.new))
        (outside (S.state input.old) (K.state out.old))
        (outside (S.state input.new) (K.state out.new))
        (ending result) }
{
    match command {
        Command::Plain { query, slack, late } => {
            let late = Lateness {
                slack: *slack,
                rule: *late,
            };
            plain(shop.alloc, place_of(query), late, input, files, out)
        }
        Command::Trace {
            query,
            schedule,
            live,
        } => {
            let asked = Trace {
                place: place_of(query),
                schedule: schedule.as_str(),
                live: *live,
            };
            trace(shop.alloc, asked, input, files, out)
        }
        Command::Check { query, list } => {
            let asked = Check {
                place: place_of(query),
                listing: list.as_str(),
            };
            check(shop.rt, shop.alloc, asked, input, files, out)
        }
        Command::Run { .. } | Command::Drill { .. } | Command::Graph { .. } => unreachable!(),
    }
}

// Does what a command asks. What it comes to is an answer to all words that are this command.
fn carry_out<S: Source, F: Files, K: Sink, G: Gate, R: Threads + Wait + Sync>(
    shop: &Workshop<'_, G, R>,
    command: &Command,
    input: &mut S,
    files: &mut F,
    out: &mut K,
    predictors: Vec<Box<dyn Predictor>>,
) -> CommandEnd
    requires within { IsWithin (seen command.now) }
    requires not_ended { ReadsInput (seen command.now) → (S.state input.old).ended ≡ false }
    ensures answers { (words : List (List ℕ)) → IsCommand words (seen command.now)
        → Answers (map (λ one. named one) predictors.items) words
        (filed (F.held files.old) (F.faults files.old))
        (filed (F.held files.new) (F.faults files.new))
        (outside (S.state input.old) (K.state out.old))
        (outside (S.state input.new) (K.state out.new))
        result.status }
    ensures report { (words : List (List ℕ)) → IsCommand words (seen command.now)
        → Reporting (map (λ one. named one) predictors.items) words (F.held files.old)
        (S.state input.old).left (S.state input.new).left result.status result.ended }
    ensures prompt { (words : List (List ℕ)) → IsCommand words (seen command.now)
        → RunsPromptly words (F.held files.old) (outside (S.state input.old) (K.state out.old))
        (outside (S.state input.new) (K.state out.new)) }
{
    match command {
        Command::Run {
            query,
            speed,
            slack,
            late,
            trees,
            proof,
        } => {
            let late = Lateness {
                slack: *slack,
                rule: *late,
            };
            let asked = Run {
                place: place_of(query),
                manner: Manner { speed, late },
                trees: *trees,
                proof: *proof,
            };
            carry_run(shop, asked, input, files, out, predictors)
        }
        Command::Drill {
            events,
            seed,
            speed,
        } => match crew_of(predictors, speed) {
            Some(crew) => drill(shop, *events, *seed, speed, crew, out),
            None => CommandEnd::of(Status::Usage),
        },
        Command::Graph {
            query,
            then,
            returns,
            speed,
        } => {
            let texts = Graph {
                place: place_of(query),
                second: then.as_str(),
                returns: returns.as_str(),
            };
            let asked = GraphRun { texts, speed };
            carry_graph(shop, asked, input, files, out, predictors)
        }
        Command::Plain { .. } | Command::Trace { .. } | Command::Check { .. } => {
            // No predictor is asked. Their memory goes back before much else is in use.
            drop(predictors);
            CommandEnd::of(carry_alone(shop, command, input, files, out))
        }
    }
}

// The status, before its line is written, and what a run ended with.
fn answer<S: Source, F: Files, K: Sink, G: Gate, R: Threads + Wait + Sync>(
    shop: &Workshop<'_, G, R>,
    words: &[String],
    input: &mut S,
    files: &mut F,
    out: &mut K,
    predictors: Vec<Box<dyn Predictor>>,
) -> CommandEnd
    requires not_ended { IsUnendedFor (map string_bytes words.now) (S.state input.old) }
    ensures answers { Answers (map (λ one. named one) predictors.items) (map string_bytes words.now)
        (filed (F.held files.old) (F.faults files.old))
        (filed (F.held files.new) (F.faults files.new))
        (outside (S.state input.old) (K.state out.old))
        (outside (S.state input.new) (K.state out.new))
        result.status }
    ensures report { Reporting (map (λ one. named one) predictors.items)
        (map string_bytes words.now) (F.held files.old)
        (S.state input.old).left (S.state input.new).left result.status result.ended }
    ensures prompt { RunsPromptly (map string_bytes words.now) (F.held files.old)
        (outside (S.state input.old) (K.state out.old))
        (outside (S.state input.new) (K.state out.new)) }
{
    law::numbers_are_within();
    match read_words(shop.alloc, words) {
        Ok(command) => carry_out(shop, &command, input, files, out, predictors),
        Err(UsageFault::Usage) => CommandEnd::of(Status::Usage),
        Err(UsageFault::Memory) => CommandEnd::of(Status::Memory),
    }
}

// What a run ended with, where it was done.
fn if_done(status: Status, ended: Option<Ended>) -> Option<Ended>
    ensures done { number_of status ≡ 0 → result ≡ ended }
    ensures other { number_of status ≢ 0 → result ≡ None }
{
    if status.number() == 0 { ended } else { None }
}

/// Runs the words, which are the command line without the program's name, over an input that has not
/// ended yet, and answers the number of its status; docs/formats.md lists them. What the words name may
/// stand in `files`. A run begins with the first of the predictors of the name that its words choose, and where
/// they say so the others follow it, in their order; with several trees each has one of them. The text
/// is written to `out`, one call a line, and the line of the status to `err`. A run has as many instances
/// as its words say, each on a thread of its own, and each of their jobs is done inside the gate. A run that lists
/// proofs reads its whole input before it writes, and so does a graph, which is two runs one behind the other. A check
/// asks no predictor; it may use threads too. `report` holds from then on what a run by one tree, or a drill, that was
/// done ended with, and nothing after any other call.
/// What is promised of status, output and faults is `Promise` of `specs/Outcome.antt`, and of the report
/// `Reported` of `specs/Report.antt`; whatever the status, a run by one tree that tells lines is prompt, which is
/// `RunsPromptly` of `specs/Prompt.antt`. docs/statement.md says all three in words.
pub fn spectre<S: Source, F: Files, K: Sink, E: Sink, G: Gate, R: Threads + Wait + Sync>(
    rt: &R,
    alloc: Global,
    words: &[String],
    input: &mut S,
    files: &mut F,
    out: &mut K,
    err: &mut E,
    gate: &G,
    predictors: Vec<Box<dyn Predictor>>,
    report: &mut Option<Ended>,
) -> u8
    requires not_ended { IsUnendedFor (map string_bytes words.now) (S.state input.old) }
    ensures promise { Promise (map (λ one. named one) predictors.items) (map string_bytes words.now)
        (filed (F.held files.old) (F.faults files.old))
        (filed (F.held files.new) (F.faults files.new))
        (outside (S.state input.old) (K.state out.old))
        (outside (S.state input.new) (K.state out.new))
        (E.state err.old) (E.state err.new) result }
    ensures report { Reported (map (λ one. named one) predictors.items)
        (map string_bytes words.now) (F.held files.old)
        (S.state input.old).left (S.state input.new).left result report.new }
    ensures prompt { RunsPromptly (map string_bytes words.now) (F.held files.old)
        (outside (S.state input.old) (K.state out.old))
        (outside (S.state input.new) (K.state out.new)) }
{
    let shop = Workshop { rt, alloc, gate };
    let answer = answer(&shop, words, input, files, out, predictors);
    let status = tell(alloc, answer.status, err);
    *report = if_done(status, answer.ended);
    status.number()
}
