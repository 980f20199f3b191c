// The program and single calls, over objects in memory.
ghost use Rattle.std.specs.Prelude.{◌≡◌, ◌<◌};

use crate::counting::Counts;
use crate::gates::Gates;
use crate::hostile::{Fickle, Greatest, Zero};
use sp_base::limits::PIECE_LIMIT;
use sp_calls::{answer, beginning_of, counts_of};
use sp_chance::{Even, Markov, Predictor, Steady};
use sp_io::{MemFiles, MemSink, MemSource, Source};
use sp_sheet::{Call, Outcome, Told};
use sp_split::Ended;
use sp_top::spectre;
use std::alloc::{AllocError, Global};
use std::sync::Wait;
use std::thread::Threads;

// What the sinks have room for.
const ROOM: u32 = 1_000_000;

// The share that the steady predictor holds for likely, in 65,536ths.
const STEADY: u32 = 49_152;

/// What comes of a call: of the whole program by the top call, which may have these threads, or of a single one.
pub(crate) fn outcome<R: Threads + Wait + Sync>(
    threads: &R,
    alloc: Global,
    call: Call,
) -> Result<Outcome, AllocError> {
    if call.single.is_empty() {
        call_program(threads, alloc, call)
    } else {
        answered(alloc, call)
    }
}

// What a single call answers, as the output.
fn answered(alloc: Global, call: Call) -> Result<Outcome, AllocError> {
    let failing = call.failing;
    let mut files = MemFiles::new(call.files, failing.loads);
    let single = call.single.as_str();
    let answered = answer(alloc, single, &call.words, &mut files, &call.input);
    drop(files);
    Ok(Outcome {
        status: 0,
        output: answered?.into_bytes(),
        error: Vec::new(alloc),
        left: Vec::new(alloc),
    })
}

// What the program leaves.
fn call_program<R: Threads + Wait + Sync>(
    threads: &R,
    alloc: Global,
    call: Call,
) -> Result<Outcome, AllocError> {
    let counts = Counts::new(alloc)?;
    if call.counts_predictors {
        call_counting(threads, alloc, call, &counts)
    } else {
        call_usual(threads, alloc, call, &counts)
    }
}

// The same, whose runs may choose among these predictors.
fn call_usual<R: Threads + Wait + Sync>(
    threads: &R,
    alloc: Global,
    call: Call,
    counts: &Counts,
) -> Result<Outcome, AllocError> {
    let mut predictors: Vec<Box<dyn Predictor>> = Vec::new(alloc);
    predictors.push(Box::new(alloc, Even::new())?)?;
    predictors.push(Box::new(alloc, Steady::new(STEADY))?)?;
    predictors.push(Box::new(alloc, Markov::new(alloc)?)?)?;
    predictors.push(Box::new(alloc, Zero)?)?;
    predictors.push(Box::new(alloc, Greatest)?)?;
    predictors.push(Box::new(alloc, Fickle { learned: 0 })?)?;
    call_with(threads, alloc, call, counts, predictors)
}

// The same with one predictor of the name `other`, and two of the name `counting`.
fn call_counting<R: Threads + Wait + Sync>(
    threads: &R,
    alloc: Global,
    call: Call,
    counts: &Counts,
) -> Result<Outcome, AllocError> {
    let mut predictors: Vec<Box<dyn Predictor>> = Vec::new(alloc);
    predictors.push(Box::new(alloc, counts.other()?)?)?;
    predictors.push(Box::new(alloc, counts.first()?)?)?;
    predictors.push(Box::new(alloc, counts.later()?)?)?;
    call_with(threads, alloc, call, counts, predictors)
}

// The same with the predictors, whose calls are counted there where they count.
fn call_with<R: Threads + Wait + Sync>(
    threads: &R,
    alloc: Global,
    call: Call,
    counts: &Counts,
    predictors: Vec<Box<dyn Predictor>>,
) -> Result<Outcome, AllocError> {
    let failing = call.failing;
    let told = (call.told, call.counts_predictors);
    let tells_left = call.tells_left;
    let mut out = MemSink::new(alloc, failing.writes, ROOM)?;
    let mut err = MemSink::new(alloc, failing.tells, ROOM)?;
    let mut input = MemSource::new(call.input, call.piece.max(1), failing.reads);
    let mut files = MemFiles::new(call.files, failing.loads);
    let gate = Gates::new(call.delayed);
    let mut report = None;
    let status = spectre(
        threads,
        alloc,
        &call.words,
        &mut input,
        &mut files,
        &mut out,
        &mut err,
        &gate,
        predictors,
        &mut report,
    );
    let behind = behind_of(alloc, told, report, gate.told(), counts);
    let mut came = outcome_of(alloc, status, &out, &err, behind?.as_str())?;
    if tells_left {
        came.left = rest_of(alloc, &mut input)?;
    }
    Ok(came)
}

// What stands behind the output: what is told of a report's journal, the word of a gate, and of predictors that count.
fn behind_of(
    alloc: Global,
    told: (Told, bool),
    report: Option<Ended>,
    met: &str,
    counts: &Counts,
) -> Result<String, AllocError> {
    let (told, counts_predictors) = told;
    let journal = journal_of(alloc, told, &report);
    let kept = counts.kept();
    drop(report);
    let mut behind = journal?;
    behind.push_str(met)?;
    if counts_predictors {
        behind.push_str(counted(alloc, counts, kept)?.as_str())?;
    }
    Ok(behind)
}

// What is told of predictors that count, of which so many were kept by a report, and the others since it is gone.
fn counted(alloc: Global, counts: &Counts, kept: usize) -> Result<String, AllocError> {
    let (called, taught, left) = (counts.called(), counts.taught(), counts.kept());
    format!(in alloc; "called={called} taught={taught} kept={kept} left={left}\n")
}

// All that a source gives from here on.
fn rest_of<S: Source>(alloc: Global, source: &mut S) -> Result<Vec<u8>, AllocError> {
    let mut rest = Vec::new(alloc);
    let mut piece = [0; PIECE_LIMIT];
    for _ in 0..ROOM {
        match source.read(&mut piece) {
            Ok(count) if count > 0 => rest.extend_from_slice(&piece[..count])?,
            _ => break,
        }
    }
    Ok(rest)
}

// What of the journal of a report is told.
fn journal_of(alloc: Global, told: Told, report: &Option<Ended>) -> Result<String, AllocError> {
    match (told, report) {
        (Told::Counts, Some(ended)) => counts_of(alloc, ended.core.journal()),
        (Told::Beginning, Some(ended)) => beginning_of(alloc, ended.core.journal()),
        _ => Ok(String::new(alloc)),
    }
}

// A status, what the sinks hold, and behind the output a text.
fn outcome_of(
    alloc: Global,
    status: u8,
    out: &MemSink,
    err: &MemSink,
    behind: &str,
) -> Result<Outcome, AllocError> {
    let mut output = out.bytes().to_vec(alloc)?;
    output.extend_from_slice(behind.as_bytes())?;
    let error = err.bytes().to_vec(alloc)?;
    Ok(Outcome {
        status: u32::from(status),
        output,
        error,
        left: Vec::new(alloc),
    })
}
