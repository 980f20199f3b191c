//! The program: the command line's words, the standard streams and the system's files, given to the top
//! call.
#![tactic(auto)]

use sp_chance::{Even, Markov, Predictor, Steady};
use sp_instance::OpenGate;
use sp_io::{Sink, StdFiles, StdSink, StdSource};
use sp_top::spectre;
use std::alloc::AllocError;
use std::process::ExitCode;
use std::sync::Wait;
use std::thread::Threads;
use std::{env, io};

// The share that the steady predictor holds for likely, in 65,536ths: three quarters.
const STEADY: u32 = 49_152;

// The command line without the program's name. Words that aren't UTF-8 are no words of a command, so
// the list is then empty.
fn words(rt: HostRuntime) -> Result<Vec<String>, AllocError> {
    let mut words = Vec::new(rt.alloc());
    match env::args(&rt) {
        Ok(all) => {
            for word in all.skip(1) {
                words.push(word)?;
            }
        }
        Err(error) => {
            if error.kind() == io::ErrorKind::OutOfMemory {
                return Err(AllocError);
            }
        }
    }
    Ok(words)
}

// How many predictors there are: one for each tree that a run may have.
const PREDICTORS: usize = 16;

// The status of the command line's words, by the predictors that they may choose: one that takes all for likely
// alike, one that holds a share for likely, and all others learn. Nothing stands round the jobs of the instances,
// and what a run ended with is dropped.
fn call_spectre<R: Threads + Wait + Sync>(
    threads: &R,
    rt: HostRuntime,
    err: &mut StdSink,
) -> Result<u8, AllocError> {
    let words = words(rt)?;
    let mut predictors: Vec<Box<dyn Predictor>> = Vec::with_capacity(rt.alloc(), PREDICTORS)?;
    predictors.push(Box::new(rt.alloc(), Even::new())?)?;
    predictors.push(Box::new(rt.alloc(), Steady::new(STEADY))?)?;
    for _ in 2..PREDICTORS {
        predictors.push(Box::new(rt.alloc(), Markov::new(rt.alloc())?)?)?;
    }
    let mut input = StdSource::new(rt);
    let mut files = StdFiles::new(rt);
    let mut out = StdSink::new(rt, false);
    let mut report = None;
    Ok(spectre(
        threads,
        rt.alloc(),
        &words,
        &mut input,
        &mut files,
        &mut out,
        err,
        &OpenGate,
        predictors,
        &mut report,
    ))
}

fn main(rt: HostRuntime) -> ExitCode {
    let mut err = StdSink::new(rt, true);
    match call_spectre(&rt, rt, &mut err) {
        Ok(status) => ExitCode::from(status),
        Err(_) => {
            let _ = err.write_all(b"memory\n");
            ExitCode::from(1)
        }
    }
}
