//! The worked rows: runs the sheets that the arguments name, by the top call over objects in memory. docs/rows.md
//! describes them.
#![tactic(auto)]

mod counting;
mod gates;
mod hostile;
mod program;

use program::outcome;
use sp_sheet::{Row, Way, read_sheet};
use std::process::ExitCode;
use std::sync::Wait;
use std::thread::Threads;
use std::{env, io};

// Makes a row's calls, and answers whether what came of each is what the row says.
fn run_row<R: Threads + Wait + Sync>(
    threads: &R,
    rt: HostRuntime,
    sheet: &str,
    row: &mut Row,
) -> io::Result<bool> {
    let mut is_well = true;
    for way in [Way::Plain, Way::Alone, Way::Written] {
        if let Some(call) = row.call(rt.alloc(), way)? {
            let came = outcome(threads, rt.alloc(), call)?;
            is_well &= row.take(rt, sheet, way, came)?;
        }
    }
    Ok(is_well)
}

// Runs a sheet's rows, tells those that differ, and prints how many there are where none does; answers whether all
// came as they say.
fn run_sheet<R: Threads + Wait + Sync>(
    threads: &R,
    rt: HostRuntime,
    sheet: &str,
) -> io::Result<bool> {
    let Some(mut rows) = read_sheet(rt, sheet)? else {
        return Ok(false);
    };
    let mut is_well = true;
    for row in &mut rows {
        is_well &= run_row(threads, rt, sheet, row)?;
    }
    if is_well {
        println!(rt; "{sheet}: {} rows, all as expected", rows.len())?;
    }
    Ok(is_well)
}

fn main(rt: HostRuntime) -> io::Result<ExitCode> {
    let mut is_well = true;
    for sheet in env::args(&rt)?.skip(1) {
        is_well &= run_sheet(&rt, rt, sheet.as_str())?;
    }
    Ok(ExitCode::from(u8::from(!is_well)))
}
