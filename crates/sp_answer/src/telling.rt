// The line of a status, written to the error output.
ghost use Rattle.std.specs.Prelude.{◌≡◌, ◌⊎◌, []};
ghost use Rattle.sp_io.specs.Outside.{Grew, GrewWithin, Rose};
ghost use Rattle.sp_answer.specs.Outcome.{line_of};
ghost use Rattle.sp_answer.specs.Written.{TellsLine};

use crate::status::Status;
use sp_io::Sink;
use std::alloc::Global;

// Writes a line, where it isn't empty. A fault is dropped.
fn write_line<E: Sink>(line: &str, err: &mut E)
    ensures line { (Rose (E.state err.old).faults (E.state err.new).faults → ⊥)
        → Grew (E.state err.old).held line.now (E.state err.new).held }
    ensures front { GrewWithin (E.state err.old).held line.now (E.state err.new).held }
    ensures silent { line.now ≡ [] → E.state err.new ≡ E.state err.old }
{
    if !line.is_empty() {
        let _ = err.write_all(line.as_bytes());
    }
}

/// Writes the line of a status, and answers the status: want of memory where there was none for the line.
pub fn tell<E: Sink>(alloc: Global, status: Status, err: &mut E) -> Status
    ensures status { (result ≡ status) ⊎ (result ≡ Status.Memory) }
    ensures line { TellsLine (line_of result) (E.state err.old) (E.state err.new) }
{
    match status.line(alloc) {
        Ok(line) => {
            write_line(line.as_str(), err);
            status
        }
        Err(_) => {
            write_line("memory\n", err);
            Status::Memory
        }
    }
}
