// The speculative machine, stepped by lines: each names a step of a core, and is answered by a line.
ghost use Rattle.std.specs.Prelude.{◌<◌, length, IfSome};
ghost use Rattle.std.specs.Arc.{arc_value};
ghost use Rattle.sp_plan.specs.Compiled.{IsCompiled};

use crate::given::{long_number, number, numbers_of};
use crate::spoiling::{with_other_event, with_other_matcher};
use crate::standing::{push_children, push_path};
use crate::stepping::{conflict_of, feed_next};
use crate::text::AnswerText;
use sp_core::{Core, CoreFault, Emitted, Given};
use sp_emit::match_line;
use sp_group::{Label, Refusal};
use sp_piece::{Job, Piece, Stepped};
use sp_plan::{Event, Plan};
use std::alloc::{AllocError, Global};
use std::sync::Arc;

// A core, the events of which it is fed the next one, and the pieces that are out.
#[derive(Drop)]
struct Bench<'a> {
    core: Core,
    events: &'a [Event],
    pieces: Vec<Piece>,
}

// Appends the values of a refusal.
fn push_values(refusal: &Refusal, out: &mut AnswerText) {
    match *refusal {
        Refusal::AfterEnd => {}
        Refusal::NotLive { version } | Refusal::NoConflict { version } => {
            out.number(" ", i128::from(version));
        }
        Refusal::LabelTaken { child } => out.number(" ", i128::from(child)),
        Refusal::Out { ticket } | Refusal::NoTicket { ticket } => {
            out.number(" ", i128::from(ticket));
        }
        Refusal::Full { live, bound } => {
            out.number(" ", i128::from(live));
            out.number(" ", i128::from(bound));
        }
        Refusal::NotOpen { group: number }
        | Refusal::NoWindow { number }
        | Refusal::Conflict { event: number }
        | Refusal::NothingToRead { position: number }
        | Refusal::NotDone { finished: number }
        | Refusal::TooManyEvents { limit: number } => out.number(" ", i128::from(number)),
    }
}

// Appends that a step was refused.
fn push_refusal(step: &str, refusal: &Refusal, out: &mut AnswerText) {
    out.text(step);
    out.number(" refused ", i128::from(refusal.code()));
    push_values(refusal, out);
    out.text("\n");
}

// Appends that a step was refused, where it was not for want of memory.
fn push_fault(step: &str, fault: &CoreFault, out: &mut AnswerText) -> Result<(), AllocError> {
    match fault {
        CoreFault::Refused(refusal) => Ok(push_refusal(step, refusal, out)),
        CoreFault::Memory => Err(AllocError),
    }
}

// Appends what was lent.
fn push_job(job: &Job, out: &mut AnswerText) {
    out.number("lease ", i128::from(job.ticket));
    out.number(" first=", i128::from(job.first));
    out.number(" count=", job.events.as_slice().len() as i128);
    out.text(" skip=");
    out.commas(job.snapshot.list());
    out.last(" closes=", u64::from(job.closes));
}

// Where the piece of a ticket stands.
fn place_of(pieces: &[Piece], ticket: u64) -> Option<usize>
    ensures { IfSome result (λ place. place < length pieces.now) }
{
    for place in 0..pieces.len() {
        if pieces[place].job().ticket == ticket {
            return Some(place);
        }
    }
    None
}

// Appends what came of a piece that was given back, with the version or the ticket that the answer names.
fn push_given(given: &Result<Given, Piece>, out: &mut AnswerText) -> Result<(), AllocError> {
    match given {
        Ok(Given::Home) => out.text(" home\n"),
        Ok(Given::Stale { version }) => out.last(" stale ", *version),
        Ok(Given::NotOut { ticket }) => out.last(" out ", *ticket),
        Ok(Given::Differs { .. }) => out.text(" differs\n"),
        Err(_) => return Err(AllocError),
    }
    Ok(())
}

// Appends a finished window, and the lines of its matches.
fn push_emitted(
    alloc: Global,
    plan: &Plan,
    emitted: &Emitted,
    out: &mut AnswerText,
) -> Result<(), AllocError> {
    out.number("finish ", i128::from(emitted.window));
    out.number(" matches=", emitted.matches.len() as i128);
    match emitted.root {
        Some(root) => out.last(" root=", root),
        None => out.text(" root=-\n"),
    }
    for one in &emitted.matches {
        out.made(match_line(alloc, plan, one));
    }
    Ok(())
}

impl Bench<'_> {
    // The next event, if there is one.
    fn feed(&mut self, alloc: Global, out: &mut AnswerText) -> Result<(), AllocError> {
        let Some(event) = self.events.get(self.core.events().len()) else {
            return Ok(out.text("feed none\n"));
        };
        match feed_next(alloc, &mut self.core, event.copy(alloc)?) {
            Ok(Some(number)) => Ok(out.last("feed ", u64::from(number))),
            Ok(None) => Ok(out.text("feed of an event that does not fit\n")),
            Err(fault) => push_fault("feed", &fault, out),
        }
    }

    // The end of input.
    fn end(&mut self, out: &mut AnswerText) {
        match self.core.end() {
            Ok(()) => out.text("end\n"),
            Err(refusal) => push_refusal("end", &refusal, out),
        }
    }

    // A fresh version, with the label that a text lists.
    fn spawn(
        &mut self,
        alloc: Global,
        parent: Option<u64>,
        label: &str,
        out: &mut AnswerText,
    ) -> Result<(), AllocError> {
        let runs = numbers_of(alloc, label)?;
        let Some(label) = Label::new(alloc, &runs)? else {
            return Ok(out.text("no label\n"));
        };
        match self.core.spawn(alloc, parent, label) {
            Ok(id) => Ok(out.last("spawn ", id)),
            Err(fault) => push_fault("spawn", &fault, out),
        }
    }

    // A lease of as many events as a text says.
    fn lease(
        &mut self,
        alloc: Global,
        version: u64,
        count: u64,
        out: &mut AnswerText,
    ) -> Result<(), AllocError> {
        if count < 1 || 1024 < count {
            return Ok(out.text("lease of a wrong count\n"));
        }
        match self.core.lease(alloc, version, count as u32) {
            Ok(job) => {
                push_job(&job, out);
                self.pieces.push(Piece::start(alloc, job))?;
                Ok(())
            }
            Err(fault) => push_fault("lease", &fault, out),
        }
    }

    // The piece of a ticket reads its next event, or the closing.
    fn read(&mut self, alloc: Global, ticket: u64, out: &mut AnswerText) -> Result<(), AllocError> {
        let Some(place) = place_of(&self.pieces, ticket) else {
            return Ok(push_refusal("event", &Refusal::NoTicket { ticket }, out));
        };
        let piece = &mut self.pieces[place];
        let stepped = piece.step(alloc)?;
        let position = piece.read();
        if stepped == Stepped::Finished {
            return Ok(push_refusal("event", &Refusal::NothingToRead { position }, out));
        }
        out.number("event ", i128::from(ticket));
        match stepped {
            Stepped::Read { number, skipped } => {
                out.number(" ", i128::from(number));
                out.text(if skipped { " skip\n" } else { "\n" });
            }
            _ => out.text(" close\n"),
        }
        Ok(())
    }

    // A piece is given back.
    fn give(
        &mut self,
        alloc: Global,
        ticket: u64,
        piece: Piece,
        out: &mut AnswerText,
    ) -> Result<(), AllocError> {
        let given = self.core.give_back(alloc, piece);
        out.number("return ", i128::from(ticket));
        let pushed = push_given(&given, out);
        drop(given);
        pushed
    }

    // The piece of a ticket is given back.
    fn give_back(
        &mut self,
        alloc: Global,
        ticket: u64,
        out: &mut AnswerText,
    ) -> Result<(), AllocError> {
        match place_of(&self.pieces, ticket) {
            Some(place) => {
                let piece = self.pieces.remove(place);
                self.give(alloc, ticket, piece, out)
            }
            None => Ok(push_refusal("return", &Refusal::NoTicket { ticket }, out)),
        }
    }

    // A piece is given back that differs from the one of a ticket, which stays, in an event or in the matcher.
    fn spoil(
        &mut self,
        alloc: Global,
        ticket: u64,
        what: &str,
        out: &mut AnswerText,
    ) -> Result<(), AllocError> {
        let Some(place) = place_of(&self.pieces, ticket) else {
            return Ok(push_refusal("spoil", &Refusal::NoTicket { ticket }, out));
        };
        let job = self.pieces[place].job();
        let spoiled = if what == "event" {
            with_other_event(alloc, job)?
        } else {
            with_other_matcher(alloc, job)?
        };
        match spoiled {
            Some(job) => self.give(alloc, ticket, Piece::start(alloc, job), out),
            None => Ok(out.text("nothing to spoil\n")),
        }
    }

    // A version begins anew.
    fn roll(&mut self, version: u64, out: &mut AnswerText) {
        match self.core.roll(version) {
            Ok(id) => {
                out.number("roll ", i128::from(version));
                out.last(" ", id);
            }
            Err(refusal) => push_refusal("roll", &refusal, out),
        }
    }

    // The root is finished.
    fn finish(&mut self, alloc: Global, out: &mut AnswerText) -> Result<(), AllocError> {
        match self.core.finish() {
            Ok(emitted) => {
                let pushed = push_emitted(alloc, self.core.plan(), &emitted, out);
                drop(emitted);
                pushed
            }
            Err(refusal) => Ok(push_refusal("finish", &refusal, out)),
        }
    }

    // The conflict of a version.
    fn conflict(&self, version: u64, out: &mut AnswerText) -> Result<(), AllocError> {
        match conflict_of(&self.core, version)? {
            Some(event) => out.last("conflict ", u64::from(event)),
            None => out.text("conflict -\n"),
        }
        Ok(())
    }

    // The path of edges down to a version.
    fn path(&self, alloc: Global, version: u64, out: &mut AnswerText) -> Result<(), AllocError> {
        out.number("path ", i128::from(version));
        push_path(alloc, self.core.tree(), version, out)
    }

    // The children of a version.
    fn children(
        &self,
        alloc: Global,
        version: u64,
        out: &mut AnswerText,
    ) -> Result<(), AllocError> {
        out.number("children ", i128::from(version));
        push_children(alloc, self.core.tree(), version, out)
    }

    // The versions that can be leased.
    fn ready(&self, alloc: Global, out: &mut AnswerText) -> Result<(), AllocError> {
        let ids = self.core.ready(alloc)?;
        out.text(if ids.is_empty() { "ready -" } else { "ready" });
        let mut before = " ";
        for id in &ids {
            out.number(before, i128::from(*id));
            before = ",";
        }
        out.text("\n");
        Ok(())
    }

    // Does the step of a line.
    fn step(&mut self, alloc: Global, line: &str, out: &mut AnswerText) -> Result<(), AllocError> {
        let (step, values) = line.split_once(' ').unwrap_or((line, ""));
        match step {
            "feed" => self.feed(alloc, out),
            "end" => Ok(self.end(out)),
            "finish" => self.finish(alloc, out),
            "ready" => self.ready(alloc, out),
            "spawn" if values == "root" => self.spawn(alloc, None, "-", out),
            _ => {
                let (first, second) = values.split_once(' ').unwrap_or((values, ""));
                self.step_of(alloc, step, long_number(first), second, out)
            }
        }
    }

    // Does the step of this name for the version or the ticket of a number.
    fn step_of(
        &mut self,
        alloc: Global,
        step: &str,
        of: u64,
        value: &str,
        out: &mut AnswerText,
    ) -> Result<(), AllocError> {
        match step {
            "spawn" => self.spawn(alloc, Some(of), value, out),
            "lease" => self.lease(alloc, of, long_number(value), out),
            "event" => self.read(alloc, of, out),
            "return" => self.give_back(alloc, of, out),
            "spoil" => self.spoil(alloc, of, value, out),
            "roll" => Ok(self.roll(of, out)),
            "conflict" => self.conflict(of, out),
            "path" => self.path(alloc, of, out),
            "children" => self.children(alloc, of, out),
            _ => Ok(out.text("no such step\n")),
        }
    }

    // Does the steps of the lines.
    fn steps(
        &mut self,
        alloc: Global,
        lines: &[String],
        out: &mut AnswerText,
    ) -> Result<(), AllocError> {
        for line in lines {
            self.step(alloc, line.as_str(), out)?;
        }
        Ok(())
    }
}

/// Appends what the steps of a core answer that the words behind the query name, one a word; the first
/// of these words says how many versions may be live.
pub(crate) fn machine(
    alloc: Global,
    plan: &Arc<Plan>,
    events: &[Event],
    words: &[String],
    out: &mut AnswerText,
) -> Result<(), AllocError>
    requires { IsCompiled (arc_value plan.now) }
{
    let [_, bound, lines @ ..] = words else {
        return Ok(out.text("no bound\n"));
    };
    let bound = number(bound.as_str()).clamp(1, 4096);
    let core = Core::new(alloc, plan.clone()?, bound)?;
    let pieces = Vec::new(alloc);
    let mut bench = Bench {
        core,
        events,
        pieces,
    };
    let stepped = bench.steps(alloc, lines, out);
    drop(bench);
    stepped
}
