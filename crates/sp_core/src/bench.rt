ghost use Rattle.std.specs.Prelude.{◌≡◌, [], map, reverse, IfOk, IfErr, OnOk, OnErr};
ghost use Rattle.sp_core.specs.Benched.{CanTake, IsAnswerTo, IsBenchFault, IsTaken, benched};
ghost use Rattle.sp_core.specs.OnBench.{ticket_in, unread};
ghost use Rattle.sp_group.specs.Seen.{seen, seen_ticket, state_seen, ticket_seen};
ghost use Rattle.sp_rules.specs.Schedules.{Reached};

use crate::{Answer, Core, CoreFault, Memory, law};
use sp_group::{State, Step, TicketLine};
use sp_piece::Piece;
use sp_plan::Listed;
use std::alloc::Global;
use std::marker::Model;

/// A core with its pieces that are out, each held where it is read. Contracts see the plan, the bound, and the
/// whole state of the machine, how far each ticket is read among it.
#[derive(Drop)]
pub struct Bench {
    pub(crate) core: Core,
    // A piece for each ticket that is out, the newest first.
    pub(crate) pieces: Vec<Piece>,
}

impl Model for Bench {
    ghost use Rattle.sp_core.specs.Benched.{Benched};

    ghost Value = { Benched };

    ghost use Rattle.sp_plan.specs.contracts.plan.Expr as expr;
    ghost use Rattle.sp_plan.specs.contracts.plan.Pred as pred;
    ghost use Rattle.std.specs.Coded.{codes};

    ghost coded = { Prim.hlevel (codes, expr.the_row.coded, pred.the_row.coded) };

    ghost use Rattle.sp_core.specs.OnBench.{IsOnBench, on_bench};

    ghost view = { λ b. on_bench b.core b.pieces.items };

    ghost invariant = { λ b. IsOnBench b.core b.pieces.items };
}

// The lines of tickets with how far their pieces are read. The oldest line stands first, and the newest piece.
fn with_readings(tickets: Listed<TicketLine>, pieces: &[Piece]) -> Listed<TicketLine>
    requires { map seen_ticket tickets
        ≡ reverse (map ticket_seen (map unread (map ticket_in pieces.now))) }
    ensures { map seen_ticket result ≡ reverse (map ticket_seen (map ticket_in pieces.now)) }
{
    let mut lines = tickets.into_vec();
    for i in 0..lines.len() {
        let place = pieces.len() - 1 - i;
        lines[i].read = pieces[place].read();
    }
    Listed::of(lines)
}

impl Bench {
    /// Puts a core on the bench, no ticket of which is out.
    pub fn new(alloc: Global, core: Core) -> Result<Bench, Memory>
        requires none_out { core.machine.tickets ≡ [] }
        ensures { IfOk result (λ bench. bench ≡ benched core) }
    {
        // It tells what every core keeps.
        let _ = &core.plan;
        Ok(Bench {
            core,
            pieces: Vec::new(alloc),
        })
    }

    /// Takes a step: an event that is fed fits the plan, and its time is not before the last one's; a lease asks
    /// for 1 to 1,024 events. The step is refused where the definition refuses it, with the same values, and else
    /// its answer and the new state are the definition's; a reading and a return are refused with `NoTicket`
    /// where their ticket is not out. After a fault the bench is as before.
    pub fn step(&mut self, alloc: Global, step: Step) -> Result<Answer, CoreFault>
        requires { CanTake self.old step }
        ensures done { OnOk result (IsTaken step self.old self.new) }
        ensures answer { IfOk result (IsAnswerTo self.old step) }
        ensures err { OnErr result (self.new ≡ self.old) }
        ensures fault { IfErr result (IsBenchFault self.old step) }
    {
        match step {
            Step::Feed(event) => self.feed(alloc, event),
            Step::End => self.end(),
            Step::Spawn { parent, label } => self.spawn(alloc, parent, label),
            Step::Lease { version, count } => self.lease(alloc, version, count),
            Step::Event { ticket } => self.read(alloc, ticket),
            Step::Return { ticket } => self.give_back(alloc, ticket),
            Step::Roll { version } => self.roll(version),
            Step::Finish => self.finish(),
        }
    }

    /// The state as it is printed, with how far each ticket is read. It is one to which steps lead, and keeps
    /// what each of these keeps.
    pub fn state(&self, alloc: Global) -> Result<State, Memory>
        ensures state { IfOk result (λ s. seen s ≡ state_seen self.now.plan self.now.machine) }
        ensures reached { Reached self.now.plan self.now.bound self.now.machine }
    {
        law::bench_laws();
        let mut state = self.core.state(alloc)?;
        state.tickets = with_readings(state.tickets, &self.pieces);
        Ok(state)
    }
}
