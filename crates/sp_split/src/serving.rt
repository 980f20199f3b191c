// A splitter serves its instances, between an intake and an outlet.
ghost use Rattle.std.specs.Prelude.{◌≡◌, ◌≤◌, ◌+◌, ◌↔◌, ◌++◌, ◌∷◌, [], None, Some, true, false, length, IfOk, IfSome, IsSome, IsTrue, OnOk, OnErr};
ghost use Rattle.sp_ports.specs.Giving.{AreGood};
ghost use Rattle.sp_split.specs.Relieving.{AreDue, AreWithin, Relieved};
ghost use Rattle.sp_split.specs.Stopping.{IsThrough};
ghost use Rattle.sp_split.specs.Stretches.{IsUnderWay, ServesOn, Stretched};
ghost use Rattle.sp_split.specs.Stages.{Advanced, IsAdvanced};
ghost use Rattle.sp_splitter.specs.Stages.{matches_of};
ghost use Rattle.sp_instance.specs.Seats.{PutAll};
ghost use Rattle.sp_split.specs.Serving.{CameServing, Filled, IsServing, IsToWait, went_by};

use crate::driver::Driver;
use crate::feeding::{Fed, all_finished};
use crate::office::Office;
use crate::relay::{Relay, Team};
use crate::running::round;
use crate::{Memory, Went, Why};
use sp_core::{Core, CoreFault, Emitted};
use sp_hub::{Hub, Naming, Poster, Seat};
use sp_instance::{Gate, work_some};
use sp_lend::{Lending, Loan, Reading};
use sp_plan::Event;
use sp_ports::{Intake, Outlet};
use sp_splitter::Splitter;
use std::alloc::{AllocError, Global};
use std::sync::Wait;

/// A splitter, and the predictors that are to take the place of its own.
#[derive(Drop)]
pub(crate) struct Crewed<B: Lending> {
    pub(crate) splitter: Splitter<B>,
    pub(crate) relay: Relay,
}

/// A splitter with what it has at its hub: the poster, and a seat of its own.
#[derive(Drop)]
pub(crate) struct Desk<B: Lending, L: Naming> {
    pub(crate) splitter: Splitter<B>,
    pub(crate) by: Poster<Reading<B>, L>,
    pub(crate) seat: Seat<Reading<B>, L>,
}

/// What a splitter has left behind.
#[derive(Drop)]
pub(crate) struct Served<B: Lending, L: Naming> {
    /// The poster, which has closed the hub.
    pub(crate) by: Poster<Reading<B>, L>,
    pub(crate) seat: Seat<Reading<B>, L>,
    /// The predictors that are left.
    pub(crate) team: Team,
    /// How it ended. `Err` is want of memory while the core was fed: an event may be lost.
    pub(crate) end: Result<Went, Memory>,
}

// Whether a splitter that did so many jobs waits for a piece: only where it did none, one is out, and nothing else can
// be done before it comes home, since no event may be fed until a window is finished, or as many pieces are out as may be.
fn waits(helped: u32, waiting: u32, room: u32, must_wait: bool) -> bool
    ensures { IsTrue result ↔ IsToWait helped waiting room must_wait }
{
    helped == 0 && waiting != 0 && (must_wait || waiting == room)
}

// Does jobs that are listed, for which no instance is on its way, at most as many as may be out, and where jobs are dear one
// alone: each is read, and its piece put. Then waits for a piece where there is nothing else to do. That it stops where none
// is listed, and waits, no clause says: neither leaves anything at the seat.
fn help<B: Lending + Send, L: Naming, G: Gate, R: Wait>(
    office: &Office<'_, B, L, G, R>,
    by: &Poster<Reading<B>, L>,
    seat: &mut Seat<Reading<B>, L>,
    must_wait: bool,
    dear: bool,
)
    requires { seat.old.holding ≡ None }
    ensures free { seat.new.holding ≡ None }
    ensures put { PutAll seat.old seat.new }
    ensures few { seat.new.calls ≤ seat.old.calls + by.now.room }
{
    let room = by.room();
    let most = if dear { room.min(1) } else { room };
    let helped = work_some(office.rt, office.alloc, office.hub, seat, office.gate, most);
    if waits(helped, by.waiting(), room, must_wait) {
        office.hub.wait_home(office.rt, by);
    }
}

// Feeds a splitter the next event.
fn fill<B: Lending>(alloc: Global, splitter: &mut Splitter<B>, event: Event) -> Result<(), Memory>
    requires unended { splitter.old.core.machine.ended ≡ false }
    requires good { AreGood splitter.old.core.plan
        (splitter.old.core.machine.events ++ event ∷ []) }
    ensures filled { Filled splitter.old.core splitter.new.core }
    ensures fed { OnOk result (splitter.new.core.machine.events
        ≡ splitter.old.core.machine.events ++ event ∷ []) }
    ensures err { OnErr result (splitter.new.core.machine.events
        ≡ splitter.old.core.machine.events) }
    ensures unended { splitter.new.core.machine.ended ≡ false }
    ensures rest { splitter.new ≡ record splitter.old { core = splitter.new.core } }
{
    match splitter.feed(alloc, event) {
        Ok(_) => Ok(()),
        Err(CoreFault::Memory) => Err(AllocError),
        Err(CoreFault::Refused(_)) => unreachable!(),
    }
}

// Tells a splitter that input has ended.
fn tell_end<B: Lending>(splitter: &mut Splitter<B>)
    requires unended { splitter.old.core.machine.ended ≡ false }
    ensures filled { Filled splitter.old.core splitter.new.core }
    ensures events { splitter.new.core.machine.events ≡ splitter.old.core.machine.events }
    ensures ended { splitter.new.core.machine.ended ≡ true }
    ensures rest { splitter.new ≡ record splitter.old { core = splitter.new.core } }
{
    if splitter.end().is_err() {
        unreachable!()
    }
}

// Puts those to work that are due, one after another: a turn may have finished several windows. The ones that worked are
// dropped.
fn relieve<B: Lending>(splitter: &mut Splitter<B>, relay: &mut Relay)
    requires { AreWithin relay.old splitter.old.core.machine.finished }
    ensures relieved { Relieved (λ one. named one)
        (record { first = splitter.old.predictor; relay = relay.old })
        (record { first = splitter.new.predictor; relay = relay.new }) }
    ensures due { AreDue relay.new splitter.new.core.machine.finished }
    ensures rest { splitter.new ≡ record splitter.old { predictor = splitter.new.predictor } }
{
    while let Some(next) = relay.next(splitter.core().finished()) {
        drop(splitter.exchange(next));
    }
}

/// A splitter that works at its desk, with instances at the same hub, and the predictors that follow its own.
#[derive(Drop)]
pub(crate) struct Serving<'a, B: Lending, L: Naming, R: Wait> {
    pub(crate) rt: &'a R,
    pub(crate) hub: &'a Hub<Loan<B>, Reading<B>, L>,
    pub(crate) desk: Desk<B, L>,
    pub(crate) relay: Relay,
    /// How feeding ended last.
    pub(crate) fed: Fed,
}

impl<'a, B: Lending, L: Naming, R: Wait> Driver for Serving<'a, B, L, R> {
    ghost use Rattle.sp_split.specs.Relieving.{AreDue, Relieved};
    ghost use Rattle.sp_split.specs.Serving.{IsServing, CameServing, serving_came};

    type Team = Team;

    ghost core = { λ it. it.desk.splitter.core };

    ghost instances = { λ it. it.desk.splitter.instances };

    ghost batch = { λ it. it.desk.splitter.batch };

    ghost team = { λ it. record { first = it.desk.splitter.predictor; relay = it.relay } };

    ghost relieved = { λ old new. Relieved (λ one. (Predictor-box one).named one.value) old new };

    ghost ready = { λ it. IsServing it.desk.splitter.instances it.desk.splitter.batch it.desk.splitter.kept.items it.desk.splitter.core it.desk.by it.desk.seat
        × AreDue it.relay it.desk.splitter.core.machine.finished };

    ghost came = { λ it. CameServing it.desk.splitter.instances it.desk.splitter.batch it.desk.splitter.core it.desk.by };

    ghost ready_came = { λ it ready. serving_came it.desk.splitter.instances it.desk.splitter.batch it.desk.splitter.kept.items it.desk.splitter.core it.desk.by it.desk.seat ready.0 };

    fn core(&self) -> &Core {
        self.desk.splitter.core()
    }

    fn batch(&self) -> u32 {
        self.desk.splitter.batch
    }

    fn feed(&mut self, alloc: Global, event: Event) -> Result<(), Memory> {
        fill(alloc, &mut self.desk.splitter, event)
    }

    fn end(&mut self) {
        tell_end(&mut self.desk.splitter)
    }
}

impl<'a, B: Lending + Send, L: Naming, R: Wait> Serving<'a, B, L, R> {
    // A turn, behind which predictors that are due go to work.
    fn work(&mut self, alloc: Global) -> Result<Vec<Emitted>, Memory>
        requires ready { IsServing self.old.desk.splitter.instances self.old.desk.splitter.batch
            self.old.desk.splitter.kept.items self.old.desk.splitter.core
            self.old.desk.by self.old.desk.seat }
        requires due { AreDue self.old.relay self.old.desk.splitter.core.machine.finished }
        ensures relieved { Relieved (λ one. named one)
            (record { first = self.old.desk.splitter.predictor; relay = self.old.relay })
            (record { first = self.new.desk.splitter.predictor; relay = self.new.relay }) }
        ensures done { IfOk result (λ finished. Advanced self.old.desk.splitter.core
            self.new.desk.splitter.core (matches_of finished.items)) }
        ensures short { OnErr result (IsAdvanced self.old.desk.splitter.core
            self.new.desk.splitter.core) }
        ensures ready { OnOk result (IsServing self.new.desk.splitter.instances
            self.new.desk.splitter.batch self.new.desk.splitter.kept.items
            self.new.desk.splitter.core self.new.desk.by self.new.desk.seat
            × AreDue self.new.relay self.new.desk.splitter.core.machine.finished) }
        ensures came { CameServing self.new.desk.splitter.instances
            self.new.desk.splitter.batch self.new.desk.splitter.core self.new.desk.by }
        ensures terms { (self.new.desk.splitter.instances ≡ self.old.desk.splitter.instances)
            × (self.new.desk.splitter.batch ≡ self.old.desk.splitter.batch) }
    {
        let desk = &mut self.desk;
        let finished = desk.splitter.turn(self.rt, alloc, self.hub, &mut desk.by)?;
        relieve(&mut desk.splitter, &mut self.relay);
        Ok(finished)
    }
}

// Whether the last turn listed a job for which an instance is to be woken, where none was woken yet: any but its first one,
// which the splitter does itself, and each that is dear. Nothing but the time of a run rests on it.
fn wants_instance<B: Lending + Send, L: Naming>(desk: &Desk<B, L>) -> bool {
    desk.by.waiting() > 1 || desk.splitter.unheard.is_dear()
}

/// Round after round, until the run is over; answers how it ended. Before each round jobs are done that are listed, for
/// which no instance is on its way. A splitter that is alone yet also stops behind a round that wants an instance, and
/// answers nothing: what that round listed is left to be done. It never waits for a piece before, since it does each job
/// itself.
pub(crate) fn serve_on<I: Intake, O: Outlet, B: Lending + Send, L: Naming, G: Gate, R: Wait>(
    office: &Office<'_, B, L, G, R>,
    serving: &mut Serving<'_, B, L, R>,
    alone: bool,
    intake: &mut I,
    outlet: &mut O,
) -> Option<Result<Why, Memory>>
    requires ready { IsServing serving.old.desk.splitter.instances serving.old.desk.splitter.batch
        serving.old.desk.splitter.kept.items serving.old.desk.splitter.core
        serving.old.desk.by serving.old.desk.seat }
    requires due { AreDue serving.old.relay serving.old.desk.splitter.core.machine.finished }
    requires under_way { IsUnderWay I.gave I.asked I.ended I.stops I.cause I.plan intake.old
        serving.old.desk.splitter.core (O.state outlet.old) serving.old.fed }
    requires plan { O.plan outlet.old ≡ serving.old.desk.splitter.core.plan }
    ensures stretched { Stretched I.gave I.asked I.ended I.stops I.cause I.plan
        intake.old intake.new
        serving.old.desk.splitter.core serving.new.desk.splitter.core
        (O.state outlet.old) (O.state outlet.new) serving.old.fed serving.new.fed result }
    ensures came { CameServing serving.old.desk.splitter.instances
        serving.old.desk.splitter.batch serving.new.desk.splitter.core serving.new.desk.by }
    ensures ready { result ≡ None
        → IsServing serving.new.desk.splitter.instances serving.new.desk.splitter.batch
        serving.new.desk.splitter.kept.items serving.new.desk.splitter.core
        serving.new.desk.by serving.new.desk.seat
        × AreDue serving.new.relay serving.new.desk.splitter.core.machine.finished }
    ensures relieved { result ≡ None → Relieved (λ one. named one)
        (record { first = serving.old.desk.splitter.predictor; relay = serving.old.relay })
        (record { first = serving.new.desk.splitter.predictor; relay = serving.new.relay }) }
    ensures relieved_end { IfSome result (λ end. OnOk end (Relieved (λ one. named one)
        (record { first = serving.old.desk.splitter.predictor; relay = serving.old.relay })
        (record { first = serving.new.desk.splitter.predictor; relay = serving.new.relay }))) }
    ensures due { IfSome result (λ end. IfOk end (λ why. IsThrough (Some why)
        → AreDue serving.new.relay serving.new.desk.splitter.core.machine.finished)) }
    ensures ends { alone ≡ false → IsSome result }
    ensures terms { (serving.new.desk.splitter.instances ≡ serving.old.desk.splitter.instances)
        × (serving.new.desk.splitter.batch ≡ serving.old.desk.splitter.batch) }
    ensures same { (I.plan intake.new ≡ I.plan intake.old)
        × (I.token intake.new ≡ I.token intake.old) }
    ensures same_out { (O.plan outlet.new ≡ O.plan outlet.old)
        × (O.token outlet.new ≡ O.token outlet.old) }
{
    for _ in office.rt.forever() {
        let desk = &mut serving.desk;
        let must_wait = !matches!(serving.fed, Fed::More) && !all_finished(desk.splitter.core());
        let dear = desk.splitter.unheard.is_dear();
        help(office, &desk.by, &mut desk.seat, must_wait, dear);
        let last = serving.fed;
        let work = |serving: &mut Serving<'_, B, L, R>, alloc: Global|
            requires ready { IsServing serving.old.desk.splitter.instances
                serving.old.desk.splitter.batch serving.old.desk.splitter.kept.items
                serving.old.desk.splitter.core serving.old.desk.by serving.old.desk.seat }
            requires due { AreDue serving.old.relay
                serving.old.desk.splitter.core.machine.finished }
            ensures done { IfOk result (λ finished. Advanced serving.old.desk.splitter.core
                serving.new.desk.splitter.core (matches_of finished.items)) }
            ensures short { OnErr result (IsAdvanced serving.old.desk.splitter.core
                serving.new.desk.splitter.core) }
            ensures ready { OnOk result (IsServing serving.new.desk.splitter.instances
                serving.new.desk.splitter.batch serving.new.desk.splitter.kept.items
                serving.new.desk.splitter.core serving.new.desk.by serving.new.desk.seat
                × AreDue serving.new.relay serving.new.desk.splitter.core.machine.finished) }
            ensures came { CameServing serving.new.desk.splitter.instances
                serving.new.desk.splitter.batch serving.new.desk.splitter.core
                serving.new.desk.by }
            ensures relieved { Relieved (λ one. named one)
                (record {
                  first = serving.old.desk.splitter.predictor;
                  relay = serving.old.relay;
                })
                (record {
                  first = serving.new.desk.splitter.predictor;
                  relay = serving.new.relay;
                }) }
            ensures instances { serving.new.desk.splitter.instances
                ≡ serving.old.desk.splitter.instances }
            ensures batch { serving.new.desk.splitter.batch ≡ serving.old.desk.splitter.batch }
        { serving.work(alloc) };
        let round = match round(office.alloc, serving, work, last, intake, outlet) {
            Ok(round) => round,
            Err(AllocError) => return Some(Err(AllocError)),
        };
        serving.fed = round.fed;
        if let Some(why) = round.over {
            return Some(Ok(why));
        }
        if alone && wants_instance(&serving.desk) {
            return None;
        }
    }
    unreachable!()
}

// Closes the hub: no job is listed there any more.
fn shut<B: Lending + Send, L: Naming, G: Gate, R: Wait>(
    office: &Office<'_, B, L, G, R>,
    desk: &mut Desk<B, L>,
)
    requires open { desk.old.by.closed ≡ false }
    ensures closed { desk.new.by.closed ≡ true }
    ensures got { desk.new.by.got ≡ desk.old.by.got }
    ensures core { desk.new.splitter.core ≡ desk.old.splitter.core }
    ensures predictor { desk.new.splitter.predictor ≡ desk.old.splitter.predictor }
{
    office.hub.close(office.rt, &mut desk.by);
}

/// Behind the last round of a run that ended so the splitter closes its hub, and leaves what it has.
pub(crate) fn leave<B: Lending + Send, L: Naming, G: Gate, R: Wait>(
    office: &Office<'_, B, L, G, R>,
    serving: Serving<'_, B, L, R>,
    end: Result<Why, Memory>,
) -> Served<B, L>
    requires open { serving.desk.by.closed ≡ false }
    ensures closed { result.by.closed ≡ true }
    ensures got { result.by.got ≡ serving.entry.desk.by.got }
    ensures team { result.team
        ≡ record { first = serving.entry.desk.splitter.predictor; relay = serving.entry.relay } }
    ensures end { result.end ≡ went_by serving.entry.desk.splitter.core end }
{
    let Serving {
        mut desk,
        relay,
        ..
    } = serving;
    shut(office, &mut desk);
    let Desk { splitter, by, seat } = desk;
    let Splitter {
        core,
        predictor,
        ..
    } = splitter;
    let team = Team {
        first: predictor,
        relay,
    };
    let end = match end {
        Ok(why) => Ok(Went {
            core: core.into_core(),
            why,
        }),
        Err(AllocError) => Err(AllocError),
    };
    Served {
        by,
        seat,
        team,
        end,
    }
}

/// Goes on with a run from where it stands, until the intake gives no more and every closed window is finished, or a match
/// is refused, or memory runs out. Turn after turn events are fed, a turn is taken, predictors that are due go to work, the
/// matches of the windows that it finished are put, and then the splitter does jobs that are still listed. Behind the last
/// turn it closes its hub.
pub(crate) fn serve<I: Intake, O: Outlet, B: Lending + Send, L: Naming, G: Gate, R: Wait>(
    office: &Office<'_, B, L, G, R>,
    serving: Serving<'_, B, L, R>,
    intake: &mut I,
    outlet: &mut O,
) -> Served<B, L>
    requires ready { IsServing serving.desk.splitter.instances serving.desk.splitter.batch
        serving.desk.splitter.kept.items serving.desk.splitter.core
        serving.desk.by serving.desk.seat }
    requires due { AreDue serving.relay serving.desk.splitter.core.machine.finished }
    requires under_way { IsUnderWay I.gave I.asked I.ended I.stops I.cause I.plan intake.old
        serving.desk.splitter.core (O.state outlet.old) serving.fed }
    requires plan { O.plan outlet.old ≡ serving.desk.splitter.core.plan }
    ensures served { ServesOn I.gave I.asked I.ended I.stops I.cause I.plan
        intake.old intake.new serving.entry.desk.splitter.core
        (O.state outlet.old) (O.state outlet.new) serving.entry.fed
        serving.entry.desk.splitter.instances serving.entry.desk.splitter.batch
        result.end (length result.by.got) }
    ensures relieved { OnOk result.end (Relieved (λ one. named one)
        (record { first = serving.entry.desk.splitter.predictor; relay = serving.entry.relay })
        result.team) }
    ensures due { IfOk result.end (λ end. IsThrough (Some end.why)
        → AreDue result.team.relay end.core.machine.finished) }
    ensures closed { result.by.closed ≡ true }
    ensures same { (I.plan intake.new ≡ I.plan intake.old)
        × (I.token intake.new ≡ I.token intake.old) }
    ensures same_out { (O.plan outlet.new ≡ O.plan outlet.old)
        × (O.token outlet.new ≡ O.token outlet.old) }
{
    let mut serving = serving;
    let Some(end) = serve_on(office, &mut serving, false, intake, outlet) else {
        unreachable!()
    };
    leave(office, serving, end)
}
