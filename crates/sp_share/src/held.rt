ghost use Rattle.std.specs.Prelude.{◌≡◌, [], IfOk};
ghost use Rattle.std.specs.Arc.{arc_value};
ghost use Rattle.sp_share.specs.Sharing.{IsFresh};

use crate::rooms::{Rooms, empty_rooms, rooms_with};
use crate::{Memory, Shared, Spares};
use sp_match::Matcher;
use std::alloc::{AllocError, AllocFailed, Global};
use std::marker::Model;
use std::mem;
use std::sync::Arc;

/// The matcher of a version: its own, or lent by a handle. Contracts see the matcher.
#[derive(Drop)]
pub struct Held {
    // its own; where it is lent by a handle, one of the same plan that has read nothing, which is what it becomes by
    // clearing
    matcher: Matcher,
    handle: Option<Arc<Matcher>>,
    // what is at hand for lending it next, with a matcher of the same plan
    rooms: Option<Box<Rooms>>,
}

impl Model for Held {
    ghost use Rattle.std.specs.Prelude.{◌≡◌, IfSome};
    ghost use Rattle.sp_match.specs.public.Matching.{Matching};

    ghost Value = { Matching };

    ghost use Rattle.sp_plan.specs.contracts.plan.Expr as expr;
    ghost use Rattle.sp_plan.specs.contracts.plan.Pred as pred;
    ghost use Rattle.std.specs.Coded.{codes};

    ghost coded = { Prim.hlevel (codes, expr.the_row.coded, pred.the_row.coded) };

    ghost use Rattle.sp_share.specs.Sharing.{IsBeside, held};

    ghost view = { λ h. held h.matcher h.handle };

    ghost invariant = { λ h. IsBeside h.matcher h.handle
        × IfSome h.rooms (λ rooms. rooms.value.matcher.plan ≡ h.matcher.plan) };
}

// Whether a copy costs less than a handle does, as measured: where few runs are open, with few events each.
fn is_small(matcher: &Matcher) -> bool {
    let runs = matcher.open_runs();
    runs.len() <= 2 && runs.iter().all(|run| run.bound.len() <= 32)
}

impl Held {
    /// A matcher of its own. Takes no memory.
    pub fn new(matcher: Matcher) -> Held
        ensures { result ≡ matcher }
    {
        Held {
            matcher,
            handle: None,
            rooms: None,
        }
    }

    /// One that was lent. Takes no memory.
    pub fn of(shared: Shared) -> Held
        ensures { result ≡ shared }
    {
        let Shared { handle, rooms } = shared;
        let Rooms { matcher, worn: _ } = Box::into_inner(rooms);
        Held {
            matcher,
            handle,
            rooms: None,
        }
    }

    /// What a reading led to from what was lent. What went along with that serves again, and so does what was lent, if
    /// nobody else holds it: it goes along when this one is lent next. Takes no memory.
    pub fn led(matcher: Matcher, before: Shared) -> Held
        requires { matcher.plan ≡ before.plan }
        ensures { result ≡ matcher }
    {
        let Shared { handle, mut rooms } = before;
        let alloc = *Box::allocator(&rooms);
        match handle {
            Some(handle) => rooms.worn = Arc::into_inner(handle),
            None => rooms.put_aside(alloc),
        }
        Held {
            matcher,
            handle: None,
            rooms: Some(rooms),
        }
    }

    /// The matcher.
    pub fn get(&self) -> &Matcher
        ensures { result.now ≡ self.now }
    {
        match &self.handle {
            Some(handle) => handle,
            None => &self.matcher,
        }
    }

    /// Forgets all runs. Takes no memory.
    pub fn clear(&mut self)
        ensures plan { self.new.plan ≡ self.old.plan }
        ensures none { self.new.open_runs ≡ [] }
        ensures count { self.new.started ≡ 0 }
    {
        self.handle = None;
        self.matcher.clear();
    }

    /// It serves no more, and is not lent: it is a spare one from then on, if nobody else holds it, and so is what was
    /// at hand for lending it. Takes no memory.
    pub fn retire(self, spares: &mut Spares) {
        let Held {
            matcher,
            handle,
            rooms,
        } = self;
        spares.keep_held(matcher, handle);
        if let Some(rooms) = rooms {
            spares.keep_some(Box::into_inner(rooms).worn);
        }
    }

    /// Lends it: by a handle of it, and no copy of its runs, or by a copy where it is small. One that served before
    /// goes along, or a spare one. After want of memory it is as before.
    pub fn lend(&mut self, alloc: Global, spares: &mut Spares) -> Result<Shared, Memory>
        ensures same { self.new ≡ self.old }
        ensures lent { IfOk result (λ shared. shared ≡ self.old) }
    {
        let mut shared = self.lend_bare(alloc)?;
        shared.furnish(spares);
        Ok(shared)
    }

    // Lends it, and with it one that served before if it is at hand.
    fn lend_bare(&mut self, alloc: Global) -> Result<Shared, Memory>
        ensures same { self.new ≡ self.old }
        ensures lent { IfOk result (λ shared. shared ≡ self.old) }
    {
        if self.handle.is_none() && is_small(&self.matcher) {
            // It keeps the copy, which is let go when a piece comes home, and the rooms of its own go around.
            let copy = self.matcher.copy(alloc)?;
            let own = mem::replace(&mut self.matcher, copy);
            return Ok(Shared {
                handle: None,
                rooms: rooms_with(alloc, self.rooms.take(), own)?,
            });
        }
        let rooms = empty_rooms(alloc, self.rooms.take(), &self.matcher)?;
        let handle = self.share(alloc, &rooms.matcher)?;
        Ok(Shared {
            handle: Some(handle),
            rooms,
        })
    }

    // A handle of it; a copy of the fresh one is what it becomes by clearing.
    fn share(&mut self, alloc: Global, fresh: &Matcher) -> Result<Arc<Matcher>, Memory>
        requires { IsFresh fresh.now self.old }
        ensures same { self.new ≡ self.old }
        ensures lent { IfOk result (λ handle. arc_value handle ≡ self.old) }
    {
        if let Some(handle) = &self.handle {
            return Arc::try_clone(handle);
        }
        let fresh = fresh.copy(alloc)?;
        let own = mem::replace(&mut self.matcher, fresh);
        match Arc::new(alloc, own) {
            Ok(handle) => {
                let lent = Arc::try_clone(&handle);
                self.handle = Some(handle);
                lent
            }
            Err(AllocFailed { value }) => {
                self.matcher = value;
                Err(AllocError)
            }
        }
    }
}
