ghost use Rattle.std.specs.Prelude.{◌≡◌, IfOk};

use crate::rooms::{Rooms, new_rooms};
use crate::{Memory, Spares};
use sp_match::Matcher;
use std::alloc::Global;
use std::marker::Model;
use std::sync::Arc;

/// A matcher that is lent: a handle of one that no longer changes, which several may hold, in different threads; or,
/// where it is small, a matcher of its own. One that served before goes along, if there is one, in whose rooms the
/// next copy may be made. Contracts see the matcher.
#[derive(Drop)]
pub struct Shared {
    pub(crate) handle: Option<Arc<Matcher>>,
    pub(crate) rooms: Box<Rooms>,
}

impl Model for Shared {
    ghost use Rattle.sp_match.specs.public.Matching.{Matching};

    ghost Value = { Matching };

    ghost use Rattle.sp_plan.specs.contracts.plan.Expr as expr;
    ghost use Rattle.sp_plan.specs.contracts.plan.Pred as pred;
    ghost use Rattle.std.specs.Coded.{codes};

    ghost coded = { Prim.hlevel (codes, expr.the_row.coded, pred.the_row.coded) };

    ghost use Rattle.sp_share.specs.Sharing.{IsBeside, held};

    ghost view = { λ s. held s.rooms.value.matcher s.handle };

    ghost invariant = { λ s. IsBeside s.rooms.value.matcher s.handle };
}

impl Shared {
    /// The matcher.
    pub fn get(&self) -> &Matcher
        ensures { result.now ≡ self.now }
    {
        match &self.handle {
            Some(handle) => handle,
            None => &self.rooms.matcher,
        }
    }

    /// The same once more: by one handle more, and no copy of its runs, or by a copy where it has no handle. What served
    /// before doesn't go along.
    pub fn again(&self, alloc: Global) -> Result<Shared, Memory>
        ensures { IfOk result (λ shared. shared ≡ self.now) }
    {
        let rooms = new_rooms(alloc, &self.rooms.matcher)?;
        match &self.handle {
            Some(handle) => Ok(Shared {
                handle: Some(Arc::try_clone(handle)?),
                rooms,
            }),
            None => Ok(Shared {
                handle: None,
                rooms,
            }),
        }
    }

    /// The matcher that served before, if there is one. Letting its runs go may take as long as copying them did.
    pub fn take_worn(&mut self) -> Option<Matcher>
        ensures { self.new ≡ self.old }
    {
        self.rooms.worn.take()
    }

    // Sees to it that one that served before goes along, if there is a spare one.
    pub(crate) fn furnish(&mut self, spares: &mut Spares)
        ensures { self.new ≡ self.old }
    {
        if self.rooms.worn.is_none() {
            self.rooms.worn = spares.take();
        }
    }

    /// It serves no more: the matcher is a spare one from then on, if nobody else holds it, and so is the one that served
    /// before. Takes no memory.
    pub fn retire(self, spares: &mut Spares) {
        let Shared { handle, rooms } = self;
        let Rooms { matcher, worn } = Box::into_inner(rooms);
        spares.keep_held(matcher, handle);
        spares.keep_some(worn);
    }
}
