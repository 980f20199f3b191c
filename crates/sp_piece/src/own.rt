ghost use Rattle.std.specs.Prelude.{◌≡◌, None, Some, IfOk, OnOk, OnErr};
ghost use Rattle.sp_piece.specs.Keeping.{current};

use crate::Memory;
use sp_match::Matcher;
use std::alloc::Global;
use std::marker::Model;

/// The matcher of a piece, or rooms for it until there is one. Contracts see the matcher, if there is one.
#[derive(Drop)]
pub(crate) struct Own {
    pub(crate) place: Place,
}

/// What stands in the place of a piece's matcher.
#[derive(Drop)]
pub(crate) enum Place {
    /// None yet: one that served before, if there is one, in whose rooms it can be made.
    Rooms(Option<Matcher>),
    Begun(Matcher),
}

impl Model for Own {
    ghost use Rattle.std.specs.Prelude.{Option};
    ghost use Rattle.sp_match.specs.public.Matching.{Matching};

    ghost Value = { Option Matching };

    ghost use Rattle.sp_plan.specs.contracts.plan.Expr as expr;
    ghost use Rattle.sp_plan.specs.contracts.plan.Pred as pred;
    ghost use Rattle.std.specs.Coded.{codes};

    ghost coded = { Prim.hlevel (codes, expr.the_row.coded, pred.the_row.coded) };

    ghost use Rattle.sp_piece.specs.Begun.{begun};

    ghost view = { λ own. begun own.place };
}

// A copy of the matcher, in the rooms of one that served before, if there is one.
fn copy_of(alloc: Global, matcher: &Matcher, rooms: Option<Matcher>) -> Result<Matcher, Memory>
    ensures { IfOk result (λ m. m ≡ matcher.now) }
{
    match rooms {
        Some(rooms) => matcher.copy_in(alloc, rooms),
        None => matcher.copy(alloc),
    }
}

impl Own {
    /// None yet. Where one served before, it can be made in the rooms of that.
    pub(crate) fn new(rooms: Option<Matcher>) -> Own
        ensures { result ≡ None }
    {
        Own {
            place: Place::Rooms(rooms),
        }
    }

    /// The matcher that goes on: the one before until there is another.
    pub(crate) fn led<'a>(&'a self, before: &'a Matcher) -> &'a Matcher
        ensures { result.now ≡ current self.now before.now }
    {
        match &self.place {
            Place::Rooms(_) => before,
            Place::Begun(matcher) => matcher,
        }
    }

    /// Sees to it that there is a matcher that goes on: where there is none, a copy of the one before.
    pub(crate) fn begin(&mut self, alloc: Global, before: &Matcher) -> Result<(), Memory>
        ensures there { OnOk result (self.new ≡ Some (current self.old before.now)) }
        ensures err { OnErr result (self.new ≡ self.old) }
    {
        if let Place::Rooms(rooms) = &mut self.place {
            let rooms = rooms.take();
            self.place = Place::Begun(copy_of(alloc, before, rooms)?);
        }
        Ok(())
    }

    /// Takes the rooms out in which no matcher was made.
    pub(crate) fn take_rooms(&mut self) -> Option<Matcher>
        ensures { self.new ≡ self.old }
    {
        match &mut self.place {
            Place::Rooms(rooms) => rooms.take(),
            Place::Begun(_) => None,
        }
    }

    /// The matcher, or the rooms for it.
    pub(crate) fn into_rooms(self) -> Option<Matcher> {
        match self.place {
            Place::Rooms(rooms) => rooms,
            Place::Begun(matcher) => Some(matcher),
        }
    }

    /// The matcher, if there is one.
    pub(crate) fn into_matcher(self) -> Option<Matcher>
        ensures { result ≡ self }
    {
        match self.place {
            Place::Rooms(_) => None,
            Place::Begun(matcher) => Some(matcher),
        }
    }

    /// A copy of the matcher, if there is one.
    pub(crate) fn copy(&self, alloc: Global) -> Result<Option<Matcher>, Memory>
        ensures { IfOk result (λ matcher. matcher ≡ self.now) }
    {
        match &self.place {
            Place::Rooms(_) => Ok(None),
            Place::Begun(matcher) => Ok(Some(matcher.copy(alloc)?)),
        }
    }

    /// Puts a matcher into the place, or none.
    pub(crate) fn set(&mut self, matcher: Option<Matcher>)
        ensures { self.new ≡ matcher }
    {
        self.place = match matcher {
            Some(matcher) => Place::Begun(matcher),
            None => Place::Rooms(None),
        };
    }
}
