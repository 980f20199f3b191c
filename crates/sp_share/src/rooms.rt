ghost use Rattle.std.specs.Prelude.{◌≡◌, IfOk, IfSome};
ghost use Rattle.sp_share.specs.Sharing.{IsFresh};

use crate::Memory;
use sp_match::Matcher;
use std::alloc::Global;
use std::mem;

/// What goes along with a matcher that is lent, in one box that comes home with what was read, and is used again: so
/// what moves from hand to hand is small, and a box is made rarely.
#[derive(Drop)]
pub(crate) struct Rooms {
    /// The lent one, where it is lent without a handle; else one of the same plan that has read nothing.
    pub(crate) matcher: Matcher,
    /// One that served before, for its rooms.
    pub(crate) worn: Option<Matcher>,
}

impl Rooms {
    /// The matcher that was lent serves by its rooms from now on, and one that has read nothing stands in its place.
    pub(crate) fn put_aside(&mut self, alloc: Global)
        ensures { self.new.matcher.plan ≡ self.old.matcher.plan }
    {
        self.matcher.clear();
        if let Ok(fresh) = self.matcher.copy(alloc) {
            self.worn = Some(mem::replace(&mut self.matcher, fresh));
        }
    }
}

// New rooms with a copy of a matcher.
pub(crate) fn new_rooms(alloc: Global, matcher: &Matcher) -> Result<Box<Rooms>, Memory>
    ensures { IfOk result (λ rooms. rooms.value.matcher ≡ matcher.now) }
{
    rooms_with(alloc, None, matcher.copy(alloc)?)
}

// Rooms with this matcher: those at hand, or new ones.
pub(crate) fn rooms_with(
    alloc: Global,
    rooms: Option<Box<Rooms>>,
    matcher: Matcher,
) -> Result<Box<Rooms>, Memory>
    ensures { IfOk result (λ rooms. rooms.value.matcher ≡ matcher) }
{
    let Some(mut rooms) = rooms else {
        let worn = None;
        return Ok(Box::new(alloc, Rooms { matcher, worn })?);
    };
    rooms.matcher = matcher;
    Ok(rooms)
}

// Rooms with a matcher of the same plan as this one that has read nothing: those at hand, or new ones.
pub(crate) fn empty_rooms(
    alloc: Global,
    rooms: Option<Box<Rooms>>,
    matcher: &Matcher,
) -> Result<Box<Rooms>, Memory>
    requires { IfSome rooms (λ rooms. rooms.value.matcher.plan ≡ matcher.now.plan) }
    ensures { IfOk result (λ rooms. IsFresh rooms.value.matcher matcher.now) }
{
    let mut rooms = match rooms {
        Some(rooms) => rooms,
        None => new_rooms(alloc, matcher)?,
    };
    rooms.matcher.clear();
    Ok(rooms)
}
