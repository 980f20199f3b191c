ghost use Rattle.std.specs.Prelude.{◌≡◌, IfOk};

use crate::Memory;
use sp_match::Matcher;
use std::alloc::Global;
use std::sync::Arc;

// So many are kept at most.
const MOST: usize = 16;

/// Matchers that served before, kept for their rooms, in which others are made. What they hold counts for nothing.
#[derive(Drop)]
pub struct Spares {
    matchers: Vec<Matcher>,
}

impl Spares {
    /// None yet. Room is made for all that are kept later.
    pub fn new(alloc: Global) -> Result<Spares, Memory> {
        Ok(Spares {
            matchers: Vec::with_capacity(alloc, MOST)?,
        })
    }

    // Keeps one more; lets it go where enough are kept.
    fn keep(&mut self, matcher: Matcher) {
        if self.matchers.len() < self.matchers.capacity() {
            self.matchers.push_reserved(matcher);
        }
    }

    /// Keeps one more, if there is one; lets it go where enough are kept. Takes no memory.
    pub fn keep_some(&mut self, matcher: Option<Matcher>) {
        if let Some(matcher) = matcher {
            self.keep(matcher);
        }
    }

    /// Keeps the matcher that is held: the one that is lent by the handle, if nobody else holds it; where there is no
    /// handle, this one.
    pub(crate) fn keep_held(&mut self, matcher: Matcher, handle: Option<Arc<Matcher>>) {
        self.keep_some(match handle {
            Some(handle) => Arc::into_inner(handle),
            None => Some(matcher),
        });
    }

    /// The one that came last.
    pub(crate) fn take(&mut self) -> Option<Matcher> {
        self.matchers.pop()
    }

    /// The same matcher, in the rooms of a spare one where there is one.
    pub fn housed(&mut self, alloc: Global, matcher: Matcher) -> Result<Matcher, Memory>
        ensures { IfOk result (λ m. m ≡ matcher) }
    {
        match self.take() {
            Some(spare) => matcher.copy_in(alloc, spare),
            None => Ok(matcher),
        }
    }
}
