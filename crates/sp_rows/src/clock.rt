ghost use Rattle.std.specs.Prelude.{◌≡◌, pos, true, if◌then◌else◌};

/// The last time of the events, 0 before the first, or always where times may go back.
#[derive(Drop)]
pub(crate) struct Clock {
    pub(crate) last: i64,
    pub(crate) loose: bool,
    ghost still: { loose ≡ true → last ≡ pos 0 },
}

impl Clock {
    /// No event came; times may go back or not.
    pub(crate) fn new(loose: bool) -> Clock
        ensures last { result.last ≡ pos 0 }
        ensures loose { result.loose ≡ loose }
    {
        Clock { last: 0, loose }
    }

    /// Keeps the time of an event.
    #[inline(always)]
    pub(crate) fn keep(&mut self, time: i64)
        ensures last { self.new.last ≡ (if self.old.loose then pos 0 else time) }
        ensures loose { self.new.loose ≡ self.old.loose }
    {
        if !self.loose {
            self.last = time;
        }
    }
}
