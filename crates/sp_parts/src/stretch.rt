// Windows that follow one another in one part.
ghost use Rattle.std.specs.Prelude.{◌≡◌, ◌<◌, Some, length, slice_get};
ghost use Rattle.sp_plan.specs.Compiled.{IsCompiled};
ghost use Rattle.sp_window.specs.Standing.{Stands};
ghost use Rattle.sp_parts.specs.Stretches.{IsStretch, as_window, windows_of};

use sp_plan::Event;
use sp_window::Windows;

// A window by the numbers of its first event and of its last so far.
#[derive(Clone, Copy, Drop)]
pub(crate) struct Span {
    pub(crate) first: u32,
    pub(crate) last: u32,
    pub(crate) closed: bool,
}

// The window at a place, from 0 on. One that is open has all events from its first on.
pub(crate) fn span_at(windows: &Windows, events: &[Event], place: u32) -> Span
    requires compiled { IsCompiled windows.now.plan }
    requires stands { Stands windows.now events.now windows.now.ended }
    requires within { place < length (windows_of windows.now events.now) }
    ensures { slice_get (windows_of windows.now events.now) place ≡ Some (as_window result) }
{
    let Some(window) = windows.get(place + 1) else {
        unreachable!()
    };
    Span {
        first: window.first,
        last: window.end.unwrap_or(events.len() as u32),
        closed: window.end.is_some(),
    }
}

// The place behind the last window of the part whose first window stands at a place.
pub(crate) fn stretch_end(windows: &Windows, events: &[Event], begin: u32) -> u32
    requires compiled { IsCompiled windows.now.plan }
    requires stands { Stands windows.now events.now windows.now.ended }
    requires within { begin < length (windows_of windows.now events.now) }
    ensures { IsStretch (windows_of windows.now events.now) begin result }
{
    let mut last = span_at(windows, events, begin).last;
    let count = windows.count();
    for place in begin + 1..count {
        let span = span_at(windows, events, place);
        if span.first > last {
            return place;
        }
        last = span.last;
    }
    count
}
