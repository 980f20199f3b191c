ghost use Rattle.sp_plan.specs.declared.plan.Plan.{Plan};
ghost use Rattle.sp_plan.specs.Sequential.{Grows};
ghost use Rattle.sp_plan.specs.Windows.{IsWindowed};
ghost use Rattle.sp_window.specs.Laws.{GoodEvents, Holds, AreFew, KeptByFeeding, ClosedFirst, FinishedStay, WindowsAreRead};

/// Law: no events are good, and good events are so without the last one.
pub fn good_events()
    ensures { (q : Plan) → GoodEvents q }
{}

/// Law: a window of good events holds consecutive ones of them, at least one, up to the last one while it
/// is open, and later windows begin no earlier.
pub fn windows_hold()
    ensures { (q : Plan) → IsWindowed q → Holds q }
{}

/// Law: at most 64 windows open with an event.
pub fn windows_are_few()
    ensures { (q : Plan) → IsWindowed q → AreFew q }
{}

/// Law: one event more keeps the windows and where they begin, and takes no event from them.
pub fn windows_are_kept()
    ensures { (q : Plan) → IsWindowed q → KeptByFeeding q }
{}

/// Law: the closed windows are the first ones; they stay closed, and keep their events.
pub fn closed_come_first()
    ensures { (q : Plan) → IsWindowed q → ClosedFirst q }
{}

/// Law: what finished windows gave stays, whatever events come: their matches, and what they consumed.
pub fn finished_windows_stay()
    ensures { (q : Plan) → IsWindowed q → FinishedStay q }
{}

/// Law: what the window-by-window engine reads of a window is the reading of all its events by their
/// numbers, without those consumed, and each window adds what such a reading matched.
pub fn windows_are_read()
    ensures { (q : Plan) → IsWindowed q → WindowsAreRead q }
{}

/// Law: while the input has not ended, the matches so far begin those of any longer input.
pub fn growth()
    ensures { Grows }
{}
