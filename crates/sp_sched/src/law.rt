// What holds of every text.
ghost use Rattle.sp_sched.specs.Schedules.{OneSchedule};

/// Law: a text is a schedule of one list of steps at most, has one first bad line at most, and never both.
pub fn one_schedule()
    ensures { OneSchedule }
{}
