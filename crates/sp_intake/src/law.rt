// Laws of readings.
ghost use Rattle.sp_intake.specs.LooseLaws.{LooseIsReading, LooseIsGood, LooseGrows};

/// Law: a reading in which events may come late, but without slack and by the rule that refuses what is late, is
/// the one in which times may not go back.
pub fn loose_is_reading()
    ensures { LooseIsReading }
{}

/// Law: what is to be given of such a reading is input for an engine: it fits the plan, never goes back in time, and
/// is no more than an input may have.
pub fn loose_is_good()
    ensures { LooseIsGood }
{}

/// Law: with more bytes the events that such a reading kept stay first, and so do those that were to be given.
pub fn loose_grows()
    ensures { LooseGrows }
{}
