// What holds of every text.
ghost use Rattle.sp_emit.specs.Matches.{OneMatch};

/// Law: a text is the line of at most one match of a plan.
pub fn one_match()
    ensures { OneMatch }
{}
