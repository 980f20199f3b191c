ghost use Rattle.sp_piece.specs.Alike.{ReadingsTellMatches, SamePlansReadAlike};

/// Law: plans that are one but for where their parts lie in memory read alike.
pub fn same_plans_read_alike()
    ensures { SamePlansReadAlike }
{
    sp_plan::law::same_predicates_hold_alike();
}

/// Law: the completions that a reading tells of are the matches that it adds.
pub fn readings_tell_matches()
    ensures { ReadingsTellMatches }
{
    sp_match::law::handling_is_lawful();
    sp_match::law::completions_are_matches();
}
