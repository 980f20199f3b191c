// The laws: what they say stands in `specs/`, and a call of one brings it to the proof that it stands in.
ghost use Rattle.sp_plan.specs.declared.plan.Plan.{Plan};
ghost use Rattle.sp_plan.specs.Compiled.{IsCompiled};
ghost use Rattle.sp_rules.specs.ByGroups.{ComingHomeAddsMatches, ReturnsByGroups, VersionsHaveGroups};
ghost use Rattle.sp_rules.specs.ComingHome.{PiecesComeHome};
ghost use Rattle.sp_rules.specs.Lawful.{Lawful};
ghost use Rattle.sp_rules.specs.Returning.{ReadingsAndReturn};
ghost use Rattle.sp_rules.specs.Schedules.{EverySchedule};
ghost use Rattle.sp_rules.specs.StayingLent.{LentStays};

/// Law: the matcher and the windows of every compiled plan keep what a layer over them relies on.
pub fn compiled_plans_are_lawful()
    ensures { (q : Plan) → IsCompiled q → Lawful q }
{
    sp_match::law::runs_are_sound();
    sp_match::law::handling_is_lawful();
    sp_match::law::several_are_lawful();
    sp_match::law::moves_are_handling();
    sp_match::law::moves_lead_on();
    sp_match::law::closing_ends_runs();
    sp_match::law::open_has_no_match();
    sp_match::law::numbers_stay_below();
    sp_match::law::completions_are_matches();
    sp_match::law::abandonments_are_told();
    sp_plan::law::reading_is_state();
    sp_window::law::good_events();
    sp_window::law::windows_hold();
    sp_window::law::windows_are_kept();
    sp_window::law::closed_come_first();
    sp_window::law::finished_windows_stay();
    sp_window::law::windows_are_read();
}

/// Law: in whatever order the steps of the machine are taken, those that are refused among them, what
/// is emitted and consumed is what processing the windows one after another gives; and each state that
/// steps lead to keeps what `Reached` says. A roll, and a finish whose next root is in conflict, begin
/// anew a version under a new id, and with these and a return versions go; nothing else takes back what
/// a live version has read. It holds for every compiled plan, and bounds of 1 to 4096.
pub fn every_schedule()
    ensures { EverySchedule }
{
    compiled_plans_are_lawful();
}

/// Law: a ticket of which nothing was read is read event by event, up to its closing where that is
/// lent, and returns: none of these steps is refused, and what was read comes home.
pub fn readings_and_return()
    ensures { ReadingsAndReturn }
{}

/// Law: what a live version's ticket lends, read on from the version's runs, leads to the runs of the
/// version once it has come home.
pub fn pieces_come_home()
    ensures { PiecesComeHome }
{
    compiled_plans_are_lawful();
}

/// Law: the runs of every version have their groups, which are a label.
pub fn versions_have_groups()
    ensures { VersionsHaveGroups }
{
    compiled_plans_are_lawful();
}

/// Law: what a piece that comes home does to the versions is what the decisions of its version's groups
/// do: those that are no group any more are completed where they matched, and else abandoned.
pub fn returns_by_groups()
    ensures { ReturnsByGroups }
{
    compiled_plans_are_lawful();
}

/// Law: a piece that comes home adds matches behind those of its version, and the runs that then have
/// used an event, and had not before, are those of these matches that did.
pub fn coming_home_adds_matches()
    ensures { ComingHomeAddsMatches }
{
    compiled_plans_are_lawful();
}

/// Law: what a ticket lends stays lent, whatever step is taken: as long as it is out it is the same but for
/// what was read of it; and as long as its version is live, the events that it lends and the runs from
/// which they are read on are the same.
pub fn lent_stays()
    ensures { LentStays }
{
    compiled_plans_are_lawful();
}
