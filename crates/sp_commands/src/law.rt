// Laws of what the program promises.
ghost use Rattle.sp_commands.specs.Alike.{PlansMatchAlike, PlansRunAlike};
ghost use Rattle.sp_commands.specs.OneOutcome.{OneOutcome};
ghost use Rattle.sp_commands.specs.Run.{PunctualRuns};
ghost use Rattle.sp_commands.specs.Completes.{CheckCompletes, Completes, DrillCompletes};

/// Law: plans that stand for one query have one outcome over all bytes, status and text, whether lines are told or the
/// proofs of windows.
pub fn plans_run_alike()
    ensures { PlansRunAlike }
{
    // a law: a predicate of a query is true or not
    sp_compile::law::one_truth();
}

/// Law: plans that stand for one query have the same schema, and find the same matches in all events.
pub fn plans_match_alike()
    ensures { PlansMatchAlike }
{
    // a law: a predicate of a query is true or not
    sp_compile::law::one_truth();
}

/// Law: without slack, and where a late event ends the reading, a run comes to what its bytes give where times may not
/// go back, word for word.
pub fn punctual_runs()
    ensures { PunctualRuns }
{
    // a law: so does the reading
    sp_intake::loose_is_reading();
}

/// Law: words, files that are told and bytes have at most one outcome: one status, one line and one text.
pub fn one_outcome()
    ensures { OneOutcome }
{
    // laws: what stands at a place, what its text comes to, what its predicates mean, and what a
    // schedule, a listing, a second query and what matches return are is one thing each
    sp_load::law::one_text();
    sp_load::law::one_reading();
    sp_load::law::one_second();
    sp_compile::law::one_truth();
    sp_sched::law::one_schedule();
    sp_listing::law::one_listing();
    sp_returns::law::one_return();
    sp_returns::law::returns_are_alike();
}

/// Law: words that give a command, a text or file within its limit, a query that compiles, a schedule
/// without a bad line where one is named, a second query and returns without a fault where the command is a graph,
/// input whose reading stops at its end, no limit of derived events that is passed, and no count of faults
/// that rose give status 0 and the whole text, or status 1 for want of memory.
pub fn completes()
    ensures { Completes }
{
    // laws: what texts of queries, of schedules and of what matches return come to is one thing, and a row stays a row
    // whatever comes behind
    sp_load::law::one_reading();
    sp_load::law::one_second();
    sp_sched::law::one_schedule();
    sp_returns::law::one_return();
    sp_returns::law::returns_are_alike();
    sp_compile::law::one_truth();
    sp_cut::law::rows_stay();
}

/// Law: words that give a drill and an output whose count of faults did not rise give status 0 and the
/// summary, or status 1 for want of memory.
pub fn drills_complete()
    ensures { DrillCompletes }
{}

/// Law: words that give a check, a text or file within its limit, a query that compiles, a listing within its limit that
/// is the one of the run, input whose reading stops at its end, and no count of faults that rose give status 0 and the
/// line that says yes, or status 1 for want of memory.
pub fn checks_complete()
    ensures { CheckCompletes }
{
    // laws: what texts of queries and listings come to is one thing, and a row stays a row whatever
    // comes behind
    sp_load::law::one_reading();
    sp_listing::law::one_listing();
    sp_compile::law::one_truth();
    sp_cut::law::rows_stay();
}
