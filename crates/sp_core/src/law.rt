// The laws on which the core stands: those of the layers below, by their names there, and what several of them
// say together. No code runs here.
ghost use Rattle.sp_core.specs.OnBench.{BenchLaws};
ghost use Rattle.sp_core.specs.Settling.{HomeLaws};

pub(crate) use sp_base::rising_same;
pub(crate) use sp_piece::{readings_tell_matches, same_plans_read_alike};
pub(crate) use sp_plan::plans_are_themselves;
pub(crate) use sp_rules::{
    coming_home_adds_matches, compiled_plans_are_lawful, every_schedule, lent_stays,
    pieces_come_home, readings_and_return, returns_by_groups, versions_have_groups,
};
pub(crate) use sp_tree::{decisions_add_up, one_decision_first};
pub(crate) use sp_window::{closed_come_first, windows_are_few, windows_hold};

// Law: all that the layers below say of pieces that come home.
pub(crate) fn home_laws()
    ensures { HomeLaws }
{
    every_schedule();
    compiled_plans_are_lawful();
    pieces_come_home();
    readings_and_return();
    returns_by_groups();
    versions_have_groups();
    coming_home_adds_matches();
    same_plans_read_alike();
    readings_tell_matches();
    rising_same();
}

// Law: all that the rules say of the pieces of a bench.
pub(crate) fn bench_laws()
    ensures { BenchLaws }
{
    every_schedule();
    lent_stays();
    readings_and_return();
}
