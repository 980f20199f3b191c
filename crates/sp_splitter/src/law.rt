// Laws, called as `law::..`: they run no code.
ghost use Rattle.sp_splitter.specs.Knowing.{Known};

use sp_core::Core;
use sp_lend::{Lender, Lending};
use sp_spread::{journals_stay_spread, turns_are_lawful};

/// What the core's look-ups and the laws of turns say of it.
pub(crate) fn known_of(core: &Core)
    ensures { Known core.now }
{
    turns_are_lawful();
    journals_stay_spread();
    core.plan();
    core.finished();
    core.journal();
}

/// The same of the core that a lender has.
pub(crate) fn known<B: Lending>(core: &Lender<B>)
    ensures { Known core.now }
{
    known_of(core.core());
}
