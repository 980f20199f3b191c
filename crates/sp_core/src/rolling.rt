// A version that is in conflict begins anew.
ghost use Rattle.std.specs.Prelude.{◌≡◌, ◌<◌, Some, IfOk, IfErr, IsSome, OnOk, OnErr};
ghost use Rattle.sp_group.specs.Family.{entry_at};
ghost use Rattle.sp_group.specs.declared.step.Step.TheVariants as s;
ghost use Rattle.sp_tree.specs.Grown.{AreGrown, kin};
ghost use Rattle.sp_core.specs.Renewing.{IsAnew};
ghost use Rattle.sp_core.specs.Running.{IsDone, refused};

use crate::rooms::enter;
use crate::{Core, law};
use sp_group::{Refusal, Step};
use sp_tree::Tree;
use sp_version::Version;

// A live version begins anew; answers its new id. Takes no memory.
pub(crate) fn begin_anew(tree: &mut Tree<Version>, version: u64) -> u64
    requires live { IsSome (entry_at kin tree.old.entries version) }
    requires next { tree.old.next < 18446744073709551615 }
    ensures id { result ≡ tree.old.next }
    ensures tree { IsAnew tree.old version tree.new }
    ensures grown { AreGrown tree.new }
{
    let Some(renewed) = tree.renew(version) else {
        unreachable!()
    };
    if let Some(held) = tree.get_mut(renewed) {
        held.restart();
    }
    // It tells what every tree keeps.
    tree.live();
    renewed
}

impl Core {
    /// A version that is in conflict begins anew, with its label and a new id, which is answered; all below it
    /// is gone, and a ticket that was out for it is stale. Takes no memory. After a refusal the core is as
    /// before; it is refused where the version is not live, and where it is in no conflict.
    pub fn roll(&mut self, version: u64) -> Result<u64, Refusal>
        ensures done { OnOk result (IsDone (s.Roll version) self.old self.new) }
        ensures id { IfOk result (λ id. id ≡ self.old.machine.next_id) }
        ensures err { OnErr result (self.new ≡ self.old) }
        ensures fault { IfErr result (λ refusal. refused self.old (s.Roll version) ≡ Some refusal) }
    {
        // The state is one to which steps lead.
        law::every_schedule();
        if self.tree.get(version).is_none() {
            return Err(Refusal::NotLive { version });
        }
        if self.conflict_of(version).is_none() {
            return Err(Refusal::NoConflict { version });
        }
        let renewed = begin_anew(&mut self.tree, version);
        enter(&mut self.journal, Step::Roll { version }, 1);
        Ok(renewed)
    }
}
