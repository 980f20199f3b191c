// The matches of parts are listed, in the order of the parts.
ghost use Rattle.std.specs.Prelude.{◌≡◌, ◌<◌, ◌^◌, ◌++◌, OnOk, length, map};
ghost use Rattle.std.specs.List.{All};
ghost use Rattle.sp_forest.specs.Numbering.{numbered_from, numbered_up};

use sp_plan::{Match, Memory};

// Lists the matches of a part behind those that are listed. After want of memory some may be lost.
fn list_part(found: Vec<Match>, all: &mut Vec<Match>) -> Result<(), Memory>
    requires fit { All (λ one. one.number < 2 ^ 64)
        (map (numbered_up (length all.old.items)) found.items) }
    ensures { OnOk result (all.new.items
        ≡ all.old.items ++ map (numbered_up (length all.old.items)) found.items) }
{
    let before = all.len() as u64;
    for mut one in found {
        one.number += before;
        all.push(one)?;
    }
    Ok(())
}

/// Lists the matches of parts behind those that are listed: those of one part after those of another. After want of
/// memory some may be lost.
pub(crate) fn list_parts(found: Vec<Vec<Match>>, all: &mut Vec<Match>) -> Result<(), Memory>
    requires fit { All (λ one. one.number < 2 ^ 64)
        (numbered_from (length all.old.items) (map (λ own. own.items) found.items)) }
    ensures { OnOk result (all.new.items ≡ all.old.items
        ++ numbered_from (length all.old.items) (map (λ own. own.items) found.items)) }
{
    for own in found {
        list_part(own, all)?;
    }
    Ok(())
}
