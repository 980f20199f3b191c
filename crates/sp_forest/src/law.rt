// What is true of parts that are driven. A law runs no code: who calls it has the fact.
ghost use Rattle.sp_forest.specs.Drivable.{PartsCanBeDriven};

use sp_parts::{parts_fall_apart, parts_lie_within};

/// Law: the parts of any input can be driven, each by itself, and all their matches have numbers of 64 bits.
pub(crate) fn parts_can_be_driven()
    ensures { PartsCanBeDriven }
{
    parts_fall_apart();
    parts_lie_within();
    sp_window::law::windows_are_few();
    sp_window::law::closed_come_first();
}
