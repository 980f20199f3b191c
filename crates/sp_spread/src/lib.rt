//! What a turn of the splitter keeps of the speculative machine: a finish, a spawn, a lease and the return of
//! what is stale bring no version in conflict; versions that are out or ready are counted; and a journal stays
//! spread while it grows. The definitions and the laws stand in `specs/`. No code runs here.
#![tactic(auto)]

ghost use Rattle.sp_spread.specs.Laws.{JournalsStaySpread, ReturnsFollowReadings, TurnsAreLawful};

/// Law: a journal stays spread with each entry that is no lease, and with a lease where the machine was spread
/// out before it; and in none of its states more tickets are out than may be, if in none of its last entry's.
pub fn journals_stay_spread()
    ensures { JournalsStaySpread }
{}

/// Law: each return that follows on a reading has a reading of its own.
pub fn returns_follow_readings()
    ensures { ReturnsFollowReadings }
{}

/// Law: in every state that steps lead to, a roll ends the conflict of its version and makes none; a finish, a
/// spawn, a lease and the return of what is stale bring no version in conflict; tickets that are out grow by one
/// at a lease and at no other step; a version that is spawned is ready, one that is leased is ready no more, and
/// the others stay what they are; and a spawn changes nothing of the open groups.
pub fn turns_are_lawful()
    ensures { TurnsAreLawful }
{
    sp_rules::law::compiled_plans_are_lawful();
}
