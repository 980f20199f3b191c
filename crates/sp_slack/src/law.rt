// Laws of what is held back.
ghost use Rattle.sp_slack.specs.Laws.{SlackedEvents, SlackedGrows};

/// Law: events sorted by a slack never go back in time, and are some of those that came, or all of them where no more
/// come.
pub fn slacked_events()
    ensures { SlackedEvents }
{}

/// Law: what is to be given of some events comes first in what is to be given of them and any others that come behind
/// them and are not late.
pub fn slacked_grows()
    ensures { SlackedGrows }
{}
