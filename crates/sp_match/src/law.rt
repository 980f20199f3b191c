ghost use Rattle.sp_match.specs.public.Laws.{MovesAreHandling, ClosingEndsRuns, OneEventMore, NumbersStayBelow, RunsAreSound, MovesLeadOn, HandlingIsLawful, SeveralAreLawful, OpenHasNoMatch, CompletionsAreMatches, AbandonmentsAreTold};

/// Law: the moves of an event, made one after another, lead to the runs that the event's handling leads
/// to.
pub fn moves_are_handling()
    ensures { MovesAreHandling }
{}

/// Law: what comes after one more event depends on what was before and on that event alone.
pub fn one_event_more()
    ensures { OneEventMore }
{}

/// Law: after the closing's moves no run is open, and the matches are the same.
pub fn closing_ends_runs()
    ensures { ClosingEndsRuns }
{}

/// Law: where all numbers of open runs and the count of runs are below an event's number, they are at
/// most that number after the event.
pub fn numbers_stay_below()
    ensures { NumbersStayBelow }
{}

/// Law: at first no run number is used, each move uses each number once, and so do the events of a
/// window.
pub fn runs_are_sound()
    ensures { RunsAreSound }
{}

/// Law: any moves lead on: what is matched stays, groups only grow until their runs end, and a match
/// has used the group of its run.
pub fn moves_lead_on()
    ensures { MovesLeadOn }
{}

/// Law: the handling of an event and the closing use each run number once, and lead on.
pub fn handling_is_lawful()
    ensures { HandlingIsLawful }
{}

/// Law: the completions told of an event are the matches that it adds, in their order.
pub fn completions_are_matches()
    ensures { CompletionsAreMatches }
{}

/// Law: the abandonments told of an event are those of the runs that are gone after it, with no match;
/// of the closing, those of the open runs.
pub fn abandonments_are_told()
    ensures { AbandonmentsAreTold }
{}

/// Law: several events, handled one after another, use each run number once and lead on; and where
/// their numbers rise, all numbers of open runs and the count of runs stay below a bound that is above
/// theirs.
pub fn several_are_lawful()
    ensures { SeveralAreLawful }
{}

/// Law: a run that is open has no match.
pub fn open_has_no_match()
    ensures { OpenHasNoMatch }
{}
