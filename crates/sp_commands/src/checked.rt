// The command `check`: a listing held against the query over the input.
ghost use Rattle.std.specs.Prelude.{◌≡◌, ◌≤◌, [], ◌∷◌, ◌++◌, false, length, map, IfOk, IfErr};
ghost use Rattle.sp_base.specs.Limits.{query_limit};
ghost use Rattle.sp_listing.specs.Limits.{listing_limit};
ghost use Rattle.sp_listing.specs.Listing.{seen, IsListing};
ghost use Rattle.sp_cert.specs.Proofs.{matches_of};
ghost use Rattle.sp_plan.specs.Compiled.{IsCompiled};
ghost use Rattle.sp_load.specs.Places.{place_of, text_of};
ghost use Rattle.sp_load.specs.Queries.{IsPlanFor};
ghost use Rattle.sp_answer.specs.Outcome.{ending};
ghost use Rattle.sp_answer.specs.Promise.{filed, Served};
ghost use Rattle.sp_answer.specs.Ran.{outside, Ran};
ghost use Rattle.sp_answer.specs.Written.{WritesText};
ghost use Rattle.sp_commands.specs.Commands.{files_at};
ghost use Rattle.sp_commands.specs.Check.{
  yes_line,
  CheckOutcome,
  IsPlanCheck,
  RefusesCheck,
  TextsOutcome,
};
ghost use Rattle.sp_commands.specs.Texts.{AnswersTexts};

use crate::asked::Check;
use crate::ends::{status_of_refusal, written_status};
use crate::given::in_time;
use crate::output::write_one;
use crate::texts::{Texts, load_texts};
use crate::windowed::shared;
use sp_answer::{Status, Written};
use sp_cert::Verdict;
use sp_io::{Files, Sink, Source};
use sp_listing::{LISTING_LIMIT, ListFault, WindowProof, read_listing};
use sp_load::plan_of_text;
use sp_plan::{Memory, Plan};
use std::alloc::Global;
use std::thread::Threads;

// The plan of the query, and what the listing says of each window.
#[derive(Drop)]
struct Claim {
    plan: Plan,
    entries: Vec<WindowProof>,
}

// What the texts claim, or the status that refuses them: a fault of the query counts before a bad line of the
// listing. Neither text is needed from then on.
fn claim_of(alloc: Global, texts: Texts) -> Result<Claim, Status>
    requires short { length (text_of texts.query) ≤ query_limit }
    requires few { length texts.content.items ≤ listing_limit }
    ensures plan { IfOk result (λ claim. IsPlanFor (text_of texts.entry.query) claim.plan) }
    ensures listing { IfOk result
        (λ claim. IsListing claim.plan texts.entry.content.items (map seen claim.entries.items)) }
    ensures few { IfOk result
        (λ claim. length (matches_of (map seen claim.entries.items)) ≤ listing_limit) }
    ensures refused { IfErr result
        (RefusesCheck (text_of texts.entry.query) texts.entry.content.items) }
{
    let plan = match plan_of_text(alloc, &texts.query) {
        Ok(plan) => plan,
        Err(refusal) => return Err(status_of_refusal(refusal)),
    };
    match read_listing(alloc, &plan, &texts.content) {
        Ok(entries) => Ok(Claim { plan, entries }),
        Err(ListFault::BadLine { line }) => Err(Status::ListingLine { line }),
        Err(ListFault::Memory) => Err(Status::Memory),
    }
}

// How many matches the entries have.
fn count_matches(entries: &[WindowProof]) -> usize
    requires { length (matches_of (map seen entries.now)) ≤ listing_limit }
    ensures { result ≡ length (matches_of (map seen entries.now)) }
{
    let mut count = 0;
    for entry in entries {
        count += entry.matches.len();
    }
    count
}

// Writes the line of a listing that is right, by one call.
fn write_yes<K: Sink>(
    alloc: Global,
    entries: &[WindowProof],
    out: &mut K,
) -> Result<Written, Memory>
    requires { length (matches_of (map seen entries.now)) ≤ listing_limit }
    ensures { WritesText (yes_line (map seen entries.now))
        (K.state out.old) (K.state out.new) result }
{
    let (windows, matches) = (entries.len(), count_matches(entries));
    let line = format!(in alloc; "yes windows={windows} matches={matches}\n")?;
    Ok(write_one(line.as_str(), out))
}

// Reads the input whole, and holds the claim against the run over its events where it was read to its end.
fn check_claim<S: Source, K: Sink, R: Threads + Sync>(
    rt: &R,
    alloc: Global,
    claim: Claim,
    input: &mut S,
    out: &mut K,
) -> Status
    requires compiled { IsCompiled claim.plan }
    requires few { length (matches_of (map seen claim.entries.items)) ≤ listing_limit }
    requires not_ended { (S.state input.old).ended ≡ false }
    ensures { Ran (IsPlanCheck claim.plan (map seen claim.entries.items))
        (outside (S.state input.old) (K.state out.old))
        (outside (S.state input.new) (K.state out.new))
        (ending result) }
{
    let Claim { plan, entries } = claim;
    let Ok(plan) = shared(alloc, plan) else {
        return Status::Memory;
    };
    let Ok(given) = in_time(alloc, &plan, input) else {
        return Status::Memory;
    };
    if !given.stop.is_end() {
        return given.status;
    }
    match sp_cert::check(rt, alloc, plan, &given.events, true, &entries) {
        Ok(Verdict::Yes) => {
            let written = write_yes(alloc, &entries, out);
            written_status(given.status, written)
        }
        Ok(Verdict::No { window }) => Status::ListingWindow { window },
        Err(_) => Status::Memory,
    }
}

// Checks what the texts claim.
fn check_texts<S: Source, K: Sink, R: Threads + Sync>(
    rt: &R,
    alloc: Global,
    texts: Texts,
    input: &mut S,
    out: &mut K,
) -> Status
    requires short { length (text_of texts.query) ≤ query_limit }
    requires few { length texts.content.items ≤ listing_limit }
    requires not_ended { (S.state input.old).ended ≡ false }
    ensures { AnswersTexts (TextsOutcome (text_of texts.entry.query) texts.entry.content.items)
        (outside (S.state input.old) (K.state out.old))
        (outside (S.state input.new) (K.state out.new))
        (ending result) }
{
    match claim_of(alloc, texts) {
        Ok(claim) => check_claim(rt, alloc, claim, input, out),
        Err(status) => status,
    }
}

/// Holds a listing against the query over the input, whose times may not go back, and whoever made it: it says how many
/// windows and matches it has where it is that of the run, and else tells the first window at which it isn't. Nothing
/// is written but in the first case, and nothing is read before the query compiles and the listing has no bad line.
pub fn check<S: Source, F: Files, K: Sink, R: Threads + Sync>(
    rt: &R,
    alloc: Global,
    asked: Check,
    input: &mut S,
    files: &mut F,
    out: &mut K,
) -> Status
    requires { (S.state input.old).ended ≡ false }
    ensures { let place = place_of asked.entry.place in
        let name = asked.entry.listing.now in
        Served (files_at place ++ name ∷ []) (CheckOutcome place name)
        (filed (F.held files.old) (F.faults files.old))
        (filed (F.held files.new) (F.faults files.new))
        (outside (S.state input.old) (K.state out.old))
        (outside (S.state input.new) (K.state out.new))
        (ending result) }
{
    let Check { place, listing } = asked;
    match load_texts(alloc, place, listing, LISTING_LIMIT, files) {
        Ok(texts) => check_texts(rt, alloc, texts, input, out),
        Err(refusal) => status_of_refusal(refusal),
    }
}
