// A query from the place where it stands: from a word of the command, or from a file.
ghost use Rattle.std.specs.Prelude.{◌≡◌, ◌≢◌, ◌≤◌, ℕ, List, length, IfOk, IfErr, Err};
ghost use Rattle.sp_base.specs.Limits.{query_limit};
ghost use Rattle.sp_load.specs.Loads.{RefusesLoad, IsUnread};
ghost use Rattle.sp_load.specs.Places.{place_of, text_of, HasText};
ghost use Rattle.sp_load.specs.Queries.{IsPlanFor, RefusesText, IsPlanAt, RefusesPlace};

use crate::load::load_file;
use crate::query::read_query;
use crate::refusal::Refusal;
use sp_base::limits::QUERY_LIMIT;
use sp_base::without_mark;
use sp_io::Files;
use sp_plan::Plan;
use std::alloc::Global;
use std::str;

/// Where the query of a command stands: in a word, or in the file of this name.
#[derive(Clone, Copy, Drop)]
pub enum Place<'a> {
    Word(&'a str),
    File(&'a str),
}

/// The text of a query: a word of the command, or all bytes of a file.
#[derive(Drop)]
pub enum QueryText<'a> {
    Word(&'a str),
    File(Vec<u8>),
}

// The plan of the text that these bytes are, or why there is none.
fn plan_of_bytes(alloc: Global, bytes: &[u8]) -> Result<Plan, Refusal>
    requires { length bytes.now ≤ query_limit }
    ensures plan { IfOk result (IsPlanFor bytes.now) }
    ensures refused { IfErr result (RefusesText bytes.now) }
{
    match str::from_utf8(bytes) {
        Ok(text) => read_query(alloc, text),
        Err(error) => Err(Refusal::Query {
            code: 1,
            place: error.valid_up_to() as u32,
        }),
    }
}

/// The text of the query that stands there, or why there is none: `Limited` where it has more bytes than
/// 16,384, `Read` where its file could not be loaded, or `Memory`. A file's byte order mark counts.
pub fn text_at<'a, F: Files>(
    alloc: Global,
    place: Place<'a>,
    files: &mut F,
) -> Result<QueryText<'a>, Refusal>
    ensures text { IfOk result
        (λ found. HasText (F.held files.old) (place_of place.entry) (text_of found)) }
    ensures short { IfOk result (λ found. length (text_of found) ≤ query_limit) }
    ensures refused { IfErr result
        (RefusesLoad (F.held files.old) query_limit (place_of place.entry)) }
    ensures held { F.held files.new ≡ F.held files.old }
    ensures fault { result ≡ Err Refusal.Read
        → IsUnread (place_of place.entry) (F.faults files.old) (F.faults files.new) }
    ensures no_fault { result ≢ Err Refusal.Read → (name : List ℕ)
        → F.faults files.new name ≡ F.faults files.old name }
{
    match place {
        Place::Word(text) => {
            if text.len() > QUERY_LIMIT as usize {
                return Err(Refusal::Limited { limit: QUERY_LIMIT });
            }
            Ok(QueryText::Word(text))
        }
        Place::File(name) => match load_file(alloc, name, QUERY_LIMIT, files) {
            Ok(content) => Ok(QueryText::File(content)),
            Err(refusal) => Err(refusal),
        },
    }
}

/// The plan of a query's text, or why there is none: `Query` for a fault of the text, or `Memory`.
pub fn plan_of_text(alloc: Global, text: &QueryText) -> Result<Plan, Refusal>
    requires { length (text_of text.now) ≤ query_limit }
    ensures plan { IfOk result (IsPlanFor (text_of text.now)) }
    ensures refused { IfErr result (RefusesText (text_of text.now)) }
{
    match text {
        QueryText::Word(word) => read_query(alloc, word),
        QueryText::File(content) => plan_of_bytes(alloc, without_mark(content)),
    }
}

/// The plan of the query that stands there, or why there is none.
pub fn plan_at<F: Files>(alloc: Global, place: Place, files: &mut F) -> Result<Plan, Refusal>
    ensures plan { IfOk result (IsPlanAt (F.held files.old) (place_of place.entry)) }
    ensures refused { IfErr result (RefusesPlace (F.held files.old) (place_of place.entry)) }
    ensures held { F.held files.new ≡ F.held files.old }
    ensures fault { result ≡ Err Refusal.Read
        → IsUnread (place_of place.entry) (F.faults files.old) (F.faults files.new) }
    ensures no_fault { result ≢ Err Refusal.Read → (name : List ℕ)
        → F.faults files.new name ≡ F.faults files.old name }
{
    match text_at(alloc, place, files) {
        Ok(text) => plan_of_text(alloc, &text),
        Err(refusal) => Err(refusal),
    }
}
