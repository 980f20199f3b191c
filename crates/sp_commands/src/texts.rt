// The texts that a command loads: of its query, and of a second file.
ghost use Rattle.std.specs.Prelude.{◌≡◌, ◌≢◌, ◌≤◌, ℕ, List, [], ◌∷◌, ◌++◌, length, IfOk, IfErr, Err};
ghost use Rattle.sp_base.specs.Limits.{query_limit};
ghost use Rattle.sp_load.specs.Places.{place_of, text_of, HasText};
ghost use Rattle.sp_commands.specs.Commands.{files_at};
ghost use Rattle.sp_commands.specs.Texts.{HasFile, OneRose, RefusesTexts};

use sp_io::Files;
use sp_load::{Place, QueryText, Refusal, load_file, text_at};
use std::alloc::Global;

/// The text of the query, and all bytes of the other file.
#[derive(Drop)]
pub(crate) struct Texts<'a> {
    pub(crate) query: QueryText<'a>,
    pub(crate) content: Vec<u8>,
}

/// The texts of the query that stands there and of the file of this name, which has this limit of bytes; or why there
/// are none. The query is loaded first.
pub(crate) fn load_texts<'a, F: Files>(
    alloc: Global,
    place: Place<'a>,
    name: &str,
    limit: u32,
    files: &mut F,
) -> Result<Texts<'a>, Refusal>
    ensures query { IfOk result
        (λ texts. HasText (F.held files.old) (place_of place.entry) (text_of texts.query)) }
    ensures short { IfOk result (λ texts. length (text_of texts.query) ≤ query_limit) }
    ensures content { IfOk result
        (λ texts. HasFile (F.held files.old) limit name.now texts.content.items) }
    ensures refused { IfErr result
        (RefusesTexts (F.held files.old) limit (place_of place.entry) name.now) }
    ensures held { F.held files.new ≡ F.held files.old }
    ensures fault { let names = files_at (place_of place.entry) ++ name.now ∷ [] in
        result ≡ Err Refusal.Read → OneRose names (F.faults files.old) (F.faults files.new) }
    ensures no_fault { result ≢ Err Refusal.Read → (other : List ℕ)
        → F.faults files.new other ≡ F.faults files.old other }
{
    let query = match text_at(alloc, place, files) {
        Ok(query) => query,
        Err(refusal) => return Err(refusal),
    };
    match load_file(alloc, name, limit, files) {
        Ok(content) => Ok(Texts { query, content }),
        Err(refusal) => Err(refusal),
    }
}
