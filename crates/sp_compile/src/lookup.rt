// Where columns, names and texts of a query stand.
ghost use Rattle.std.specs.Prelude.{◌≡◌, ℕ, List};
ghost use Rattle.std.specs.List.{position};
ghost use Rattle.std.specs.Str.{bytes_eq};
ghost use Rattle.sp_plan.specs.Texts.{symbol_of};
ghost use Rattle.sp_compile.specs.Checks.{is_among};
ghost use Rattle.sp_compile.specs.Naming.{PlaceAnswer};
ghost use Rattle.sp_compile.specs.Scopes as scopes;

use crate::CompileFault;
use crate::elements::PlacedName;
use sp_plan::Text;
use sp_query::{Ident, QueryColumn};

// Whether a name has this text.
fn is_called(name: &Ident, text: &Text) -> bool
    ensures { result ≡ bytes_eq name.now.text text.now }
{
    name.text.as_str() == text.as_str()
}

/// The place of the first column of this name.
pub(crate) fn column_place(columns: &[QueryColumn], text: &Text) -> Option<usize>
    ensures { result ≡ scopes.column_place columns.now text.now }
{
    columns
        .iter()
        .position(|column| is_called(&column.name, text))
}

// The place of a text among these.
fn place_of_text(texts: &[Text], text: &Text) -> Option<usize>
    ensures { result ≡ position (bytes_eq text.now) texts.now }
{
    texts
        .iter()
        .position(|known| text.as_str() == known.as_str())
}

/// The number of a text: its place among these, or their number where it is none of them.
pub(crate) fn text_number(texts: &[Text], text: &Text) -> usize
    ensures { result ≡ symbol_of texts.now text.now }
{
    place_of_text(texts, text).unwrap_or(texts.len())
}

/// The place of the first name of the pattern with this text.
pub(crate) fn name_place(names: &[PlacedName], text: &Text) -> Option<usize>
    ensures { result ≡ scopes.name_place names.now text.now }
{
    names.iter().position(|named| is_called(named.name, text))
}

/// The place of a name of the pattern that may be given once, or what is wrong: the pattern has no such
/// name, or it was given before.
pub(crate) fn given_place(
    names: &[PlacedName],
    name: &Ident,
    is_given: bool,
) -> Result<usize, CompileFault>
    ensures { (before : List (List ℕ)) → is_given ≡ is_among before name.now.text
        → PlaceAnswer names.now before name.now result }
{
    match name_place(names, &name.text) {
        None => Err(CompileFault::Unknown(name.span)),
        Some(_) if is_given => Err(CompileFault::Twice(name.span)),
        Some(place) => Ok(place),
    }
}
