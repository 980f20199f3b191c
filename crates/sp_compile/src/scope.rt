// What an expression may name.
use crate::elements::PlacedName;
use sp_plan::Text;
use sp_query::QueryColumn;
use std::marker::Model;

/// The columns and the names that an expression may name, and the number of the element whose predicate it
/// is in: the names of the elements before it are bound earlier. In the predicate of WHEN there is no such
/// element. Predicates have an event at hand, and may name any text; where none is at hand, a bare name is
/// no column, and texts are those that are known.
#[derive(Drop)]
pub struct Scope<'a> {
    pub columns: &'a [QueryColumn],
    pub names: &'a [PlacedName<'a>],
    pub here: Option<usize>,
    pub at_hand: bool,
    pub known: &'a [Text],
}

impl<'a> Model for Scope<'a> {
    ghost use Rattle.sp_compile.specs.Scopes as scopes;

    ghost Value = { scopes.Scope };

    ghost view = { λ scope.
        record {
          columns = scope.columns.now;
          names = scope.names.now;
          here = scope.here;
          at_hand = scope.at_hand;
          known = scope.known.now;
        } };
}
