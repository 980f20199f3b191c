// Which names a match consumes.
ghost use Rattle.std.specs.Prelude.{◌≡◌, [], map};
ghost use Rattle.std.specs.List.{list_any};
ghost use Rattle.std.specs.Str.{bytes_eq};
ghost use Rattle.sp_query.specs.declared.query.Query.{Query};
ghost use Rattle.sp_compile.specs.Checks as checks;
ghost use Rattle.sp_compile.specs.Scopes as scopes;
ghost use Rattle.sp_compile.specs.Stands as stands;

use crate::CompileFault;
use crate::elements::PlacedName;
use crate::lookup::name_place;
use sp_plan::Text;
use sp_query::{Ident, Query, QueryConsume};

// Whether one of these names has the text.
fn is_among(names: &[Ident], text: &Text) -> bool
    ensures { result ≡ list_any (λ name. bytes_eq name.text text.now) names.now }
{
    names.iter().any(|name| name.text.as_str() == text.as_str())
}

// What is wrong with a name behind these: the pattern has none such, it is negated, or it stands twice.
fn consumed_fault(names: &[PlacedName], before: &[Ident], name: &Ident) -> Option<CompileFault>
    ensures { (query : Query) → names.now ≡ scopes.pattern_names query
        → result ≡ checks.consumed_fault query (map (λ name. name.text) before.now) name.now }
{
    let Some(place) = name_place(names, &name.text) else {
        return Some(CompileFault::Unknown(name.span));
    };
    let named = &names[place];
    if named.negated {
        return Some(CompileFault::NeverBound(name.span));
    }
    if is_among(before, &name.text) {
        return Some(CompileFault::Twice(name.span));
    }
    None
}

/// The first fault of the consumed names, from the left.
pub(crate) fn consume_fault(query: &Query, names: &[PlacedName]) -> Option<CompileFault>
    requires { names.now ≡ scopes.pattern_names query.now }
    ensures { result ≡ checks.consume_fault query.now query.now.consume }
{
    let QueryConsume::Names(consumed) = &query.consume else {
        return None;
    };
    let consumed = consumed.as_slice();
    for (at, name) in consumed.iter().enumerate() {
        if let Some(fault) = consumed_fault(names, &consumed[..at], name) {
            return Some(fault);
        }
    }
    None
}

/// Whether a match consumes the events of this name; a negated one has none.
pub(crate) fn is_consumed(consume: &QueryConsume, named: &PlacedName) -> bool
    ensures { result ≡ stands.is_consumed consume.now named.now }
{
    match consume {
        QueryConsume::All => !named.negated,
        QueryConsume::None => false,
        QueryConsume::Names(names) => is_among(names.as_slice(), &named.name.text),
    }
}
