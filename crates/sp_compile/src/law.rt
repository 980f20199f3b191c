// Laws of the definitions that are relations.
ghost use Rattle.std.specs.Prelude.{◌≡◌, ℕ, List, Bool};
ghost use Rattle.sp_plan.specs.declared.event.Event.{Event};
ghost use Rattle.sp_plan.specs.Values.{BoundEvents};
ghost use Rattle.sp_query.specs.declared.tree.Tree.{Tree};
ghost use Rattle.sp_compile.specs.Scopes.{Scope};
ghost use Rattle.sp_compile.specs.Laws.{OneVerdict};
ghost use Rattle.sp_compile.specs.Meaning.{Datum, Means, Truth};

/// Law: an expression means one value, and a predicate is true or not, over the same event at hand and
/// the same events bound before it.
pub fn one_truth()
    ensures value { (scope : Scope) (texts : List (List ℕ)) (event : Event) (bound : BoundEvents)
        (tree : Tree) (one other : Datum) → Means scope texts event bound tree one
        → Means scope texts event bound tree other → one ≡ other }
    ensures truth { (scope : Scope) (texts : List (List ℕ)) (event : Event) (bound : BoundEvents)
        (tree : Tree) (one other : Bool) → Truth scope texts event bound tree one
        → Truth scope texts event bound tree other → one ≡ other }
{}

/// Law: the checks of a query that a text has find one thing, a first fault or that there is none, and
/// no query has two.
pub fn one_verdict()
    ensures { OneVerdict }
{}
