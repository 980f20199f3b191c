// What holds of every text.
ghost use Rattle.std.specs.Prelude.{◌≡◌, ℕ, List};
ghost use Rattle.sp_parse.specs.Laws.{QueryOrOneFault};
ghost use Rattle.sp_query.specs.declared.query.Query.{Query};
ghost use Rattle.sp_query.specs.Queries.{IsQuery};

/// A text is at most one query.
pub fn one_query()
    ensures { (text : List ℕ) (query other : Query) → IsQuery text query → IsQuery text other
        → query ≡ other }
{}

/// Law: a text has at most one fault, but for want of memory, and none where it is a query.
pub fn one_fault()
    ensures { QueryOrOneFault }
{}
