// What holds of every text of items.
ghost use Rattle.sp_query.specs.declared.query.Query.{Query};
ghost use Rattle.sp_returns.specs.Laws.{ItemsOrOneFault, ReturnsAreAlike, ReturnsOrOneFault};

/// Law: a text is at most one list of items; it has at most one fault, but for want of memory, and none
/// where it is such a list.
pub fn one_list()
    ensures { ItemsOrOneFault }
{}

/// Law: for two plans a text has one fault at most, and none where expressions stand for it.
pub fn one_return()
    ensures { ReturnsOrOneFault }
{}

/// Law: over plans of the same two queries, expressions that stand for one text give the same values,
/// whatever events are bound; and a text that is refused over some of these plans is over the others.
pub fn returns_are_alike()
    ensures { (first second : Query) → ReturnsAreAlike first second }
{}
