// The text of the drill's query.
ghost use Rattle.std.specs.Prelude.{◌≡◌};
ghost use Rattle.sp_drill.specs.Query.{drill_query};

/// The query that a drill runs over generated rows, on one line: an event of the symbol AA, then one event
/// or more of a lower price, and one of a higher price, in windows of 40 events every 10. It has a plan, and
/// every plan of it reads these rows: the law `drill_query_has_plan`.
#[tactic(auto, unfolding(crate::specs::Query::drill_query))]
pub fn query() -> &'static str
    ensures { result.now ≡ drill_query }
{
    "EVENT (at INT, sym TEXT, price DEC 2) TIME at PATTERN (A B+ C) \
     DEFINE A AS sym = 'AA', B AS price < A.price, C AS price > A.price \
     WITHIN 40 EVENTS FROM EVERY 10 EVENTS SELECT FIRST CONSUME ALL"
}
