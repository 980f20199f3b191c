// What is true of the rows of every table that is read, and of the query that is run over them.
ghost use Rattle.sp_drill.specs.Drill.{GeneratedRowsAreRead};
ghost use Rattle.sp_drill.specs.Query.{DrillQueryHasPlan};

/// Law: under a plan whose schema is the drill's, a table of up to 1,048,576 events, whatever its seed, is
/// read to its end, and each of its rows behind the header gives an event, at the time that is its number.
pub fn generated_rows_are_read()
    ensures { GeneratedRowsAreRead }
{
    sp_gen::law::lines_are_plain();
}

/// Law: the drill's query is no longer than a query may be and has a plan, and the schema of every plan of
/// it is the drill's.
pub fn drill_query_has_plan()
    ensures { DrillQueryHasPlan }
{
    // law: the plans of a text stand for one query
    sp_load::law::one_reading();
}
