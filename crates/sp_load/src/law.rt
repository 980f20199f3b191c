// Laws of what is loaded.
ghost use Rattle.sp_load.specs.Laws.{OneReading, OneSecond, OneText};

/// Law: the plans of a text stand for one query, its faults have one code and one place, and no text has
/// both a plan and a fault.
pub fn one_reading()
    ensures { OneReading }
{
    // laws: what a text is, what refuses it, and what the checks of a query find is one thing each
    sp_parse::law::one_query();
    sp_parse::law::one_fault();
    sp_compile::law::one_verdict();
}

/// Law: where files are told, one text stands at a place, and none where it is longer than the limit.
pub fn one_text()
    ensures { OneText }
{}

/// Law: the plans of a second query's text stand for one query, its faults have one code and one place, and no text
/// has both a plan and a fault.
pub fn one_second()
    ensures { OneSecond }
{
    // laws: what a text is, what refuses it, and what the checks of a query find is one thing each
    sp_parse::law::one_query();
    sp_parse::law::one_fault();
    sp_compile::law::one_verdict();
}
