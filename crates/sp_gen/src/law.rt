// What holds of every table.
ghost use Rattle.sp_gen.specs.Plain.{LinesArePlain};

/// Law: the lines of a table have no blank, no quote and no end of a line in them, and are of 1 to 26 bytes.
pub fn lines_are_plain()
    ensures { LinesArePlain }
{}
