ghost use Rattle.sp_chance.specs.Matrices.{RowsAreWhole};

/// Law: every row of every matrix sums up to the whole.
pub fn rows_are_whole()
    ensures { RowsAreWhole }
{}
