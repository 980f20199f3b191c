ghost use Rattle.sp_cut.specs.Growth.{RowsStay, RowsAddUp};

/// Law: the rows of bytes whose input goes on are the first rows of every longer input, ended or not.
pub fn rows_stay()
    ensures { RowsStay }
{}

/// Law: the rows given and those left are the rows of all bytes fed, after each call of a cutter.
pub fn rows_add_up()
    ensures { RowsAddUp }
{}
