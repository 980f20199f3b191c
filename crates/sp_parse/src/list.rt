// Lists, as their items are read one after another.
ghost use Rattle.sp_parse.specs.Reads.{Adds};

use crate::stop::Stop;
use sp_query::Token;
use sqlite_items::Items;

// The list with what was read behind it, and the rest.
pub(crate) fn added<'a, T: Drop>(
    list: Items<T>,
    read: Result<(T, &'a [Token]), Stop>,
) -> Result<(Items<T>, &'a [Token]), Stop>
    ensures { Adds list read.entry result }
{
    let (item, rest) = read?;
    let mut list = list;
    list.push(item)?;
    Ok((list, rest))
}
