use sp_query::{Ident, Tree};

/// An item of what matches return: an expression, and the column of the second query that it is for.
#[derive(Drop)]
pub struct Return {
    pub tree: Tree,
    pub name: Ident,
}
