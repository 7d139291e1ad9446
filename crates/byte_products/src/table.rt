use std::fmt;

// Which table: products by row and column, or inverses from that of 1 on.
// An enum and no closure: it has the table's name, and `entry_of` says of both in one place what they have.
#[derive(Clone, Copy)]
pub enum Table {
    Products,
    Inverses,
}

impl fmt::Display for Table {
    fn fmt<W: fmt::Write>(&self, f: &mut fmt::Formatter<W>) -> fmt::Result {
        match self {
            Table::Products => write!(f, "products"),
            Table::Inverses => write!(f, "inverses"),
        }
    }
}
