//! Queries as they are written.

use crate::clauses::{SelectList, SortKey, Source};
use crate::expr::{ColumnName, Expr};
use sql_read::Listing;

/// A query.
pub struct Query {
    /// The first byte of `SELECT`.
    pub at: u32,
    /// The first byte of `DISTINCT`, where it is written.
    pub distinct: Option<u32>,
    pub list: SelectList,
    pub source: Source,
    /// The condition of WHERE.
    pub filter: Option<Expr>,
    /// The columns of GROUP BY, none where it is not written.
    pub groups: Listing<ColumnName>,
    /// The condition of HAVING.
    pub having: Option<Expr>,
    /// The keys of ORDER BY, none where it is not written.
    pub order: Listing<SortKey>,
}

// Written out, so that it stands once, and not at each place where a query may be let go.
impl Drop for Query {
    fn drop(self) {
        let Query {
            at: _,
            distinct: _,
            list: _,
            source: _,
            filter: _,
            groups: _,
            having: _,
            order: _,
        } = self;
    }
}
