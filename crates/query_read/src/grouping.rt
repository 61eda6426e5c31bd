//! What GROUP BY says.

use query_trees::{ColumnName, Expr};
use sql_read::Listing;

/// The columns of GROUP BY, and the condition of its HAVING.
#[derive(Drop)]
pub struct Grouping {
    pub groups: Listing<ColumnName>,
    pub having: Option<Expr>,
}
