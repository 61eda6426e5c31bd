//! SQL texts, read.
#![tactic(auto)]

mod definition;
mod expecting;
mod fault;
mod kind;
pub mod laws;
mod lexis;
mod listing;
mod refusal;
mod schema;
mod schema_text;
mod token_list;
mod words;

pub use definition::{ColumnDef, ColumnKind, KeyDef, TableDef};
pub use expecting::{expect_kind, is_next};
pub use kind::{Kind, same_kind};
pub use lexis::integer_within;
pub use listing::Listing;
pub use refusal::{SqlKind, SqlRefusal};
pub use schema_text::{read_schema, refused_for_itself};
pub use token_list::{Token, tokens};
pub use words::{extent, name_at};
