//! Tables from the bytes of their files.
#![tactic(auto)]

mod columns;
mod copies;
mod database;
mod dictionaries;
mod fields;
mod header;
mod held;
mod keys;
pub mod laws;
mod loading;
mod raw;
mod reading;
mod records;
mod refusal;
mod texts;
mod vectors;

pub use database::{Database, finish};
pub use loading::load;
pub use raw::RawTable;
pub use refusal::{DataKind, DataRefusal};
