//! Cases as text: the bytes that a line spells, and answers put together as text.
//!
//! The programs of cases read a case a line. A line is text, and what it spells may be any bytes, long ones too: see [`spelled`].
#![tactic(auto)]

mod pieces;
mod showing;
mod spelling;

pub use pieces::{after, before, first_number};
pub use showing::{show_bytes, show_count, show_number};
pub use spelling::spelled;
