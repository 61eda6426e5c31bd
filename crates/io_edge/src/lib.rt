//! The outside world as the program sees it: names, a shelf of files to read, a sink of bytes to write.
#![tactic(auto)]

mod files;
mod memory;
mod name;
mod plan;
mod reading;
mod room;
mod shelf;
mod sink;
mod steady;
mod system;
mod writing;

pub use memory::{MemoryShelf, MemorySink};
pub use name::Name;
pub use reading::{ReadRefusal, read_all};
pub use shelf::{Failed, OpenRefusal, Shelf};
pub use sink::Sink;
pub use steady::{SteadyShelf, SteadySink};
pub use system::{DirShelf, StreamSink};
pub use writing::{write_all, write_pieces};

/// Memory was refused: the one refusal that no contract foresees.
pub type NoMemory = std::alloc::AllocError;
