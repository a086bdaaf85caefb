//! What lies outside the program: files, standard streams, and the moments at which halves start.
#![tactic(auto)]

pub use gate::{Gate, OpenGate};
pub use memory_shelf::MemoryShelf;
pub use memory_sink::MemorySink;
pub use shelf::{Failed, Shelf, StartStop};
pub use sink::Sink;
pub use std_ends::{FileShelf, StdSink};
pub use texts::{Bytes, Name};

mod files;
pub mod gate;
pub mod memory_shelf;
pub mod memory_sink;
mod retries;
pub mod shelf;
pub mod sink;
pub mod std_ends;
mod tally;
pub mod texts;
