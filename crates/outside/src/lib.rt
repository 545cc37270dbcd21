//! Where bytes come from and where they go: a shelf of files by name, and a sink.
#![tactic(auto)]

pub use memory_shelf::MemShelf;
pub use memory_sink::MemSink;
pub use real::{FileShelf, StdSink};
pub use shelf::{Failed, Shelf};
pub use sink::Sink;

mod again;
mod calls;
mod memory_shelf;
mod memory_sink;
mod real;
mod shelf;
mod sink;
