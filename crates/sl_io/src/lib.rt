//! The traits by which the files and the streams outside are reached, with implementations over those of the system and
//! in memory.
#![tactic(auto)]

mod fail_shelf;
mod fail_sink;
mod faults;
mod files;
mod mem_shelf;
mod mem_sink;
mod shelf;
mod sink;
mod streams;

pub use fail_shelf::FailShelf;
pub use fail_sink::{FailSink, FailedWrite};
pub use faults::{GetFault, PutFault, SinkFault};
pub use files::FileShelf;
pub use mem_shelf::{MemShelf, ShelfCounts};
pub use mem_sink::MemSink;
pub use shelf::Shelf;
pub use sink::{Sink, tell, write_pieces};
pub use streams::StreamSink;

#[cfg(test)]
mod tests;
