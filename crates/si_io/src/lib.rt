//! The devices that bytes come from and go to: sources, sinks and libraries of files, in memory and
//! real.
//!
//! A device counts its calls, what they gave or took, and its faults, each up to the largest `u64`.
//! Every call above it that answers a fault has a clause that the count rose, so that no caller can
//! make up a fault, nor call a device again that failed.
#![tactic(auto)]

mod buffered;
mod counts;
mod failed;
mod library;
mod lines;
mod memory;
mod real;
mod sink;
mod source;

pub use counts::{LibraryCounts, SinkCounts, SourceCounts};
pub use failed::Failed;
pub use library::{Fetched, Library};
pub use lines::{Lines, write_lines};
pub use memory::{MemoryLibrary, MemorySink, MemorySource};
pub use real::{Disk, Input, Output, RealLibrary, RealSink, RealSource, System};
pub use sink::{Sink, write_all};
pub use source::Source;
