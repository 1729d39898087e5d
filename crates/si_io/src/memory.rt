// Devices in memory, which fail at the calls that a list names.
mod library;
mod plan;
mod sink;
mod source;

pub use library::MemoryLibrary;
pub use sink::MemorySink;
pub use source::MemorySource;
