// Devices over std's readers and writers, and a library over a disk. They tell no content by
// themselves, since nothing is known of the outside.
mod again;
mod device;
mod disk;
mod library;
mod sink;
mod source;

pub use device::{Input, Output};
pub use disk::{Disk, System};
pub use library::RealLibrary;
pub use sink::RealSink;
pub use source::RealSource;
