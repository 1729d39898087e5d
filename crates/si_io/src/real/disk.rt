// What the real library stands on: one call, which opens a file.
ghost use Rattle.std.specs.Prelude.{ℕ, List, Result, ⊤};
ghost use Rattle.std.specs.declared.io.Error.{Error};

use super::device::Input;
use std::fs::File;
use std::io;
use std::rt::Files;

/// What opens files by their paths.
pub trait Disk {
    type File: Input + Drop;

    /// What one call of `open` did, where the disk tells it: the disk before the call, the path,
    /// the answer, and the disk after it.
    ghost opens: { Self → List ℕ → Result Self.File Error → Self → Type 0 };

    fn open(&mut self, path: &str) -> io::Result<Self::File>
        ensures { opens self.old path.now result self.new };
}

/// The files of the system. A path goes from the folder where the program was started.
///
/// It tells nothing, since std says nothing of what an open does: that the file is the one of this
/// path, opened once, has to be read in the one line of `open`; tests cover it.
#[derive(Drop)]
pub struct System<R>(pub R);

impl<R: Files> Disk for System<R> {
    type File = R::File;

    ghost opens = { λ before path answer after. ⊤ };

    fn open(&mut self, path: &str) -> io::Result<R::File> {
        File::open(&self.0, path)
    }
}
