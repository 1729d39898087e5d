ghost use Rattle.std.specs.Prelude.{◌≡◌, IfSome, IsTrue};
ghost use Rattle.si_io.specs.Counts.{fetch_counted};
ghost use Rattle.si_io.specs.Library.{Fetches, Holds};
ghost use Rattle.si_io.specs.Shown.{LibraryShown, KeepsFiles};

/// What became of a fetch.
#[derive(Clone, Copy, Debug, PartialEq, Eq)]
pub enum Fetched {
    /// The file's bytes are there.
    File,
    /// There is no file of this name.
    Missing,
    /// The file has more bytes than the limit.
    TooBig,
    /// The library has failed.
    Failed,
    /// Memory ran out.
    Memory,
}

/// What files are fetched from, by their names.
pub trait Library {
    /// The files, where the library tells them, which no fetch changes; whether it may fail at all;
    /// and what it has counted so far.
    ghost shown: { Self → LibraryShown };

    /// Puts the bytes of a file into `into`, in place of what it held, if there are at most
    /// `limit`.
    ///
    /// After any answer but `File`, `into` is empty. Each call is counted, and `Missing`, `TooBig`
    /// and `Failed` each by a count of its own too.
    fn fetch(&mut self, name: &[u8], into: &mut Vec<u8>, limit: usize) -> Fetched
        ensures right { IfSome (shown self.old).files
            (λ told. Fetches told name.now limit result into.new.items) }
        ensures holds { Holds result limit into.new.items }
        ensures sure { result ≡ Fetched.Failed → IsTrue (shown self.old).may_fail }
        ensures library { KeepsFiles (shown self.old) (shown self.new) }
        ensures counts { (shown self.new).counts
            ≡ fetch_counted result (shown self.old).counts };
}
