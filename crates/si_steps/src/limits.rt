// What bounds a session.
ghost use Rattle.std.specs.Prelude.{◌≡◌, ◌↔◌, IsTrue};

use si_defs::MOST_OCCURRENCES;

/// What bounds a session.
#[derive(Clone, Copy, Debug, PartialEq, Eq)]
pub struct Limits {
    /// Bytes of one command line, without its line feed.
    pub line: usize,
    /// Bytes of one fetched file.
    pub file: usize,
    /// Entries of all kept clauses together.
    pub entries: u64,
    /// Fetches of one load.
    pub fetches: u32,
    /// Files open at once in one load.
    pub depth: u32,
    /// Bytes of command input.
    pub session: u64,
}

impl Limits {
    ghost use Rattle.si_steps.specs.Limits.{AllowsLimits};

    /// The limits that the program takes: lines of 1 MiB, files of 32 MiB, 4 Mi entries, 1,024
    /// fetches of a load with 32 files open at once, and 1 TiB of input.
    pub fn standard() -> Limits
        ensures { result ≡ record {
          line = 1048576;
          file = 33554432;
          entries = 4194304;
          fetches = 1024;
          depth = 32;
          session = 1099511627776;
        } }
    {
        Limits {
            line: 1 << 20,
            file: 1 << 25,
            entries: 1 << 22,
            fetches: 1 << 10,
            depth: 32,
            session: 1 << 40,
        }
    }

    /// Whether lines, files and entries are bounded so that every count fits its type.
    pub fn fits(&self) -> bool
        ensures { IsTrue result ↔ AllowsLimits self.now }
    {
        self.line <= MOST_OCCURRENCES
            && self.file <= MOST_OCCURRENCES
            && self.entries <= MOST_OCCURRENCES as u64
    }
}
