ghost use Rattle.std.specs.Prelude.{◌≡◌, IsTrue, OnOk, OnErr};

use super::plan::is_next_listed;
use crate::{Fetched, Library, LibraryCounts};
use indexmap::IndexMap;
use std::alloc::{AllocError, Global};

/// A library that has its files in memory.
///
/// The fetches whose numbers, from 1, are listed fail, and no others do.
#[derive(Drop)]
pub struct MemoryLibrary {
    files: IndexMap<Vec<u8>, Vec<u8>>,
    failing: Vec<u32>,
    counts: LibraryCounts,
}

impl MemoryLibrary {
    ghost use Rattle.si_io.specs.Counts.{nothing_fetched};
    ghost use Rattle.si_io.specs.Memory.{library_files, library_counts, library_failing, has_no_file, PutsFile, SameLibrary};

    /// A library without files. `failing` lists the fetches that fail, by their numbers from 1.
    pub fn new(alloc: Global, failing: Vec<u32>) -> MemoryLibrary
        ensures files { library_files result ≡ has_no_file }
        ensures counts { library_counts result
            ≡ nothing_fetched }
        ensures failing { library_failing result ≡ failing.items }
    {
        MemoryLibrary {
            files: IndexMap::new(alloc),
            failing,
            counts: LibraryCounts::new(),
        }
    }

    /// Puts a file in place of the one of this name, if there is one.
    ///
    /// `AllocError`: there is no memory for it, and the files are as before.
    pub fn put(&mut self, name: Vec<u8>, bytes: Vec<u8>) -> Result<(), AllocError>
        ensures put { OnOk result (PutsFile name.items bytes.items (library_files self.old)
            (library_files self.new)) }
        ensures err { OnErr result (library_files self.new ≡ library_files self.old) }
        ensures same { SameLibrary self.old self.new }
    {
        match self.files.insert(name, bytes) {
            Ok(_) => Ok(()),
            Err(_) => Err(AllocError),
        }
    }
}

impl Library for MemoryLibrary {
    ghost use Rattle.std.specs.Prelude.{◌↔◌};
    ghost use Rattle.si_io.specs.Counts.{raised, fetch_counted};
    ghost use Rattle.si_io.specs.Plan.{is_listed};
    ghost use Rattle.si_io.specs.Library.{Fetches, Holds};
    ghost use Rattle.si_io.specs.Memory.{library_files, library_counts, library_failing, library_may_fail, library_shown};

    ghost shown = { library_shown };

    /// Looks the file up. Fails exactly where the fetch is listed.
    fn fetch(&mut self, name: &[u8], into: &mut Vec<u8>, limit: usize) -> Fetched
        ensures right { Fetches (library_files self.old) name.now limit result into.new.items }
        ensures holds { Holds result limit into.new.items }
        ensures sure { result ≡ Fetched.Failed → IsTrue (library_may_fail self.old) }
        ensures told { library_files self.new ≡ library_files self.old }
        ensures failing { library_failing self.new ≡ library_failing self.old }
        ensures listed { (result ≡ Fetched.Failed) ↔ IsTrue
            (is_listed (library_failing self.old) (raised (library_counts self.old).calls)) }
        ensures counts { library_counts self.new
            ≡ fetch_counted result (library_counts self.old) }
    {
        into.clear();
        if is_next_listed(&self.failing, self.counts.calls) {
            return self.counts.count(Fetched::Failed);
        }
        let Some(bytes) = self.files.get(name) else {
            return self.counts.count(Fetched::Missing);
        };
        if bytes.len() > limit {
            return self.counts.count(Fetched::TooBig);
        }
        match into.extend_from_slice(bytes) {
            Ok(()) => self.counts.count(Fetched::File),
            Err(_) => self.counts.count(Fetched::Memory),
        }
    }
}
