ghost use Rattle.std.specs.Prelude.{◌≡◌, ◌-◌, ◌<◌, ◌≤◌, [], length, take, drop, vec_len, IfOk, OnOk};
ghost use Rattle.std.specs.Io.KnownBytes.{Consumes, IsAtEnd};
ghost use Rattle.si_io.specs.Disk.{AsksFor, FetchesAnswer, is_file, unfetched};
ghost use Rattle.si_io.specs.Library.{IsFileRead};

use super::again::{open_again, read_again};
use super::device::Input;
use super::disk::{Disk, System};
use crate::{Fetched, Library, LibraryCounts};
use std::alloc::AllocError;
use std::io;
use std::io::{Error, ErrorKind};
use std::rt::Files;

/// Bytes that are asked of a file at first: room for them is filled and cut again, so few.
const FIRST: usize = 1 << 12;

/// A library over the files of a disk, such as those of the system. A name is a path.
///
/// A file that isn't found is missing. Any other error is a fault, but for a signal's: such a call
/// is made again. So is a folder, or a name that isn't UTF-8. It tells no files, but of each fetch
/// what the disk answered.
#[derive(Drop)]
pub struct RealLibrary<D> {
    disk: D,
    counts: LibraryCounts,
}

impl<R: Files> RealLibrary<System<R>> {
    ghost use Rattle.si_io.specs.Counts.{nothing_fetched};
    ghost use Rattle.si_io.specs.Real.{fetches_of};

    /// A library over the files of this runtime, which has counted nothing yet.
    pub fn new(rt: R) -> RealLibrary<System<R>>
        ensures { fetches_of result ≡ nothing_fetched }
    {
        RealLibrary::over(System(rt))
    }
}

impl<D> RealLibrary<D> {
    ghost use Rattle.si_io.specs.Counts.{nothing_fetched};
    ghost use Rattle.si_io.specs.Real.{disk_of, fetches_of};

    /// A library over this disk, which has counted nothing yet.
    pub fn over(disk: D) -> RealLibrary<D>
        ensures disk { disk_of result ≡ disk }
        ensures counts { fetches_of result
            ≡ nothing_fetched }
    {
        RealLibrary {
            disk,
            counts: LibraryCounts::new(),
        }
    }
}

impl<D: Disk> Library for RealLibrary<D> {
    ghost use Rattle.si_io.specs.Counts.{fetch_counted};
    ghost use Rattle.si_io.specs.Library.{Holds};
    ghost use Rattle.si_io.specs.Real.{disk_of, fetches_of, library_shown};

    ghost shown = { library_shown };

    /// Opens the file of this name, once, and reads it to its end, or to one byte more than the
    /// limit.
    fn fetch(&mut self, name: &[u8], into: &mut Vec<u8>, limit: usize) -> Fetched
        ensures holds { Holds result limit into.new.items }
        ensures counts { fetches_of self.new ≡ fetch_counted result (fetches_of self.old) }
        ensures asks { AsksFor D.opens (disk_of self.old) name.now (disk_of self.new)
            (λ answer. FetchesAnswer D.File.rest limit answer result into.new.items)
            (result ≡ Fetched.Failed) }
    {
        into.clear();
        let answer = fetch_file(&mut self.disk, name, into, limit);
        if !is_file(answer) {
            into.clear();
        }
        self.counts.count(answer)
    }
}

fn is_file(answer: Fetched) -> bool
    ensures { result ≡ is_file answer }
{
    match answer {
        Fetched::File => true,
        _ => false,
    }
}

/// Opens a file, and reads it as `read_file` does.
fn fetch_file<D: Disk>(disk: &mut D, name: &[u8], into: &mut Vec<u8>, limit: usize) -> Fetched
    requires { into.old.items ≡ [] }
    ensures { AsksFor D.opens disk.old name.now disk.new
        (λ answer. FetchesAnswer D.File.rest limit answer result into.new.items)
        (result ≡ Fetched.Failed) }
{
    let Ok(path) = str::from_utf8(name) else {
        return Fetched::Failed;
    };
    match open_again(disk, path) {
        Ok(mut file) => read_file(&mut file, into, limit),
        Err(error) => unfetched(&error),
    }
}

/// What a fetch answers whose file wasn't opened.
fn unfetched(error: &Error) -> Fetched
    ensures { result ≡ unfetched error.now }
{
    match error.kind() {
        ErrorKind::NotFound => Fetched::Missing,
        _ => Fetched::Failed,
    }
}

/// Reads a file to its end, or to one byte more than the limit. Of a reader whose bytes are known
/// it takes all of them.
///
/// It is meant to fill room for an eighth more bytes than the file has, and a few; no clause says
/// so.
fn read_file<F: Input>(file: &mut F, into: &mut Vec<u8>, limit: usize) -> Fetched
    requires { into.old.items ≡ [] }
    ensures { IsFileRead (F.rest file.old) limit result into.new.items }
{
    let most = limit.saturating_add(1);
    let mut filled = 0;
    while filled < most {
        if make_room(into, filled, most).is_err() {
            return Fetched::Memory;
        }
        match read_after(file, into, filled) {
            Ok(0) => {
                into.truncate(filled);
                return Fetched::File;
            }
            Ok(count) => filled += count,
            Err(_) => return Fetched::Failed,
        }
    }
    Fetched::TooBig
}

/// Reads into a slice after the bytes that are filled.
fn read_after<F: Input>(file: &mut F, into: &mut [u8], filled: usize) -> io::Result<usize>
    requires { filled < length into.old }
    ensures bound { IfOk result (λ n. n ≤ length into.old - filled) }
    ensures front { take filled into.new ≡ take filled into.old }
    ensures given { IfOk result (λ n. Consumes (F.rest file.old) (F.rest file.new)
        (take n (drop filled into.new))) }
    ensures ended { IfOk result (λ n. n ≡ 0 → IsAtEnd (F.rest file.new)) }
{
    read_again(file, &mut into[filled..])
}

/// Makes room after the bytes that are filled: an eighth as many, but some at first, and no more
/// than `most` in all. Room is filled before it is read into, so all of it is resident.
fn make_room(into: &mut Vec<u8>, filled: usize, most: usize) -> Result<(), AllocError>
    requires below { filled < most }
    requires within { filled ≤ vec_len into.old }
    requires bound { vec_len into.old ≤ most }
    ensures room { OnOk result (filled < vec_len into.new) }
    ensures bound { OnOk result (vec_len into.new ≤ most) }
    ensures front { OnOk result (take filled into.new.items ≡ take filled into.old.items) }
{
    if filled < into.len() {
        return Ok(());
    }
    let more = (filled / 8).max(FIRST);
    into.resize(filled.saturating_add(more).min(most), 0)
}
