ghost use Rattle.std.specs.Prelude.{⊤};

use si_io::{
    Disk, Failed, Fetched, Library, RealLibrary, RealSink, RealSource, Sink, Source, write_all,
};
use std::alloc::{AllocError, Global};
use std::cell::Cell;
use std::io::{Read, Write};
use std::process::Abort;
use std::test::Fail;
use std::{fs, io};

/// Gives one letter a call, and fails at one of the calls. A signal interrupts another.
#[derive(Drop)]
struct Letters {
    calls: u8,
    fails_at: u8,
    interrupted_at: u8,
}

impl Read for Letters {
    fn read(&mut self, into: &mut [u8]) -> io::Result<usize> {
        self.calls = self.calls.saturating_add(1);
        if self.calls == self.fails_at {
            return Err(io::Error::from(io::ErrorKind::BrokenPipe));
        }
        if self.calls == self.interrupted_at {
            return Err(io::Error::from(io::ErrorKind::Interrupted));
        }
        if into.is_empty() || self.calls > 5 {
            return Ok(0);
        }
        into[0] = b'a' + self.calls;
        Ok(1)
    }
}

/// Reads once, and looks at the answer.
fn assert_read<S: Source>(
    rt: &impl Abort,
    source: &mut S,
    into: &mut [u8],
    due: Result<usize, Failed>,
) {
    assert_eq!(rt; source.read(into), due);
}

fn assert_letters<S: Source>(rt: &impl Abort, source: &mut S, into: &mut [u8; 2]) {
    assert_read(rt, source, into, Ok(1));
    assert_read(rt, source, into, Err(Failed));
    assert_eq!(rt; into.as_slice(), b"b-".as_slice());
    assert_read(rt, source, &mut into[1..], Ok(1));
    assert_eq!(rt; into.as_slice(), b"be".as_slice());
    assert_read(rt, source, into, Ok(1));
    assert_read(rt, source, into, Ok(0));
}

#[test]
fn a_real_source_fails_once_is_interrupted_and_goes_on(rt: HostRuntime) {
    let mut letters = Letters {
        calls: 0,
        fails_at: 2,
        interrupted_at: 3,
    };
    let mut into = [b'-'; 2];
    assert_letters(&rt, &mut RealSource::new(&mut letters), &mut into);
    assert_eq!(rt; letters.calls, 6);
}

/// Takes up to three bytes a call, nothing at all once it is full, and fails at one of the calls.
/// It keeps a `w` for each write and an `f` for each flush.
#[derive(Drop)]
struct Page {
    text: Vec<u8>,
    asked: Vec<u8>,
    calls: u8,
    fails_at: u8,
    flushes: u8,
    fails_at_flush: u8,
}

impl Page {
    fn new(alloc: Global, fails_at: u8, fails_at_flush: u8) -> Page {
        Page {
            text: Vec::new(alloc),
            asked: Vec::new(alloc),
            calls: 0,
            fails_at,
            flushes: 0,
            fails_at_flush,
        }
    }
}

impl Write for Page {
    fn write(&mut self, bytes: &[u8]) -> io::Result<usize> {
        self.asked.push(b'w')?;
        self.calls = self.calls.saturating_add(1);
        if self.calls == self.fails_at {
            return Err(io::Error::from(io::ErrorKind::BrokenPipe));
        }
        if self.text.len() >= 9 {
            return Ok(0);
        }
        let count = bytes.len().min(3);
        self.text.extend_from_slice(&bytes[..count])?;
        Ok(count)
    }

    fn flush(&mut self) -> io::Result<()> {
        self.asked.push(b'f')?;
        self.flushes = self.flushes.saturating_add(1);
        if self.flushes == self.fails_at_flush {
            return Err(io::Error::from(io::ErrorKind::BrokenPipe));
        }
        Ok(())
    }
}

/// Writes each text, and looks at whether it was written.
fn assert_written<K: Sink>(rt: &impl Abort, sink: &mut K, rows: &[(&[u8], bool)]) {
    for (text, is_written) in rows {
        assert_eq!(rt; write_all(sink, text).is_ok(), *is_written);
    }
}

/// What stands on a page, and how it was asked.
fn assert_page(rt: &impl Abort, page: &Page, text: &[u8], asked: &[u8]) {
    assert_eq!(rt; page.text.as_slice(), text);
    assert_eq!(rt; page.asked.as_slice(), asked);
}

const LINES: [(&[u8], bool); 2] = [(b"ab", true), (b"cd\n", true)];

const REST: [(&[u8], bool); 2] = [(b"\n", true), (b"", true)];

fn flush_lines<K: Sink>(rt: &impl Abort, sink: &mut K) {
    assert_written(rt, sink, &LINES);
    // Three of four bytes are taken, and what is left is the caller's.
    assert_eq!(rt; sink.write(b"e\nf\n"), Ok(3));
    assert_written(rt, sink, &REST);
}

fn assert_flushed(rt: &impl Abort, page: &mut Page) {
    flush_lines(rt, &mut RealSink::new(&mut *page));
    assert_page(rt, page, b"abcd\ne\nf\n", b"wwfwwf");
}

#[test]
fn a_real_sink_flushes_at_the_end_of_a_line(rt: HostRuntime) {
    let mut page = Page::new(rt.alloc(), 0, 0);
    assert_flushed(&rt, &mut page);
}

/// At first the second piece of three bytes is refused, then the flush after the bytes. Last the
/// page is full, and takes nothing.
const FAILURES: [(&[u8], bool); 4] = [
    (b"abcde", false),
    (b"d\n", false),
    (b"efgh\n", true),
    (b"i", false),
];

fn assert_handed_on(rt: &impl Abort, page: &mut Page) {
    assert_written(rt, &mut RealSink::new(&mut *page), &FAILURES);
    assert_page(rt, page, b"abcd\nefgh\n", b"wwwfwwfw");
}

#[test]
fn a_real_sink_hands_on_each_failure(rt: HostRuntime) {
    let mut page = Page::new(rt.alloc(), 2, 1);
    assert_handed_on(&rt, &mut page);
}

/// A name, a limit, what a fetch answers, and what it leaves in place of other bytes.
type Fetch<'a> = (&'a [u8], usize, Fetched, &'a [u8]);

fn assert_fetched<L: Library>(
    rt: &impl Abort,
    library: &mut L,
    into: &mut Vec<u8>,
    row: &Fetch<'_>,
) {
    let (name, limit, due, bytes) = *row;
    let answer = library.fetch(name, into, limit);
    assert_eq!(rt; answer, due, "limit {limit}");
    assert!(rt; into.as_slice() == bytes, "limit {limit}");
}

fn assert_row<L: Library>(
    rt: &impl Abort,
    alloc: Global,
    library: &mut L,
    row: &Fetch<'_>,
) -> Result<(), AllocError> {
    let mut into = b"old".to_vec(alloc)?;
    assert_fetched(rt, library, &mut into, row);
    Ok(())
}

fn assert_rows<L: Library>(
    rt: &impl Abort,
    alloc: Global,
    library: &mut L,
    rows: &[Fetch<'_>],
) -> Result<(), AllocError> {
    for row in rows {
        assert_row(rt, alloc, library, row)?;
    }
    Ok(())
}

/// A path that is longer than most.
const FAR: &str = "axioms/a-file-of-axioms-with-a-name-of-more-than-sixty-four-letters.ax";

fn assert_opened<L: Library>(
    rt: &impl Abort,
    alloc: Global,
    library: &mut L,
    long: &[u8],
) -> Result<(), AllocError> {
    let rows: [Fetch<'_>; 9] = [
        (FAR.as_bytes(), 3, Fetched::File, b"far"),
        (b"axioms/short.ax", 3, Fetched::File, b"abc"),
        (b"axioms/short.ax", 2, Fetched::TooBig, b""),
        (b"axioms/none.ax", 9, Fetched::Missing, b""),
        (b"axioms", 9, Fetched::Failed, b""),
        (b"\xff", 9, Fetched::Failed, b""),
        (b"axioms/long.ax", 40000, Fetched::File, long),
        (b"axioms/long.ax", 39999, Fetched::TooBig, b""),
        (b"axioms/short.ax", usize::MAX, Fetched::File, b"abc"),
    ];
    assert_rows(rt, alloc, library, &rows)
}

#[test]
fn a_real_library_opens_paths(rt: HostRuntime) -> Result<(), Fail> {
    fs::create_dir(&rt, "axioms")?;
    fs::write(&rt, FAR, "far")?;
    fs::write(&rt, "axioms/short.ax", "abc")?;
    let long = vec![in rt.alloc(); b'x'; 40000]?;
    fs::write(&rt, "axioms/long.ax", long.as_slice())?;
    let mut library = RealLibrary::new(rt);
    assert_opened(&rt, rt.alloc(), &mut library, &long)?;
    Ok(())
}

/// A file of nine letters. A read gives up to four of them, and one of the reads fails.
#[derive(Drop)]
struct Sheet<'a> {
    left: usize,
    reads: &'a Cell<u32>,
    fails_at: u32,
}

impl Read for Sheet<'_> {
    fn read(&mut self, into: &mut [u8]) -> io::Result<usize> {
        self.reads.set(self.reads.get().saturating_add(1));
        if self.reads.get() == self.fails_at {
            return Err(io::Error::from(io::ErrorKind::BrokenPipe));
        }
        let count = into.len().min(4).min(self.left);
        into[..count].fill(b'x');
        self.left -= count;
        Ok(count)
    }
}

/// A disk with the file `a`, one that may not be opened, and no file `b`. It counts its calls and
/// the reads of the file.
#[derive(Drop)]
struct Shelf<'a> {
    opens: &'a Cell<u32>,
    reads: &'a Cell<u32>,
    fails_at: u32,
}

impl<'a> Disk for Shelf<'a> {
    type File = Sheet<'a>;

    ghost opens = { λ before path answer after. ⊤ };

    fn open(&mut self, path: &str) -> io::Result<Sheet<'a>> {
        self.opens.set(self.opens.get().saturating_add(1));
        if path == "b" {
            return Err(io::Error::from(io::ErrorKind::NotFound));
        }
        if path != "a" {
            return Err(io::Error::from(io::ErrorKind::PermissionDenied));
        }
        Ok(Sheet {
            left: 9,
            reads: self.reads,
            fails_at: self.fails_at,
        })
    }
}

fn answer_of<L: Library>(alloc: Global, library: &mut L, name: &[u8], limit: usize) -> Fetched {
    let mut into = Vec::new(alloc);
    library.fetch(name, &mut into, limit)
}

/// A name, a limit, the read that fails, the answer, and how often was opened and read.
type Call<'a> = (&'a [u8], usize, u32, Fetched, (u32, u32));

fn assert_calls(rt: &impl Abort, alloc: Global, row: &Call<'_>) {
    let (name, limit, fails_at, due, calls) = *row;
    let opens = Cell::new(0);
    let reads = Cell::new(0);
    let mut library = RealLibrary::over(Shelf {
        opens: &opens,
        reads: &reads,
        fails_at,
    });
    let answer = answer_of(alloc, &mut library, name, limit);
    assert_eq!(rt; answer, due, "limit {limit}, {fails_at}");
    assert_eq!(rt;
        (opens.get(), reads.get()),
        calls,
        "limit {limit}, {fails_at}"
    );
}

const CALLS: [Call<'static>; 7] = [
    (b"a", 9, 0, Fetched::File, (1, 4)),
    (b"a", 8, 0, Fetched::TooBig, (1, 3)),
    (b"a", 9, 1, Fetched::Failed, (1, 1)),
    (b"a", 9, 3, Fetched::Failed, (1, 3)),
    (b"b", 9, 0, Fetched::Missing, (1, 0)),
    (b"c", 9, 0, Fetched::Failed, (1, 0)),
    (b"a\xff", 9, 0, Fetched::Failed, (0, 0)),
];

#[test]
fn a_real_library_makes_each_call_once(rt: HostRuntime) {
    for row in &CALLS {
        assert_calls(&rt, rt.alloc(), row);
    }
}
