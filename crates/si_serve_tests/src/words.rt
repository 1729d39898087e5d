// Calls with words.
ghost use Rattle.std.specs.Prelude.{◌≤◌, ℕ, [], ◌∷◌, Bool, Option, Some};
ghost use Rattle.si_state.specs.Harvest.{Files};
ghost use Rattle.si_steps.specs.declared.limits.Limits.{Limits};
ghost use Rattle.si_serve.specs.Serve.{HasRoomForOutputs};

use crate::runs::{ROOM, WHOLE, call};
use si_io::{MemoryLibrary, MemorySink};
use si_serve::Status;
use si_serve::serve::decline;
use si_session::Limits;
use si_texts::library_of;
use std::alloc::{AllocError, Global};
use std::io::{Error, ErrorKind};
use std::process::Abort;
use std::test::Fail;

const USAGE: &[u8] = b"usage: stindex [--strict] [FILE]...\n";

/// Words, how the run over the line `stats` ends, and what it writes. The library has one file.
const CALLS: [(&[&str], Status, &[u8]); 17] = [
    (
        &["--strict"],
        Status::Ended,
        b"clauses 0 entries 0 symbols 0\n",
    ),
    (
        &["--strict", "a.p"],
        Status::Ended,
        b"ok 1 1\nclauses 1 entries 1 symbols 1\n",
    ),
    (
        &["a.p", "--strict"],
        Status::Ended,
        b"ok 1 1\nclauses 1 entries 1 symbols 1\n",
    ),
    (
        &["a.p", "--strict", "b.p"],
        Status::Refused,
        b"ok 1 1\n! missing 'b.p'\n",
    ),
    (
        &["b.p", "a.p"],
        Status::Ended,
        b"! missing 'b.p'\nok 1 1\nclauses 1 entries 1 symbols 1\n",
    ),
    (&["--strict", "--strict"], Status::Usage, USAGE),
    (&["--strict=x"], Status::Usage, USAGE),
    (
        &["-"],
        Status::Ended,
        b"! missing '-'\nclauses 0 entries 0 symbols 0\n",
    ),
    (&["--"], Status::Ended, b"clauses 0 entries 0 symbols 0\n"),
    (
        &["--", "--strict"],
        Status::Ended,
        b"! missing '--strict'\nclauses 0 entries 0 symbols 0\n",
    ),
    (&["--help"], Status::Usage, USAGE),
    (&["-h"], Status::Usage, USAGE),
    (&["--version"], Status::Usage, USAGE),
    (&["--nope"], Status::Usage, USAGE),
    (
        &[""],
        Status::Ended,
        b"! syntax\nclauses 0 entries 0 symbols 0\n",
    ),
    (
        &["a\np"],
        Status::Ended,
        b"! syntax\nclauses 0 entries 0 symbols 0\n",
    ),
    (&["--strict", ""], Status::Refused, b"! syntax\n"),
];

/// The words as the program has them.
fn owned(alloc: Global, words: &[&str]) -> Result<Vec<String>, AllocError> {
    let mut all = Vec::new(alloc);
    for word in words {
        all.push(word.to_string(alloc)?)?;
    }
    Ok(all)
}

/// How a call ends whose library has this file `a.p`, and what it writes.
fn called(
    alloc: Global,
    words: &[&str],
    limits: &Limits,
    file: &[u8],
    input: &[u8],
) -> Result<(Status, Vec<u8>), AllocError> {
    let mut library = library_of(alloc, &[(b"a.p", file)], 0)?;
    called_over(alloc, words, limits, input, &mut library)
}

/// The same over this library.
fn called_over(
    alloc: Global,
    words: &[&str],
    limits: &Limits,
    input: &[u8],
    library: &mut MemoryLibrary,
) -> Result<(Status, Vec<u8>), AllocError> {
    let words = owned(alloc, words)?;
    call(alloc, &words, limits, input, (WHOLE, WHOLE), ROOM, library)
}

/// Looks at how such a call ends, and at what it writes.
fn assert_called(
    rt: &impl Abort,
    alloc: Global,
    words: &[&str],
    limits: &Limits,
    (file, input): (&[u8], &[u8]),
    due: (Status, &[u8]),
) -> Result<(), AllocError> {
    let (status, bytes) = called(alloc, words, limits, file, input)?;
    assert_eq!(rt; (status, bytes.as_slice()), due);
    Ok(())
}

#[test]
fn words_ask_for_files_and_strict_runs(rt: HostRuntime) -> Result<(), Fail> {
    let alloc = rt.alloc();
    let limits = Limits::standard();
    let texts = (b"cnf(k,axiom,p).\n".as_slice(), b"stats".as_slice());
    for (words, end, due) in &CALLS {
        assert_called(&rt, alloc, words, &limits, texts, (*end, *due))?;
    }
    Ok(())
}

/// Words, the most bytes of a session, the input, how the run ends, and what it writes.
const RUNS: [(&[&str], u64, &[u8], Status, &[u8]); 4] = [
    (
        &["--strict"],
        64,
        b"remove x\nstats\n",
        Status::Refused,
        b"! unknown x\n",
    ),
    (
        &["a.p", ""],
        64,
        b"stats",
        Status::Ended,
        b"! taken k\n! syntax\nclauses 0 entries 0 symbols 0\n",
    ),
    (
        &["", "a.p"],
        0,
        b"stats\n",
        Status::SessionLimit,
        b"! syntax\n! taken k\n",
    ),
    (
        &["--strict", "a.p", ""],
        0,
        b"stats\n",
        Status::Refused,
        b"! taken k\n",
    ),
];

#[test]
fn refusals_end_strict_runs_alone(rt: HostRuntime) -> Result<(), Fail> {
    let alloc = rt.alloc();
    for (words, session, input, end, due) in &RUNS {
        let limits = Limits {
            session: *session,
            ..Limits::standard()
        };
        let twice = b"cnf(k,axiom,p(a)).\ncnf(k,axiom,p(b)).\n".as_slice();
        assert_called(&rt, alloc, words, &limits, (twice, *input), (*end, *due))?;
    }
    Ok(())
}

/// How a call ends whose words couldn't be gathered, and what it writes; the write with this number
/// fails, where 0 is none.
fn declined(
    alloc: Global,
    kind: ErrorKind,
    fails_at: u32,
) -> Result<(Status, Vec<u8>), AllocError> {
    let writes = vec![in alloc; fails_at]?;
    let mut sink = MemorySink::new(alloc, ROOM, WHOLE.chunk, writes)?;
    let status = decline(&Error::from(kind), &mut sink);
    Ok((status, sink.bytes().to_vec(alloc)?))
}

/// Why words couldn't be gathered, the write that fails, how the call ends, and what it writes.
const DECLINED: [(ErrorKind, u32, Status, &[u8]); 3] = [
    (ErrorKind::InvalidData, 0, Status::Usage, USAGE),
    (ErrorKind::InvalidData, 1, Status::SinkFault, b""),
    (ErrorKind::OutOfMemory, 0, Status::Memory, b""),
];

#[test]
fn words_that_are_no_text_are_no_call(rt: HostRuntime) -> Result<(), Fail> {
    for (kind, fails_at, status, text) in &DECLINED {
        let (ended, written) = declined(rt.alloc(), *kind, *fails_at)?;
        assert_eq!(rt; (ended, written.as_slice()), (*status, *text));
    }
    Ok(())
}

/// Nine bytes of room are enough where the one word is empty and there is no input.
fn room_for_an_empty_word()
    ensures { (limits : Limits) (told : Option Files) (may_fail : Bool) (room : ℕ) → 9 ≤ room
        → HasRoomForOutputs limits told ([] ∷ []) may_fail (Some []) room }
{}
