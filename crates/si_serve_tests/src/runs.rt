// Whole runs over sources, sinks and libraries in memory.
use si_io::{MemoryLibrary, MemorySink, MemorySource};
use si_serve::Status;
use si_serve::serve::serve;
use si_session::Limits;
use std::alloc::{AllocError, Global};
use std::process::Abort;
use std::test::Fail;

/// How a device in memory cuts its bytes, and which of its calls fails, where 0 is none.
#[derive(Clone, Copy)]
pub(crate) struct Device {
    pub(crate) chunk: usize,
    pub(crate) fails_at: u32,
}

/// Cuts nothing that these tests write, and never fails.
pub(crate) const WHOLE: Device = Device {
    chunk: 1 << 20,
    fails_at: 0,
};

/// More than what these tests write.
pub(crate) const ROOM: usize = 1 << 16;

/// How a run over this input and this library ended, and what it wrote.
pub(crate) fn run_over(
    alloc: Global,
    limits: &Limits,
    input: &[u8],
    (from, to): (Device, Device),
    room: usize,
    library: &mut MemoryLibrary,
) -> Result<(Status, Vec<u8>), AllocError> {
    call(alloc, &[], limits, input, (from, to), room, library)
}

/// A source of these bytes.
fn source_of(alloc: Global, bytes: &[u8], device: Device) -> Result<MemorySource, AllocError> {
    let bytes = bytes.to_vec(alloc)?;
    let failing = vec![in alloc; device.fails_at]?;
    Ok(MemorySource::new(bytes, device.chunk, failing))
}

/// How a run ends that is called with these words and writes to this sink.
fn status_of(
    alloc: Global,
    words: &[String],
    limits: &Limits,
    (input, from): (&[u8], Device),
    sink: &mut MemorySink,
    library: &mut MemoryLibrary,
) -> Result<Status, AllocError> {
    if !limits.fits() {
        return Err(AllocError);
    }
    let mut source = source_of(alloc, input, from)?;
    Ok(serve(alloc, words, limits, &mut source, sink, library))
}

/// The same, and what it wrote, where each of the two devices is owned by a call of its own.
pub(crate) fn call(
    alloc: Global,
    words: &[String],
    limits: &Limits,
    input: &[u8],
    (from, to): (Device, Device),
    room: usize,
    library: &mut MemoryLibrary,
) -> Result<(Status, Vec<u8>), AllocError> {
    let failing = vec![in alloc; to.fails_at]?;
    let mut sink = MemorySink::new(alloc, room, to.chunk, failing)?;
    let status = status_of(alloc, words, limits, (input, from), &mut sink, library)?;
    Ok((status, sink.bytes().to_vec(alloc)?))
}

/// How a run over this input and a library without files ended, and what it wrote, where no device
/// fails.
pub(crate) fn written(
    alloc: Global,
    limits: &Limits,
    input: &[u8],
) -> Result<(Status, Vec<u8>), AllocError> {
    let mut library = MemoryLibrary::new(alloc, Vec::new(alloc));
    run_over(alloc, limits, input, (WHOLE, WHOLE), ROOM, &mut library)
}

/// Looks at how a run over this library ends, and at what it writes.
pub(crate) fn assert_run_over(
    rt: &impl Abort,
    alloc: Global,
    limits: &Limits,
    input: &[u8],
    (devices, room): ((Device, Device), usize),
    library: &mut MemoryLibrary,
    (end, output): (Status, &[u8]),
) -> Result<(), AllocError> {
    let (status, bytes) = run_over(alloc, limits, input, devices, room, library)?;
    assert_eq!(rt; (status, bytes.as_slice()), (end, output), "at {input:?}");
    Ok(())
}

/// The same over a library without files.
fn assert_run(
    rt: &impl Abort,
    alloc: Global,
    limits: &Limits,
    input: &[u8],
    devices: ((Device, Device), usize),
    due: (Status, &[u8]),
) -> Result<(), AllocError> {
    let mut library = MemoryLibrary::new(alloc, Vec::new(alloc));
    assert_run_over(rt, alloc, limits, input, devices, &mut library, due)
}

/// The line that begins and ends so, with `a` inside so many `f(` `)` between.
fn nested(alloc: Global, begin: &[u8], depth: u32, end: &[u8]) -> Result<Vec<u8>, AllocError> {
    let mut line = begin.to_vec(alloc)?;
    for _ in 0..depth {
        line.extend_from_slice(b"f(")?;
    }
    line.push(b'a')?;
    for _ in 0..depth {
        line.push(b')')?;
    }
    line.extend_from_slice(end)?;
    Ok(line)
}

/// The line `add cnf(l,axiom,p(a,a,..)).` with so many more arguments than one.
fn wide(alloc: Global, more: u32) -> Result<Vec<u8>, AllocError> {
    let mut line = b"add cnf(l,axiom,p(a".to_vec(alloc)?;
    for _ in 0..more {
        line.extend_from_slice(b",a")?;
    }
    line.extend_from_slice(b")).\n")?;
    Ok(line)
}

/// Inputs with their outputs under the standard limits.
const ROWS: [(&[u8], &[u8]); 22] = [
    (b"", b""),
    (b"\n", b""),
    (b" \t\n\n", b""),
    (
        b"add cnf(c1,axiom,p(f(X),a)).\ninstances lit p(Y,Z)\n",
        b"ok 1 3\nc1:1 {?Y -> f(X); ?Z -> a}\nend 1\n",
    ),
    // A last line without a line feed.
    (
        b"add cnf(c1,axiom,p(f(X),a)).\ninstances term f(Y)",
        b"ok 1 3\nc1:1:1 {?Y -> X}\nend 1\n",
    ),
    // Refusals change nothing.
    (
        b"add cnf(c1,axiom,p(f(X),a)).\nadd cnf(c1,axiom,r).\nadd cnf(c2,axiom,p(X).\nadd cnf('c2',axiom,r).\nstats\ninstances lit p(Y,Z)\n",
        b"ok 1 3\n! taken c1\n! syntax\nok 1 1\nclauses 2 entries 4 symbols 4\nc1:1 {?Y -> f(X); ?Z -> a}\nend 1\n",
    ),
    // A variable of the pattern that stands twice has one value.
    (
        b"add cnf(c,axiom,p(a,a)).\nadd cnf(d,axiom,p(a,b)).\ninstances lit p(X,X)\n",
        b"ok 1 3\nok 1 3\nc:1 {?X -> a}\nend 1\n",
    ),
    // A variable of a clause is no instance of a constant, nor of another variable that has a
    // value.
    (
        b"add cnf(c,axiom,p(X,Y)).\ninstances lit p(a,Z)\ninstances lit p(Z,Z)\ninstances lit p(Y,X)\n",
        b"ok 1 1\nend 0\nend 0\nc:1 {?Y -> X; ?X -> Y}\nend 1\n",
    ),
    // The value is a term with variables of the clause.
    (
        b"add cnf(c,axiom,p(g(X,h(Y)),X)).\ninstances lit p(A,B)\n",
        b"ok 1 3\nc:1 {?A -> g(X,h(Y)); ?B -> X}\nend 1\n",
    ),
    // Equal literals of two clauses, and equal terms at two places, in order.
    (
        b"add cnf(b,axiom,p(f(a),f(a))).\nadd cnf(a,axiom,p(f(a),f(a))).\ninstances lit p(X,X)\ninstances term f(X)\n",
        b"ok 1 5\nok 1 5\nb:1 {?X -> f(a)}\na:1 {?X -> f(a)}\nend 2\nb:1:1 {?X -> a}\nb:1:2 {?X -> a}\na:1:1 {?X -> a}\na:1:2 {?X -> a}\nend 4\n",
    ),
    // No query has answers where no clause is kept.
    (b"instances lit p(X)\n", b"end 0\n"),
    // White space alone has no reply, also as the last line.
    (
        b"x\n\nadd cnf(a,axiom,p).\n \ninstances lit p\n ",
        b"! syntax\nok 1 1\na:1 {}\nend 1\n",
    ),
    // Blanks alone, and lines that are no command.
    (
        b"% a comment\n\n\r\n/* a */ % b\nadd fof(a,axiom,p).\nadd include('a.p').\nfind p\n'add' cnf(a,axiom,p).\n/* a\n",
        b"! language\n! syntax\n! syntax\n! syntax\n! syntax\n",
    ),
    // A symbol has one shape, and a clause that goes frees it; no blank has to part the name.
    (
        b"add cnf(c1,axiom,p(f(X),a)).\nadd cnf(c2,axiom,q(f(a,b))).\nremove'c1'\nadd cnf(c2,axiom,q(f(a,b))).\nstats\n",
        b"ok 1 3\n! use f function/2 function/1\nok 1 3\nok 1 4\nclauses 1 entries 4 symbols 4\n",
    ),
    // The order is that of acceptance, and an unknown name changes nothing.
    (
        b"remove c9\nadd cnf(a1,axiom,p(b)).\nadd cnf(a2,axiom,p(c)).\nremove a1\nadd cnf(a1,axiom,p(b)).\ninstances lit p(X)\nremove\nstats stats\n",
        b"! unknown c9\nok 1 2\nok 1 2\nok 1 2\nok 1 2\na2:1 {?X -> c}\na1:1 {?X -> b}\nend 2\n! syntax\n! syntax\n",
    ),
    // Clauses as a prover writes them.
    (
        b"add cnf(e,plain,($false),inference(spm,[status(thm)],[c_0_2,c_0_3])).\nadd cnf(c_0_5, plain, (p(X1)|~q(X1,esk1_0)), inference(rw,[status(thm)],[c_0_2, c_0_3]), ['final']).\nstats\n",
        b"ok 1 1\nok 1 3\nclauses 2 entries 4 symbols 4\n",
    ),
    // Numbers of nodes, of empty trees, of a clause's, and of those that it leaves.
    (
        b"tree\nexplain x\n%\nadd cnf(c1,axiom,p(f(X),a)).\nexplain unifiable lit p(Y,Z)\nexplain unifiable term b\ntree\nremove c1\ntree\n",
        b"literals nodes 1 leaves 0 unmerged 0\nterms nodes 1 leaves 0 unmerged 0\n! syntax\nok 1 3\npassed 2 nodes 2 answers 1\npassed 1 nodes 3 answers 0\nliterals nodes 2 leaves 1 unmerged 0\nterms nodes 3 leaves 2 unmerged 0\nok 1 3\nliterals nodes 1 leaves 0 unmerged 0\nterms nodes 1 leaves 0 unmerged 0\n",
    ),
    // Two spellings of one name, and an integer that is another.
    (
        b"add cnf(c1,axiom,r).\nadd cnf('c1',axiom,r).\nadd cnf(1,axiom,r).\nadd cnf('1',axiom,r).\nadd cnf(1,axiom,q).\n",
        b"ok 1 1\n! taken c1\nok 1 1\nok 1 1\n! taken 1\n",
    ),
    // Quoted texts, a signed integer, a distinct object, unequal terms.
    (
        b"add cnf('a b',axiom,'p q'(\"x y\",-3)|X!='it\\'s').\ninstances lit X!=Y\ninstances term X\n",
        b"ok 1 5\n'a b':2 {?X -> X; ?Y -> 'it\\'s'}\nend 1\n'a b':1:1 {?X -> \"x y\"}\n'a b':1:2 {?X -> -3}\n'a b':2:2 {?X -> 'it\\'s'}\nend 3\n",
    ),
    // Escapes in a quoted text, and numbers of more than one digit.
    (
        b"add cnf('It\\'s',axiom,q|q|q|q|q|q|q|q|q|p(a,f(b,b,b,b,b,b,b,b,b,b,b,g(\"q\\\"\\\\\")))).\ninstances term \"q\\\"\\\\\"\ninstances term g(X)\n",
        b"ok 1 25\n'It\\'s':10:2.12.1 {}\nend 1\n'It\\'s':10:2.12 {?X -> \"q\\\"\\\\\"}\nend 1\n",
    ),
    // Blanks between tokens may be empty, and signs part literals.
    (
        b"add/**/cnf(c,axiom,~p|q).\ninstances lit~p\ninstances lit q\ninstances lit p\n",
        b"ok 1 2\nc:1 {}\nend 1\nc:2 {}\nend 1\nend 0\n",
    ),
    // Both spellings of a negation, and brackets round a formula.
    (
        b"add cnf(c,axiom,((~(a=b)|a!=b|~c=d))).\ninstances lit X!=Y\ninstances lit X=Y\n",
        b"ok 1 9\nc:1 {?X -> a; ?Y -> b}\nc:2 {?X -> a; ?Y -> b}\nc:3 {?X -> c; ?Y -> d}\nend 3\nend 0\n",
    ),
];

/// Looks at what is written where each of these is the input.
pub(crate) fn assert_outputs(
    rt: &impl Abort,
    alloc: Global,
    rows: &[(&[u8], &[u8])],
) -> Result<(), AllocError> {
    let limits = Limits::standard();
    for &(input, output) in rows {
        let due = (Status::Ended, output);
        assert_run(rt, alloc, &limits, input, ((WHOLE, WHOLE), ROOM), due)?;
    }
    Ok(())
}

#[test]
fn each_input_has_its_output(rt: HostRuntime) -> Result<(), Fail> {
    assert_outputs(&rt, rt.alloc(), &ROWS)?;
    Ok(())
}

/// The same where a line has at most 20 bytes.
const SHORT_LINES: [(&[u8], &[u8]); 7] = [
    (
        b"\nx\nadd cnf(a,axiom,p).\n\n instances lit p",
        b"! syntax\nok 1 1\na:1 {}\nend 1\n",
    ),
    // As many bytes as a line may have, and one more, which hides what was read.
    (
        b"add cnf(a,axiom,p). \nadd cnf(b,axiom,p).  \ninstances lit p\n",
        b"ok 1 1\n! long\na:1 {}\nend 1\n",
    ),
    (
        b"remove c3456789012345\nremove c345678901234\n",
        b"! long\n! unknown c345678901234\n",
    ),
    (b"                    \n", b""),
    (b"                     \n", b"! long\n"),
    (b"                     ", b"! long\n"),
    (
        b"                                                            \nx\n",
        b"! long\n! syntax\n",
    ),
];

#[test]
fn chunks_and_the_length_of_a_line(rt: HostRuntime) -> Result<(), Fail> {
    let alloc = rt.alloc();
    let limits = Limits {
        line: 20,
        ..Limits::standard()
    };
    for chunk in 1..=7 {
        let from = Device { chunk, fails_at: 0 };
        for (input, output) in &SHORT_LINES {
            let due = (Status::Ended, *output);
            assert_run(&rt, alloc, &limits, input, ((from, WHOLE), ROOM), due)?;
        }
    }
    Ok(())
}

/// Looks at the reply to a clause whose term is nested so deep.
fn assert_nested(
    rt: &impl Abort,
    alloc: Global,
    depth: u32,
    output: &[u8],
) -> Result<(), AllocError> {
    let line = nested(alloc, b"add cnf(n,axiom,p(", depth, b")).\n")?;
    assert_outputs(rt, alloc, &[(line.as_slice(), output)])
}

/// Looks at the reply to a question whose pattern is nested so deep.
fn assert_nested_pattern(
    rt: &impl Abort,
    alloc: Global,
    depth: u32,
    output: &[u8],
) -> Result<(), AllocError> {
    let line = nested(alloc, b"instances term ", depth, b"\n")?;
    assert_outputs(rt, alloc, &[(line.as_slice(), output)])
}

/// Looks at the reply to a clause whose atom has so many more arguments than one.
fn assert_wide(rt: &impl Abort, alloc: Global, more: u32, output: &[u8]) -> Result<(), AllocError> {
    let line = wide(alloc, more)?;
    assert_outputs(rt, alloc, &[(line.as_slice(), output)])
}

#[test]
fn deep_and_wide_lines(rt: HostRuntime) -> Result<(), Fail> {
    assert_nested(&rt, rt.alloc(), 510, b"ok 1 512\n")?;
    assert_nested(&rt, rt.alloc(), 511, b"! syntax\n")?;
    assert_nested_pattern(&rt, rt.alloc(), 512, b"end 0\n")?;
    assert_nested_pattern(&rt, rt.alloc(), 513, b"! syntax\n")?;
    assert_wide(&rt, rt.alloc(), 0, b"ok 1 2\n")?;
    assert_wide(&rt, rt.alloc(), 4999, b"ok 1 5001\n")?;
    Ok(())
}

/// The most bytes of a session, an input, how the run ends, and what it writes.
const SESSIONS: [(u64, &[u8], Status, &[u8]); 7] = [
    (8, b"instances lit p(X)\n", Status::SessionLimit, b""),
    (0, b"x\n", Status::SessionLimit, b""),
    (0, b"", Status::SessionLimit, b""),
    (2, b"x\nx\n", Status::SessionLimit, b"! syntax\n"),
    (3, b"x\nx\n", Status::SessionLimit, b"! syntax\n"),
    (4, b"x\nx\n", Status::SessionLimit, b"! syntax\n! syntax\n"),
    (5, b"x\nx\n", Status::Ended, b"! syntax\n! syntax\n"),
];

#[test]
fn a_session_has_a_limit(rt: HostRuntime) -> Result<(), Fail> {
    let alloc = rt.alloc();
    for (session, input, end, output) in &SESSIONS {
        let limits = Limits {
            session: *session,
            ..Limits::standard()
        };
        for chunk in 1..=5 {
            let from = Device { chunk, fails_at: 0 };
            let devices = ((from, WHOLE), ROOM);
            assert_run(&rt, alloc, &limits, input, devices, (*end, *output))?;
        }
    }
    Ok(())
}

#[test]
fn a_device_fails_at_once(rt: HostRuntime) -> Result<(), Fail> {
    let alloc = rt.alloc();
    let failing = Device {
        chunk: 1,
        fails_at: 1,
    };
    let by_one = Device {
        chunk: 1,
        fails_at: 0,
    };
    let limits = Limits::standard();
    let query = b"instances lit p(X)\n";
    let due = (Status::SourceFault, b"".as_slice());
    assert_run(&rt, alloc, &limits, query, ((failing, WHOLE), ROOM), due)?;
    let clause = b"add cnf(c1,axiom,p(f(X),a)).\n";
    let due = (Status::SinkFault, b"ok ".as_slice());
    assert_run(&rt, alloc, &limits, clause, ((WHOLE, by_one), 3), due)?;
    Ok(())
}

#[test]
fn entries_have_a_limit(rt: HostRuntime) -> Result<(), Fail> {
    let few = Limits {
        entries: 3,
        ..Limits::standard()
    };
    let input =
        b"add cnf(c1,axiom,p(f(X),a)).\nadd cnf(u,axiom,r).\nremove c1\nadd cnf(u,axiom,r).\n";
    let due = (
        Status::Ended,
        b"ok 1 3\n! full 4 3\nok 1 3\nok 1 1\n".as_slice(),
    );
    assert_run(&rt, rt.alloc(), &few, input, ((WHOLE, WHOLE), ROOM), due)?;
    Ok(())
}

#[test]
fn input_ends_after_a_command(rt: HostRuntime) -> Result<(), Fail> {
    let alloc = rt.alloc();
    let short = Limits {
        session: 8,
        ..Limits::standard()
    };
    let input = b"stats\nstats\n";
    let counted = b"clauses 0 entries 0 symbols 0\n".as_slice();
    let due = (Status::SessionLimit, counted);
    assert_run(&rt, alloc, &short, input, ((WHOLE, WHOLE), ROOM), due)?;
    let failing = Device {
        chunk: 1,
        fails_at: 8,
    };
    let due = (Status::SourceFault, counted);
    let limits = Limits::standard();
    assert_run(&rt, alloc, &limits, input, ((failing, WHOLE), ROOM), due)?;
    Ok(())
}
