// A session in which each call of a device fails in turn, and loads of a file that is cut off.
use crate::loads::assert_output;
use crate::runs::{Device, ROOM, WHOLE, assert_run_over};
use si_serve::Status;
use si_session::Limits;
use si_texts::library_of;
use std::alloc::{AllocError, Global};
use std::process::Abort;
use std::test::Fail;

/// Axioms of groups.
const AXIOMS: &[u8] =
    b"cnf(left_identity,axiom,( multiply(identity,X) = X )).\ncnf(left_inverse,axiom,( multiply(inverse(X),X) = identity )).\ncnf(associativity,axiom,\n    ( multiply(multiply(X,Y),Z) = multiply(X,multiply(Y,Z)) )).\ncnf(right_inverse,axiom,( multiply(X,inverse(X)) = identity )).\n";

/// A problem that selects two of the axioms, and these.
const FILES: &[(&[u8], &[u8])] = &[
    (
        b"main.p",
        b"% a group problem\ninclude('grp.ax',[left_inverse,associativity]).\ncnf(goal,negated_conjecture,( multiply(a,inverse(a)) != identity )).\n",
    ),
    (b"grp.ax", AXIOMS),
];

/// Four lines, with the bytes that are read and written up to the end of each.
const LINES: &[u8] = b"load 'main.p'\nunifiable term multiply(X,inverse(X))\nremove goal\nstats\n";

const REPLIES: &[u8] =
    b"ok 3 15\nassociativity:1:1 {Z -> inverse(?X); ?X -> multiply(X,Y)}\nassociativity:1:1.1 {X -> ?X; Y -> inverse(?X)}\nassociativity:1:2.2 {Y -> ?X; Z -> inverse(?X)}\ngoal:1:1 {?X -> a}\nend 4\nok 1 6\nclauses 2 entries 9 symbols 4\n";

const ENDS: [(u32, usize); 4] = [(14, 8), (52, 187), (64, 194), (70, 224)];

/// Looks at how the run over these devices ends, and that it writes so many bytes of the replies
/// and no others.
fn assert_front(
    rt: &impl Abort,
    alloc: Global,
    devices: (Device, Device),
    room: usize,
    end: Status,
    count: usize,
) -> Result<(), AllocError> {
    let mut library = library_of(alloc, FILES, 0)?;
    let due = (end, &REPLIES[..count.min(REPLIES.len())]);
    let limits = Limits::standard();
    assert_run_over(
        rt,
        alloc,
        &limits,
        LINES,
        (devices, room),
        &mut library,
        due,
    )
}

#[test]
fn each_read_may_fail(rt: HostRuntime) -> Result<(), Fail> {
    // The last number is of no call, for the one before it meets the end.
    for fails_at in 1..=72 {
        let mut count = 0;
        for (read, wrote) in &ENDS {
            if *read < fails_at {
                count = *wrote;
            }
        }
        let end = if fails_at < 72 {
            Status::SourceFault
        } else {
            Status::Ended
        };
        let from = Device { chunk: 1, fails_at };
        assert_front(&rt, rt.alloc(), (from, WHOLE), ROOM, end, count)?;
    }
    Ok(())
}

#[test]
fn each_write_may_fail(rt: HostRuntime) -> Result<(), Fail> {
    for count in 0..=224u32 {
        let end = if count < 224 {
            Status::SinkFault
        } else {
            Status::Ended
        };
        for (fails_at, room) in [(count + 1, ROOM), (0, count as usize)] {
            let to = Device { chunk: 1, fails_at };
            assert_front(&rt, rt.alloc(), (WHOLE, to), room, end, count as usize)?;
        }
    }
    Ok(())
}

/// The number of a fetch that fails, and the replies.
const FETCHES: [(u32, &[u8]); 2] = [
    (
        1,
        b"! fault 'main.p'\nend 0\n! unknown goal\nclauses 0 entries 0 symbols 0\n",
    ),
    (
        2,
        b"! fault 'grp.ax'\nend 0\n! unknown goal\nclauses 0 entries 0 symbols 0\n",
    ),
];

#[test]
fn each_fetch_may_fail(rt: HostRuntime) -> Result<(), Fail> {
    for (fails_at, replies) in &FETCHES {
        let library = (FILES, *fails_at);
        assert_output(
            &rt,
            rt.alloc(),
            &Limits::standard(),
            library,
            LINES,
            replies,
        )?;
    }
    Ok(())
}

/// Replies to a load of the axioms where they are cut off to fewer bytes than this, and to no fewer
/// than in the row before.
const CUTS: [(usize, &[u8]); 9] = [
    (1, b"ok 0 0\n"),
    (54, b"! syntax 'grp.ax' 1\n"),
    (56, b"ok 1 3\n"),
    (117, b"! syntax 'grp.ax' 2\n"),
    (119, b"ok 2 7\n"),
    (206, b"! syntax 'grp.ax' 3\n"),
    (208, b"ok 3 12\n"),
    (270, b"! syntax 'grp.ax' 5\n"),
    (272, b"ok 4 16\n"),
];

/// A load of so many bytes of the axioms has this reply.
fn assert_cut(
    rt: &impl Abort,
    alloc: Global,
    count: usize,
    reply: &[u8],
) -> Result<(), AllocError> {
    let files: [(&[u8], &[u8]); 1] = [(b"grp.ax", &AXIOMS[..count.min(AXIOMS.len())])];
    let limits = Limits::standard();
    assert_output(rt, alloc, &limits, (&files, 0), b"load 'grp.ax'\n", reply)
}

#[test]
fn a_file_may_end_anywhere(rt: HostRuntime) -> Result<(), Fail> {
    let mut from = 0;
    for (to, reply) in &CUTS {
        for count in from..*to {
            assert_cut(&rt, rt.alloc(), count, reply)?;
        }
        from = *to;
    }
    Ok(())
}
