// Sessions that load files.
use crate::runs::{ROOM, WHOLE, assert_run_over};
use si_serve::Status;
use si_session::Limits;
use si_texts::library_of;
use std::alloc::{AllocError, Global};
use std::process::Abort;
use std::test::Fail;

/// The names of files, and their bytes.
type Files = &'static [(&'static [u8], &'static [u8])];

/// Which bound of a load is small. The others are those of the standard limits.
#[derive(Clone, Copy)]
enum Bound {
    Standard,
    Depth(u32),
    /// The most bytes of a file, and the most fetches.
    Small(usize, u32),
    Entries(u64),
    /// The fetch with this number fails.
    Fails(u32),
}

impl Bound {
    fn limits(self) -> Limits {
        let standard = Limits::standard();
        match self {
            Bound::Depth(depth) => Limits { depth, ..standard },
            Bound::Small(file, fetches) => Limits {
                file,
                fetches,
                ..standard
            },
            Bound::Entries(entries) => Limits {
                entries,
                ..standard
            },
            _ => standard,
        }
    }

    fn fails_at(self) -> u32 {
        match self {
            Bound::Fails(call) => call,
            _ => 0,
        }
    }
}

/// Files of which one includes itself through another, one goes three deep, and one names a file
/// that isn't there.
const NESTED: Files = &[
    (b"a.p", b"include('b.p')."),
    (b"b.p", b"include('a.p')."),
    (b"d1", b"include('d2')."),
    (b"d2", b"include('d3')."),
    (b"d3", b"cnf(z,axiom,p(a))."),
    (b"m", b"include('Axioms/GRP004-0.ax')."),
];

/// A file of 18 bytes, one of 19, and one that includes the first.
const SIZES: Files = &[
    (b"x", b"cnf(z,axiom,p(a))."),
    (b"y", b"cnf(z,axiom,p(a)).\n"),
    (b"w", b"include('x')."),
];

const INCLUDING: Files = &[
    (b"a.p", b"include('b.ax')."),
    (b"b.ax", b"cnf(b1,axiom,p(a))."),
];

/// Files with one fault each.
const FAULTY: Files = &[
    (
        b"late",
        b"cnf(x1,axiom,p(a)).\ncnf(x2,axiom,\np(b)).\ncnf(x3,axiom,p(c))\ncnf(x4,axiom,p(d)).",
    ),
    (b"other", b"cnf(x1,axiom,p(a)).\n\nfof(f,axiom,p)."),
    (b"twice", b"cnf(x1,axiom,p(a)).\ncnf(x1,axiom,p(b))."),
    (b"shapes", b"cnf(x1,axiom,p(a)).\ncnf(x2,axiom,p(a,b))."),
    (b"open", b"cnf(k,axiom,p)./* x"),
    (b"odd", b"cnf(k,axiom,p).\xc8"),
    (b"good", b"cnf(x1,axiom,p(a)).\ncnf(x2,axiom,p(b))."),
];

/// A bound, files, an input and its output.
const ROWS: [(Bound, Files, &[u8], &[u8]); 12] = [
    // A refused load keeps none of its clauses.
    (
        Bound::Standard,
        FAULTY,
        b"load 'late'\nstats\nload 'other'\nload 'twice'\nload 'shapes'\nload 'open'\nload 'odd'\nstats\n",
        b"! syntax 'late' 4\nclauses 0 entries 0 symbols 0\n! language 'other' 3\n! taken x1\n! use p predicate/2 predicate/1\n! syntax 'open' 1\n! syntax 'odd' 1\nclauses 0 entries 0 symbols 0\n",
    ),
    // Nor does it take one that was kept before.
    (
        Bound::Standard,
        FAULTY,
        b"add cnf(x2,axiom,p(c)).\nload 'good'\ninstances lit p(X)\nremove x2\nload 'good'\ninstances lit p(X)\n",
        b"ok 1 2\n! taken x2\nx2:1 {?X -> c}\nend 1\nok 1 2\nok 2 4\nx1:1 {?X -> a}\nx2:1 {?X -> b}\nend 2\n",
    ),
    // The entries of all clauses count.
    (
        Bound::Entries(3),
        FAULTY,
        b"load 'good'\nstats\nadd cnf(u,axiom,q).\nload 'good'\n",
        b"! full 4 3\nclauses 0 entries 0 symbols 0\nok 1 1\n! full 5 3\n",
    ),
    // A file that is open, too many open files, and a file that isn't there.
    (
        Bound::Depth(2),
        NESTED,
        b"load 'a.p'\nload 'd1'\nload 'd2'\nload 'm'\nload 'n'\n",
        b"! cycle 'a.p'\n! depth 'd3'\nok 1 2\n! missing 'Axioms/GRP004-0.ax'\n! missing 'n'\n",
    ),
    // Where no file may be open the library isn't asked.
    (
        Bound::Depth(0),
        SIZES,
        b"load 'x'\nload 'none'\n",
        b"! depth 'x'\n! depth 'none'\n",
    ),
    // As many bytes and fetches as a load may have, and one more.
    (
        Bound::Small(18, 1),
        SIZES,
        b"load 'x'\nload 'y'\nload 'w'\n",
        b"ok 1 2\n! big 'y'\n! fetches\n",
    ),
    // Each load counts its own fetches.
    (
        Bound::Small(18, 2),
        SIZES,
        b"load 'w'\nremove z\nload 'w'\n",
        b"ok 1 2\nok 1 2\nok 1 2\n",
    ),
    // The library fails at the included file, and not again.
    (
        Bound::Fails(2),
        INCLUDING,
        b"load 'a.p'\nstats\nload 'a.p'\n",
        b"! fault 'b.ax'\nclauses 0 entries 0 symbols 0\nok 1 2\n",
    ),
    // What is no load asks for no file, so the first one asked for is the one that fails.
    (
        Bound::Fails(1),
        INCLUDING,
        b"load ''\nload b.ax\nload 'a.p'\nload 'b.ax'\n",
        b"! syntax\n! syntax\n! fault 'a.p'\nok 1 2\n",
    ),
    // It fails where the file isn't there.
    (
        Bound::Fails(1),
        INCLUDING,
        b"load 'c'\nload 'c'\n",
        b"! fault 'c'\n! missing 'c'\n",
    ),
    // A load names one file, in quotes.
    (
        Bound::Standard,
        INCLUDING,
        b"load\nload b.ax\nload 'b.ax'.\nload 'b.ax' 'b.ax'\nload ''\nload/**/'b.ax'% one\n",
        b"! syntax\n! syntax\n! syntax\n! syntax\n! syntax\nok 1 2\n",
    ),
    // Names are printed in quotes, with escapes.
    (
        Bound::Standard,
        &[],
        b"load 'it\\'s'\nload 'a\\\\b'\n",
        b"! missing 'it\\'s'\n! missing 'a\\\\b'\n",
    ),
];

/// Looks at what is written where this is the input, over these files, of which one fetch fails, or
/// none at 0.
pub fn assert_output(
    rt: &impl Abort,
    alloc: Global,
    limits: &Limits,
    (files, fails_at): (&[(&[u8], &[u8])], u32),
    input: &[u8],
    output: &[u8],
) -> Result<(), AllocError> {
    let mut library = library_of(alloc, files, fails_at)?;
    let devices = ((WHOLE, WHOLE), ROOM);
    let due = (Status::Ended, output);
    assert_run_over(rt, alloc, limits, input, devices, &mut library, due)
}

#[test]
fn files_are_loaded_or_refused(rt: HostRuntime) -> Result<(), Fail> {
    for (bound, files, input, output) in &ROWS {
        let library = (*files, bound.fails_at());
        assert_output(&rt, rt.alloc(), &bound.limits(), library, input, output)?;
    }
    Ok(())
}
