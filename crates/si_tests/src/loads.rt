// Loads of small files, whose answers were written down by hand.
ghost use Rattle.std.specs.Prelude.{◌≡◌, ◌≤◌};
ghost use Rattle.si_defs.specs.declared.TheConstants.{MOST_OCCURRENCES};

use si_defs::{MOST_OCCURRENCES, NameKind};
use si_harvest::{HarvestFault, HarvestLimits, Loaded, expand};
use si_sign::{AddFault, ClauseStore, PlainStore};
use si_term::{Name, Text};
use si_texts::library_of;
use std::alloc::{AllocError, Global};
use std::process::Abort;
use std::test::Fail;

/// What a load answers, but for the name that it reports.
#[derive(Clone, Copy, Debug, PartialEq, Eq)]
pub(crate) enum Answer {
    /// So many clauses and entries.
    Gained(u32, u32),
    Syntax(u64),
    Language(u64),
    Taken,
    Clash,
    Full,
    Missing,
    Big,
    Failed,
    Cycle,
    Depth,
    Fetches,
    Memory,
}

/// Which bound of a load is small. The others are more than what these loads need.
#[derive(Clone, Copy)]
enum Bound {
    Wide,
    /// The most bytes of a file.
    File(usize),
    Fetches(u32),
    Depth(u32),
    /// The most fetches, and the most files that are open at once.
    Open(u32, u32),
    /// The most entries of the store.
    Entries(u64),
    /// The fetch with this number fails.
    Fails(u32),
}

impl Bound {
    fn limits(self) -> HarvestLimits {
        let (file, fetches, depth) = match self {
            Bound::File(file) => (file, 9, 9),
            Bound::Fetches(fetches) => (100, fetches, 9),
            Bound::Depth(depth) => (100, 9, depth),
            Bound::Open(fetches, depth) => (100, fetches, depth),
            _ => (100, 9, 9),
        };
        HarvestLimits {
            file,
            fetches,
            depth,
        }
    }

    fn entries(self) -> u64 {
        match self {
            Bound::Entries(entries) => entries,
            _ => 20,
        }
    }

    /// The number of the fetch that fails, or 0.
    fn fails_at(self) -> u32 {
        match self {
            Bound::Fails(fetch) => fetch,
            _ => 0,
        }
    }
}

/// The names of files, and their bytes.
pub(crate) type Files = &'static [(&'static [u8], &'static [u8])];

/// A load of the file `m` into a store that has the clause `k`: the files, the small bound, the
/// answer, the name that it reports, and the names of the clauses that are kept afterwards.
type Row = (
    Files,
    Bound,
    Answer,
    &'static [u8],
    &'static [&'static [u8]],
);

const GAINS: [Row; 16] = [
    (
        &[(b"m", b"cnf(a,axiom,p).")],
        Bound::Wide,
        Answer::Gained(1, 1),
        b"",
        &[b"k", b"a"],
    ),
    (
        &[(b"m", b"")],
        Bound::Wide,
        Answer::Gained(0, 0),
        b"",
        &[b"k"],
    ),
    // No item, no line feed at the end, and blanks before, between and after.
    (
        &[(b"m", b" \t\n% x\n/* y */")],
        Bound::Wide,
        Answer::Gained(0, 0),
        b"",
        &[b"k"],
    ),
    (
        &[(
            b"m",
            b" % x\n cnf ( a , axiom , p ) . /* y */ cnf(b,axiom,~q|p).%z",
        )],
        Bound::Wide,
        Answer::Gained(2, 3),
        b"",
        &[b"k", b"a", b"b"],
    ),
    // Files that are included.
    (
        &[
            (b"m", b"include('i').cnf(b,axiom,q)."),
            (b"i", b"cnf(a,axiom,p)."),
        ],
        Bound::Wide,
        Answer::Gained(2, 2),
        b"",
        &[b"k", b"a", b"b"],
    ),
    (
        &[
            (b"m", b"cnf(a,axiom,p).include('i').cnf(b,axiom,q)."),
            (b"i", b" % x"),
        ],
        Bound::Wide,
        Answer::Gained(2, 2),
        b"",
        &[b"k", b"a", b"b"],
    ),
    (
        &[
            (b"m", b"include('i',[a]).include('i',[b])."),
            (b"i", b"cnf(a,axiom,p).cnf(b,axiom,q)."),
        ],
        Bound::Wide,
        Answer::Gained(2, 2),
        b"",
        &[b"k", b"a", b"b"],
    ),
    // Selections, of a clause that would be refused too.
    (
        &[
            (b"m", b"include('i',[b])."),
            (b"i", b"cnf(a,axiom,p).cnf(b,axiom,q)."),
        ],
        Bound::Wide,
        Answer::Gained(1, 1),
        b"",
        &[b"k", b"b"],
    ),
    (
        &[
            (b"m", b"include('i',[b])."),
            (b"i", b"cnf(k,axiom,p).cnf(b,axiom,q)."),
        ],
        Bound::Wide,
        Answer::Gained(1, 1),
        b"",
        &[b"k", b"b"],
    ),
    (
        &[
            (b"m", b"include('i',[b])."),
            (b"i", b"cnf(a,axiom,r(X)).cnf(b,axiom,q)."),
        ],
        Bound::Wide,
        Answer::Gained(1, 1),
        b"",
        &[b"k", b"b"],
    ),
    (
        &[(b"m", b"include('i',[z,a])."), (b"i", b"cnf(a,axiom,p).")],
        Bound::Wide,
        Answer::Gained(1, 1),
        b"",
        &[b"k", b"a"],
    ),
    (
        &[
            (b"m", b"include('i',['1'])."),
            (b"i", b"cnf(1,axiom,p).cnf('1',axiom,q)."),
        ],
        Bound::Wide,
        Answer::Gained(1, 1),
        b"",
        &[b"k", b"1"],
    ),
    (
        &[
            (b"m", b"include('i',[a,b])."),
            (b"i", b"include('j',[b,c])."),
            (b"j", b"cnf(a,axiom,p).cnf(b,axiom,q).cnf(c,axiom,p)."),
        ],
        Bound::Wide,
        Answer::Gained(1, 1),
        b"",
        &[b"k", b"b"],
    ),
    // Just as much as is allowed.
    (
        &[(b"m", b"cnf(a,axiom,p).")],
        Bound::File(15),
        Answer::Gained(1, 1),
        b"",
        &[b"k", b"a"],
    ),
    (
        &[(b"m", b"cnf(a,axiom,p).cnf(b,axiom,q).")],
        Bound::Entries(3),
        Answer::Gained(2, 2),
        b"",
        &[b"k", b"a", b"b"],
    ),
    (
        &[(b"m", b"include('i')."), (b"i", b"cnf(a,axiom,p).")],
        Bound::Open(2, 2),
        Answer::Gained(1, 1),
        b"",
        &[b"k", b"a"],
    ),
];

const FAULTS: [Row; 17] = [
    // In the first file.
    (
        &[(b"i", b"cnf(a,axiom,p).")],
        Bound::Wide,
        Answer::Missing,
        b"m",
        &[b"k"],
    ),
    (
        &[(b"m", b"cnf(a,axiom,p).\ncnf(b,axiom,q)")],
        Bound::Wide,
        Answer::Syntax(2),
        b"m",
        &[b"k"],
    ),
    (
        &[(b"m", b"\nfof(a,axiom,p).")],
        Bound::Wide,
        Answer::Language(2),
        b"m",
        &[b"k"],
    ),
    (
        &[(b"m", b"cnf(k,axiom,p).")],
        Bound::Wide,
        Answer::Taken,
        b"k",
        &[b"k"],
    ),
    (
        &[(b"m", b"cnf(a,axiom,p).cnf(b,axiom,r(X)).")],
        Bound::Wide,
        Answer::Clash,
        b"b",
        &[b"k"],
    ),
    (
        &[(b"m", b"include('m').")],
        Bound::Wide,
        Answer::Cycle,
        b"m",
        &[b"k"],
    ),
    // In one in the middle.
    (
        &[(b"m", b"cnf(a,axiom,p).include('i').cnf(b,axiom,q).")],
        Bound::Wide,
        Answer::Missing,
        b"i",
        &[b"k"],
    ),
    (
        &[
            (b"m", b"include('i').cnf(b,axiom,q)."),
            (b"i", b"cnf(a,axiom,p).\n\n x"),
        ],
        Bound::Wide,
        Answer::Syntax(3),
        b"i",
        &[b"k"],
    ),
    (
        &[
            (b"m", b"cnf(a,axiom,p).include('i').cnf(b,axiom,q)."),
            (b"i", b"cnf(c,axiom,p).cnf(a,axiom,p)."),
        ],
        Bound::Wide,
        Answer::Taken,
        b"a",
        &[b"k"],
    ),
    (
        &[
            (b"m", b"include('i')."),
            (b"i", b"cnf(a,axiom,p).include('j')."),
            (b"j", b"include('m')."),
        ],
        Bound::Wide,
        Answer::Cycle,
        b"m",
        &[b"k"],
    ),
    // In the last.
    (
        &[
            (b"m", b"cnf(a,axiom,p).include('i').include('j')."),
            (b"i", b"cnf(b,axiom,q)."),
        ],
        Bound::Wide,
        Answer::Missing,
        b"j",
        &[b"k"],
    ),
    (
        &[
            (b"m", b"include('i').include('j')."),
            (b"i", b"cnf(a,axiom,p)."),
            (b"j", b"\n\ntff(x)."),
        ],
        Bound::Wide,
        Answer::Language(3),
        b"j",
        &[b"k"],
    ),
    (
        &[
            (b"m", b"include('i')."),
            (b"i", b"include('j')."),
            (b"j", b"cnf(a,axiom,p).cnf(b,axiom,p(X))."),
        ],
        Bound::Wide,
        Answer::Clash,
        b"b",
        &[b"k"],
    ),
    // Of two, the earlier.
    (
        &[(b"m", b"cnf(k,axiom,p).include('i').")],
        Bound::Wide,
        Answer::Taken,
        b"k",
        &[b"k"],
    ),
    (
        &[(b"m", b"include('i').cnf(k,axiom,p).")],
        Bound::Wide,
        Answer::Missing,
        b"i",
        &[b"k"],
    ),
    // After an include that was read well.
    (
        &[
            (b"m", b"include('i').cnf(k,axiom,q)."),
            (b"i", b"cnf(a,axiom,p)."),
        ],
        Bound::Wide,
        Answer::Taken,
        b"k",
        &[b"k"],
    ),
    // In a clause that isn't selected.
    (
        &[
            (b"m", b"include('i',[b])."),
            (b"i", b"cnf(a,axiom,p(cnf(b,axiom,q)."),
        ],
        Bound::Wide,
        Answer::Syntax(1),
        b"i",
        &[b"k"],
    ),
];

const LIMITS: [Row; 15] = [
    (
        &[(b"m", b"cnf(a,axiom,p).")],
        Bound::Depth(0),
        Answer::Depth,
        b"m",
        &[b"k"],
    ),
    (
        &[
            (b"m", b"cnf(a,axiom,p).include('i')."),
            (b"i", b"cnf(b,axiom,q)."),
        ],
        Bound::Depth(1),
        Answer::Depth,
        b"i",
        &[b"k"],
    ),
    (
        &[(b"m", b"cnf(a,axiom,p).")],
        Bound::Fetches(0),
        Answer::Fetches,
        b"",
        &[b"k"],
    ),
    (
        &[
            (b"m", b"cnf(a,axiom,p).include('i')."),
            (b"i", b"cnf(b,axiom,q)."),
        ],
        Bound::Fetches(1),
        Answer::Fetches,
        b"",
        &[b"k"],
    ),
    (
        &[
            (b"m", b"include('i').include('i',[z])."),
            (b"i", b"cnf(a,axiom,p)."),
        ],
        Bound::Fetches(2),
        Answer::Fetches,
        b"",
        &[b"k"],
    ),
    (
        &[(b"m", b"cnf(a,axiom,p).")],
        Bound::File(14),
        Answer::Big,
        b"m",
        &[b"k"],
    ),
    (
        &[
            (b"m", b"cnf(a,axiom,p).include('i')."),
            (b"i", b"cnf(b,axiom,q).%xxxxxxxxxxxxxx"),
        ],
        Bound::File(29),
        Answer::Big,
        b"i",
        &[b"k"],
    ),
    (
        &[(b"m", b"cnf(a,axiom,p).cnf(b,axiom,q).cnf(c,axiom,p).")],
        Bound::Entries(3),
        Answer::Full,
        b"c",
        &[b"k"],
    ),
    // Of two, the earlier: a cycle before a depth, a depth before the fetches, and these before the
    // library.
    (
        &[(b"m", b"include('m').")],
        Bound::Open(1, 1),
        Answer::Cycle,
        b"m",
        &[b"k"],
    ),
    (
        &[(b"m", b"include('i').")],
        Bound::Open(1, 1),
        Answer::Depth,
        b"i",
        &[b"k"],
    ),
    (
        &[(b"m", b"include('i').")],
        Bound::Fetches(1),
        Answer::Fetches,
        b"",
        &[b"k"],
    ),
    (
        &[(b"m", b"cnf(a,axiom,p|p).cnf(k,axiom,p).")],
        Bound::Entries(1),
        Answer::Full,
        b"a",
        &[b"k"],
    ),
    // A library that fails at its first, second or third fetch.
    (
        &[(b"m", b"cnf(a,axiom,p).")],
        Bound::Fails(1),
        Answer::Failed,
        b"m",
        &[b"k"],
    ),
    (
        &[
            (b"m", b"cnf(a,axiom,p).include('i').include('j')."),
            (b"i", b"cnf(b,axiom,q)."),
        ],
        Bound::Fails(2),
        Answer::Failed,
        b"i",
        &[b"k"],
    ),
    (
        &[
            (b"m", b"cnf(a,axiom,p).include('i').include('j')."),
            (b"i", b"cnf(b,axiom,q)."),
            (b"j", b""),
        ],
        Bound::Fails(3),
        Answer::Failed,
        b"j",
        &[b"k"],
    ),
];

const KEPT: Files = &[(b"k", b"cnf(k,axiom,r).")];

/// What the load answered, and the name that it reported.
pub(crate) fn reported(answer: &Result<Loaded, HarvestFault>) -> (Answer, &[u8]) {
    match answer {
        Ok(loaded) => (Answer::Gained(loaded.clauses, loaded.entries), &[]),
        Err(HarvestFault::Syntax { file, line }) => (Answer::Syntax(*line), file.as_bytes()),
        Err(HarvestFault::Language { file, line }) => (Answer::Language(*line), file.as_bytes()),
        Err(HarvestFault::Rejected(rejected)) => {
            (why(&rejected.why), rejected.clause.name.text.as_bytes())
        }
        Err(HarvestFault::Missing(file)) => (Answer::Missing, file.as_bytes()),
        Err(HarvestFault::Big(file)) => (Answer::Big, file.as_bytes()),
        Err(HarvestFault::Fault(file)) => (Answer::Failed, file.as_bytes()),
        Err(HarvestFault::Cycle(file)) => (Answer::Cycle, file.as_bytes()),
        Err(HarvestFault::Depth(file)) => (Answer::Depth, file.as_bytes()),
        Err(HarvestFault::Fetches) => (Answer::Fetches, &[]),
        Err(HarvestFault::Memory) => (Answer::Memory, &[]),
    }
}

fn why(fault: &AddFault) -> Answer {
    match fault {
        AddFault::Taken => Answer::Taken,
        AddFault::Clash(_) => Answer::Clash,
        AddFault::Full { .. } => Answer::Full,
        AddFault::Memory => Answer::Memory,
    }
}

/// Whether the store had a clause with this name. It has none then.
fn removes<T: ClauseStore>(alloc: Global, store: &mut T, name: &[u8]) -> Result<bool, AllocError> {
    let name = Name {
        kind: NameKind::Word,
        text: Text::from_bytes(alloc, name)?,
    };
    Ok(store.remove(&name).is_some())
}

/// Whether the store has the clauses with these names, and no others. It is empty then.
pub(crate) fn has_only<T: ClauseStore>(
    alloc: Global,
    store: &mut T,
    names: &[&[u8]],
) -> Result<bool, AllocError> {
    for name in names {
        if !removes(alloc, store, name)? {
            return Ok(false);
        }
    }
    Ok(store.remove_last().is_none())
}

/// Loads a file from a library of these, where the bound is one that a load may have.
fn load(
    alloc: Global,
    files: Files,
    name: &[u8],
    bound: Bound,
    store: &mut PlainStore,
) -> Result<Result<Loaded, HarvestFault>, AllocError>
    requires { store.old.0.entries ≤ MOST_OCCURRENCES }
    ensures { store.new.0 ≡ store.old.0 }
{
    let limits = bound.limits();
    if limits.file > MOST_OCCURRENCES {
        return Err(AllocError);
    }
    let mut library = library_of(alloc, files, bound.fails_at())?;
    Ok(expand(alloc, &mut library, name, &limits, store))
}

/// Loads the clause `k`.
fn assert_kept(rt: &impl Abort, alloc: Global, store: &mut PlainStore) -> Result<(), AllocError>
    requires { store.old.0.entries ≤ MOST_OCCURRENCES }
    ensures { store.new.0 ≡ store.old.0 }
{
    let first = load(alloc, KEPT, b"k", Bound::Wide, store)?;
    assert!(rt; first.is_ok());
    Ok(())
}

fn assert_answer(rt: &impl Abort, loaded: &Result<Loaded, HarvestFault>, row: &Row) {
    let (files, _, answer, named, _) = *row;
    assert_eq!(rt; reported(loaded), (answer, named), "at {files:?}");
}

/// Loads the file `m`, and looks at the answer and the name.
fn assert_reported(
    rt: &impl Abort,
    alloc: Global,
    row: &Row,
    store: &mut PlainStore,
) -> Result<(), AllocError>
    requires { store.old.0.entries ≤ MOST_OCCURRENCES }
{
    let result = load(alloc, row.0, b"m", row.1, store)?;
    assert_answer(rt, &result, row);
    Ok(())
}

fn assert_loads(
    rt: &impl Abort,
    alloc: Global,
    row: &Row,
    store: &mut PlainStore,
) -> Result<(), AllocError>
    requires { store.old.0.entries ≤ MOST_OCCURRENCES }
{
    assert_kept(rt, alloc, store)?;
    assert_reported(rt, alloc, row, store)?;
    let (files, kept) = (row.0, row.4);
    assert!(rt; has_only(alloc, store, kept)?, "at {files:?}");
    Ok(())
}

fn assert_row(rt: &impl Abort, alloc: Global, row: &Row) -> Result<(), AllocError> {
    let entries = row.1.entries();
    if entries > MOST_OCCURRENCES as u64 {
        return Err(AllocError);
    }
    let mut store = PlainStore::new(alloc, entries);
    assert_loads(rt, alloc, row, &mut store)
}

fn assert_rows(rt: &impl Abort, alloc: Global, rows: &[Row]) -> Result<(), AllocError> {
    for row in rows {
        assert_row(rt, alloc, row)?;
    }
    Ok(())
}

#[test]
fn files_are_loaded(rt: HostRuntime) -> Result<(), Fail> {
    assert_rows(&rt, rt.alloc(), &GAINS)?;
    Ok(())
}

#[test]
fn the_first_fault_is_reported(rt: HostRuntime) -> Result<(), Fail> {
    assert_rows(&rt, rt.alloc(), &FAULTS)?;
    Ok(())
}

#[test]
fn limits_are_kept(rt: HostRuntime) -> Result<(), Fail> {
    assert_rows(&rt, rt.alloc(), &LIMITS)?;
    Ok(())
}
