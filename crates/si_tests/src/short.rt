// Loads and texts over a store that finds no memory at one call of `add`.
ghost use Rattle.std.specs.Prelude.{◌<◌, ◌≤◌, IfOk};
ghost use Rattle.si_defs.specs.declared.TheConstants.{MOST_OCCURRENCES};

use crate::loads::{Answer, has_only, reported};
use si_harvest::{HarvestLimits, expand, take_text};
use si_sign::ShortStore;
use si_texts::library_of;
use std::alloc::{AllocError, Global};
use std::process::Abort;
use std::test::Fail;

/// A problem of three clauses: two of the axioms that it includes, and one of its own.
const FILES: &[(&[u8], &[u8])] = &[
    (
        b"main.p",
        b"% a group problem\ninclude('grp.ax',[left_inverse,associativity]).\ncnf(goal,negated_conjecture,( multiply(a,inverse(a)) != identity )).\n",
    ),
    (
        b"grp.ax",
        b"cnf(left_identity,axiom,( multiply(identity,X) = X )).\ncnf(left_inverse,axiom,( multiply(inverse(X),X) = identity )).\ncnf(associativity,axiom,\n    ( multiply(multiply(X,Y),Z) = multiply(X,multiply(Y,Z)) )).\ncnf(right_inverse,axiom,( multiply(X,inverse(X)) = identity )).\n",
    ),
];

const LIMITS: HarvestLimits = HarvestLimits {
    file: 1000,
    fetches: 9,
    depth: 9,
};

/// An empty store, whose call of `add` with this number finds no memory.
fn store_short_at(alloc: Global, call: u32) -> Result<ShortStore, AllocError>
    requires { call < 9 }
    ensures { IfOk result (λ s. s.rules.entries ≤ MOST_OCCURRENCES) }
{
    let failing = vec![in alloc; call]?;
    Ok(ShortStore::new(alloc, 30, failing))
}

/// The number of the call that finds no memory, what the load answers, and the names that are kept
/// afterwards.
type Row = (u32, Answer, &'static [&'static [u8]]);

const LOADS: [Row; 4] = [
    (1, Answer::Memory, &[]),
    (2, Answer::Memory, &[]),
    (3, Answer::Memory, &[]),
    (
        4,
        Answer::Gained(3, 15),
        &[b"left_inverse", b"associativity", b"goal"],
    ),
];

/// The same of the text of two clauses that are drawn.
const TEXTS: [Row; 3] = [
    (1, Answer::Memory, &[]),
    (2, Answer::Memory, &[]),
    (3, Answer::Gained(2, 5), &[b"s1", b"s2"]),
];

/// What a load of the problem answers.
fn load(alloc: Global, store: &mut ShortStore) -> Result<Answer, AllocError>
    requires { store.old.rules.entries ≤ MOST_OCCURRENCES }
{
    let mut library = library_of(alloc, FILES, 0)?;
    let loaded = expand(alloc, &mut library, b"main.p", &LIMITS, store);
    Ok(reported(&loaded).0)
}

/// What the text of two clauses that are drawn answers.
fn take(alloc: Global, store: &mut ShortStore) -> Result<Answer, AllocError>
    requires { store.old.rules.entries ≤ MOST_OCCURRENCES }
{
    let text = si_sample::sample(alloc, 1, 2)?;
    let taken = take_text(alloc, text.as_slice(), store);
    Ok(reported(&taken).0)
}

fn assert_loads(
    rt: &impl Abort,
    alloc: Global,
    row: &Row,
    store: &mut ShortStore,
) -> Result<(), AllocError>
    requires { store.old.rules.entries ≤ MOST_OCCURRENCES }
{
    assert_eq!(rt; load(alloc, store)?, row.1);
    assert!(rt; has_only(alloc, store, row.2)?);
    Ok(())
}

fn assert_takes(
    rt: &impl Abort,
    alloc: Global,
    row: &Row,
    store: &mut ShortStore,
) -> Result<(), AllocError>
    requires { store.old.rules.entries ≤ MOST_OCCURRENCES }
{
    assert_eq!(rt; take(alloc, store)?, row.1);
    assert!(rt; has_only(alloc, store, row.2)?);
    Ok(())
}

fn assert_load(rt: &impl Abort, alloc: Global, row: &Row) -> Result<(), AllocError>
    requires { row.now.0 < 9 }
{
    let mut store = store_short_at(alloc, row.0)?;
    assert_loads(rt, alloc, row, &mut store)
}

fn assert_take(rt: &impl Abort, alloc: Global, row: &Row) -> Result<(), AllocError>
    requires { row.now.0 < 9 }
{
    let mut store = store_short_at(alloc, row.0)?;
    assert_takes(rt, alloc, row, &mut store)
}

#[test]
fn loads_end_where_an_add_finds_no_memory(rt: HostRuntime) -> Result<(), Fail> {
    for row in &LOADS {
        assert_load(&rt, rt.alloc(), row)?;
    }
    Ok(())
}

#[test]
fn texts_end_where_an_add_finds_no_memory(rt: HostRuntime) -> Result<(), Fail> {
    for row in &TEXTS {
        assert_take(&rt, rt.alloc(), row)?;
    }
    Ok(())
}
