// Which nodes the tree of literals has after clauses of one literal came and went, worked out by
// hand.
use crate::acts::{Trial, assert_trial, toggle};
use si_defs::Relation;
use si_index::{Index, SearchMemory};
use si_parse::pattern::PatternKind;
use si_texts::pattern_in;
use std::alloc::{AllocError, Global};
use std::process::Abort;
use std::test::Fail;

/// The numbers of nodes and of leaves, and the number above all indicators.
pub type Shape = (u64, u64, u32);

fn shape_of(index: &Index) -> Shape {
    let tree = index.trees().literals();
    let counts = tree.counts();
    (counts.nodes, counts.leaves, tree.next())
}

/// Each clause comes where it wasn't there, and else goes.
pub fn assert_shapes(
    rt: &impl Abort,
    alloc: Global,
    index: &mut Index,
    rows: &[(&[u8], Shape)],
) -> Result<(), AllocError> {
    for &(text, shape) in rows {
        toggle(alloc, index, text)?;
        assert_eq!(rt; shape_of(index), shape, "after {text:?}");
    }
    Ok(())
}

const SPLITS: [(&[u8], Shape); 6] = [
    (b"cnf(n0,axiom,f(a)).", (2, 1, 1)),
    (b"cnf(n1,axiom,f(b)).", (4, 2, 2)),
    (b"cnf(n2,axiom,c).", (5, 3, 2)),
    (b"cnf(n1,axiom,f(b)).", (3, 2, 2)),
    (b"cnf(n0,axiom,f(a)).", (2, 1, 2)),
    (b"cnf(n2,axiom,c).", (1, 0, 2)),
];

#[test]
fn nodes_are_split_and_joined(rt: HostRuntime) -> Result<(), Fail> {
    assert_trial(&rt, rt.alloc(), Trial::Shapes(&SPLITS))?;
    Ok(())
}

// The leaf goes with the last of the clauses that have its term, whichever that is.
const SHARED: [(&[u8], Shape); 8] = [
    (b"cnf(n0,axiom,f(X,Y)).", (2, 1, 1)),
    (b"cnf(n1,axiom,f(Y,X)).", (2, 1, 1)),
    (b"cnf(n2,axiom,f(X,X)).", (4, 2, 2)),
    (b"cnf(n0,axiom,f(X,Y)).", (4, 2, 2)),
    (b"cnf(n3,axiom,f(A,B)).", (4, 2, 2)),
    (b"cnf(n1,axiom,f(Y,X)).", (4, 2, 2)),
    (b"cnf(n3,axiom,f(A,B)).", (2, 1, 2)),
    (b"cnf(n2,axiom,f(X,X)).", (1, 0, 2)),
];

#[test]
fn one_leaf_serves_equal_terms(rt: HostRuntime) -> Result<(), Fail> {
    assert_trial(&rt, rt.alloc(), Trial::Shapes(&SHARED))?;
    Ok(())
}

/// A clause comes beside another and goes, so many times.
fn assert_rounds(
    rt: &impl Abort,
    alloc: Global,
    index: &mut Index,
    rounds: u32,
) -> Result<(), AllocError> {
    for round in 0..rounds {
        toggle(alloc, index, b"cnf(n1,axiom,f(b)).")?;
        assert_eq!(rt; shape_of(index), (4, 2, round.wrapping_add(2)));
        toggle(alloc, index, b"cnf(n1,axiom,f(b)).")?;
    }
    Ok(())
}

/// Indicators are numbered anew where so many numbers were given that it is due.
pub fn assert_renumbered(
    rt: &impl Abort,
    alloc: Global,
    index: &mut Index,
) -> Result<(), AllocError> {
    toggle(alloc, index, b"cnf(n0,axiom,f(a)).")?;
    assert_rounds(rt, alloc, index, 260)?;
    assert_eq!(rt; shape_of(index), (2, 1, 261));
    toggle(alloc, index, b"cnf(n2,axiom,f(a)).")?;
    assert_eq!(rt; shape_of(index), (2, 1, 1));
    assert_rounds(rt, alloc, index, 1)
}

#[test]
fn indicators_are_numbered_anew(rt: HostRuntime) -> Result<(), Fail> {
    assert_trial(&rt, rt.alloc(), Trial::Indicators)?;
    Ok(())
}

/// How many literals unify with the one that a text is.
fn answers(alloc: Global, index: &Index, text: &[u8]) -> Result<u64, AllocError> {
    let pattern = pattern_in(alloc, text, PatternKind::Lit)?;
    let explained = index.explain(&mut SearchMemory::new(alloc), Relation::Unifiable, &pattern)?;
    Ok(explained.answers)
}

/// Clauses that come or go, and how many literals then unify with `p(X)` and with `q(X)`.
const NUMBERS: [(&[u8], (u64, u64)); 6] = [
    (b"cnf(n0,axiom,p(a)).", (1, 0)),
    (b"cnf(n0,axiom,p(a)).", (0, 0)),
    // Its symbols get the numbers that came back.
    (b"cnf(n1,axiom,q(b)).", (0, 1)),
    (b"cnf(n0,axiom,p(b)).", (1, 1)),
    (b"cnf(n1,axiom,q(b)).", (1, 0)),
    (b"cnf(n2,axiom,q(a)).", (1, 1)),
];

pub fn assert_numbered(
    rt: &impl Abort,
    alloc: Global,
    index: &mut Index,
) -> Result<(), AllocError> {
    for (text, due) in NUMBERS {
        toggle(alloc, index, text)?;
        let there = (
            answers(alloc, index, b"p(X)")?,
            answers(alloc, index, b"q(X)")?,
        );
        assert_eq!(rt; there, due, "after {text:?}");
    }
    Ok(())
}

#[test]
fn numbers_of_symbols_come_back(rt: HostRuntime) -> Result<(), Fail> {
    assert_trial(&rt, rt.alloc(), Trial::Symbols)?;
    Ok(())
}
