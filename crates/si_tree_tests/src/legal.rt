// Whether the trees of an index are legal, and hold what they should: looked at from outside after
// each of many commands.
use crate::acts::{Trial, assert_trial};
use crate::beside::from_line;
use crate::kept::KeptEntries;
use crate::rules::{
    are_all_seen, are_seen_once, binds_no_indicator, binds_once, binds_open, binds_terms,
    do_children_bind_split, do_children_differ, do_postings_differ, do_terms_differ, ends_at_leaf,
    has_enough_children, has_few_variables, has_leaf_term, has_plain_root, has_postings_at_leaf,
    is_below_its_parent, knows_zero, opens_once, splits_open, stays_within, stores_at_leaf,
};
use crate::seen::{Seen, SeenTree};
use si_index::Index;
use si_sample::sample;
use si_sign::ClauseStore;
use si_texts::clause_in;
use si_tree::Tree;
use std::alloc::{AllocError, Global};
use std::process::Abort;
use std::test::Fail;

/// How many clauses may come and go.
const LINES: u32 = 30;

/// How many commands a course has.
const COMMANDS: u32 = 1_500;

/// In a spell of so many commands most clauses come, and in the next most go.
const SPELL: u32 = 60;

/// Commands that are drawn from a start. They add and remove the clauses of a text's lines.
#[derive(Clone, Copy)]
pub struct Course<'a> {
    pub text: &'a [u8],
    pub start: u32,
}

/// A tree to look at, with what it is to hold: the literals or the terms of these entries.
#[derive(Clone, Copy)]
struct Case<'a> {
    tree: &'a Tree,
    kept: &'a KeptEntries<'a>,
    literal: bool,
    /// The number of the last command.
    round: u32,
}

// ---- what is looked at
/// The rules of a node.
fn assert_node(rt: &impl Abort, case: Case<'_>, seen: &SeenTree<'_>, node: &Seen<'_>) {
    let round = case.round;
    assert!(rt; is_below_its_parent(seen, node), "after {round}");
    assert!(rt;
        binds_open(seen.term_at(node.above), node.bindings),
        "after {round}"
    );
    assert!(rt; binds_once(node.bindings), "after {round}");
    assert!(rt; binds_terms(node.bindings), "after {round}");
    assert!(rt; binds_no_indicator(node.bindings), "after {round}");
    assert!(rt; stays_within(case.tree, node.bindings), "after {round}");
    assert!(rt; opens_once(seen, node), "after {round}");
    assert!(rt; splits_open(seen, node), "after {round}");
    assert!(rt; has_enough_children(node), "after {round}");
    assert!(rt; do_children_bind_split(seen, node), "after {round}");
    assert!(rt; do_children_differ(node), "after {round}");
    assert!(rt; has_postings_at_leaf(seen, node), "after {round}");
    assert!(rt; ends_at_leaf(node), "after {round}");
    assert!(rt; stores_at_leaf(seen, node), "after {round}");
    assert!(rt; has_leaf_term(seen, node), "after {round}");
}

/// The rules of a tree, and those of each node.
fn assert_seen(rt: &impl Abort, case: Case<'_>, seen: &SeenTree<'_>) {
    let round = case.round;
    assert!(rt; knows_zero(case.tree), "after {round}");
    assert!(rt; has_few_variables(case.tree), "after {round}");
    assert!(rt; has_plain_root(seen), "after {round}");
    assert!(rt; are_all_seen(case.tree, seen), "after {round}");
    assert!(rt; are_seen_once(seen), "after {round}");
    for node in seen.nodes.as_slice() {
        assert_node(rt, case, seen, node);
    }
    assert!(rt; do_terms_differ(seen), "after {round}");
    assert!(rt; do_postings_differ(seen), "after {round}");
    assert!(rt;
        case.kept.do_entries_stand(seen, case.literal),
        "after {round}"
    );
    assert!(rt; case.kept.are_all(seen, case.literal), "after {round}");
}

fn assert_read<'a>(
    rt: &impl Abort,
    case: Case<'a>,
    seen: &mut SeenTree<'a>,
) -> Result<(), AllocError> {
    seen.read_all(case.tree)?;
    assert_seen(rt, case, seen);
    Ok(())
}

fn assert_tree(rt: &impl Abort, alloc: Global, case: Case<'_>) -> Result<(), AllocError> {
    let mut seen = SeenTree::new(alloc);
    assert_read(rt, case, &mut seen)
}

fn assert_both<'a>(
    rt: &impl Abort,
    alloc: Global,
    index: &'a Index,
    kept: &mut KeptEntries<'a>,
    round: u32,
) -> Result<(), AllocError> {
    kept.put_all(index)?;
    assert!(rt; kept.do_postings_differ(), "after {round}");
    for literal in [true, false] {
        let trees = index.trees();
        let tree = if literal {
            trees.literals()
        } else {
            trees.subterms()
        };
        let case = Case {
            tree,
            kept,
            literal,
            round,
        };
        assert_tree(rt, alloc, case)?;
    }
    Ok(())
}

/// Both trees are legal, and hold the entries of the clauses and nothing else.
fn assert_legal(
    rt: &impl Abort,
    alloc: Global,
    index: &Index,
    round: u32,
) -> Result<(), AllocError> {
    let mut kept = KeptEntries::new(alloc);
    assert_both(rt, alloc, index, &mut kept, round)
}

// ---- what is done
/// Adds the clause at the front of a text, unless it is refused.
fn add(alloc: Global, index: &mut Index, text: &[u8]) -> Result<(), AllocError> {
    let clause = clause_in(alloc, text)?;
    let _ = index.add(clause);
    Ok(())
}

/// Removes the clause that has the name of the one at the front of a text.
fn remove(alloc: Global, index: &mut Index, text: &[u8]) -> Result<(), AllocError> {
    let clause = clause_in(alloc, text)?;
    index.remove(&clause.name);
    Ok(())
}

/// The command that is drawn.
fn obey(
    alloc: Global,
    index: &mut Index,
    text: &[u8],
    drawn: u32,
    round: u32,
) -> Result<(), AllocError> {
    let line = from_line(text, (drawn >> 8) % LINES);
    let grows = round / SPELL % 2 == 0;
    match drawn >> 27 {
        31 => {
            index.remove_last();
            Ok(())
        }
        0 | 1 => add(alloc, index, line),
        2 | 3 => remove(alloc, index, line),
        _ if grows => add(alloc, index, line),
        _ => remove(alloc, index, line),
    }
}

/// After each command of a course both trees are legal, and hold the entries that are kept.
pub fn assert_course(
    rt: &impl Abort,
    alloc: Global,
    index: &mut Index,
    course: Course<'_>,
) -> Result<(), AllocError> {
    let mut drawn = course.start;
    for round in 0..COMMANDS {
        drawn = drawn.wrapping_mul(1_103_515_245).wrapping_add(12_345);
        obey(alloc, index, course.text, drawn, round)?;
        assert_legal(rt, alloc, index, round)?;
    }
    Ok(())
}

// Many are variants or instances of one another, and some use a symbol as others don't, so that
// they are refused while those are kept.
const ALIKE: &[u8] = b"cnf(n0,axiom,p(X)).
cnf(n1,axiom,p(Y)).
cnf(n2,axiom,~ p(X)).
cnf(n3,axiom,p(a)).
cnf(n4,axiom,p(b)).
cnf(n5,axiom,p(f(X))).
cnf(n6,axiom,p(f(a))).
cnf(n7,axiom,p(f(f(Z)))).
cnf(n8,axiom,p(f(f(a)))).
cnf(n9,axiom,q(X,Y)).
cnf(n10,axiom,q(Y,X)).
cnf(n11,axiom,q(X,X)).
cnf(n12,axiom,q(f(X),Y)).
cnf(n13,axiom,q(f(X),X)).
cnf(n14,axiom,q(f(X),f(Y))).
cnf(n15,axiom,q(g(X,Y),g(Y,X))).
cnf(n16,axiom,q(g(X,Y),g(X,Y))).
cnf(n17,axiom,q(g(U,a),g(a,U))).
cnf(n18,axiom,~ q(X,Y) | q(Y,X)).
cnf(n19,axiom,p(g(f(X),f(X)))).
cnf(n20,axiom,p(g(f(a),f(b)))).
cnf(n21,axiom,p(g(X,Y)) | ~ p(g(Y,X)) | p(g(X,X))).
cnf(n22,axiom,X = Y).
cnf(n23,axiom,f(X) = f(Y) | X != Y).
cnf(n24,axiom,g(X,g(Y,Z)) = g(g(X,Y),Z)).
cnf(n25,axiom,p(a) | p(a)).
cnf(n26,axiom,r).
cnf(n27,axiom,~ r | p(h(X,Y,Z,X))).
cnf(n28,axiom,p(X,Y)).
cnf(n29,axiom,r(f(X,a))).
";

#[test]
fn trees_stay_legal_over_clauses_that_are_alike(rt: HostRuntime) -> Result<(), Fail> {
    for start in 1..5 {
        let course = Course { text: ALIKE, start };
        assert_trial(&rt, rt.alloc(), Trial::Legal(course))?;
    }
    Ok(())
}

#[test]
fn trees_stay_legal_over_clauses_that_are_drawn(rt: HostRuntime) -> Result<(), Fail> {
    for start in 1..5 {
        let text = sample(rt.alloc(), start, LINES)?;
        let text = text.as_slice();
        let course = Course { text, start };
        assert_trial(&rt, rt.alloc(), Trial::Legal(course))?;
    }
    Ok(())
}
