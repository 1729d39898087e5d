// What is shown of hits.
ghost use Rattle.std.specs.Prelude.{◌<◌, length};
ghost use Rattle.si_defs.specs.Clauses.{IsSoundPattern};
ghost use Rattle.si_term.specs.Meaning.{pattern_of};

use crate::acts::{Trial, assert_trial, toggle};
use si_defs::Relation;
use si_index::{Found, Index, SearchMemory};
use si_parse::pattern::PatternKind;
use si_term::Pattern;
use si_texts::pattern_in;
use std::alloc::{AllocError, Global};
use std::process::Abort;
use std::test::Fail;

fn digit(number: usize) -> u8 {
    b'0' + (number % 10) as u8
}

/// How many bindings the list of a hit has, as it is shown.
fn shown_bindings(found: &Found, n: u32) -> Result<usize, AllocError>
    requires { n < length found.now.hits }
{
    let shown = found.shown(n)?;
    Ok(shown.solution.len())
}

/// Appends, of each hit, the position of its clause, the number of its literal, and how many
/// bindings its list has, as it is shown and as it is lent.
fn tell_found(found: &Found, page: &mut Vec<u8>) -> Result<(), AllocError> {
    for n in 0..found.len() {
        page.push(digit(found.hit(n).clause as usize))?;
        page.push(digit(found.hit(n).place.literal as usize))?;
        page.push(digit(shown_bindings(found, n)?))?;
        page.push(digit(found.lent(n).solution.len()))?;
    }
    page.push(b'.')?;
    Ok(())
}

fn tell_hits(
    alloc: Global,
    index: &Index,
    relation: Relation,
    pattern: &Pattern,
    page: &mut Vec<u8>,
) -> Result<(), AllocError>
    requires { IsSoundPattern (pattern_of pattern.now) }
{
    let found = index.find(
        &mut SearchMemory::new(alloc),
        index.trees(),
        relation,
        pattern,
    )?;
    tell_found(&found, page)
}

fn tell_answers(
    alloc: Global,
    index: &Index,
    (relation, kind, text): (Relation, PatternKind, &[u8]),
    page: &mut Vec<u8>,
) -> Result<(), AllocError> {
    let pattern = pattern_in(alloc, text, kind)?;
    tell_hits(alloc, index, relation, &pattern, page)
}

const CLAUSES: [&[u8]; 3] = [
    b"cnf(n0,axiom,p(a)).",
    b"cnf(n1,axiom,p(b)).",
    b"cnf(n2,axiom,q(a)).",
];

const QUESTIONS: [(Relation, PatternKind, &[u8]); 2] = [
    (Relation::Instances, PatternKind::Lit, b"p(X)"),
    (Relation::Unifiable, PatternKind::Term, b"a"),
];

/// What is found among the clauses.
fn tell_questions(alloc: Global, index: &mut Index, page: &mut Vec<u8>) -> Result<(), AllocError> {
    for text in &CLAUSES {
        toggle(alloc, index, text)?;
    }
    for question in &QUESTIONS {
        tell_answers(alloc, index, *question, page)?;
    }
    Ok(())
}

pub fn assert_shown(rt: &impl Abort, alloc: Global, index: &mut Index) -> Result<(), AllocError> {
    let mut page = Vec::new(alloc);
    tell_questions(alloc, index, &mut page)?;
    assert_eq!(rt; page.as_slice(), b"01111111.01002100.".as_slice());
    Ok(())
}

#[test]
fn hits_have_their_lists(rt: HostRuntime) -> Result<(), Fail> {
    assert_trial(&rt, rt.alloc(), Trial::Shown)?;
    Ok(())
}
