// What the trees of an index answer, beside a scan of its clauses.
ghost use Rattle.std.specs.Prelude.{◌<◌, length};
ghost use Rattle.si_defs.specs.Clauses.{IsSoundPattern};
ghost use Rattle.si_term.specs.Meaning.{entry_of, pattern_of};
ghost use Rattle.si_flat.specs.Flattened.{IsSoundEntry};
ghost use Rattle.si_index.specs.Engines.{AnswersStanding};

use crate::acts::{Trial, assert_trial, toggle};
use si_defs::Relation;
use si_index::{Engine, Found, Index, SearchMemory};
use si_sample::sample;
use si_scan::Scan;
use si_term::{Entry, Pattern, entry_at, entry_count, to_pattern};
use std::alloc::{AllocError, Global};
use std::process::Abort;
use std::test::Fail;

const RELATIONS: [Relation; 4] = [
    Relation::Variants,
    Relation::Instances,
    Relation::Generalizations,
    Relation::Unifiable,
];

/// Of each hit the position of its clause, the number of its literal and its path, and a 0, which
/// stands in no path.
fn listed(alloc: Global, found: &Found) -> Result<Vec<u32>, AllocError> {
    let mut page = Vec::new(alloc);
    for n in 0..found.len() {
        let hit = found.hit(n);
        page.push(hit.clause)?;
        page.push(hit.place.literal)?;
        page.extend_from_slice(hit.place.path.as_slice())?;
        page.push(0)?;
    }
    Ok(page)
}

/// The hits that the engine answers.
fn answered<E: Engine>(
    alloc: Global,
    index: &Index,
    engine: &E,
    relation: Relation,
    pattern: &Pattern,
) -> Result<Vec<u32>, AllocError>
    requires sound { IsSoundPattern (pattern_of pattern.now) }
    requires standing { AnswersStanding (E.answers engine.now) index.now relation
        (pattern_of pattern.now) }
{
    let found = index.find(&mut SearchMemory::new(alloc), engine, relation, pattern)?;
    listed(alloc, &found)
}

/// Both answer the same in each relation.
fn assert_pattern(
    rt: &impl Abort,
    alloc: Global,
    index: &Index,
    pattern: &Pattern,
) -> Result<(), AllocError>
    requires { IsSoundPattern (pattern_of pattern.now) }
{
    // So it is known that what is kept is in order.
    index.stats();
    index.signature();
    let scan = Scan::new(alloc, index);
    for relation in RELATIONS {
        let by_trees = answered(alloc, index, index.trees(), relation, pattern)?;
        let by_scan = answered(alloc, index, &scan, relation, pattern)?;
        assert_eq!(rt; by_trees.as_slice(), by_scan.as_slice());
    }
    Ok(())
}

fn assert_entry(
    rt: &impl Abort,
    alloc: Global,
    index: &Index,
    entry: Entry<'_>,
) -> Result<(), AllocError>
    requires { IsSoundEntry (entry_of entry) }
{
    let pattern = to_pattern(alloc, entry)?;
    assert_pattern(rt, alloc, index, &pattern)
}

/// Both answer the same to each entry of the clause at this position.
fn assert_clause(rt: &impl Abort, alloc: Global, index: &Index, at: u32) -> Result<(), AllocError>
    requires { at < length index.now.clauses }
{
    // So it is known that what is kept is in order.
    index.stats();
    index.signature();
    let clause = index.clause(at);
    for number in 0..entry_count(clause) {
        assert_entry(rt, alloc, index, entry_at(clause, number))?;
    }
    Ok(())
}

/// The text from the line with this number on, from 0.
pub fn from_line(text: &[u8], line: u32) -> &[u8] {
    let mut left = line;
    for (place, byte) in text.iter().enumerate() {
        if left == 0 {
            return &text[place..];
        }
        if *byte == b'\n' {
            left -= 1;
        }
    }
    text
}

/// How many clauses are drawn.
const LINES: u32 = 100;

/// The clauses of all lines come where they weren't there, and else go.
fn toggle_lines(alloc: Global, index: &mut Index, text: &[u8]) -> Result<(), AllocError> {
    for line in 0..LINES {
        toggle(alloc, index, from_line(text, line))?;
    }
    Ok(())
}

/// Both answer the same to each entry that is kept.
fn assert_entries(rt: &impl Abort, alloc: Global, index: &Index) -> Result<(), AllocError> {
    for at in 0..index.stats().clauses {
        assert_clause(rt, alloc, index, at)?;
    }
    Ok(())
}

/// All clauses come, each of their entries is asked for, and all go.
pub fn assert_same(
    rt: &impl Abort,
    alloc: Global,
    index: &mut Index,
    text: &[u8],
) -> Result<(), AllocError> {
    toggle_lines(alloc, index, text)?;
    assert_eq!(rt; index.stats().clauses, LINES);
    assert_entries(rt, alloc, index)?;
    toggle_lines(alloc, index, text)?;
    let counts = index.counts();
    assert_eq!(rt; (counts.literals.nodes, counts.terms.nodes), (1, 1));
    Ok(())
}

/// Of eight clauses one comes or goes, again and again, in an order without a pattern, and each
/// time the entries of those that are there are asked for.
pub fn assert_changes(
    rt: &impl Abort,
    alloc: Global,
    index: &mut Index,
    text: &[u8],
) -> Result<(), AllocError> {
    for round in 0..60u32 {
        let line = round.wrapping_mul(2_654_435_761) >> 29;
        toggle(alloc, index, from_line(text, line))?;
        assert_entries(rt, alloc, index)?;
    }
    Ok(())
}

#[test]
fn trees_answer_as_a_scan_does(rt: HostRuntime) -> Result<(), Fail> {
    let text = sample(rt.alloc(), 1, LINES)?;
    assert_trial(&rt, rt.alloc(), Trial::Scan(text.as_slice()))?;
    Ok(())
}

#[test]
fn trees_answer_as_a_scan_does_while_clauses_come_and_go(rt: HostRuntime) -> Result<(), Fail> {
    for start in 1..9 {
        let text = sample(rt.alloc(), start, 8)?;
        assert_trial(&rt, rt.alloc(), Trial::Changes(text.as_slice()))?;
    }
    Ok(())
}
