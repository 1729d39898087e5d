// What is done to an index.
use crate::beside::{assert_changes, assert_same};
use crate::legal::{Course, assert_course};
use crate::nodes::{Shape, assert_numbered, assert_renumbered, assert_shapes};
use crate::shown::assert_shown;
use si_index::Index;
use si_sign::ClauseStore;
use si_texts::clause_in;
use std::alloc::{AllocError, Global};
use std::process::Abort;

/// Adds the clause at the front of a text, or else, where it is refused, removes the one that has
/// its name.
pub fn toggle(alloc: Global, index: &mut Index, text: &[u8]) -> Result<(), AllocError> {
    let clause = clause_in(alloc, text)?;
    match index.add(clause) {
        Ok(_) => Ok(()),
        Err(rejected) => {
            index.remove(&rejected.clause.name);
            Ok(())
        }
    }
}

/// What is tried on an index that is empty at first.
#[derive(Clone, Copy)]
pub enum Trial<'a> {
    /// Which nodes there are after each of some clauses came or went.
    Shapes(&'a [(&'a [u8], Shape)]),
    /// Whether indicators are numbered anew.
    Indicators,
    /// Whether symbols get the numbers of those that went.
    Symbols,
    /// Whether what is shown of hits is right.
    Shown,
    /// Whether the trees answer as a scan does, over the clauses of a text.
    Scan(&'a [u8]),
    /// The same while these come and go.
    Changes(&'a [u8]),
    /// Whether the trees are legal after each command of a course.
    Legal(Course<'a>),
}

fn assert_on(
    rt: &impl Abort,
    alloc: Global,
    index: &mut Index,
    trial: Trial<'_>,
) -> Result<(), AllocError> {
    match trial {
        Trial::Shapes(rows) => assert_shapes(rt, alloc, index, rows),
        Trial::Indicators => assert_renumbered(rt, alloc, index),
        Trial::Symbols => assert_numbered(rt, alloc, index),
        Trial::Shown => assert_shown(rt, alloc, index),
        Trial::Scan(text) => assert_same(rt, alloc, index, text),
        Trial::Changes(text) => assert_changes(rt, alloc, index, text),
        Trial::Legal(course) => assert_course(rt, alloc, index, course),
    }
}

/// The one owner of an index, since to drop one is much to prove.
pub fn assert_trial(rt: &impl Abort, alloc: Global, trial: Trial<'_>) -> Result<(), AllocError> {
    let mut index = Index::new(alloc, 10_000)?;
    assert_on(rt, alloc, &mut index, trial)
}
