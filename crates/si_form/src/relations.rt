// The canonical solution list of each relation.
ghost use Rattle.std.specs.Prelude.{◌≡◌, max, IfOk, IfSome, length, map};
ghost use Rattle.si_flat.specs.Cells.{IsWhole};
ghost use Rattle.si_defs.specs.declared.Relation.TheVariants.{Variants, Instances, Generalizations};
ghost use Rattle.si_flat.specs.declared.Owner.TheVariants.{Query, Entry};
ghost use Rattle.si_form.specs.Answers.{AreNumbered, AreQueryAndEntry, Answers};
ghost use Rattle.si_form.specs.Matching.{binding_of, AreWholeImages, MatchAnswers};
ghost use Rattle.si_form.specs.SolutionParts.{AreNoLonger};

use crate::matching::{Image, Images, matches};
use crate::query::CountedQuery;
use crate::solution::{Binding, Solution};
use crate::unifying::unifier;
use si_defs::Relation;
use si_flat::{Cell, Flat, Owner};
use si_unify::Scratch;
use std::alloc::{AllocError, Global};

// The bindings of variables to copies of what they stand for.
fn bindings<'a>(alloc: Global, owner: Owner, images: &[Image<'a>]) -> Result<Solution, AllocError>
    requires { AreWholeImages images.now }
    ensures { IfOk result (λ list. list ≡ map (binding_of owner) images.now) }
{
    let mut solution = Solution::new(alloc);
    for image in images {
        let value = Flat::from_cells(alloc, image.value)?;
        solution.push(Binding {
            owner,
            slot: image.number,
            value,
        })?;
    }
    Ok(solution)
}

// Whether the pattern matches the target, and how.
fn matched(
    alloc: Global,
    owner: Owner,
    pattern: &[Cell],
    target: &[Cell],
) -> Result<Option<Solution>, AllocError>
    requires pattern { IsWhole pattern.now }
    requires target { IsWhole target.now }
    requires numbered { AreNumbered owner pattern.now }
    ensures { IfOk result (MatchAnswers owner pattern.now target.now) }
{
    let mut images = Images::new(alloc);
    if !matches(owner, pattern, target, &mut images)? {
        return Ok(None);
    }
    let solution = bindings(alloc, owner, images.as_slice())?;
    Ok(Some(solution))
}

// The canonical list by which the entry is an instance of the query; `None` where it is none.
fn instance(alloc: Global, query: &[Cell], entry: &[Cell]) -> Result<Option<Solution>, AllocError>
    requires { AreQueryAndEntry query.now entry.now }
    ensures answers { IfOk result (Answers Instances query.now entry.now) }
    ensures short { IfOk result (λ list. IfSome list (AreNoLonger (length entry.now))) }
{
    matched(alloc, Owner::Query, query, entry)
}

// The canonical list by which the query is an instance of the entry; `None` where it is none.
fn generalization(
    alloc: Global,
    query: &[Cell],
    entry: &[Cell],
) -> Result<Option<Solution>, AllocError>
    requires { AreQueryAndEntry query.now entry.now }
    ensures answers { IfOk result (Answers Generalizations query.now entry.now) }
    ensures short { IfOk result (λ list. IfSome list (AreNoLonger (length query.now))) }
{
    matched(alloc, Owner::Entry, entry, query)
}

// The canonical list by which each is an instance of the other; `None` where one isn't.
fn variant(alloc: Global, query: &[Cell], entry: &[Cell]) -> Result<Option<Solution>, AllocError>
    requires { AreQueryAndEntry query.now entry.now }
    ensures answers { IfOk result (Answers Variants query.now entry.now) }
    ensures short { IfOk result (λ list. IfSome list (AreNoLonger (length entry.now))) }
{
    let mut images = Images::new(alloc);
    if !matches(Owner::Entry, entry, query, &mut images)? {
        return Ok(None);
    }
    matched(alloc, Owner::Query, query, entry)
}

/// The canonical list of a relation; `None` where the query and the entry don't stand in it.
pub fn canonical(
    alloc: Global,
    relation: Relation,
    query: &Flat,
    entry: &Flat,
) -> Result<Option<Solution>, AllocError>
    requires query { AreNumbered Query query.now }
    requires entry { AreNumbered Entry entry.now }
    ensures answers { IfOk result (Answers relation query.now entry.now) }
    ensures short { IfOk result (λ list. IfSome list (AreNoLonger (max (length query.now)
        (length entry.now)))) }
{
    canonical_counted(
        &mut Scratch::new(alloc),
        alloc,
        relation,
        &CountedQuery::new(query.cells()),
        entry.cells(),
    )
}

/// Does the same as [`canonical`] with a query whose variables are counted and with whole cells of
/// an entry, and solves in memory that is lent: for callers that ask about one query and many
/// entries.
pub fn canonical_counted(
    scratch: &mut Scratch,
    alloc: Global,
    relation: Relation,
    query: &CountedQuery<'_>,
    entry: &[Cell],
) -> Result<Option<Solution>, AllocError>
    requires whole { IsWhole entry.now }
    requires entry { AreNumbered Entry entry.now }
    ensures answers { IfOk result (Answers relation query.now entry.now) }
    ensures short { IfOk result (λ list. IfSome list (AreNoLonger (max (length query.now)
        (length entry.now)))) }
{
    let cells = query.cells;
    match relation {
        Relation::Variants => variant(alloc, cells, entry),
        Relation::Instances => instance(alloc, cells, entry),
        Relation::Generalizations => generalization(alloc, cells, entry),
        Relation::Unifiable => unifier(scratch, alloc, &query.slots_with(entry), cells, entry),
    }
}
