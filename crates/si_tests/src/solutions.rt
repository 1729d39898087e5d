// Canonical lists of bindings, compared by owner, number and cells.
ghost use Rattle.si_flat.specs.Cells.{IsWhole};
ghost use Rattle.si_flat.specs.declared.Owner.TheVariants.{Query, Entry};
ghost use Rattle.si_form.specs.Answers.{AreNumbered};

use si_defs::Relation;
use si_flat::{Cell, Flat, Owner};
use si_form::{Binding, Solution, canonical};
use std::alloc::{AllocError, Global};
use std::test::Fail;

const A: Cell = Cell::App {
    sym: 6,
    arity: 0,
    len: 1,
};

const G: Cell = Cell::App {
    sym: 4,
    arity: 1,
    len: 2,
};

const F_OF_3: Cell = Cell::App {
    sym: 2,
    arity: 2,
    len: 3,
};

const F_OF_4: Cell = Cell::App {
    sym: 2,
    arity: 2,
    len: 4,
};

// A binding's owner, number and cells.
type Due = (Owner, u32, &'static [Cell]);

fn is_due(binding: &Binding, due: &Due) -> bool {
    if binding.owner != due.0 || binding.slot != due.1 {
        return false;
    }
    binding.value.cells() == due.2
}

fn are_due(found: &Solution, due: &[Due]) -> bool {
    if found.len() != due.len() {
        return false;
    }
    for n in 0..due.len() {
        if !is_due(found.at(n), &due[n]) {
            return false;
        }
    }
    true
}

fn is_answer(found: &Option<Solution>, due: &Option<&'static [Due]>) -> bool {
    let Some(list) = found else {
        return due.is_none();
    };
    let Some(bindings) = due else {
        return false;
    };
    are_due(list, bindings)
}

fn is_found(
    alloc: Global,
    relation: Relation,
    query: &Flat,
    entry: &Flat,
    due: &Option<&'static [Due]>,
) -> Result<bool, AllocError>
    requires query { AreNumbered Query query.now }
    requires entry { AreNumbered Entry entry.now }
{
    let found = canonical(alloc, relation, query, entry)?;
    Ok(is_answer(&found, due))
}

fn is_found_for(
    alloc: Global,
    relation: Relation,
    query: &Flat,
    cells: &[Cell],
    due: &Option<&'static [Due]>,
) -> Result<bool, AllocError>
    requires query { AreNumbered Query query.now }
    requires whole { IsWhole cells.now }
    requires entry { AreNumbered Entry cells.now }
{
    let entry = Flat::from_cells(alloc, cells)?;
    is_found(alloc, relation, query, &entry, due)
}

/// Whether these are the bindings by which the two terms stand in the relation.
fn is_right(
    alloc: Global,
    relation: Relation,
    cells: &[Cell],
    entry: &[Cell],
    due: Option<&'static [Due]>,
) -> Result<bool, AllocError>
    requires whole_query { IsWhole cells.now }
    requires whole_entry { IsWhole entry.now }
    requires query { AreNumbered Query cells.now }
    requires entry { AreNumbered Entry entry.now }
{
    let query = Flat::from_cells(alloc, cells)?;
    is_found_for(alloc, relation, &query, entry, &due)
}

const ORDERED: &[Due] = &[
    (Owner::Entry, 1, &[Cell::Query(0)]),
    (Owner::Query, 0, &[G, Cell::Entry(0)]),
];

// No binding's variable stands in its own right side or in one after it.
fn order_is_right(alloc: Global) -> Result<bool, AllocError> {
    is_right(
        alloc,
        Relation::Unifiable,
        &[F_OF_3, Cell::Query(0), Cell::Query(0)],
        &[F_OF_4, G, Cell::Entry(0), Cell::Entry(1)],
        Some(ORDERED),
    )
}

const FOLDED: &[Due] = &[
    (Owner::Entry, 0, &[G, Cell::Query(0)]),
    (Owner::Query, 0, &[A]),
];

// What a variable stands for is written as that variable.
fn folded_side_is_right(alloc: Global) -> Result<bool, AllocError> {
    is_right(
        alloc,
        Relation::Unifiable,
        &[F_OF_4, Cell::Query(0), G, Cell::Query(0)],
        &[F_OF_3, A, Cell::Entry(0)],
        Some(FOLDED),
    )
}

const RENAMED: &[Due] = &[
    (Owner::Query, 0, &[Cell::Entry(0)]),
    (Owner::Query, 1, &[Cell::Entry(1)]),
];

fn variants_are_right(alloc: Global) -> Result<bool, AllocError> {
    is_right(
        alloc,
        Relation::Variants,
        &[F_OF_3, Cell::Query(0), Cell::Query(1)],
        &[F_OF_3, Cell::Entry(0), Cell::Entry(1)],
        Some(RENAMED),
    )
}

// A variable would stand in what it stands for.
fn circle_has_none(alloc: Global) -> Result<bool, AllocError> {
    is_right(
        alloc,
        Relation::Unifiable,
        &[F_OF_3, Cell::Query(0), Cell::Query(0)],
        &[F_OF_4, Cell::Entry(0), G, Cell::Entry(0)],
        None,
    )
}

#[test]
fn lists_are_canonical(rt: HostRuntime) -> Result<(), Fail> {
    let alloc = rt.alloc();
    assert!(rt; order_is_right(alloc)?);
    assert!(rt; folded_side_is_right(alloc)?);
    assert!(rt; variants_are_right(alloc)?);
    assert!(rt; circle_has_none(alloc)?);
    Ok(())
}
