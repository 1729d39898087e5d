// Which children can't be open, by their heads.
ghost use Rattle.std.specs.Prelude.{◌≡◌, ◌↔◌, Some, IsTrue};
ghost use Rattle.si_flat.specs.Cells.{IsWhole};
ghost use Rattle.si_tree.specs.Reading.{IsNode};
ghost use Rattle.si_unify.specs.Solving.{AllowsSolving};
ghost use Rattle.si_fit.specs.Meeting.{first_cell_of};
ghost use Rattle.si_descend.specs.Heads.{CannotHave, IsUnwanted, IsWanted, KeepsVariables};

use crate::search::Search;
use si_defs::Relation;
use si_fit::end_of;
use si_flat::Cell;
use si_trail::Trail;
use si_tree::{Head, NodeId};
use si_unify::Slots;

/// The split of a node, and the first cell of what the trail gives it.
#[derive(Clone, Copy)]
pub(crate) struct Wanted {
    pub(crate) split: u32,
    pub(crate) first: Cell,
}

/// What the children of a node are asked for, if it has a split and that is bound.
#[inline(always)]
pub(crate) fn asked_of<'a>(
    search: &Search<'a>,
    node: NodeId,
    trail: &Trail<&'a [Cell]>,
) -> Option<Wanted>
    requires node { IsNode search.now.tree.now node }
    requires solving { AllowsSolving search.now.slots trail.now.pairs trail.now.slots }
    ensures { IsWanted search.now node trail.now.pairs result }
{
    let slots = &search.slots;
    let Some(split) = search.tree.split(node) else {
        return None;
    };
    let Some(value) = trail.get(slots.indicator_slot(split)) else {
        return None;
    };
    let end = end_of(trail, slots, value);
    Some(Wanted {
        split,
        first: first(end),
    })
}

// The first cell of a term.
fn first(cells: &[Cell]) -> Cell
    requires { IsWhole cells.now }
    ensures { result ≡ first_cell_of cells.now }
{
    cells[0]
}

/// Whether a child gives the split a term with another head than the one that is wanted.
#[inline(always)]
pub(crate) fn is_unwanted(search: &Search<'_>, wanted: Option<Wanted>, head: Head) -> bool
    ensures { IsTrue result → IsUnwanted search.now wanted head }
{
    match wanted {
        Some(asked) => clash(search.relation, &search.slots, asked.first, head),
        None => false,
    }
}

/// Whether no variable of an entry can become a term that begins with a symbol.
#[inline(always)]
pub(crate) fn keeps_variables(relation: Relation, slots: &Slots) -> bool
    ensures { IsTrue result ↔ KeepsVariables relation slots.now }
{
    match relation {
        Relation::Variants => true,
        Relation::Instances => slots.freeze_entry,
        Relation::Generalizations => slots.freeze_entry,
        Relation::Unifiable => slots.freeze_entry,
    }
}

// Whether a term that begins with this cell can't meet one with this head.
#[inline(always)]
fn clash(relation: Relation, slots: &Slots, first: Cell, head: Head) -> bool
    ensures { IsTrue result → CannotHave relation slots.now first head }
{
    if let Cell::App { sym, arity, .. } = first {
        return match head {
            Head::Sym { sym: s, arity: a } => sym != s || arity != a,
            Head::Var(_) => keeps_variables(relation, slots),
        };
    }
    match head {
        Head::Sym { .. } => match first {
            Cell::Query(_) => slots.freeze_query,
            Cell::Entry(_) => slots.freeze_entry,
            Cell::Ind(_) => false,
            Cell::App { .. } => unreachable!(),
        },
        Head::Var(n) => match first {
            Cell::Entry(m) => m != n && slots.freeze_entry,
            Cell::Query(_) | Cell::Ind(_) => false,
            Cell::App { .. } => unreachable!(),
        },
    }
}
