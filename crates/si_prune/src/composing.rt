// Bindings composed, cell by cell.
ghost use Rattle.std.specs.Prelude.{◌≡◌, ◌++◌, IfOk, IfSome, OnOk, map};
ghost use Rattle.si_mscg.specs.Generalising.{spanless};
ghost use Rattle.si_prune.specs.Pruning.{AreInLeftOrder, Composes, MayCompose, carried_pairs, filled, part_in};

use crate::finding::{bound_to, in_order, opened_in_order, opens};
use si_flat::{Bindings, Cell, Pair};
use si_mscg::{set_spans, without_span};
use std::alloc::{AllocError, Global};

/// Composes the bindings of a node with those of its child. One node that has the composed bindings
/// stands for both.
pub fn compose(alloc: Global, node: &Bindings, child: &Bindings) -> Result<Bindings, AllocError>
    requires { MayCompose node.now child.now }
    ensures { IfOk result (Composes node.now child.now) }
{
    let opened = opened_in_order(alloc, node, child.len())?;
    let mut both = carried(alloc, node, child)?;
    for pair in child.pairs() {
        if opens(node, &opened, pair.left()) {
            continue;
        }
        both.push(pair.left(), pair.right())?;
    }
    both.copy(alloc)
}

// The bindings of a node, with those of its child applied to their right sides.
fn carried(alloc: Global, node: &Bindings, child: &Bindings) -> Result<Bindings, AllocError>
    requires { MayCompose node.now child.now }
    ensures { IfOk result (λ both. both ≡ carried_pairs node.now child.now) }
{
    let order = in_order(alloc, child)?;
    let room = node.cells().saturating_add(child.cells());
    let mut both = Bindings::with_capacity(alloc, room)?;
    let mut draft = Vec::with_capacity(alloc, room)?;
    for pair in node.pairs() {
        fill(&mut draft, pair.right(), child, &order)?;
        set_spans(&mut draft);
        both.push(pair.left(), draft.as_slice())?;
        draft.clear();
    }
    Ok(both)
}

// Appends the draft of a right side with bindings applied.
fn fill<'a>(
    draft: &mut Vec<Cell>,
    right: &[Cell],
    bindings: &'a Bindings,
    order: &Option<Vec<Pair<'a>>>,
) -> Result<(), AllocError>
    requires { IfSome order.now (λ pairs. AreInLeftOrder bindings.now pairs.items) }
    ensures { OnOk result (draft.new.items ≡ draft.old.items ++ filled bindings.now right.now) }
{
    for cell in right {
        let Cell::Ind(number) = *cell else {
            draft.push(without_span(*cell))?;
            continue;
        };
        fill_part(draft, number, bindings, order)?;
    }
    Ok(())
}

// Appends the draft of what is bound to an indicator, or the indicator where nothing is.
fn fill_part<'a>(
    draft: &mut Vec<Cell>,
    number: u32,
    bindings: &'a Bindings,
    order: &Option<Vec<Pair<'a>>>,
) -> Result<(), AllocError>
    requires { IfSome order.now (λ pairs. AreInLeftOrder bindings.now pairs.items) }
    ensures { OnOk result (draft.new.items
        ≡ draft.old.items ++ map spanless (part_in bindings.now number)) }
{
    let Some(right) = bound_to(bindings, order, number) else {
        draft.push(Cell::Ind(number))?;
        return Ok(());
    };
    push_draft(draft, right)
}

// Appends cells without their spans.
fn push_draft(draft: &mut Vec<Cell>, cells: &[Cell]) -> Result<(), AllocError>
    ensures { OnOk result (draft.new.items ≡ draft.old.items ++ map spanless cells.now) }
{
    for cell in cells {
        draft.push(without_span(*cell))?;
    }
    Ok(())
}
