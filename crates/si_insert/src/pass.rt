// Whether the bindings of a node fit a term.
ghost use Rattle.std.specs.Prelude.{◌≡◌, ◌++◌, true, false, IfOk, OnErr};
ghost use Rattle.std.specs.List.{AllByRecursion};
ghost use Rattle.si_defs.specs.Substitutions.{IsAmong, Grows};
ghost use Rattle.si_flat.specs.Cells.{IsWhole};
ghost use Rattle.si_flat.specs.Rows.{left_sides};
ghost use Rattle.si_insert.specs.Opened.{numbers};
ghost use Rattle.si_insert.specs.Passing.{CanPass, PassesAll, PassesNever, OpensAll, IsBoundBy};

use crate::fit::fits;
use crate::open::Openings;
use si_flat::{Bindings, Cell};
use std::alloc::AllocError;

// Whether all right sides of a node fit. Then its left sides are bound, and its indicators are
// open; else nothing has changed.
pub(crate) fn pass(
    openings: &mut Openings,
    node: &Bindings,
    cells: &[Cell],
) -> Result<bool, AllocError>
    requires whole { IsWhole cells.now }
    requires can_pass { CanPass cells.now openings.old node.now }
    ensures passes { IfOk result (λ passes. passes ≡ true
        → PassesAll cells.now openings.old node.now openings.new) }
    ensures differs { IfOk result (λ passes. passes ≡ false
        → PassesNever cells.now openings.old node.now) }
    ensures stays { IfOk result (λ passes. passes ≡ false → openings.new ≡ openings.old) }
{
    let mark = openings.mark();
    if !all_fit(openings, node, cells)? {
        openings.undo(mark);
        return Ok(false);
    }
    bind_all(openings, node);
    Ok(true)
}

// Whether all right sides of a node fit. Their indicators are opened.
fn all_fit(openings: &mut Openings, node: &Bindings, cells: &[Cell]) -> Result<bool, AllocError>
    requires whole { IsWhole cells.now }
    requires can_pass { CanPass cells.now openings.old node.now }
    ensures grows { Grows openings.old openings.new }
    ensures fits { IfOk result (λ fits. fits ≡ true
        → OpensAll cells.now openings.old node.now openings.new) }
    ensures differs { IfOk result (λ fits. fits ≡ false
        → PassesNever cells.now openings.old node.now) }
{
    for pair in node.pairs() {
        let at = openings.at(pair.left());
        if !fits(openings, pair.right(), cells, at)? {
            return Ok(false);
        }
    }
    Ok(true)
}

/// Binds the left sides of a node.
pub(crate) fn bind_all(openings: &mut Openings, node: &Bindings)
    requires { AllByRecursion (IsAmong (numbers openings.old)) (left_sides node.now) }
    ensures { IsBoundBy (left_sides node.now) openings.old openings.new }
{
    for pair in node.pairs() {
        openings.bind(pair.left());
    }
}
