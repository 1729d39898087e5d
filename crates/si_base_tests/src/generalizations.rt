// How lists of bindings are split: at a fresh indicator, at one of the node's, and at the root.
ghost use Rattle.std.specs.Prelude.{◌≡◌, ◌∷◌, [], IfOk};
ghost use Rattle.si_flat.specs.declared.Cell.TheVariants.{App};
ghost use Rattle.si_flat.specs.Cells.{IsWhole};
ghost use Rattle.si_mscg.specs.Generalising.{MayGeneralise};

use si_flat::{Bindings, Cell, Split};
use si_mscg::generalise;
use std::alloc::{AllocError, Global};
use std::test::Fail;

pub const A: Cell = Cell::App {
    sym: 6,
    arity: 0,
    len: 1,
};

pub const B: Cell = Cell::App {
    sym: 8,
    arity: 0,
    len: 1,
};

pub const C: Cell = Cell::App {
    sym: 10,
    arity: 0,
    len: 1,
};

pub const G: Cell = Cell::App {
    sym: 4,
    arity: 1,
    len: 2,
};

const F_OF_3: Cell = Cell::App {
    sym: 2,
    arity: 2,
    len: 3,
};

const F_OF_4: Cell = Cell::App {
    sym: 2,
    arity: 2,
    len: 4,
};

/// Whether these are the bindings, in order.
pub fn are(found: &Bindings, wanted: &[(u32, &[Cell])]) -> bool {
    if found.len() != wanted.len() {
        return false;
    }
    for n in 0..wanted.len() {
        if found.left(n) != wanted[n].0 || found.right(n) != wanted[n].1 {
            return false;
        }
    }
    true
}

/// The list of one binding.
fn one(alloc: Global, left: u32, right: &[Cell]) -> Result<Bindings, AllocError>
    requires { IsWhole right.now }
    ensures { IfOk result (λ bindings. bindings ≡ (left, right.now) ∷ []) }
{
    let mut bindings = Bindings::new(alloc);
    bindings.push(left, right)?;
    Ok(bindings)
}

/// The list of the constant `a` for 1, and another constant for 2.
fn with_a(alloc: Global, right: &[Cell]) -> Result<Bindings, AllocError>
    requires { IsWhole right.now }
    ensures { IfOk result (λ bindings. bindings ≡ (1, App 6 0 1 ∷ []) ∷ (2, right.now) ∷ []) }
{
    let mut bindings = Bindings::new(alloc);
    bindings.push(1, &[A])?;
    bindings.push(2, right)?;
    Ok(bindings)
}

/// The common part, and what is left of the node's list and of the new one.
type Parts = [&'static [(u32, &'static [Cell])]; 3];

fn consists_of(split: &Split, due: &Parts) -> bool {
    if !are(&split.common, due[0]) {
        return false;
    }
    if !are(&split.rest_node, due[1]) {
        return false;
    }
    are(&split.rest_new, due[2])
}

/// Whether the lists are split into these parts.
fn is_split(
    alloc: Global,
    node: &Bindings,
    new: &Bindings,
    next: u32,
    due: &Parts,
) -> Result<bool, AllocError>
    requires { MayGeneralise next node.now new.now }
{
    let split = generalise(alloc, node, new, next)?;
    Ok(consists_of(&split, due))
}

const FRESH: Parts = [
    &[(0, &[F_OF_4, Cell::Ind(1), G, B])],
    &[(1, &[A])],
    &[(1, &[C])],
];

fn fresh_indicator_is_right(alloc: Global) -> Result<bool, AllocError> {
    let node = one(alloc, 0, &[F_OF_4, A, G, B])?;
    let new = one(alloc, 0, &[F_OF_4, C, G, B])?;
    is_split(alloc, &node, &new, 1, &FRESH)
}

const KEPT: Parts = [
    &[(0, &[F_OF_3, Cell::Ind(1), Cell::Ind(2)])],
    &[(2, &[A])],
    &[(1, &[B]), (2, &[C])],
];

fn kept_indicator_is_right(alloc: Global) -> Result<bool, AllocError> {
    let node = one(alloc, 0, &[F_OF_3, Cell::Ind(1), A])?;
    let new = one(alloc, 0, &[F_OF_3, B, C])?;
    is_split(alloc, &node, &new, 2, &KEPT)
}

const WHOLE: Parts = [&[(1, &[A])], &[(2, &[B])], &[(2, &[C])]];

fn whole_right_side_is_right(alloc: Global) -> Result<bool, AllocError> {
    let node = with_a(alloc, &[B])?;
    let new = with_a(alloc, &[C])?;
    is_split(alloc, &node, &new, 3, &WHOLE)
}

#[test]
fn lists_are_split(rt: HostRuntime) -> Result<(), Fail> {
    let alloc = rt.alloc();
    assert!(rt; fresh_indicator_is_right(alloc)?);
    assert!(rt; kept_indicator_is_right(alloc)?);
    assert!(rt; whole_right_side_is_right(alloc)?);
    Ok(())
}
