// Equations between variables and what doubles the ones before.
ghost use Rattle.std.specs.Prelude.{◌≡◌, ◌≤◌, IfOk, OnOk};
ghost use Rattle.si_flat.specs.Cells.{cells_of};
ghost use Rattle.si_measure.specs.Rows.{with_argument};
ghost use Rattle.si_measure.specs.Systems.{variable as variable_term, doubled as doubled_term, tower, two_towers, equations_of, AddsEquations};
ghost use Rattle.si_measure.specs.Answers.{SolvesShape};

use crate::measurement::{LARGEST, Shape};
use crate::row::{Row, pair, variable};
use crate::solving::{Measured, solve_often};
use si_flat::{Flat, Owner};
use std::alloc::{AllocError, Global};

/// The number of the symbol h, whose arguments are all sides.
const HEAD: u32 = 0;

/// The left and the right sides of equations.
#[derive(Drop)]
pub(crate) struct Sides {
    left: Row,
    right: Row,
}

impl Sides {
    fn add(&mut self, left: &Flat, right: &Flat) -> Result<(), AllocError>
        ensures left { OnOk result (self.new.left ≡ with_argument self.old.left left.now) }
        ensures right { OnOk result (self.new.right ≡ with_argument self.old.right right.now) }
    {
        self.left.add(left)?;
        self.right.add(right)
    }
}

/// Solves the equations of a shape between towers of so many variables, so many times.
pub(crate) fn measure(
    alloc: Global,
    shape: Shape,
    size: u32,
    times: u32,
) -> Result<Measured, AllocError>
    requires { size ≤ LARGEST }
    ensures { IfOk result (SolvesShape shape size) }
{
    let mut sides = Sides {
        left: Row::new(alloc),
        right: Row::new(alloc),
    };
    put_shape(alloc, &mut sides, shape, size)?;
    let left = sides.left.under(HEAD)?;
    let right = sides.right.under(HEAD)?;
    solve_often(alloc, size + 1, &left, &right, times)
}

fn put_shape(alloc: Global, sides: &mut Sides, shape: Shape, size: u32) -> Result<(), AllocError>
    ensures { OnOk result (AddsEquations sides.old sides.new (equations_of shape size)) }
{
    match shape {
        Shape::One => put_tower(alloc, sides, Owner::Query, 1, size),
        Shape::Both => put_two_towers(alloc, sides, 1, size),
        Shape::Shifted => put_two_towers(alloc, sides, 2, size),
    }
}

fn put_two_towers(alloc: Global, sides: &mut Sides, steps: u32, size: u32) -> Result<(), AllocError>
    requires { 1 ≤ steps }
    ensures { OnOk result (AddsEquations sides.old sides.new (two_towers steps size)) }
{
    put_tower(alloc, sides, Owner::Query, steps, size)?;
    put_tower(alloc, sides, Owner::Entry, steps, size)?;
    let last = variable(alloc, Owner::Query, size)?;
    let other = doubled(alloc, Owner::Entry, size, steps - 1)?;
    sides.add(&last, &other)?;
    Ok(())
}

fn put_tower(
    alloc: Global,
    sides: &mut Sides,
    owner: Owner,
    steps: u32,
    size: u32,
) -> Result<(), AllocError>
    ensures { OnOk result (AddsEquations sides.old sides.new (tower owner steps size)) }
{
    for i in 0..size {
        let next = variable(alloc, owner, i + 1)?;
        let value = doubled(alloc, owner, i, steps)?;
        sides.add(&next, &value)?;
    }
    Ok(())
}

/// A variable, doubled in so many steps.
fn doubled(alloc: Global, owner: Owner, number: u32, steps: u32) -> Result<Flat, AllocError>
    ensures { IfOk result (λ f. f ≡ cells_of (doubled_term steps (variable_term owner number))) }
{
    let mut term = variable(alloc, owner, number)?;
    for _ in 0..steps {
        term = pair(alloc, &term, &term)?;
    }
    Ok(term)
}
