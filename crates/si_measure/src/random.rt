// A term that is drawn at random, and one that it can be made equal to.
ghost use Rattle.std.specs.Prelude.{◌<◌, IfOk};
ghost use Rattle.si_measure.specs.Answers.{SolvesTerms};

use crate::row::{Row, pair, variable};
use crate::solving::{Measured, solve_often};
use si_flat::{Flat, Owner};
use std::alloc::{AllocError, Global};

/// The number of the first constant. There are four.
const CONSTANTS: u32 = 2;
/// Where a subterm has at most so many cells, a variable may stand against it.
const MOST_CUT: u32 = 40;

/// Two terms with a common solution.
#[derive(Drop)]
struct Two {
    left: Flat,
    right: Flat,
}

/// The state of a linear congruential generator, and how many variables there are.
#[derive(Drop)]
struct Generator {
    alloc: Global,
    state: u32,
    variables: u32,
}

/// Solves two terms of about so many cells that are drawn at random, so many times.
pub(crate) fn measure(alloc: Global, size: u32, times: u32) -> Result<Measured, AllocError>
    ensures { IfOk result SolvesTerms }
{
    let mut generator = Generator {
        alloc,
        state: 1,
        variables: 0,
    };
    let terms = generator.terms(size)?;
    let variables = generator.variables;
    solve_often(alloc, variables, &terms.left, &terms.right, times)
}

/// Two terms, each put together from two.
fn pairs(alloc: Global, lefts: (&Flat, &Flat), rights: (&Flat, &Flat)) -> Result<Two, AllocError> {
    let left = pair(alloc, lefts.0, lefts.1)?;
    let right = pair(alloc, rights.0, rights.1)?;
    Ok(Two { left, right })
}

impl Generator {
    /// Two terms of about so many cells.
    fn terms(&mut self, size: u32) -> Result<Two, AllocError> {
        if size < 3 {
            return self.constants();
        }
        let first = 1 + self.below(size - 2);
        let one = self.terms(first)?;
        let other = self.terms(size - 1 - first)?;
        self.join(size, &one, &other)
    }

    /// Two terms put together from two and two. Small ones are now and then cut off: a variable
    /// stands for one of them, or one against a term that stands twice.
    fn join(&mut self, size: u32, one: &Two, other: &Two) -> Result<Two, AllocError> {
        if size > MOST_CUT {
            return self.both(one, other);
        }
        match self.below(16) {
            0 => self.without_right(one, other),
            1 => self.without_left(one, other),
            2 => self.twice(one),
            _ => self.both(one, other),
        }
    }

    fn both(&self, one: &Two, other: &Two) -> Result<Two, AllocError> {
        let lefts = (&one.left, &other.left);
        let rights = (&one.right, &other.right);
        pairs(self.alloc, lefts, rights)
    }

    /// A variable stands for the right term.
    fn without_right(&mut self, one: &Two, other: &Two) -> Result<Two, AllocError> {
        let right = self.variable(Owner::Entry)?;
        let left = pair(self.alloc, &one.left, &other.left)?;
        Ok(Two { left, right })
    }

    /// A variable stands for the left term.
    fn without_left(&mut self, one: &Two, other: &Two) -> Result<Two, AllocError> {
        let left = self.variable(Owner::Query)?;
        let right = pair(self.alloc, &one.right, &other.right)?;
        Ok(Two { left, right })
    }

    /// A variable stands against a term, twice.
    fn twice(&mut self, one: &Two) -> Result<Two, AllocError> {
        let value = self.variable(Owner::Entry)?;
        pairs(self.alloc, (&one.left, &one.left), (&value, &value))
    }

    /// The same constant twice.
    fn constants(&mut self) -> Result<Two, AllocError> {
        let number = CONSTANTS + self.below(4);
        Ok(Two {
            left: Row::new(self.alloc).under(number)?,
            right: Row::new(self.alloc).under(number)?,
        })
    }

    /// A variable that stands nowhere yet.
    fn variable(&mut self, owner: Owner) -> Result<Flat, AllocError> {
        let number = self.variables;
        self.variables = number.wrapping_add(1);
        variable(self.alloc, owner, number)
    }

    /// Draws a number below the bound.
    fn below(&mut self, bound: u32) -> u32
        requires { 0 < bound }
        ensures { result < bound }
    {
        self.state = self
            .state
            .wrapping_mul(1_664_525)
            .wrapping_add(1_013_904_223);
        self.state / 256 % bound
    }
}
