// Paths.
ghost use Rattle.std.specs.Prelude.{◌≡◌, ◌<◌, [], ◌∷◌, ◌++◌, IfOk, OnOk, OnErr, Some, length, reverse, slice_get};

use smallvec::SmallVec;
use std::alloc::{AllocError, Global};
use std::marker::Model;

/// Argument numbers from 1, from an atom down to a subterm. A short path takes no memory of its
/// own.
#[derive(Drop)]
pub struct Path {
    steps: SmallVec<u32, 8>,
}

impl Model for Path {
    ghost use Rattle.std.specs.Prelude.{List, ℕ};

    ghost Value = { List ℕ };

    ghost view = { λ p. p.steps.items };
}

impl Path {
    /// The empty path.
    pub fn new(alloc: Global) -> Path
        ensures { result ≡ [] }
    {
        Path {
            steps: SmallVec::new(alloc),
        }
    }

    /// A copy of the steps.
    pub fn from_steps(alloc: Global, steps: &[u32]) -> Result<Path, AllocError>
        ensures { IfOk result (λ p. p ≡ steps.now) }
    {
        Ok(Path {
            steps: SmallVec::from_slice(alloc, steps)?,
        })
    }

    /// The steps in order.
    pub fn as_slice(&self) -> &[u32]
        ensures { result.now ≡ self.now }
    {
        self.steps.as_slice()
    }

    /// The number of steps.
    pub fn len(&self) -> usize
        ensures { result ≡ length self.now }
    {
        self.steps.len()
    }

    /// The step with this number from 0.
    pub fn at(&self, n: usize) -> &u32
        requires { n < length self.now }
        ensures { slice_get self.now n ≡ Some result.now }
    {
        &self.steps.as_slice()[n]
    }

    /// Appends a step. At an error the path is as before.
    pub fn push(&mut self, step: u32) -> Result<(), AllocError>
        ensures ok { OnOk result (self.new ≡ self.old ++ step ∷ []) }
        ensures err { OnErr result (self.new ≡ self.old) }
    {
        self.steps.push(step)?;
        Ok(())
    }

    /// Turns the order of the steps round.
    pub(crate) fn reverse(&mut self)
        ensures { self.new ≡ reverse self.old }
    {
        self.steps.reverse();
    }
}
