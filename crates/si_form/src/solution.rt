// Solution lists: bindings of variables to terms.
ghost use Rattle.std.specs.Prelude.{◌≡◌, ◌<◌, [], ◌∷◌, ◌++◌, IfOk, OnOk, OnErr, Some, length, slice_get};

use si_flat::{Flat, Owner};
use smallvec::SmallVec;
use std::alloc::{AllocError, Global};
use std::default::MadeWith;
use std::marker::Model;

/// A variable and the term that it stands for.
#[derive(Drop)]
pub struct Binding {
    /// Whose variable it is.
    pub owner: Owner,
    /// The number of the variable among its owner's.
    pub slot: u32,
    /// The term that it stands for.
    pub value: Flat,
}

/// What stands in the places of a list that hold no binding. It takes no memory.
impl MadeWith<Global> for Binding {
    fn made_with(alloc: Global) -> Binding {
        Binding {
            owner: Owner::Query,
            slot: 0,
            value: Flat::made_with(alloc),
        }
    }
}

/// A list of bindings, in order. A short one takes no memory of its own.
pub struct Solution {
    bindings: SmallVec<Binding, 2>,
}

// It does what a derived one would, and is quicker to check (docs/PROVING.md, "Minutes").
impl Drop for Solution {
    fn drop(self) {
        let Solution {
            bindings: _bindings,
        } = self;
    }
}

impl Model for Solution {
    ghost use Rattle.std.specs.Prelude.{List};
    ghost use Rattle.si_form.specs.declared.solution.Binding.{Binding};

    ghost Value = { List Binding };

    ghost view = { λ s. s.bindings.items };
}

impl Solution {
    /// The empty list.
    pub fn new(alloc: Global) -> Solution
        ensures { result ≡ [] }
    {
        Solution {
            bindings: SmallVec::new(alloc),
        }
    }

    /// Appends a binding. At an error the list is as before, and the binding is dropped.
    pub fn push(&mut self, item: Binding) -> Result<(), AllocError>
        ensures ok { OnOk result (self.new ≡ self.old ++ item ∷ []) }
        ensures err { OnErr result (self.new ≡ self.old) }
    {
        self.bindings.push(item)?;
        Ok(())
    }

    /// The number of bindings.
    pub fn len(&self) -> usize
        ensures { result ≡ length self.now }
    {
        self.bindings.len()
    }

    /// The binding with this number from 0.
    pub fn at(&self, n: usize) -> &Binding
        requires { n < length self.now }
        ensures { slice_get self.now n ≡ Some result.now }
    {
        &self.bindings.as_slice()[n]
    }

    /// An equal list in memory of its own.
    pub fn copy(&self, alloc: Global) -> Result<Solution, AllocError>
        ensures { IfOk result (λ copy. copy ≡ self.now) }
    {
        let mut copy = Solution::new(alloc);
        for binding in self.bindings.as_slice() {
            copy.push(Binding {
                owner: binding.owner,
                slot: binding.slot,
                value: Flat::from_cells(alloc, binding.value.cells())?,
            })?;
        }
        Ok(copy)
    }
}
