// Many heads, hashed.
ghost use Rattle.std.specs.Prelude.{◌≡◌, ◌<◌, ◌≤◌, ◌^◌, [], ◌∷◌, ◌++◌, IfOk, IfSome, IfNone, OnOk, Some, ℕ, length, slice_get};
ghost use Rattle.std.specs.List.{swap_remove};
ghost use Rattle.indexmap.specs.IndexSet.{spare};
ghost use Rattle.si_defs.specs.Substitutions.{AreDistinct, IsAmong};
ghost use Rattle.si_tree.specs.declared.node.Head.TheVariants.{Var};
ghost use Rattle.si_tree.specs.HashedHeads.{heads_seen, room_seen, AreVariablesBelow};

use crate::node::Head;
use indexmap::IndexSet;
use std::alloc::{AllocError, Global};
use std::marker::Model;

/// Many heads, hashed. Contracts see them in order, and for how many more there is room.
#[derive(Drop)]
pub(crate) struct HashedHeads {
    set: IndexSet<Head>,
    // Above the number of each variable among them. It never falls.
    vars: usize,
}

impl Model for HashedHeads {
    ghost use Rattle.std.specs.Prelude.{◌≤◌, ◌^◌, ℕ, List};
    ghost use Rattle.indexmap.specs.IndexSet.{spare};
    ghost use Rattle.si_tree.specs.declared.node.Head.{Head};
    ghost use Rattle.si_tree.specs.HashedHeads.{AreVariablesBelow};

    ghost Value = { List Head × ℕ };

    ghost view = { λ h. (h.set.keys, spare h.set) };

    ghost invariant = { λ h. AreVariablesBelow h.vars h.set.keys × (h.vars ≤ 2 ^ 32) };
}

impl HashedHeads {
    /// These heads, and room for another.
    pub(crate) fn of(alloc: Global, heads: &[Head]) -> Result<HashedHeads, AllocError>
        requires { AreDistinct heads.now }
        ensures same { IfOk result (λ hashed. heads_seen hashed ≡ heads.now) }
        ensures room { IfOk result (λ hashed. 0 < room_seen hashed) }
    {
        Ok(HashedHeads {
            set: hashed(alloc, heads)?,
            vars: beyond_variables(heads),
        })
    }

    /// Makes room for one more.
    pub(crate) fn reserve(&mut self) -> Result<(), AllocError>
        ensures same { heads_seen self.new ≡ heads_seen self.old }
        ensures room { OnOk result (0 < room_seen self.new) }
    {
        self.set.reserve(1)
    }

    /// Appends a head, for which there is room.
    pub(crate) fn push(&mut self, head: Head)
        requires room { 0 < room_seen self.old }
        requires new { IsAmong (heads_seen self.old) head → ⊥ }
        ensures { heads_seen self.new ≡ heads_seen self.old ++ head ∷ [] }
    {
        self.vars = self.vars.max(beyond_variable(head));
        self.set.insert(head).unwrap();
    }

    /// The heads, in order.
    pub(crate) fn as_slice(&self) -> &[Head]
        ensures { result.now ≡ heads_seen self.now }
    {
        self.set.as_slice()
    }

    /// A number above those of all variables among the heads.
    pub(crate) fn vars(&self) -> usize
        ensures below { AreVariablesBelow result (heads_seen self.now) }
        ensures few { result ≤ 2 ^ 32 }
    {
        self.vars
    }

    /// The place of a head.
    pub(crate) fn place(&self, head: Head) -> Option<usize>
        ensures some { IfSome result (λ place. slice_get (heads_seen self.now) place ≡ Some head) }
        ensures none { IfNone result (IsAmong (heads_seen self.now) head → ⊥) }
    {
        self.set.get_index_of(&head)
    }

    /// Takes out the head at this place, which the last one takes.
    pub(crate) fn swap_remove(&mut self, place: usize)
        requires { place < length (heads_seen self.old) }
        ensures { (head : Head) → slice_get (heads_seen self.old) place ≡ Some head
            → heads_seen self.new ≡ swap_remove (heads_seen self.old) place head }
    {
        self.set.swap_remove_index(place);
    }
}

// These heads, hashed, and room for another.
fn hashed(alloc: Global, heads: &[Head]) -> Result<IndexSet<Head>, AllocError>
    requires { AreDistinct heads.now }
    ensures same { IfOk result (λ set. set.keys ≡ heads.now) }
    ensures room { IfOk result (λ set. 0 < spare set) }
{
    let mut set = IndexSet::with_capacity(alloc, heads.len() + 1)?;
    for head in heads {
        set.insert(*head)?;
    }
    set.reserve(1)?;
    Ok(set)
}

/// The number above those of all variables among heads.
pub(crate) fn beyond_variables(heads: &[Head]) -> usize
    ensures below { AreVariablesBelow result heads.now }
    ensures few { result ≤ 2 ^ 32 }
{
    let mut vars: usize = 0;
    for head in heads {
        vars = vars.max(beyond_variable(*head));
    }
    vars
}

// The number above that of a variable. For a symbol it is 0.
fn beyond_variable(head: Head) -> usize
    ensures below { AreVariablesBelow result (head ∷ []) }
    ensures few { result ≤ 2 ^ 32 }
{
    match head {
        Head::Sym { .. } => 0,
        Head::Var(number) => number as usize + 1,
    }
}
