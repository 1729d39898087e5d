// The heads of a node's children.
ghost use Rattle.std.specs.Prelude.{◌≡◌, ◌≤◌, ◌^◌, [], ◌∷◌, ◌++◌, IfOk, IfSome, IfNone, OnOk, Some, slice_get};
ghost use Rattle.std.specs.List.{swap_remove};
ghost use Rattle.si_defs.specs.Substitutions.{AreDistinct, IsAmong};
ghost use Rattle.si_tree.specs.HashedHeads.{AreVariablesBelow};
ghost use Rattle.si_tree.specs.KeptHeads.{heads_in, HasRoomForHead};

use crate::hashed::{HashedHeads, beyond_variables};
use crate::node::Head;
use std::alloc::{AllocError, Global};

// So many heads are compared one by one.
const MOST_COMPARED: usize = 16;

/// How many items the lists of heads and of children have room for when they are made.
pub(crate) const FIRST_ROOM: usize = 4;

/// The heads of a node's children, in order. No two are the same. Many are hashed.
#[derive(Drop)]
pub(crate) enum Heads {
    Few(Vec<Head>),
    Many(Box<HashedHeads>),
}

impl Heads {
    /// No heads.
    pub(crate) fn new(alloc: Global) -> Heads
        ensures { heads_in result ≡ [] }
    {
        Heads::Few(Vec::new(alloc))
    }

    /// These few heads, and room for another.
    pub(crate) fn few(alloc: Global, few: &[Head]) -> Result<Heads, AllocError>
        ensures heads { IfOk result (λ heads. heads_in heads ≡ few.now) }
        ensures room { IfOk result HasRoomForHead }
    {
        let mut heads = Vec::with_capacity(alloc, FIRST_ROOM)?;
        heads.extend_from_slice(few)?;
        heads.reserve(1)?;
        Ok(Heads::Few(heads))
    }

    /// Makes room for one more.
    pub(crate) fn reserve(&mut self, alloc: Global) -> Result<(), AllocError>
        requires { AreDistinct (heads_in self.old) }
        ensures same { heads_in self.new ≡ heads_in self.old }
        ensures room { OnOk result (HasRoomForHead self.new) }
    {
        let hashed = match self {
            Heads::Few(heads) => {
                if heads.len() < MOST_COMPARED {
                    return heads.reserve(1);
                }
                HashedHeads::of(alloc, heads.as_slice())?
            }
            Heads::Many(heads) => return heads.reserve(),
        };
        *self = Heads::Many(Box::new(alloc, hashed)?);
        Ok(())
    }

    /// Appends a head, for which there is room.
    pub(crate) fn push(&mut self, head: Head)
        requires room { HasRoomForHead self.old }
        requires new { IsAmong (heads_in self.old) head → ⊥ }
        ensures { heads_in self.new ≡ heads_in self.old ++ head ∷ [] }
    {
        match self {
            Heads::Few(heads) => heads.push_reserved(head),
            Heads::Many(heads) => heads.push(head),
        }
    }

    /// The heads, in order.
    pub(crate) fn as_slice(&self) -> &[Head]
        ensures { result.now ≡ heads_in self.now }
    {
        match self {
            Heads::Few(heads) => heads.as_slice(),
            Heads::Many(heads) => heads.as_slice(),
        }
    }

    /// A number above those of all variables among the heads: the least, where they are few.
    pub(crate) fn vars(&self) -> usize
        ensures below { AreVariablesBelow result (heads_in self.now) }
        ensures few { result ≤ 2 ^ 32 }
    {
        match self {
            Heads::Few(heads) => beyond_variables(heads.as_slice()),
            Heads::Many(heads) => heads.vars(),
        }
    }

    /// The place of a head.
    pub(crate) fn place(&self, head: Head) -> Option<usize>
        ensures some { IfSome result (λ place. slice_get (heads_in self.now) place ≡ Some head) }
        ensures none { IfNone result (IsAmong (heads_in self.now) head → ⊥) }
    {
        match self {
            Heads::Few(heads) => place_of_head(heads.as_slice(), head),
            Heads::Many(heads) => heads.place(head),
        }
    }

    /// Takes out a head, and answers its place, which the last one takes.
    pub(crate) fn remove(&mut self, head: Head) -> usize
        requires { IsAmong (heads_in self.old) head }
        ensures place { slice_get (heads_in self.old) result ≡ Some head }
        ensures removed { heads_in self.new ≡ swap_remove (heads_in self.old) result head }
    {
        let Some(place) = self.place(head) else {
            unreachable!()
        };
        match self {
            Heads::Few(heads) => {
                heads.swap_remove(place);
            }
            Heads::Many(heads) => heads.swap_remove(place),
        }
        place
    }
}

/// The first place of a head.
pub(crate) fn place_of_head(heads: &[Head], head: Head) -> Option<usize>
    ensures some { IfSome result (λ place. slice_get heads.now place ≡ Some head) }
    ensures none { IfNone result (IsAmong heads.now head → ⊥) }
{
    for place in 0..heads.len() {
        if heads[place] == head {
            return Some(place);
        }
    }
    None
}
