// The entries that an engine answered, in order.
ghost use Rattle.std.specs.Prelude.{◌≡◌, IfOk, OnOk, Some, None, slice_get};
ghost use Rattle.std.specs.List.{AllByRecursion};
ghost use Rattle.std.specs.List.Sorted.{IsPermutation};
ghost use Rattle.si_defs.specs.Substitutions.{IsAmong, AreDistinct};
ghost use Rattle.si_held.specs.TwoTrees.{tree_for};
ghost use Rattle.si_index.specs.Gathering.{AreInOrder, StoresPosting};
ghost use Rattle.si_index.specs.Slots.{HasSlots};
ghost use Rattle.si_index.specs.Sorting.{AreSorted};
ghost use Rattle.si_index.specs.Leaves.{StayMade, HasLeafAt, AreUnmade};

use crate::index::Index;
use si_forest::Trees;
use si_form::Solution;
use si_keyed::Places;
use si_legal::Posting;
use si_term::Clause;
use si_tree::NodeId;
use std::alloc::AllocError;

/// From so many entries for each leaf on, a merge of the leaves is cheaper than a sort of all.
const MANY_OF_A_LEAF: usize = 64;

/// Where a kept entry stands: the slot of its clause, and its number in the clause. Slots are in
/// the order of the clauses, and a key leads to its slot by one read.
#[derive(Clone, Copy, PartialEq, Eq, PartialOrd, Ord)]
pub(crate) struct Wanted {
    pub(crate) slot: u32,
    pub(crate) entry: u32,
    /// The number of its leaf among those that were found.
    pub(crate) leaf: usize,
}

/// A leaf of the tree that was asked. Its entries have one flat term, and so one canonical list.
#[derive(Drop)]
pub(crate) struct Leaf {
    pub(crate) node: NodeId,
    /// The canonical list, once it is made.
    pub(crate) list: Option<Solution>,
}

/// Where the entries stand that were found, in order, and their leaves.
#[derive(Drop)]
pub(crate) struct Ordered {
    pub(crate) places: Vec<Wanted>,
    pub(crate) leaves: Vec<Leaf>,
}

/// Where the entries of these postings stand, in order. A leaf whose postings come one after the
/// other is there once.
pub(crate) fn in_order(
    index: &Index,
    slots: &Places<'_, Clause>,
    trees: &Trees,
    literal: bool,
    postings: &[Posting],
) -> Result<Ordered, AllocError>
    requires slots { HasSlots index.now slots.now }
    requires kept { AllByRecursion (λ p. IsAmong index.now.keys p.clause) postings.now }
    requires stored { AllByRecursion (StoresPosting (tree_for literal trees.now)) postings.now }
    requires distinct { AreDistinct postings.now }
    ensures { IfOk result (AreInOrder slots.now (tree_for literal trees.now) postings.now) }
{
    let alloc = index.allocator();
    let mut places = Vec::with_capacity(alloc, postings.len())?;
    let mut leaves = Vec::new(alloc);
    for posting in postings {
        let node = trees.leaf_of(literal, *posting);
        places.push(Wanted {
            slot: slots.place(posting.clause) as u32,
            entry: posting.entry,
            leaf: number_of(&mut leaves, node)?,
        })?;
    }
    put_in_order(&mut places, leaves.len())?;
    Ok(Ordered { places, leaves })
}

/// Puts the places in order. Those of a leaf come in order, so where they are many for each leaf,
/// they are merged.
fn put_in_order(places: &mut Vec<Wanted>, leaves: usize) -> Result<(), AllocError>
    ensures same { IsPermutation places.old.items places.new.items }
    ensures sorted { OnOk result (AreSorted places.new.items) }
{
    if leaves <= places.len() / MANY_OF_A_LEAF {
        return places.sort();
    }
    places.sort_unstable();
    Ok(())
}

/// The number of a leaf, which is put after the others where it isn't the last.
fn number_of(leaves: &mut Vec<Leaf>, node: NodeId) -> Result<usize, AllocError>
    requires { AreUnmade leaves.old.items }
    ensures kept { OnOk result (StayMade leaves.old.items leaves.new.items) }
    ensures unmade { OnOk result (AreUnmade leaves.new.items) }
    ensures node { IfOk result (λ n. HasLeafAt leaves.new.items n node) }
{
    let count = leaves.len();
    if count > 0 && leaves[count - 1].node == node {
        return Ok(count - 1);
    }
    leaves.push(Leaf { node, list: None })?;
    Ok(count)
}
