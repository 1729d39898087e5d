// A posting goes with its leaf.
ghost use Rattle.si_tree_examples.specs.SomeRemovals.{ThreeNodes, JoinsLeaf, NoOtherChild, NoUncomposed, NoRootJoined, RemovesLast, LeavesLeaf, NoLeafLeft, RemovesEither, NoLeafBelowRoot};

/// Joins of an inner node with the child that is left.
pub fn joined_nodes()
    ensures three_nodes { ThreeNodes }
    ensures joins_leaf { JoinsLeaf }
    ensures no_other_child { NoOtherChild }
    ensures no_uncomposed { NoUncomposed }
    ensures no_root_joined { NoRootJoined }
{}

/// Removals of a leaf's last posting.
pub fn removed_postings()
    ensures removes_last { RemovesLast }
    ensures leaves_leaf { LeavesLeaf }
    ensures no_leaf_left { NoLeafLeft }
    ensures removes_either { RemovesEither }
    ensures no_leaf_below_root { NoLeafBelowRoot }
{}
