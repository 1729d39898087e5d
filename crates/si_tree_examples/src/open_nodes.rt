// Open and closed nodes.
ghost use Rattle.si_tree_examples.specs.SomeOpenNodes.{OpenForInstances, ConstantVariable, OnlyGeneralization, OpenForVariants, NoTwoForOne, ClosedByHead, FourOpen, NoOtherCount, RootOpen, OpenAbove, LeavesRelate};

/// Which terms of paths are open for a query.
pub fn open_paths()
    ensures open_for_instances { OpenForInstances }
    ensures constant_variable { ConstantVariable }
    ensures only_generalization { OnlyGeneralization }
    ensures open_for_variants { OpenForVariants }
    ensures no_two_for_one { NoTwoForOne }
    ensures closed_by_head { ClosedByHead }
{}

/// How many nodes are open.
pub fn counted_nodes()
    ensures four_open { FourOpen }
    ensures no_other_count { NoOtherCount }
{}

/// Which nodes of a legal tree are open, whatever the tree and the query: the root, all that stand
/// above an open one, and those leaves whose terms stand in the relation to the query.
pub fn nodes_of_each_tree()
    ensures root_open { RootOpen }
    ensures open_above { OpenAbove }
    ensures leaves_relate { LeavesRelate }
{}
