// Trees that are legal, and trees that aren't.
ghost use Rattle.si_tree_examples.specs.SomeTrees.{NewTree, FiveNodes, StoredPostings, VariableLeaves, UnmergedLeaf, NothingStored, SharedLeaf, NoTurnedPostings, NoBindingRoot, NoOtherRootSplit, NoSingleChild, NoBareIndicator, NoIndicatorTwice, NoIndicatorAgain, NoForeignBinding, NoBoundSplit, NoSplitUnbound, NoEqualHeads, NoTermTwice, NoOpenLeaf, NoLaterVariable, NoLargeIndicator, NoLargeVariable, NoPostingTwice, NoForgottenChild, NoTreeWithoutRoot, NoRootWithParent, NoLeafAsRoot, NoSecondRoot, NoMissingParent, NoCircle, NoMissingChild, NoForeignChild, NoChildTwice, NoChildBelowLeaf, NoBoundTwice, NoZeroAgain, NoQueryVariable, NoSplitBoundLater, NoEqualVariables, NoTurnedVariables, NoUnsoundTerm, NoLargeTerm, NoPostingTwiceInLeaf, NoNextZero, NoManyVariables};

/// Legal trees, and what one stores.
pub fn legal_trees()
    ensures new_tree { NewTree }
    ensures five_nodes { FiveNodes }
    ensures stored_postings { StoredPostings }
    ensures variable_leaves { VariableLeaves }
    ensures unmerged_leaf { UnmergedLeaf }
    ensures nothing_stored { NothingStored }
    ensures shared_leaf { SharedLeaf }
    ensures no_turned_postings { NoTurnedPostings }
{}

/// Trees that break one rule each.
pub fn illegal_trees()
    ensures no_binding_root { NoBindingRoot }
    ensures no_other_root_split { NoOtherRootSplit }
    ensures no_single_child { NoSingleChild }
    ensures no_bare_indicator { NoBareIndicator }
    ensures no_indicator_twice { NoIndicatorTwice }
    ensures no_indicator_again { NoIndicatorAgain }
    ensures no_foreign_binding { NoForeignBinding }
    ensures no_bound_split { NoBoundSplit }
    ensures no_split_unbound { NoSplitUnbound }
    ensures no_equal_heads { NoEqualHeads }
    ensures no_term_twice { NoTermTwice }
    ensures no_open_leaf { NoOpenLeaf }
    ensures no_later_variable { NoLaterVariable }
    ensures no_large_indicator { NoLargeIndicator }
    ensures no_large_variable { NoLargeVariable }
    ensures no_posting_twice { NoPostingTwice }
    ensures no_forgotten_child { NoForgottenChild }
{}

/// Trees whose roots, parents or children break a rule.
pub fn illegal_links()
    ensures no_tree_without_root { NoTreeWithoutRoot }
    ensures no_root_with_parent { NoRootWithParent }
    ensures no_leaf_as_root { NoLeafAsRoot }
    ensures no_second_root { NoSecondRoot }
    ensures no_missing_parent { NoMissingParent }
    ensures no_circle { NoCircle }
    ensures no_missing_child { NoMissingChild }
    ensures no_foreign_child { NoForeignChild }
    ensures no_child_twice { NoChildTwice }
    ensures no_child_below_leaf { NoChildBelowLeaf }
{}

/// Trees whose bindings, leaves or bounds break a rule.
pub fn illegal_contents()
    ensures no_bound_twice { NoBoundTwice }
    ensures no_zero_again { NoZeroAgain }
    ensures no_query_variable { NoQueryVariable }
    ensures no_split_bound_later { NoSplitBoundLater }
    ensures no_equal_variables { NoEqualVariables }
    ensures no_turned_variables { NoTurnedVariables }
    ensures no_unsound_term { NoUnsoundTerm }
    ensures no_large_term { NoLargeTerm }
    ensures no_posting_twice_in_leaf { NoPostingTwiceInLeaf }
    ensures no_next_zero { NoNextZero }
    ensures no_many_variables { NoManyVariables }
{}
