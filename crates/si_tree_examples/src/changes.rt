// What a tree gains and loses.
ghost use Rattle.si_tree_examples.specs.SomeChanges.{GainsPosting, NoGainInFront, LosesPosting, KeepsLeaf};

/// Changes of a stored set.
pub fn changed_trees()
    ensures gains_posting { GainsPosting }
    ensures no_gain_in_front { NoGainInFront }
    ensures loses_posting { LosesPosting }
    ensures keeps_leaf { KeepsLeaf }
{}
