// Common parts of two lists of bindings.
ghost use Rattle.si_tree_examples.specs.SomeSplits.{FreshIndicator, KeptIndicator, WholeRightSide, NoGeneralPart, NoOtherOrder, NoLowIndicator, NoSwappedRests, ComposedBindings};

/// What two lists have in common, and what is left of each.
pub fn split_bindings()
    ensures fresh_indicator { FreshIndicator }
    ensures kept_indicator { KeptIndicator }
    ensures whole_right_side { WholeRightSide }
    ensures composed_bindings { ComposedBindings }
{}

/// What is no common part, or no rest.
pub fn wrong_splits()
    ensures no_general_part { NoGeneralPart }
    ensures no_other_order { NoOtherOrder }
    ensures no_low_indicator { NoLowIndicator }
    ensures no_swapped_rests { NoSwappedRests }
{}
