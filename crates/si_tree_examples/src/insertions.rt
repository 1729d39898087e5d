// Terms come into a tree.
ghost use Rattle.si_tree_examples.specs.SomeInsertions.{FirstInsertion, SecondInsertion, ThirdInsertion, NoOldNext, NoEqualHead};

/// Three insertions, and the number that is next.
pub fn inserted_terms()
    ensures first_insertion { FirstInsertion }
    ensures second_insertion { SecondInsertion }
    ensures third_insertion { ThirdInsertion }
    ensures no_old_next { NoOldNext }
    ensures no_equal_head { NoEqualHead }
{}
