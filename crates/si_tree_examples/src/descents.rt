// What a search answers.
ghost use Rattle.si_tree_examples.specs.SomeDescents.{AnswersInstance, NoLeafElsewhere};

/// The answers of the search of a subtree.
pub fn answered_postings()
    ensures answers_instance { AnswersInstance }
    ensures no_leaf_elsewhere { NoLeafElsewhere }
{}
