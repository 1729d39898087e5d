// Trees that are renumbered.
ghost use Rattle.si_tree_examples.specs.SomeNumbers.{SevenToOne, NoSevenToTwo, NoLargeNext, TwoToOne, KeepsTerms, NoNextKept};

/// What renumbering gives, and what not.
pub fn renumbered_trees()
    ensures seven_to_one { SevenToOne }
    ensures no_seven_to_two { NoSevenToTwo }
    ensures no_large_next { NoLargeNext }
    ensures two_to_one { TwoToOne }
    ensures keeps_terms { KeepsTerms }
    ensures no_next_kept { NoNextKept }
{}
