// Worked examples of rows, and of terms with like symbols.
ghost use Rattle.si_screen.specs.Examples.{HeadsOfNegation, HeadsOfTwo, HeadsOfLacked, SameBit, NoBit, LackingBit, StrayBit, LikeBelowAVariable, UnlikeAtAVariable, UnlikeAtAnArgument};

/// The numbers of the heads of some clauses, and rows that are theirs or aren't.
pub fn rows_of_clauses()
    ensures heads_of_negation { HeadsOfNegation }
    ensures heads_of_two { HeadsOfTwo }
    ensures heads_of_lacked { HeadsOfLacked }
    ensures same_bit { SameBit }
    ensures no_bit { NoBit }
    ensures lacking_bit { LackingBit }
    ensures stray_bit { StrayBit }
{}

/// Terms that are like others, or aren't.
pub fn likeness_of_terms()
    ensures below_a_variable { LikeBelowAVariable }
    ensures at_a_variable { UnlikeAtAVariable }
    ensures at_an_argument { UnlikeAtAnArgument }
{}
