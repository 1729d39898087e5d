// How much may be drawn, and how large a clause may be.
ghost use Rattle.si_examples.specs.Bounds.{LargestSample, NoLaterStart, NoLargerSample, LargestLiteral, NoLargerLiterals};

/// What is allowed to the last, and what goes past it.
pub fn largest_inputs()
    ensures largest_sample { LargestSample }
    ensures no_later_start { NoLaterStart }
    ensures no_larger_sample { NoLargerSample }
    ensures largest_literal { LargestLiteral }
    ensures no_larger_literals { NoLargerLiterals }
{}
