// Clauses that are drawn at random.
ghost use Rattle.si_examples.specs.Samples.{TwoClauses, SomeText, NoOtherText, NoOtherVariable, NoClauseZero, KeptCounted};

/// Which texts are drawn from a start.
pub fn drawn_clauses()
    ensures two_clauses { TwoClauses }
    ensures some_text { SomeText }
    ensures no_other_text { NoOtherText }
    ensures no_other_variable { NoOtherVariable }
    ensures no_clause_zero { NoClauseZero }
{}

/// How many answers there are to what was drawn.
pub fn summed_answers()
    ensures { KeptCounted }
{}
