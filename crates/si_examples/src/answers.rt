// The answer to a pattern, over one clause.
ghost use Rattle.si_examples.specs.Answers.{OneHit, AnsweredPattern, ExplainedPattern, NoAnswerUnreported, NoHitLeftOut, NoHitTwice, NoGeneralization, NoLiteralOfTerm};

/// Which entries are answered, each once, with which list.
pub fn answers_to_patterns()
    ensures one_hit { OneHit }
    ensures answered_pattern { AnsweredPattern }
    ensures explained_pattern { ExplainedPattern }
    ensures no_answer_unreported { NoAnswerUnreported }
    ensures no_hit_left_out { NoHitLeftOut }
    ensures no_hit_twice { NoHitTwice }
    ensures no_generalization { NoGeneralization }
    ensures no_literal_of_term { NoLiteralOfTerm }
{}
