// Whole runs.
ghost use Rattle.si_examples.specs.Runs.{AddedAndFound, NoOutput, NoLineNoOutput, EmptyWordEnds, EmptyWordGoesNotOn};

/// Which output some lines have.
pub fn whole_runs()
    ensures added_and_found { AddedAndFound }
    ensures no_output { NoOutput }
    ensures no_line_no_output { NoLineNoOutput }
    ensures empty_word_ends { EmptyWordEnds }
    ensures empty_word_goes_not_on { EmptyWordGoesNotOn }
{}
