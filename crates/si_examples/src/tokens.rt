// How texts are cut into blanks and tokens.
ghost use Rattle.si_examples.specs.Tokens.{ShortestComment, UnclosedComment, LastLineComment, WordIsNoBlank, TwoIntegers, NoOneInteger, SignedInteger, WordAndVariable, NoPartOfWord, NoTokenAtComment};

/// Which texts are blanks.
pub fn blanks()
    ensures shortest_comment { ShortestComment }
    ensures unclosed_comment { UnclosedComment }
    ensures last_line_comment { LastLineComment }
    ensures word_is_no_blank { WordIsNoBlank }
{}

/// Which tokens a text consists of, each the longest at its place.
pub fn tokens_of_texts()
    ensures two_integers { TwoIntegers }
    ensures no_one_integer { NoOneInteger }
    ensures signed_integer { SignedInteger }
    ensures word_and_variable { WordAndVariable }
    ensures no_part_of_word { NoPartOfWord }
    ensures no_token_at_comment { NoTokenAtComment }
{}
