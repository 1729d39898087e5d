// How tokens are spelled.
ghost use Rattle.si_examples.specs.Spellings.{PlusZero, NoLeadingZero, LowerWord, NoCapital, QuoteInQuotes, NoEmptySingle, EmptyDouble};

/// Which bytes spell a token of a kind.
pub fn spellings_of_tokens()
    ensures plus_zero { PlusZero }
    ensures no_leading_zero { NoLeadingZero }
    ensures lower_word { LowerWord }
    ensures no_capital { NoCapital }
    ensures quote_in_quotes { QuoteInQuotes }
    ensures no_empty_single { NoEmptySingle }
    ensures empty_double { EmptyDouble }
{}
