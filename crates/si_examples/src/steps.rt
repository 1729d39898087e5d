// Lines, their replies and the state after them.
ghost use Rattle.si_examples.specs.Steps.{SilentLine, SilentComment, SilentOnly, OpenComment, UnknownWord, WordInQuotes, JoinedWord, WordAlone, OtherLanguageAdded, LanguageAlone, TooLong, TooLongBlank, NoMemoryWhereTooLong, AddedClause, TakenName, NoOtherReply, NoSecondClause, FullIndex, NoClauseTooMany, ClashingSymbol, NoClash, NoAgreement, RemovedClause, UnknownName, NoUnknownName, NothingCounted, NoneUncounted, ShownTrees, NoTreeAlone, TwoNames, RefusalBeginsSo, LateRefusal, NoRefusal, SilenceIsNoRefusal};

/// Which lines have no reply.
pub fn silent_lines()
    ensures silent_line { SilentLine }
    ensures silent_comment { SilentComment }
    ensures silent_only { SilentOnly }
    ensures open_comment { OpenComment }
{}

/// Which lines are too long.
pub fn long_lines()
    ensures too_long { TooLong }
    ensures too_long_blank { TooLongBlank }
    ensures no_memory_where_too_long { NoMemoryWhereTooLong }
{}

/// Which lines are no commands.
pub fn wrong_lines()
    ensures unknown_word { UnknownWord }
    ensures word_in_quotes { WordInQuotes }
    ensures joined_word { JoinedWord }
    ensures word_alone { WordAlone }
    ensures other_language_added { OtherLanguageAdded }
    ensures language_alone { LanguageAlone }
{}

/// Which replies an added clause has.
pub fn added_clauses()
    ensures added_clause { AddedClause }
    ensures taken_name { TakenName }
    ensures no_other_reply { NoOtherReply }
    ensures no_second_clause { NoSecondClause }
    ensures full_index { FullIndex }
    ensures no_clause_too_many { NoClauseTooMany }
    ensures clashing_symbol { ClashingSymbol }
    ensures no_clash { NoClash }
    ensures no_agreement { NoAgreement }
    ensures two_names { TwoNames }
{}

/// Which replies a removal and a count have.
pub fn removals_and_counts()
    ensures removed_clause { RemovedClause }
    ensures unknown_name { UnknownName }
    ensures no_unknown_name { NoUnknownName }
    ensures nothing_counted { NothingCounted }
    ensures none_uncounted { NoneUncounted }
{}

/// Which replies show the trees.
pub fn shown_trees()
    ensures shown_trees { ShownTrees }
    ensures no_tree_alone { NoTreeAlone }
{}

/// Which replies are refusals.
pub fn refusals()
    ensures refusal { RefusalBeginsSo }
    ensures late_refusal { LateRefusal }
    ensures no_refusal { NoRefusal }
    ensures silence_is_no_refusal { SilenceIsNoRefusal }
{}
