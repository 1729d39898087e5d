// What lines mean.
ghost use Rattle.si_examples.specs.Lines.{SameWord, AddedLine, CommentBehindWord, NoKindOfPattern, TreeLine, ExplainedQuery, NoTreeOfTerm, NoRelationToExplain, NoEmptySample, OwnLanguageAdded};

/// The words that commands begin with.
pub fn words()
    ensures { SameWord }
{}

/// Which lines are commands.
pub fn commands()
    ensures added_line { AddedLine }
    ensures comment_behind_word { CommentBehindWord }
    ensures no_kind_of_pattern { NoKindOfPattern }
    ensures tree_line { TreeLine }
    ensures explained_query { ExplainedQuery }
    ensures no_tree_of_term { NoTreeOfTerm }
    ensures no_relation_to_explain { NoRelationToExplain }
    ensures no_empty_sample { NoEmptySample }
    ensures own_language_added { OwnLanguageAdded }
{}
