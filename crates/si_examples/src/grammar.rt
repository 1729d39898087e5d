// What tokens spell.
ghost use Rattle.si_examples.specs.Grammar.{FirstClause, NoEmptyFormula, NoTildeAlone, NoOpenBracket, SelectedInclude, NoEmptySelection, NoEmptyClause, NoVariableAtom, NegatedLiteral, NoDoubleSign, Inequation, NoUnequalAtom, QuotedWord, DistinctObject, NoDistinctWord, NoDistinctFunction, QuotedName, NoQuotedInteger, BalancedExtra, CrossedBrackets, NestingOfTwo, BracketedFormula, DeepestNesting, NoDeeperNesting};

/// Which tokens are an item.
pub fn items()
    ensures first_clause { FirstClause }
    ensures no_empty_formula { NoEmptyFormula }
    ensures no_tilde_alone { NoTildeAlone }
    ensures no_open_bracket { NoOpenBracket }
    ensures selected_include { SelectedInclude }
    ensures no_empty_selection { NoEmptySelection }
{}

/// Which tokens are a literal, and which are annotations.
pub fn parts_of_clauses()
    ensures no_empty_clause { NoEmptyClause }
    ensures no_variable_atom { NoVariableAtom }
    ensures negated_literal { NegatedLiteral }
    ensures no_double_sign { NoDoubleSign }
    ensures inequation { Inequation }
    ensures no_unequal_atom { NoUnequalAtom }
    ensures balanced_extra { BalancedExtra }
    ensures crossed_brackets { CrossedBrackets }
{}

/// Which tokens are a symbol or a name.
pub fn symbols_and_names()
    ensures quoted_word { QuotedWord }
    ensures distinct_object { DistinctObject }
    ensures no_distinct_word { NoDistinctWord }
    ensures no_distinct_function { NoDistinctFunction }
    ensures quoted_name { QuotedName }
    ensures no_quoted_integer { NoQuotedInteger }
{}

/// How deep brackets nest.
pub fn nestings()
    ensures nesting_of_two { NestingOfTwo }
    ensures bracketed_formula { BracketedFormula }
    ensures deepest_nesting { DeepestNesting }
    ensures no_deeper_nesting { NoDeeperNesting }
{}
