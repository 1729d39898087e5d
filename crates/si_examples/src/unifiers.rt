// The canonical list of a unification.
ghost use Rattle.si_examples.specs.Unifiers.{FirstVariableLeads, SecondVariableFollows, NoEmptyList, BoundToTerm, NoListOfCycle, EqualVariables, NoTermTwice, NoPartForVariable};

/// Which list is the one of two variables.
pub fn canonical_lists_of_variables()
    ensures first_variable_leads { FirstVariableLeads }
    ensures second_variable_follows { SecondVariableFollows }
    ensures no_empty_list { NoEmptyList }
{}

/// Which list is the one of two unifiable terms.
pub fn canonical_unifiers()
    ensures bound_to_term { BoundToTerm }
    ensures no_list_of_cycle { NoListOfCycle }
    ensures equal_variables { EqualVariables }
    ensures no_term_twice { NoTermTwice }
    ensures no_part_for_variable { NoPartForVariable }
{}
