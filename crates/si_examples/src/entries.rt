// The entries of clauses, and their places.
ghost use Rattle.si_examples.specs.Entries.{FirstEntries, SecondEntries, NoVariableEntry, NoAtomEntry};

/// Which literals and terms of a clause are looked through, in order.
pub fn entries_of_clauses()
    ensures first_entries { FirstEntries }
    ensures second_entries { SecondEntries }
    ensures no_variable_entry { NoVariableEntry }
    ensures no_atom_entry { NoAtomEntry }
{}
