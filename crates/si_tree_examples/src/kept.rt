// What two trees hold of clauses.
ghost use Rattle.si_tree_examples.specs.SomeKept.{OneClause, NoForgottenSubterm, NoSwappedTrees, TwoClauses, NoForgottenClause, AddsSecond, NoOtherKeyAdded, RemovesSecond, NoOtherKeyRemoved};

/// The trees of one clause, and of two.
pub fn kept_clauses()
    ensures one_clause { OneClause }
    ensures no_forgotten_subterm { NoForgottenSubterm }
    ensures no_swapped_trees { NoSwappedTrees }
    ensures two_clauses { TwoClauses }
    ensures no_forgotten_clause { NoForgottenClause }
{}

/// A clause that comes, and goes.
pub fn changed_clauses()
    ensures adds_second { AddsSecond }
    ensures no_other_key_added { NoOtherKeyAdded }
    ensures removes_second { RemovesSecond }
    ensures no_other_key_removed { NoOtherKeyRemoved }
{}
