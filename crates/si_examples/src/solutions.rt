// Solution lists.
ghost use Rattle.si_examples.specs.Solutions.{Chain, NoCircle, NoWayBack, NoTwice, CanonicalList, NoOtherOrder, NoneLeftOut, NoFoldedList, EmptyList};

/// Which lists of bindings are triangular.
pub fn triangular_lists()
    ensures chain { Chain }
    ensures no_circle { NoCircle }
    ensures no_way_back { NoWayBack }
    ensures no_twice { NoTwice }
{}

/// Which list is the one of an instance.
pub fn canonical_lists()
    ensures canonical_list { CanonicalList }
    ensures no_other_order { NoOtherOrder }
    ensures none_left_out { NoneLeftOut }
    ensures no_folded_list { NoFoldedList }
    ensures empty_list { EmptyList }
{}
