// What texts begin with, and where.
ghost use Rattle.si_examples.specs.Texts.{ThirdLine, FirstLine, OtherLanguage, OwnLanguage, NoForeignItem, DeepestText, NoDeeperText};

/// The line of a place, by the bytes before it.
pub fn places_in_texts()
    ensures third_line { ThirdLine }
    ensures first_line { FirstLine }
{}

/// Which texts begin with an item, and which with a formula of another language.
pub fn items_of_texts()
    ensures other_language { OtherLanguage }
    ensures own_language { OwnLanguage }
    ensures no_foreign_item { NoForeignItem }
{}

/// How deep the brackets of a text nest.
pub fn nested_texts()
    ensures deepest_text { DeepestText }
    ensures no_deeper_text { NoDeeperText }
{}
