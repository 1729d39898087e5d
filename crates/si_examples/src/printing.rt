// Printed texts.
ghost use Rattle.si_examples.specs.Printing.{EscapedName, ReadBackName, NoEmptyName, NoNeedlessQuotes, PrintedList, PrintedPlace, PrintedLiteralPlace, NoBlankInMap};

/// How names, places and lists are written.
pub fn printed_texts()
    ensures escaped_name { EscapedName }
    ensures read_back_name { ReadBackName }
    ensures no_empty_name { NoEmptyName }
    ensures no_needless_quotes { NoNeedlessQuotes }
    ensures printed_list { PrintedList }
    ensures printed_place { PrintedPlace }
    ensures printed_literal_place { PrintedLiteralPlace }
    ensures no_blank_in_map { NoBlankInMap }
{}
