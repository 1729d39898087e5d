// A list as text.
ghost use Rattle.std.specs.Prelude.{◌≡◌};
ghost use Rattle.si_defs.specs.Clauses as defs;
ghost use Rattle.si_defs.specs.Entries as entries;
ghost use Rattle.si_defs.specs.Printing.{solution_text};
ghost use Rattle.si_defs.specs.Variables.{variable_text};
ghost use Rattle.si_defs.specs.declared.Relation as relations;
ghost use Rattle.si_io.specs.Sends.{Sends};
ghost use Rattle.si_index.specs.Showing.{ShowsEntry};

use si_index::{Index, Shown};
use si_io::{Failed, Sink};
use si_reply::{Naming, put_solution};

/// Writes the canonical list of what an index showed.
pub fn print_shown<K: Sink>(sink: &mut K, index: &Index, shown: &Shown) -> Result<(), Failed>
    requires shown { (relation : relations.Relation) × (p : defs.Pattern) × (e : entries.Entry)
        × ShowsEntry index.now.numbers relation p e shown.now }
    ensures { (relation : relations.Relation) (p : defs.Pattern) (e : entries.Entry)
        (shows : ShowsEntry index.now.numbers relation p e shown.now)
        → Sends result (solution_text variable_text shows.solution)
        (K.shown sink.old) (K.shown sink.new) }
{
    let naming = Naming {
        table: index.signature(),
        extra: &shown.extra,
        query_names: &shown.query_names,
        entry_names: &shown.entry_names,
    };
    put_solution(sink, &naming, &shown.solution)
}
