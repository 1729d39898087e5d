// From bytes to a clause and a pattern.
ghost use Rattle.std.specs.Prelude.{◌≡◌, ◌≤◌, IfOk, length};
ghost use Rattle.si_defs.specs.declared.TheConstants.{MOST_BYTES};
ghost use Rattle.si_parse.specs.Reading.{ReadsPattern};
ghost use Rattle.si_parse.specs.declared.pattern.PatternKind.TheVariants.{Lit};
ghost use Rattle.si_guide.specs.Steps.{ReadsClause};

use si_parse::item::{Read, next_item};
use si_parse::pattern::{PatternKind, read_pattern};
use si_term::{Clause, Pattern};
use std::alloc::{AllocError, Global};

/// The clause at the front of a text. `None` where no clause stands there.
pub fn read_clause(alloc: Global, text: &[u8]) -> Result<Option<Clause>, AllocError>
    requires { length text.now ≤ MOST_BYTES }
    ensures { IfOk result (ReadsClause text.now) }
{
    let read = next_item(alloc, text, 0)?;
    match read {
        Read::Cnf(clause, _) => Ok(Some(clause)),
        Read::Include(..) => Ok(None),
        Read::End => Ok(None),
        Read::Syntax(_) => Ok(None),
        Read::Language(_) => Ok(None),
    }
}

/// The literal that a whole text is, as a pattern. `None` where it is none.
pub fn read_literal(alloc: Global, text: &[u8]) -> Result<Option<Pattern>, AllocError>
    requires { length text.now ≤ MOST_BYTES }
    ensures { IfOk result (ReadsPattern text.now Lit) }
{
    read_pattern(alloc, text, PatternKind::Lit)
}
