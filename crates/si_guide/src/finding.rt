// An index, and what a query finds in it.
ghost use Rattle.std.specs.Prelude.{◌≡◌, IfOk, OnErr};
ghost use Rattle.si_defs.specs.Clauses.{IsSoundClause, IsSoundPattern};
ghost use Rattle.si_term.specs.Meaning.{clause_of, pattern_of};
ghost use Rattle.si_guide.specs.Steps.{KeepsClause, ShowsFirst};

use si_defs::Relation;
use si_index::{Index, SearchMemory, Shown};
use si_sign::{AddFault, ClauseStore};
use si_term::{Clause, Pattern};
use std::alloc::AllocError;

/// Keeps a clause. `false` exactly where it is refused.
pub fn keep(index: &mut Index, clause: Clause) -> Result<bool, AllocError>
    requires { IsSoundClause (clause_of clause) }
    ensures keeps { IfOk result (KeepsClause (clause_of clause) index.old index.new) }
    ensures err { OnErr result (index.new.clauses ≡ index.old.clauses) }
    ensures rules { index.new.rules ≡ index.old.rules }
{
    match index.add(clause) {
        Ok(_) => Ok(true),
        Err(rejected) => {
            if let AddFault::Memory = rejected.why {
                return Err(AllocError);
            }
            Ok(false)
        }
    }
}

/// What is shown of the first kept entry that stands in the relation to the pattern. `None` where
/// none does. The memory is lent from question to question.
pub fn first_shown(
    index: &Index,
    memory: &mut SearchMemory,
    relation: Relation,
    pattern: &Pattern,
) -> Result<Option<Shown>, AllocError>
    requires { IsSoundPattern (pattern_of pattern.now) }
    ensures { IfOk result (ShowsFirst index.now relation (pattern_of pattern.now)) }
{
    let found = index.find(memory, index.trees(), relation, pattern)?;
    if found.len() == 0 {
        return Ok(None);
    }
    let shown = found.shown(0)?;
    Ok(Some(shown))
}
