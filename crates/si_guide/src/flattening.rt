// From terms to flat terms.
ghost use Rattle.std.specs.Prelude.{◌≡◌, IfOk, IfSome};
ghost use Rattle.si_defs.specs.Clauses.{IsSoundPattern};
ghost use Rattle.si_term.specs.Meaning.{entry_of, pattern_of};
ghost use Rattle.si_flat.specs.declared.Owner.TheVariants.{Query as OfQuery, Entry as OfEntry};
ghost use Rattle.si_flat.specs.Flattened.{IsSoundEntry};
ghost use Rattle.si_form.specs.Answers.{AreNumbered};
ghost use Rattle.si_guide.specs.Steps.{FlattensBoth};

use si_flat::{Flat, FlatQuery, flatten_entry, flatten_pattern};
use si_term::{Entry, Pattern, SymTable};
use std::alloc::{AllocError, Global};

/// A pattern and an entry as flat terms, by the numbers of one table.
#[derive(Drop)]
pub struct FlatPair {
    pub query: FlatQuery,
    pub entry: Flat,
}

/// The two flat terms. `None` where the table lacks a symbol of the entry.
pub fn flatten_both<T: SymTable>(
    alloc: Global,
    table: &T,
    pattern: &Pattern,
    entry: Entry<'_>,
) -> Result<Option<FlatPair>, AllocError>
    requires pattern { IsSoundPattern (pattern_of pattern.now) }
    requires entry { IsSoundEntry (entry_of entry) }
    ensures flat { IfOk result (FlattensBoth (T.pairs table.now) (pattern_of pattern.now)
        (entry_of entry.entry)) }
    ensures numbered { IfOk result (λ both. IfSome both (λ pair.
        AreNumbered OfQuery pair.query.flat × AreNumbered OfEntry pair.entry)) }
{
    let query = flatten_pattern(alloc, table, pattern)?;
    let Some(flat) = flatten_entry(alloc, table, entry)? else {
        return Ok(None);
    };
    Ok(Some(FlatPair { query, entry: flat }))
}
