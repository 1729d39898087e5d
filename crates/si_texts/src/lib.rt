//! Clauses, patterns and formulas that texts are, for tests, and libraries of a few files. A text
//! that is none is answered like want of memory.
#![tactic(auto)]

ghost use Rattle.std.specs.Prelude.{IfOk};
ghost use Rattle.si_defs.specs.Clauses.{AreSoundLiterals, IsSoundClause, IsSoundPattern};
ghost use Rattle.si_parse.specs.Meaning.{literals_of};
ghost use Rattle.si_term.specs.Meaning.{clause_of, pattern_of};

use si_defs::MOST_BYTES;
use si_io::MemoryLibrary;
use si_parse::item::{Read, next_item};
use si_parse::pattern::{PatternKind, read_pattern};
use si_parse::text::read_formula;
use si_term::{Clause, Literals, Pattern};
use std::alloc::{AllocError, Global};

/// The clause at the front of a text.
pub fn clause_in(alloc: Global, text: &[u8]) -> Result<Clause, AllocError>
    ensures { IfOk result (λ c. IsSoundClause (clause_of c)) }
{
    if text.len() > MOST_BYTES {
        return Err(AllocError);
    }
    let Read::Cnf(clause, _) = next_item(alloc, text, 0)? else {
        return Err(AllocError);
    };
    Ok(clause)
}

/// The pattern that a text is.
pub fn pattern_in(alloc: Global, text: &[u8], kind: PatternKind) -> Result<Pattern, AllocError>
    ensures { IfOk result (λ p. IsSoundPattern (pattern_of p)) }
{
    if text.len() > MOST_BYTES {
        return Err(AllocError);
    }
    let Some(pattern) = read_pattern(alloc, text, kind)? else {
        return Err(AllocError);
    };
    Ok(pattern)
}

/// The literals of the formula that a text is.
pub fn formula_in(alloc: Global, text: &[u8]) -> Result<Literals, AllocError>
    ensures { IfOk result (λ ls. AreSoundLiterals (literals_of ls)) }
{
    if text.len() > MOST_BYTES {
        return Err(AllocError);
    }
    let Some(literals) = read_formula(alloc, text)? else {
        return Err(AllocError);
    };
    Ok(literals)
}

/// A library of these files, of which one fetch fails, or none at 0.
pub fn library_of(
    alloc: Global,
    files: &[(&[u8], &[u8])],
    fails_at: u32,
) -> Result<MemoryLibrary, AllocError> {
    let mut library = MemoryLibrary::new(alloc, vec![in alloc; fails_at]?);
    for (name, bytes) in files {
        library.put(name.to_vec(alloc)?, bytes.to_vec(alloc)?)?;
    }
    Ok(library)
}
