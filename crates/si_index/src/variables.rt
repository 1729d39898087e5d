// The names of an entry's variables.
ghost use Rattle.std.specs.Prelude.{◌≡◌, IfOk, OnOk, IsTrue, bytes_eq, map};
ghost use Rattle.std.specs.List.{list_any};
ghost use Rattle.indexmap.specs.IndexSet.{insert_all, insert_key};
ghost use Rattle.si_defs.specs.Terms.{row, variables, variables_of_all};
ghost use Rattle.si_defs.specs.Entries.{distinct_variables};
ghost use Rattle.si_term.specs.Terms.{term_of};
ghost use Rattle.si_term.specs.Meaning.{entry_of};
ghost use Rattle.si_index.specs.Searching.{numbers_of, IsKnownEntry};

use crate::search::{Search, Workspace};
use si_term::{Entry, Term};
use smallvec::SmallVec;
use std::alloc::AllocError;

/// The names of an entry's variables, each once, in the order of their first occurrence. A few take
/// no memory of their own.
pub(crate) type EntryNames<'a> = SmallVec<&'a [u8], 4>;

/// How many names are compared one by one.
const FEW: usize = 8;

impl<'a> Search<'a> {
    /// The names of an entry's variables. One with more than a few is made flat for them.
    pub(crate) fn names(
        &self,
        workspace: &mut Workspace<'a>,
        entry: Entry<'a>,
    ) -> Result<EntryNames<'a>, AllocError>
        requires { IsKnownEntry (numbers_of self.now) (entry_of entry) }
        ensures { IfOk result (λ names. map (λ name. name.now) names.items
            ≡ distinct_variables (entry_of entry.entry)) }
    {
        workspace.met.clear();
        if meet_term(entry.whole(), &mut workspace.met)? {
            return SmallVec::from_slice(self.alloc, workspace.met.as_slice());
        }
        if !workspace.buffer.fill(self.signature, entry)? {
            unreachable!()
        }
        SmallVec::from_slice(self.alloc, workspace.buffer.names())
    }
}

/// Puts the variables of a term after those that were met, each once. `false` where there are more
/// than a few.
#[cycle(meeting)]
fn meet_term<'a>(term: &'a Term, met: &mut Vec<&'a [u8]>) -> Result<bool, AllocError>
    ensures { IfOk result (λ all. IsTrue all → map (λ name. name.now) met.new.items
        ≡ insert_all bytes_eq (map (λ name. name.now) met.old.items)
        (variables (term_of term.now))) }
{
    match term {
        Term::Var(name) => meet(name.as_bytes(), met),
        Term::App(_, arguments) => meet_all(arguments.as_slice(), met),
    }
}

#[cycle(meeting)]
fn meet_all<'a>(terms: &'a [Term], met: &mut Vec<&'a [u8]>) -> Result<bool, AllocError>
    ensures { IfOk result (λ all. IsTrue all → map (λ name. name.now) met.new.items
        ≡ insert_all bytes_eq (map (λ name. name.now) met.old.items)
        (variables_of_all (row (map term_of terms.now)))) }
{
    for i in 0..terms.len() {
        if !meet_term(&terms[i], met)? {
            return Ok(false);
        }
    }
    Ok(true)
}

/// Puts a name after those that were met, where it isn't among them. `false` where it would be one
/// too many.
fn meet<'a>(name: &'a [u8], met: &mut Vec<&'a [u8]>) -> Result<bool, AllocError>
    ensures { IfOk result (λ all. IsTrue all → map (λ name. name.now) met.new.items
        ≡ insert_key bytes_eq (map (λ name. name.now) met.old.items) name.now) }
{
    if is_met(name, met.as_slice()) {
        return Ok(true);
    }
    if met.len() == FEW {
        return Ok(false);
    }
    met.push(name)?;
    Ok(true)
}

/// Whether a name is among those that were met.
fn is_met(name: &[u8], met: &[&[u8]]) -> bool
    ensures { result ≡ list_any (λ other. bytes_eq name.now other.now) met.now }
{
    for i in 0..met.len() {
        if name == met[i] {
            return true;
        }
    }
    false
}
