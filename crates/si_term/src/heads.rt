// The symbols that occur in a clause. Each entry begins with one, which is its head.
ghost use Rattle.std.specs.Prelude.{◌≡◌, ◌<◌, ◌++◌, Some, IsSome, IfOk, OnOk, length, map, slice_get};
ghost use Rattle.si_defs.specs.Terms.{row, head, symbols, symbols_of_all};
ghost use Rattle.si_defs.specs.Clauses.{IsSoundClause};
ghost use Rattle.si_defs.specs.Entries.{entries, entry_head, clause_symbols};
ghost use Rattle.si_term.specs.Terms.{symbol_of, term_of};
ghost use Rattle.si_term.specs.Meaning.{clause_of};

use crate::clause::Clause;
use crate::entries::entry_at;
use crate::term::{Sym, Term};
use std::alloc::{AllocError, Global};

/// The head of the entry with this number from 0: of a literal's atom, or of a subterm.
pub fn head_at(clause: &Clause, number: u32) -> &Sym
    requires sound { IsSoundClause (clause_of clause.now) }
    requires within { number < length (entries (clause_of clause.now)) }
    ensures { slice_get (map (λ p. entry_head p.entry) (entries (clause_of clause.now))) number
        ≡ Some (Some (symbol_of result.now)) }
{
    head_of(entry_at(clause, number).whole())
}

/// The symbol at the front of a term that is no variable.
fn head_of(term: &Term) -> &Sym
    requires { IsSome (head (term_of term.now)) }
    ensures { head (term_of term.now) ≡ Some (symbol_of result.now) }
{
    match term {
        Term::App(symbol, _) => symbol,
        Term::Var(_) => unreachable!(),
    }
}

/// The symbols that occur in a clause, once for each occurrence, in the order of its entries.
pub fn symbols_of<'a>(alloc: Global, clause: &'a Clause) -> Result<Vec<&'a Sym>, AllocError>
    ensures { IfOk result (λ v. map (λ s. symbol_of s.now) v.items ≡ clause_symbols
        (clause_of clause.now)) }
{
    let mut symbols = Vec::new(alloc);
    let literals = clause.literals.as_slice();
    for i in 0..literals.len() {
        list_term(&literals[i].atom, &mut symbols)?;
    }
    Ok(symbols)
}

/// Appends the symbols of a term, in preorder.
#[cycle(list)]
fn list_term<'a>(term: &'a Term, listed: &mut Vec<&'a Sym>) -> Result<(), AllocError>
    ensures { OnOk result (map (λ s. symbol_of s.now) listed.new.items ≡ map
        (λ s. symbol_of s.now) listed.old.items ++ symbols (term_of term.now)) }
{
    match term {
        Term::Var(_) => Ok(()),
        Term::App(symbol, arguments) => {
            listed.push(symbol)?;
            list_terms(arguments.as_slice(), listed)
        }
    }
}

#[cycle(list)]
fn list_terms<'a>(terms: &'a [Term], listed: &mut Vec<&'a Sym>) -> Result<(), AllocError>
    ensures { OnOk result (map (λ s. symbol_of s.now) listed.new.items ≡ map
        (λ s. symbol_of s.now) listed.old.items ++ symbols_of_all
        (row (map term_of terms.now))) }
{
    for i in 0..terms.len() {
        list_term(&terms[i], listed)?;
    }
    Ok(())
}
