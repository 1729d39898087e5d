// Equal values in memory of their own.
ghost use Rattle.std.specs.Prelude.{◌≡◌, IfOk, map};
ghost use Rattle.si_defs.specs.Entries.{pattern_entry};
ghost use Rattle.si_term.specs.Terms.{term_of};
ghost use Rattle.si_term.specs.Meaning.{literal_of, clause_of, pattern_of, entry_of};

use crate::clause::{Clause, Entry, Literal, Name, Pattern};
use crate::list::{Literals, Texts};
use crate::term::{Sym, Term, Terms};
use crate::text::Text;
use std::alloc::{AllocError, Global};

/// A pattern that looks for what the entry is, in memory of its own.
pub fn to_pattern(alloc: Global, entry: Entry<'_>) -> Result<Pattern, AllocError>
    ensures { IfOk result (λ p. pattern_entry (pattern_of p) ≡ entry_of entry.entry) }
{
    match entry {
        Entry::Lit(literal) => Ok(Pattern::Lit(literal.copy(alloc)?)),
        Entry::Sub(term) => Ok(Pattern::Term(copy_term(alloc, term)?)),
    }
}

/// Equal texts.
pub fn copy_texts(alloc: Global, texts: &[&[u8]]) -> Result<Texts, AllocError>
    ensures { IfOk result (λ copies. copies ≡ map (λ t. t.now) texts.now) }
{
    let mut copies = Texts::with_capacity(alloc, texts.len())?;
    for text in texts {
        copies.push(Text::from_bytes(alloc, *text)?)?;
    }
    Ok(copies)
}

impl Text {
    /// An equal text.
    pub fn copy(&self, alloc: Global) -> Result<Text, AllocError>
        ensures { IfOk result (λ t. t ≡ self.now) }
    {
        Text::from_bytes(alloc, self.as_bytes())
    }
}

impl Texts {
    /// Equal texts.
    pub fn copy(&self, alloc: Global) -> Result<Texts, AllocError>
        ensures { IfOk result (λ texts. texts ≡ self.now) }
    {
        let mut copies = Texts::with_capacity(alloc, self.len())?;
        for text in self.as_slice() {
            copies.push(text.copy(alloc)?)?;
        }
        Ok(copies)
    }
}

impl Name {
    /// An equal name.
    pub fn copy(&self, alloc: Global) -> Result<Name, AllocError>
        ensures { IfOk result (λ n. n ≡ self.now) }
    {
        Ok(Name {
            kind: self.kind,
            text: self.text.copy(alloc)?,
        })
    }
}

impl Sym {
    /// An equal symbol.
    pub fn copy(&self, alloc: Global) -> Result<Sym, AllocError>
        ensures { IfOk result (λ s. s ≡ self.now) }
    {
        Ok(Sym {
            text: self.text.copy(alloc)?,
            arity: self.arity,
            kind: self.kind,
            side: self.side,
        })
    }
}

impl Literal {
    /// An equal literal.
    pub fn copy(&self, alloc: Global) -> Result<Literal, AllocError>
        ensures { IfOk result (λ l. literal_of l ≡ literal_of self.now) }
    {
        Ok(Literal {
            positive: self.positive,
            atom: copy_term(alloc, &self.atom)?,
        })
    }
}

impl Clause {
    /// An equal clause.
    pub fn copy(&self, alloc: Global) -> Result<Clause, AllocError>
        ensures { IfOk result (λ c. clause_of c ≡ clause_of self.now) }
    {
        Ok(Clause {
            name: self.name.copy(alloc)?,
            role: self.role.copy(alloc)?,
            literals: copy_literals(alloc, self.literals.as_slice())?,
        })
    }
}

fn copy_literals(alloc: Global, literals: &[Literal]) -> Result<Literals, AllocError>
    ensures { IfOk result (λ ls. map literal_of ls ≡ map literal_of literals.now) }
{
    let mut copies = Literals::with_capacity(alloc, literals.len())?;
    for i in 0..literals.len() {
        copies.push(literals[i].copy(alloc)?)?;
    }
    Ok(copies)
}

/// An equal term.
#[cycle(copy)]
fn copy_term(alloc: Global, term: &Term) -> Result<Term, AllocError>
    ensures { IfOk result (λ t. term_of t ≡ term_of term.now) }
{
    match term {
        Term::Var(name) => Ok(Term::Var(name.copy(alloc)?)),
        Term::App(symbol, arguments) => Ok(Term::App(
            symbol.copy(alloc)?,
            copy_terms(alloc, arguments.as_slice())?,
        )),
    }
}

/// Equal terms. One to three take one block; an empty list takes none.
#[cycle(copy)]
fn copy_terms(alloc: Global, terms: &[Term]) -> Result<Terms, AllocError>
    ensures { IfOk result (λ ts. ts ≡ map term_of terms.now) }
{
    match terms {
        [] => Ok(Terms::new(alloc)),
        [one] => Terms::one(alloc, copy_term(alloc, one)?),
        [left, right] => {
            let left = copy_term(alloc, left)?;
            Terms::pair(alloc, left, copy_term(alloc, right)?)
        }
        [first, second, third] => {
            let first = copy_term(alloc, first)?;
            let second = copy_term(alloc, second)?;
            Terms::three(alloc, first, second, copy_term(alloc, third)?)
        }
        _ => copy_many(alloc, terms),
    }
}

/// The same of any number of terms, in a list with as much room as they take.
#[cycle(copy)]
fn copy_many(alloc: Global, terms: &[Term]) -> Result<Terms, AllocError>
    ensures { IfOk result (λ ts. ts ≡ map term_of terms.now) }
{
    let mut copies = Terms::with_capacity(alloc, terms.len())?;
    for i in 0..terms.len() {
        copies.push(copy_term(alloc, &terms[i])?)?;
    }
    Ok(copies)
}
