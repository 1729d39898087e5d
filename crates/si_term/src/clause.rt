// Names, literals, clauses, patterns, and where entries stand.
ghost use Rattle.std.specs.Prelude.{◌≡◌};

use crate::list::Literals;
use crate::path::Path;
use crate::term::Term;
use crate::text::Text;
use si_defs::NameKind;

/// The name of a clause. `1` and `'1'` are different names; `cat` and `'cat'` are one.
#[derive(Drop)]
pub struct Name {
    pub kind: NameKind,
    pub text: Text,
}

/// An atom, or its negation.
pub struct Literal {
    pub positive: bool,
    pub atom: Term,
}

// It does what a derived one would, and is quicker to check (docs/PROVING.md, "Minutes").
impl Drop for Literal {
    fn drop(self) {
        let Literal {
            positive: _,
            atom: _atom,
        } = self;
    }
}

impl Literal {
    /// The atom alone.
    pub fn into_atom(self) -> Term
        ensures { result ≡ self.atom }
    {
        let Literal { positive: _, atom } = self;
        atom
    }
}

/// A clause of a TPTP file: a disjunction of literals, with its name and role.
#[derive(Drop)]
pub struct Clause {
    pub name: Name,
    pub role: Text,
    pub literals: Literals,
}

/// Where an entry stands in its clause: the literal's number from 1, and the path of argument
/// numbers from 1 that lead from the atom to the entry. The path of the literal itself is empty.
#[derive(Drop)]
pub struct Place {
    pub literal: u32,
    pub path: Path,
}

/// What a query looks for.
pub enum Pattern {
    Lit(Literal),
    Term(Term),
}

// It does what a derived one would, and is quicker to check (docs/PROVING.md, "Minutes").
impl Drop for Pattern {
    fn drop(self) {
        match self {
            Pattern::Lit(_literal) => {}
            Pattern::Term(_term) => {}
        }
    }
}

/// What a query looks at: a literal of a clause, or a proper subterm of its atom that is no
/// variable.
#[derive(Clone, Copy)]
pub enum Entry<'a> {
    Lit(&'a Literal),
    Sub(&'a Term),
}
