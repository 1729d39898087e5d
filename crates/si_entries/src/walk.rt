// A walk through the entries of a clause.
ghost use Rattle.std.specs.Prelude.{◌≡◌, ◌≤◌, [], IfOk, OnOk, IfSome, IfNone, map};
ghost use Rattle.si_defs.specs.Terms.{row, sizes, arguments};
ghost use Rattle.si_defs.specs.Clauses.{literals_size};
ghost use Rattle.si_defs.specs.Entries.{entries};
ghost use Rattle.si_defs.specs.declared.TheConstants.{MOST_OCCURRENCES};
ghost use Rattle.si_term.specs.Terms.{term_of};
ghost use Rattle.si_term.specs.Meaning.{clause_of, literal_of, place_of};
ghost use Rattle.si_entries.specs.Walks.{IsSmall, HasSameLiterals, PassesTerm, EntersArguments, GivesEntry, GivesAfter, GivesTerm, left_in_literal, left_of, last_place, weight};

use si_term::{Clause, Entry, Literal, Path, Place, Term};
use std::alloc::{AllocError, Global};

/// The arguments of a term that are left, and how many were passed.
#[derive(Drop)]
struct Row<'a> {
    left: &'a [Term],
    passed: u32,
}

/// A walk through the entries of a clause, in their order. It takes memory for the terms that lead
/// to where it stands.
#[derive(Drop)]
pub struct Entries<'a> {
    alloc: Global,
    literals: &'a [Literal],
    // The number of the literal that it is in, from 1.
    literal: u32,
    // The arguments of the terms around, the outermost first.
    around: Vec<Row<'a>>,
    // The innermost arguments.
    row: Row<'a>,
}

impl<'a> Entries<'a> {
    /// All entries of a clause are left.
    pub fn new(alloc: Global, clause: &'a Clause) -> Entries<'a>
        requires { literals_size (clause_of clause.now).literals ≤ MOST_OCCURRENCES }
        ensures small { IsSmall result }
        ensures left { left_of result ≡ entries (clause_of clause.now) }
    {
        Entries {
            alloc,
            literals: clause.literals.as_slice(),
            literal: 0,
            around: Vec::new(alloc),
            row: Row {
                left: &[],
                passed: 0,
            },
        }
    }

    /// The next entry; `None` at the end. After an error the walk is of no use.
    pub fn next(&mut self) -> Result<Option<Entry<'a>>, AllocError>
        requires { IsSmall self.old }
        ensures small { OnOk result (IsSmall self.new) }
        ensures next { IfOk result (GivesEntry self.old self.new) }
    {
        match self.next_term()? {
            Some(term) => Ok(Some(Entry::Sub(term))),
            None => Ok(self.next_literal()),
        }
    }

    /// Passes so many entries, and gives the one after them; `None` where there is none. After an
    /// error the walk is of no use.
    pub fn nth(&mut self, count: u32) -> Result<Option<Entry<'a>>, AllocError>
        requires { IsSmall self.old }
        ensures small { OnOk result (IsSmall self.new) }
        ensures nth { IfOk result (GivesAfter count self.old self.new) }
    {
        for _ in 0..count {
            let Some(_) = self.next()? else {
                return Ok(None);
            };
        }
        self.next()
    }

    /// The place of the entry that was given last.
    pub fn place(&self) -> Result<Place, AllocError>
        ensures { IfOk result (λ place. place_of place ≡ last_place self.now) }
    {
        let mut path = Path::new(self.alloc);
        for row in self.around.iter() {
            path.push(row.passed)?;
        }
        Ok(Place {
            literal: self.literal,
            path,
        })
    }
}

impl<'a> Entries<'a> {
    /// The next subterm in the literal; `None` where none is left.
    fn next_term(&mut self) -> Result<Option<&'a Term>, AllocError>
        requires { IsSmall self.old }
        ensures small { OnOk result (IsSmall self.new) }
        ensures same { OnOk result (HasSameLiterals self.old self.new) }
        ensures next { IfOk result (GivesTerm self.old self.new) }
    {
        while let Some(term) = self.pass() {
            if let Term::App(_, arguments) = term {
                self.descend(arguments.as_slice())?;
                return Ok(Some(term));
            }
        }
        Ok(None)
    }

    /// The next argument, a variable too; `None` where none is left in the literal.
    fn pass(&mut self) -> Option<&'a Term>
        requires { IsSmall self.old }
        ensures small { IsSmall self.new }
        ensures same { HasSameLiterals self.old self.new }
        ensures some { IfSome result (λ term. PassesTerm (term_of term.now) self.old self.new) }
        ensures none { IfNone result
            (left_in_literal self.old ≡ [] × left_in_literal self.new ≡ []) }
    {
        self.climb();
        let (term, left) = self.row.left.split_first()?;
        self.row.left = left;
        self.row.passed += 1;
        Some(term)
    }

    /// Leaves the arguments of which none is left.
    fn climb(&mut self)
        requires { IsSmall self.old }
        ensures small { IsSmall self.new }
        ensures same { HasSameLiterals self.old self.new }
        ensures inside { left_in_literal self.new ≡ left_in_literal self.old }
        ensures lighter { weight self.new ≤ weight self.old }
        ensures top { self.new.row.left.now ≡ [] → self.new.around.items ≡ [] }
    {
        while self.row.left.is_empty() {
            let Some(row) = self.around.pop() else {
                return;
            };
            self.row = row;
        }
    }

    /// Goes into the arguments of the term that was passed last.
    fn descend(&mut self, arguments: &'a [Term]) -> Result<(), AllocError>
        requires small { IsSmall self.old }
        requires few { sizes (row (map term_of arguments.now)) ≤ MOST_OCCURRENCES }
        ensures small { OnOk result (IsSmall self.new) }
        ensures descends { OnOk result (EntersArguments arguments.now self.old self.new) }
    {
        let row = Row {
            left: arguments,
            passed: 0,
        };
        let outer = std::mem::replace(&mut self.row, row);
        self.around.push(outer)?;
        Ok(())
    }

    /// The next literal; `None` at the end.
    fn next_literal(&mut self) -> Option<Entry<'a>>
        requires small { IsSmall self.old }
        requires done { left_in_literal self.old ≡ [] }
        ensures small { IsSmall self.new }
        ensures next { GivesEntry self.old self.new result }
    {
        let (literal, others) = self.literals.split_first()?;
        self.literals = others;
        self.literal += 1;
        self.around.clear();
        self.row = Row {
            left: arguments_of(literal),
            passed: 0,
        };
        Some(Entry::Lit(literal))
    }
}

/// The arguments of a literal's atom.
fn arguments_of(literal: &Literal) -> &[Term]
    ensures { row (map term_of result.now) ≡ arguments (literal_of literal.now).atom }
{
    match &literal.atom {
        Term::App(_, arguments) => arguments.as_slice(),
        Term::Var(_) => &[],
    }
}
