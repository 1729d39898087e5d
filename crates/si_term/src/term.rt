// Symbols and terms.
ghost use Rattle.std.specs.Prelude.{◌≡◌, ◌+◌, ◌<◌, ◌≤◌, [], ◌∷◌, ◌++◌, IfOk, OnOk, OnErr, Some, length, slice_get, map, vec_capacity};
ghost use Rattle.si_defs.specs.Symbols.{same_symbol};
ghost use Rattle.si_term.specs.Terms.{symbol_of, terms_in, HasFew};

use crate::text::Text;
use si_defs::{Side, SymKind};
use std::alloc::{AllocError, Global};
use std::marker::Model;
use std::mem::replace;

// A list of more than three terms has room for so many at first.
const FIRST_ROOM: usize = 4;

/// A symbol: a function, a predicate or a constant. Two are the same where all four parts are. The
/// fields lie in this order, so that small ones share the room after a large one.
#[derive(Drop)]
pub struct Sym {
    pub text: Text,
    pub arity: u32,
    pub kind: SymKind,
    pub side: Side,
}

/// A first-order term: a variable by its name, or a symbol with its arguments.
#[derive(Drop)]
#[cycle(term)]
pub enum Term {
    Var(Text),
    App(Sym, Terms),
}

/// A list of terms, in 16 bytes.
#[derive(Drop)]
#[cycle(term)]
pub struct Terms {
    alloc: Global,
    row: Row,
}

// Where terms stand: up to three, as most symbols have, in one block without room for more.
#[derive(Drop)]
#[cycle(term)]
enum Row {
    Empty,
    One(Box<[Term; 1]>),
    Pair(Box<[Term; 2]>),
    Three(Box<[Term; 3]>),
    Many(Box<Vec<Term>>),
}

impl Row {
    // The terms in order.
    fn as_slice(&self) -> &[Term]
        ensures { result.now ≡ terms_in self.now }
    {
        match self {
            Row::Empty => Default::default(),
            Row::One(terms) => &terms[..],
            Row::Pair(terms) => &terms[..],
            Row::Three(terms) => &terms[..],
            Row::Many(terms) => terms.as_slice(),
        }
    }

    // Appends a term. Three and fewer go to a list that grows first.
    fn push(&mut self, alloc: Global, term: Term) -> Result<(), AllocError>
        ensures ok { OnOk result (terms_in self.new ≡ terms_in self.old ++ term ∷ []) }
        ensures err { OnErr result (terms_in self.new ≡ terms_in self.old) }
    {
        if let Row::Many(terms) = self {
            terms.push(term)?;
            return Ok(());
        }
        let mut many = Box::new(alloc, Vec::with_capacity(alloc, FIRST_ROOM)?)?;
        let few = replace(self, Row::Empty);
        let terms = &mut *many;
        few.move_into(terms);
        terms.push_reserved(term);
        *self = Row::Many(many);
        Ok(())
    }

    // Appends the terms, three at most, to a list that has room for them.
    fn move_into(self, terms: &mut Vec<Term>)
        requires few { HasFew self }
        requires room { length terms.old.items + 3 ≤ vec_capacity terms.old }
        ensures items { terms.new.items ≡ terms.old.items ++ terms_in self }
        ensures most { length terms.new.items ≤ length terms.old.items + 3 }
        ensures room { vec_capacity terms.new ≡ vec_capacity terms.old }
    {
        match self {
            Row::Empty => {}
            Row::One(few) => {
                let [first] = Box::into_inner(few);
                terms.push_reserved(first);
            }
            Row::Pair(few) => {
                let [first, second] = Box::into_inner(few);
                terms.push_reserved(first);
                terms.push_reserved(second);
            }
            Row::Three(few) => {
                let [first, second, third] = Box::into_inner(few);
                terms.push_reserved(first);
                terms.push_reserved(second);
                terms.push_reserved(third);
            }
            Row::Many(_) => unreachable!(),
        }
    }

    // Gives back the room that no term stands in, as far as there is memory for that.
    fn shrink(&mut self)
        ensures { terms_in self.new ≡ terms_in self.old }
    {
        if let Row::Many(terms) = self {
            terms.shrink_to_fit();
        }
    }
}

impl Sym {
    /// Whether two symbols are equal. It is inlined into the walks over terms.
    #[inline(always)]
    pub fn is(&self, other: &Sym) -> bool
        ensures { result ≡ same_symbol (symbol_of self.now) (symbol_of other.now) }
    {
        self.kind == other.kind
            && self.side == other.side
            && self.arity == other.arity
            && self.text.as_bytes() == other.text.as_bytes()
    }
}

impl Model for Terms {
    ghost use Rattle.std.specs.Prelude.{List, ℕ, map};
    ghost use Rattle.std.specs.Coded.{coded_list, coded_ℕ};
    ghost use Rattle.si_defs.specs.Terms as terms;
    ghost use Rattle.si_defs.specs.Symbols.{Symbol};
    ghost use Rattle.si_defs.specs.Codes as codes;

    ghost Value = { List (terms.Term Symbol (List ℕ)) };

    ghost coded = { coded_list (codes.coded_term codes.symbol_code (coded_list coded_ℕ)) };

    ghost use Rattle.si_term.specs.Terms.{term_of, terms_in};

    ghost view = { λ a. map term_of (terms_in a.row) };

    ghost size = { λ ts. terms.sizes (terms.row ts) };

    ghost use Rattle.si_term.specs.Depths.{deepest};

    ghost size_decreases = { λ a h. deepest a.row };
}

impl Terms {
    ghost use Rattle.si_term.specs.Terms.{term_of};

    /// The empty list.
    pub fn new(alloc: Global) -> Terms
        ensures { result ≡ [] }
    {
        Terms {
            alloc,
            row: Row::Empty,
        }
    }

    /// The empty list, with room for as many terms and no more.
    pub fn with_capacity(alloc: Global, capacity: usize) -> Result<Terms, AllocError>
        ensures { IfOk result (λ ts. ts ≡ []) }
    {
        let terms = Vec::with_capacity(alloc, capacity)?;
        Ok(Terms {
            alloc,
            row: Row::Many(Box::new(alloc, terms)?),
        })
    }

    /// One term, without room for more.
    #[inline(always)]
    pub fn one(alloc: Global, term: Term) -> Result<Terms, AllocError>
        ensures { IfOk result (λ ts. ts ≡ term_of term ∷ []) }
    {
        Ok(Terms {
            alloc,
            row: Row::One(Box::new(alloc, [term])?),
        })
    }

    /// Two terms, without room for more.
    #[inline(always)]
    pub fn pair(alloc: Global, left: Term, right: Term) -> Result<Terms, AllocError>
        ensures { IfOk result (λ ts. ts ≡ term_of left ∷ term_of right ∷ []) }
    {
        Ok(Terms {
            alloc,
            row: Row::Pair(Box::new(alloc, [left, right])?),
        })
    }

    /// Three terms, without room for more.
    #[inline(always)]
    pub fn three(alloc: Global, first: Term, second: Term, third: Term) -> Result<Terms, AllocError>
        ensures { IfOk result (λ ts. ts ≡ term_of first ∷ term_of second ∷ term_of third ∷ []) }
    {
        Ok(Terms {
            alloc,
            row: Row::Three(Box::new(alloc, [first, second, third])?),
        })
    }

    /// Gives back the room that no term stands in, as far as there is memory for that.
    pub fn shrink(&mut self)
        ensures { self.new ≡ self.old }
    {
        self.row.shrink();
    }

    /// Appends a term.
    pub fn push(&mut self, item: Term) -> Result<(), AllocError>
        ensures ok { OnOk result (self.new ≡ self.old ++ term_of item ∷ []) }
        ensures err { OnErr result (self.new ≡ self.old) }
    {
        self.row.push(self.alloc, item)
    }

    /// The number of terms.
    pub fn len(&self) -> usize
        ensures { result ≡ length self.now }
    {
        self.as_slice().len()
    }

    /// The term with this number from 0.
    pub fn at(&self, n: usize) -> &Term
        requires { n < length self.now }
        ensures { slice_get self.now n ≡ Some (term_of result.now) }
    {
        &self.as_slice()[n]
    }

    /// The terms in order.
    pub fn as_slice(&self) -> &[Term]
        ensures { map term_of result.now ≡ self.now }
    {
        self.row.as_slice()
    }
}
