// Why a clause isn't taken.
use si_defs::Side;
use si_term::Clause;
use thiserror::Error;

/// What a symbol of one kind and text is used as.
#[derive(Clone, Copy, Debug, PartialEq, Eq)]
pub struct Shape {
    pub side: Side,
    /// The number of arguments.
    pub arity: u32,
}

/// A symbol that is used as two things.
#[derive(Clone, Copy, Debug, PartialEq, Eq)]
pub struct Clash {
    /// The number from 0 of the symbol's occurrence, among those of symbols in the clause.
    pub occurrence: u32,
    /// What the symbol is there.
    pub found: Shape,
    /// What it is in a kept clause, or earlier in this one.
    pub kept: Shape,
}

/// Why a clause isn't added.
#[derive(Debug, Drop, Error)]
pub enum AddFault {
    /// A kept clause has its name.
    #[error("the name is taken")]
    Taken,
    /// A symbol would have two shapes.
    #[error("a symbol is used as two things")]
    Clash(Clash),
    /// There would be more entries than the limit allows.
    #[error("{needed} entries are more than {limit}")]
    Full { needed: u64, limit: u64 },
    /// Memory ran out.
    #[error("out of memory")]
    Memory,
}

/// Why the symbols of a clause aren't taken.
#[derive(Debug, Drop, Error)]
pub enum TakeFault {
    /// A symbol would have two shapes.
    #[error("a symbol is used as two things")]
    Clash(Clash),
    /// Memory ran out.
    #[error("out of memory")]
    Memory,
}

/// A clause that isn't added, and why.
#[derive(Drop)]
pub struct Rejected {
    pub clause: Clause,
    pub why: AddFault,
}
