//! The definitions that the contracts of stindex cite. They stand in `specs/`, one small file a
//! concept, and `docs/DEFINITIONS.md` leads through them. The plain enums and the bounds that the
//! code shares with them are declared here.
#![tactic(auto)]

/// No more round and square brackets than this are open at once in an item, a pattern or a formula.
pub const DEEPEST_NESTING: usize = 512;

/// No literal, clause, formula or pattern has more occurrences of symbols and variables than this,
/// and no line or file may be allowed more bytes. So every count of them fits a `u32`.
pub const MOST_OCCURRENCES: usize = 536_870_912;

/// No text that is read has more bytes than this: those of the longest line or file, and one more,
/// by which a longer one is known.
pub const MOST_BYTES: usize = MOST_OCCURRENCES + 1;

/// How a clause is named.
#[derive(Clone, Copy, Debug, PartialEq, Eq)]
pub enum NameKind {
    /// A lower word, or any text in single quotes.
    Word,
    /// An integer, by its spelling.
    Int,
}

/// What a symbol is written as.
#[derive(Clone, Copy, Debug, PartialEq, Eq)]
pub enum SymKind {
    /// A lower word, or any text in single quotes.
    Word,
    /// A word after one or two dollar signs.
    Dollar,
    /// An integer, by its spelling.
    Number,
    /// A distinct object, in double quotes.
    Distinct,
    /// The equality sign.
    Equal,
}

/// Where a symbol stands.
#[derive(Clone, Copy, Debug, PartialEq, Eq)]
pub enum Side {
    /// At the head of an atom.
    Predicate,
    /// Inside a term.
    Function,
}

/// What a token is.
#[derive(Clone, Copy, Debug, PartialEq, Eq)]
pub enum TokenKind {
    /// A word that begins with a small letter.
    Lower,
    /// A word that begins with a capital letter.
    Upper,
    /// A word after one or two dollar signs.
    Dollar,
    /// An integer with an optional sign.
    Int,
    /// A text in single quotes.
    Single,
    /// A text in double quotes.
    Double,
    /// The sign `!=`.
    NotEqual,
    /// One byte of punctuation.
    Mark,
}

/// How an entry may stand to a pattern.
#[derive(Clone, Copy, Debug, PartialEq, Eq)]
pub enum Relation {
    /// Each is an instance of the other.
    Variants,
    /// The entry is an instance of the pattern.
    Instances,
    /// The pattern is an instance of the entry.
    Generalizations,
    /// Some substitution makes both equal.
    Unifiable,
}
