// The words that commands begin with.
use si_defs::Relation;

/// The word that a command begins with. `specs/Words.antt` has the text of each.
#[derive(Clone, Copy, Debug, PartialEq, Eq)]
pub enum Word {
    /// Keeps a clause.
    Add,
    /// Keeps the clauses of a file.
    Load,
    /// Lets a clause go.
    Remove,
    /// Asks which entries stand in a relation to a pattern.
    Ask(Relation),
    /// Asks which clauses subsume a formula.
    Subsumers,
    /// Asks which clauses a formula subsumes.
    Subsumed,
    /// Counts what is kept.
    Stats,
    /// Counts the nodes of the trees.
    Tree,
    /// Counts the nodes that a query passes.
    Explain,
    /// Keeps clauses that are drawn.
    Sample,
}
