// What a query passes in its tree, and how many answers it has.
ghost use Rattle.std.specs.Prelude.{IfOk};
ghost use Rattle.si_defs.specs.Clauses.{IsSoundPattern};
ghost use Rattle.si_term.specs.Meaning.{pattern_of};
ghost use Rattle.si_index.specs.Explaining.{Explains, ExplainsFlat, IsSomeQuery};

use crate::found::asks_literals;
use crate::index::Index;
use si_defs::Relation;
use si_flat::{FlatQuery, flatten_pattern};
use si_forest::SearchMemory;
use si_term::Pattern;
use std::alloc::AllocError;

/// How a query goes through the tree that it is asked in.
#[derive(Clone, Copy, Debug, PartialEq, Eq)]
pub struct Explained {
    /// The number of nodes that are open for it.
    pub passed: u64,
    /// The number of all nodes.
    pub nodes: u64,
    /// The number of its answers.
    pub answers: u64,
}

impl Index {
    /// Counts what a query passes and answers. It makes no list of a hit, and copies no posting.
    pub fn explain(
        &self,
        memory: &mut SearchMemory,
        relation: Relation,
        pattern: &Pattern,
    ) -> Result<Explained, AllocError>
        requires { IsSoundPattern (pattern_of pattern.now) }
        ensures { IfOk result (Explains self.now relation (pattern_of pattern.now)) }
    {
        let query = flatten_pattern(self.allocator(), self.signature(), pattern)?;
        self.explain_flat(memory, relation, asks_literals(pattern), &query)
    }

    /// The same for a query that was made flat before, by the numbers of this index's signature.
    /// `literal` says whether literals are asked for.
    pub fn explain_flat(
        &self,
        memory: &mut SearchMemory,
        relation: Relation,
        literal: bool,
        query: &FlatQuery,
    ) -> Result<Explained, AllocError>
        requires { IsSomeQuery self.now literal query.now }
        ensures { IfOk result (ExplainsFlat self.now relation literal query.now) }
    {
        // So it is known that what is kept is sound, that its entries are few, and that its symbols
        // have these numbers.
        self.stats();
        self.signature();
        let trees = self.trees();
        let counted = trees.count(memory, literal, relation, &query.flat)?;
        Ok(Explained {
            passed: counted.passed,
            nodes: trees.tree(literal).counts().nodes,
            answers: counted.answers,
        })
    }
}
