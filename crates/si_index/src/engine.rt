// What answers a question about the kept entries.
ghost use Rattle.std.specs.Prelude.{◌≡◌, ℕ, List, Bool, IfOk, OnOk, OnErr};
ghost use Rattle.si_defs.specs.declared.Relation as defs;
ghost use Rattle.si_flat.specs.declared.Cell as cell;
ghost use Rattle.si_flat.specs.declared.Owner.TheVariants.{Query};
ghost use Rattle.si_form.specs.Answers.{AreNumbered};
ghost use Rattle.si_legal.specs.Engines.{AppendsAnswers};
ghost use Rattle.si_legal.specs.declared.Posting as posting;

use si_defs::Relation;
use si_flat::Flat;
use si_forest::{SearchMemory, Trees};
use si_legal::Posting;
use std::alloc::AllocError;

/// What finds the entries that stand in a relation to a query: by a look at each of them, or by
/// trees.
///
/// A question is whether literals are asked for, or terms, a relation, and a query. To each an
/// engine has its answers, a finite set of postings, and a number, its count.
pub trait Engine {
    /// Whether the posting is one of the answers.
    ghost answers: { Self → Bool → defs.Relation → List cell.Cell → posting.Posting → Type 0 };

    /// Whether the engine counts so much at a question.
    ghost count: { Self → Bool → defs.Relation → List cell.Cell → ℕ → Type 0 };

    /// Appends the answers, each once, and answers the count. At an error `out` is as before. The
    /// memory is lent from question to question.
    fn ask(
        &self,
        memory: &mut SearchMemory,
        literal: bool,
        relation: Relation,
        query: &Flat,
        out: &mut Vec<Posting>,
    ) -> Result<u64, AllocError>
        requires { AreNumbered Query query.now }
        ensures answers { OnOk result (AppendsAnswers (answers self.now literal relation query.now)
            out.old.items out.new.items) }
        ensures count { IfOk result (count self.now literal relation query.now) }
        ensures err { OnErr result (out.new.items ≡ out.old.items) };
}

/// The trees answer with the postings that are stored under terms in the relation to the query, and
/// count the nodes that are open for it.
impl Engine for Trees {
    ghost use Rattle.si_index.specs.Engines.{IsStoredFor, CountsNodes};

    ghost answers = { λ trees literal relation query posting.
        IsStoredFor trees literal relation query posting };

    ghost count = { λ trees literal relation query n. CountsNodes trees literal relation query n };

    fn ask(
        &self,
        memory: &mut SearchMemory,
        literal: bool,
        relation: Relation,
        query: &Flat,
        out: &mut Vec<Posting>,
    ) -> Result<u64, AllocError> {
        // So its cells are known to be those of a term.
        query.cells();
        self.retrieve(memory, literal, relation, query, out)
    }
}
