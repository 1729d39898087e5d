// Which clauses hold an instance of a literal.
ghost use Rattle.std.specs.Prelude.{◌≡◌, ◌<◌, ◌↔◌, ℕ, Bool, true, IfOk, IsTrue, OnOk, length, slice_set};
ghost use Rattle.std.specs.List.{AllByRecursion};
ghost use Rattle.si_defs.specs.Clauses.{IsSoundClause, IsSoundPattern, literal_pattern};
ghost use Rattle.si_defs.specs.Entries.{Entry};
ghost use Rattle.si_defs.specs.Substitutions.{IsAmong, AreDistinct};
ghost use Rattle.si_defs.specs.declared.Relation.TheVariants.{Instances};
ghost use Rattle.si_state.specs.Answers.{Stands};
ghost use Rattle.si_state.specs.Signatures.{numbering};
ghost use Rattle.si_term.specs.Meaning.{literal_of};
ghost use Rattle.si_flat.specs.Flattened.{FlattensPattern};
ghost use Rattle.si_flat.specs.declared.Owner.TheVariants.{Query};
ghost use Rattle.si_form.specs.Answers.{AreNumbered};
ghost use Rattle.si_keyed.specs.Keyed.{item_keys, HasKey};
ghost use Rattle.si_keyed.specs.Placed.{placed_items, HasPlace};
ghost use Rattle.si_legal.specs.declared.Posting as posting;
ghost use Rattle.si_legal.specs.Engines.{AppendsAnswers};
ghost use Rattle.si_legal.specs.KeptTrees.{IsPostingOf};
ghost use Rattle.si_index.specs.Engines.{IsStoredFor};
ghost use Rattle.si_index.specs.Kept.{kept_clauses};
ghost use Rattle.si_index.specs.Slots.{HasSlots};
ghost use Rattle.si_index.specs.Holding.{IsRuledOut, MarksAll, SparesHolders};

use crate::engine::Engine;
use crate::index::Index;
use si_defs::Relation;
use si_flat::{Flat, FlatQuery, flatten_pattern};
use si_forest::{SearchMemory, Trees};
use si_keyed::Places;
use si_legal::Posting;
use si_sign::Signature;
use si_term::{Clause, Literal, Pattern};
use std::alloc::{AllocError, Global};

/// The slots of the clauses that hold an instance of a literal, or those of all clauses.
#[derive(Drop)]
pub(crate) struct Holders {
    // Whether a slot's clause holds one. A slot without a mark isn't ruled out.
    marks: Vec<bool>,
}

impl Holders {
    /// No slot is ruled out.
    pub(crate) fn all(alloc: Global) -> Holders
        ensures { (slot : ℕ) → IsRuledOut result slot → ⊥ }
    {
        Holders {
            marks: Vec::new(alloc),
        }
    }

    /// Those of these slots whose clauses hold an instance of the literal. The tree of literals is
    /// asked for them; no clause says so.
    pub(crate) fn of(
        index: &Index,
        places: &Places<'_, Clause>,
        slots: usize,
        literal: &Literal,
    ) -> Result<Holders, AllocError>
        requires sound { IsSoundPattern (literal_pattern (literal_of literal.now)) }
        requires clauses { AllByRecursion IsSoundClause index.now.clauses }
        requires places { HasSlots index.now places.now }
        requires all { (slot : ℕ) → HasPlace places.now slot → slot < slots }
        ensures { IfOk result (SparesHolders places.now (literal_of literal.now)) }
    {
        let postings = instances(index, literal)?;
        let marks = marks_of(index.allocator(), places, slots, postings.as_slice())?;
        Ok(Holders { marks })
    }

    /// Whether the clause in this slot holds no instance.
    pub(crate) fn rules_out(&self, slot: usize) -> bool
        ensures { IsTrue result ↔ IsRuledOut self.now slot }
    {
        match self.marks.get(slot) {
            Some(mark) => !*mark,
            None => false,
        }
    }
}

/// A mark for each slot whose clause has one of these postings.
fn marks_of(
    alloc: Global,
    places: &Places<'_, Clause>,
    slots: usize,
    postings: &[Posting],
) -> Result<Vec<bool>, AllocError>
    requires keyed { AllByRecursion (λ p. HasKey (placed_items places.now) p.clause) postings.now }
    requires distinct { AreDistinct (item_keys (placed_items places.now)) }
    requires all { (slot : ℕ) → HasPlace places.now slot → slot < slots }
    ensures { IfOk result (λ marks. MarksAll places.now postings.now marks.items) }
{
    let mut marks = vec![in alloc; false; slots]?;
    for i in 0..postings.len() {
        let posting = &postings[i];
        mark(&mut marks, places.place(posting.clause));
    }
    Ok(marks)
}

/// Marks a slot.
fn mark(marks: &mut Vec<bool>, slot: usize)
    requires { slot < length marks.old.items }
    ensures { marks.new.items ≡ slice_set marks.old.items slot true }
{
    marks[slot] = true;
}

/// The postings of the kept instances of a literal.
fn instances(index: &Index, literal: &Literal) -> Result<Vec<Posting>, AllocError>
    requires sound { IsSoundPattern (literal_pattern (literal_of literal.now)) }
    requires clauses { AllByRecursion IsSoundClause index.now.clauses }
    ensures keyed { IfOk result (λ postings. AllByRecursion
        (λ p. IsAmong index.now.keys p.clause) postings.items) }
    ensures distinct { IfOk result (λ postings. AreDistinct index.now.keys) }
    ensures all { IfOk result (λ postings. (p : posting.Posting) (e : Entry)
        → IsPostingOf (kept_clauses index.now) p e
        → Stands Instances (literal_pattern (literal_of literal.now)) e
        → IsAmong postings.items p) }
{
    let alloc = index.allocator();
    let signature = index.signature();
    let trees = index.trees();
    let query = query_of(alloc, signature, literal)?;
    let mut postings = Vec::new(alloc);
    ask_trees(alloc, trees, &query.flat, &mut postings)?;
    Ok(postings)
}

/// The flat query of a literal.
fn query_of(
    alloc: Global,
    signature: &Signature,
    literal: &Literal,
) -> Result<FlatQuery, AllocError>
    requires { IsSoundPattern (literal_pattern (literal_of literal.now)) }
    ensures { IfOk result (FlattensPattern (numbering signature.now)
        (literal_pattern (literal_of literal.now))) }
{
    let copy = literal.copy(alloc)?;
    let pattern = Pattern::Lit(copy);
    flatten_pattern(alloc, signature, &pattern)
}

/// Appends the postings that the tree of literals answers for its instances.
fn ask_trees(
    alloc: Global,
    trees: &Trees,
    query: &Flat,
    postings: &mut Vec<Posting>,
) -> Result<(), AllocError>
    requires { AreNumbered Query query.now }
    ensures { OnOk result (AppendsAnswers (IsStoredFor trees.now true Instances query.now)
        postings.old.items postings.new.items) }
{
    let mut memory = SearchMemory::new(alloc);
    trees.ask(&mut memory, true, Relation::Instances, query, postings)?;
    Ok(())
}
