// The index.
ghost use Rattle.std.specs.Prelude.{◌≡◌, ◌<◌, ◌≤◌, ◌-◌, ◌^◌, [], ◌∷◌, ◌++◌, IfOk, IfErr, IfNone, IfSome, OnOk, OnErr, Some, length, slice_get};
ghost use Rattle.si_defs.specs.Clauses as defs;
ghost use Rattle.si_defs.specs.Clauses.{IsSoundClause};
ghost use Rattle.si_defs.specs.Entries.{entries, state_entries};
ghost use Rattle.si_state.specs.States.{limited_to};
ghost use Rattle.si_state.specs.Acceptance.{Accepts, IsTaken, Removes};
ghost use Rattle.si_defs.specs.declared.TheConstants.{MOST_OCCURRENCES};
ghost use Rattle.si_state.specs.Signatures.{CountsSymbols, IsSignatureOf, numbering};
ghost use Rattle.si_defs.specs.Symbols.{IsNumbering};
ghost use Rattle.si_term.specs.Meaning.{clause_of, name_of};
ghost use Rattle.si_sign.specs.Stores.{IsStored, Rejects};
ghost use Rattle.si_keyed.specs.Keyed.{item_keys, HasKey};
ghost use Rattle.si_tree.specs.Reading.{counts_of};
ghost use Rattle.si_index.specs.Kept.{AreKeyed, IsEmpty, KeysStay, NumbersExactly, NumbersStay, TreesHold, TreesLose, clauses_of};
ghost use Rattle.si_index.specs.Engines.{TreesAnswer};
ghost use Rattle.si_index.specs.Register.{IsPut, HasPut};
ghost use Rattle.si_index.specs.Stored.{AreHeld, HaveRows, MayKeep};
ghost use Rattle.si_index.specs.Names.{key_of_name};
ghost use Rattle.si_index.specs.Slots.{HasSlots, HaveSlotRows};

use crate::names::ClauseNames;
use crate::register::Register;
use si_forest::Trees;
use si_keyed::{KeyedItems, KeyedList, Places};
use si_lanes::Row;
use si_screen::{Extra, literals_row};
use si_sign::{AddFault, ClauseStore, Rejected, Signature};
use si_term::{Clause, Name};
use si_tree::Counts;
use std::alloc::{AllocError, Global};
use std::marker::Model;

/// How much is kept.
#[derive(Clone, Copy, Debug, PartialEq, Eq)]
pub struct Stats {
    /// The number of clauses.
    pub clauses: u32,
    /// The number of their entries.
    pub entries: u64,
    /// The number of different symbols in them.
    pub symbols: u32,
}

/// The numbers of nodes of both trees.
#[derive(Clone, Copy, Debug, PartialEq, Eq)]
pub struct TreeCounts {
    /// Of the tree of literals.
    pub literals: Counts,
    /// Of the tree of subterms.
    pub terms: Counts,
}

/// The clauses that are kept, in the order of acceptance. A name leads to its clause, and one is
/// taken away without a pass over the others.
#[derive(Drop)]
pub struct Index {
    alloc: Global,
    limit: u64,
    // Each with its row, so that a screen reads the rows one after the other.
    clauses: KeyedList<Clause, Row>,
    register: Register,
    trees: Trees,
}

impl Model for Index {
    ghost use Rattle.si_state.specs.States.{limited_to};
    ghost use Rattle.si_state.specs.Signatures.{numbering};
    ghost use Rattle.si_keyed.specs.Keyed.{item_keys};
    ghost use Rattle.si_index.specs.Kept.{Kept, kept_code, clauses_of};

    ghost Value = { Kept };

    ghost coded = { kept_code };

    ghost view = { λ i. record {
      clauses = clauses_of i.clauses.items;
      keys = item_keys i.clauses.items;
      rules = limited_to i.limit;
      numbers = numbering i.register.signature;
      trees = i.trees;
    } };

    ghost use Rattle.si_index.specs.Stored.{IsKeptIndex, AreHeld, HaveRows};

    ghost invariant = { λ i. IsKeptIndex (limited_to i.limit) i.clauses.items i.register
        × AreHeld i.clauses.items i.register i.trees
        × HaveRows (numbering i.register.signature) i.clauses.items i.clauses.marks };
}

impl Index {
    /// The empty index.
    pub fn new(alloc: Global, limit: u64) -> Result<Index, AllocError>
        requires { limit ≤ MOST_OCCURRENCES }
        ensures { IfOk result (IsEmpty (limited_to limit)) }
    {
        // Before the others, which would have to be dropped where it fails.
        let trees = Trees::new(alloc)?;
        Ok(Index {
            alloc,
            limit,
            clauses: KeyedList::new(alloc),
            register: Register::new(alloc),
            trees,
        })
    }

    /// How much is kept.
    pub fn stats(&self) -> Stats
        ensures clauses { result.clauses ≡ length self.now.clauses }
        ensures entries { result.entries ≡ length (state_entries self.now.clauses) }
        ensures symbols { CountsSymbols self.now.clauses result.symbols }
        ensures keyed { AreKeyed self.now }
        ensures stored { IsStored self.now.rules self.now.clauses }
        ensures small { self.now.rules.entries ≤ MOST_OCCURRENCES }
        ensures numbering { IsNumbering self.now.numbers }
    {
        Stats {
            clauses: self.clauses.len() as u32,
            entries: self.register.entries,
            symbols: self.register.signature.len(),
        }
    }

    /// The clause at this position, from 0.
    pub fn clause(&self, at: u32) -> &Clause
        requires { at < length self.now.clauses }
        ensures { slice_get self.now.clauses at ≡ Some (clause_of result.now) }
    {
        self.clauses.at(at as usize).1
    }

    /// The clauses by their slots in the list.
    pub(crate) fn slots(&self) -> Places<'_, Clause>
        ensures { HasSlots self.now result }
    {
        self.slots_and_rows().0
    }

    /// The clauses by their slots in the list, and the rows by those slots. A slot without a clause
    /// has some row too.
    pub(crate) fn slots_and_rows(&self) -> (Places<'_, Clause>, &[Row])
        ensures slots { HasSlots self.now result.0 }
        ensures rows { HaveSlotRows self.now.numbers result.0 result.1.now }
        ensures few { length result.1.now < 2 ^ 32 - 1 }
        ensures stored { IsStored self.now.rules self.now.clauses }
    {
        self.clauses.marked_places()
    }

    /// The symbols of the clauses.
    pub fn signature(&self) -> &Signature
        ensures signature { IsSignatureOf self.now.clauses result.now }
        ensures numbers { numbering result.now ≡ self.now.numbers }
        ensures numbering { IsNumbering self.now.numbers }
    {
        &self.register.signature
    }

    /// The clauses in order, each with its key.
    pub fn kept(&self) -> KeyedItems<'_, Clause>
        ensures clauses { clauses_of result ≡ self.now.clauses }
        ensures keys { item_keys result ≡ self.now.keys }
    {
        self.clauses.iter()
    }

    /// The trees of the entries of the clauses.
    pub fn trees(&self) -> &Trees
        ensures trees { result.now ≡ self.now.trees }
        ensures keyed { AreKeyed self.now }
        ensures exactly { NumbersExactly self.now.numbers self.now.clauses }
        ensures hold { TreesHold self.now }
        ensures answer { TreesAnswer self.now }
    {
        &self.trees
    }

    /// The numbers of nodes of the trees.
    pub fn counts(&self) -> TreeCounts
        ensures literals { result.literals ≡ counts_of self.now.trees.literals }
        ensures terms { result.terms ≡ counts_of self.now.trees.subterms }
    {
        TreeCounts {
            literals: self.trees.literals().counts(),
            terms: self.trees.subterms().counts(),
        }
    }

    pub(crate) fn allocator(&self) -> Global {
        self.alloc
    }
}

/// Appends a clause with its row, and has its name lead to its key, which is answered. Where memory
/// runs out, the clauses, their rows and their keys are as before, and so are the names, and the
/// clause is handed back.
fn put(
    alloc: Global,
    clauses: &mut KeyedList<Clause, Row>,
    names: &mut ClauseNames,
    clause: Clause,
    row: Row,
) -> Result<usize, Clause>
    requires { key_of_name clauses.old.items names.old (name_of clause.name) ≡ None }
    ensures put { IfOk result (λ key. IsPut key clause clauses.old.items clauses.new.items
        names.old names.new) }
    ensures row { IfOk result (λ key. clauses.new.marks ≡ clauses.old.marks ++ (key, row) ∷ []) }
    ensures no_row { IfOk result (λ key. HasKey clauses.old.marks key → ⊥) }
    ensures handed_back { IfErr result (λ back. back ≡ clause) }
    ensures err { OnErr result (clauses.new.items ≡ clauses.old.items) }
    ensures same_rows { OnErr result (clauses.new.marks ≡ clauses.old.marks) }
    ensures same_names { OnErr result ((name : defs.Name)
        → key_of_name clauses.old.items names.new name
        ≡ key_of_name clauses.old.items names.old name) }
{
    let key = clauses.push(clause, row)?;
    let kept = clauses.get(key).unwrap();
    match names.insert(alloc, &kept.name, key) {
        Ok(()) => Ok(key),
        Err(_) => Err(clauses.remove(key)),
    }
}

/// Puts a clause whose symbols are in the register, and the postings of its entries. Where memory
/// runs out, it is handed back, and the same is kept as before.
fn keep(
    alloc: Global,
    clauses: &mut KeyedList<Clause, Row>,
    register: &mut Register,
    trees: &mut Trees,
    clause: Clause,
) -> Result<(), Clause>
    requires may { MayKeep clause clauses.old.items register.old trees.old }
    requires rows { HaveRows (numbering register.old.signature) clauses.old.items
        clauses.old.marks }
    ensures put { OnOk result (HasPut clause clauses.old.items clauses.new.items
        register.old.names register.new.names) }
    ensures handed_back { IfErr result (λ back. back ≡ clause) }
    ensures err { OnErr result (clauses.new.items ≡ clauses.old.items) }
    ensures same_names { OnErr result ((name : defs.Name)
        → key_of_name clauses.old.items register.new.names name
        ≡ key_of_name clauses.old.items register.old.names name) }
    ensures signature { register.new.signature ≡ register.old.signature }
    ensures entries { register.new.entries ≡ register.old.entries }
    ensures held { AreHeld clauses.new.items register.new trees.new }
    ensures rows { HaveRows (numbering register.new.signature) clauses.new.items
        clauses.new.marks }
{
    let row = literals_row(
        &register.signature,
        &Extra::new(alloc),
        clause.literals.as_slice(),
    );
    let key = put(alloc, clauses, &mut register.names, clause, row)?;
    let kept = clauses.get(key).unwrap();
    match trees.add_clause(&register.signature, key, kept) {
        Ok(()) => Ok(()),
        Err(_) => {
            register.names.remove(&kept.name, key);
            Err(clauses.remove(key))
        }
    }
}

impl ClauseStore for Index {
    ghost clauses = { λ i. i.clauses };

    ghost rules = { λ i. i.rules };

    /// Beside what every store promises, a symbol keeps its number while it occurs, and a clause
    /// its key.
    fn add(&mut self, clause: Clause) -> Result<u32, Rejected>
        requires sound { IsSoundClause (clause_of clause) }
        ensures added { IfOk result (λ n. Accepts self.old.rules self.old.clauses
            (clause_of clause) self.new.clauses) }
        ensures entries { IfOk result (λ n. n ≡ length (entries (clause_of clause))) }
        ensures rejected { IfErr result (λ r. Rejects self.old.rules self.old.clauses
            (clause_of clause) r.why) }
        ensures handed_back { IfErr result (λ r. r.clause ≡ clause) }
        ensures err { OnErr result (self.new.clauses ≡ self.old.clauses) }
        ensures rules { self.new.rules ≡ self.old.rules }
        ensures stored { IsStored self.new.rules self.new.clauses }
        ensures trees { TreesHold self.new }
        ensures numbers { NumbersStay self.old self.new }
        ensures keys { KeysStay self.old self.new }
    {
        let entries = match self.register.enter(&self.clauses, &clause, self.limit) {
            Ok(entries) => entries,
            Err(why) => return Err(Rejected { clause, why }),
        };
        match keep(
            self.alloc,
            &mut self.clauses,
            &mut self.register,
            &mut self.trees,
            clause,
        ) {
            Ok(()) => Ok(entries),
            Err(clause) => {
                self.register.uncount(&clause);
                Err(Rejected {
                    clause,
                    why: AddFault::Memory,
                })
            }
        }
    }

    /// Beside what every store promises, a symbol keeps its number while it occurs, and a clause
    /// its key; at `None` all is as before.
    fn remove(&mut self, name: &Name) -> Option<u32>
        ensures removed { IfSome result (λ n. (c : defs.Clause) × Removes self.old.clauses
            (name_of name.now) c self.new.clauses × (n ≡ length (entries c))) }
        ensures unknown { IfNone result (IsTaken self.old.clauses (name_of name.now) → ⊥) }
        ensures none { IfNone result (self.new.clauses ≡ self.old.clauses) }
        ensures rules { self.new.rules ≡ self.old.rules }
        ensures stored { IsStored self.new.rules self.new.clauses }
        ensures trees { TreesHold self.new }
        ensures numbers { IfSome result (λ n. NumbersStay self.old self.new) }
        ensures keys { IfSome result (λ n. KeysStay self.old self.new) }
        ensures postings { IfSome result (λ n. TreesLose self.old self.new) }
        ensures same { IfNone result (self.new ≡ self.old) }
    {
        let key = self.register.names.get(&self.clauses, name)?;
        let clause = self.clauses.remove(key);
        self.trees.remove_clause(key);
        Some(self.register.leave(&clause, key))
    }

    /// Beside what every store promises, a symbol keeps its number while it occurs, and a clause
    /// its key; at `None` all is as before.
    fn remove_last(&mut self) -> Option<u32>
        ensures removed { IfSome result (λ n. (c : defs.Clause) × (self.old.clauses
            ≡ self.new.clauses ++ c ∷ []) × (n ≡ length (entries c))) }
        ensures empty { IfNone result (self.old.clauses ≡ []) }
        ensures none { IfNone result (self.new.clauses ≡ self.old.clauses) }
        ensures rules { self.new.rules ≡ self.old.rules }
        ensures stored { IsStored self.new.rules self.new.clauses }
        ensures trees { TreesHold self.new }
        ensures numbers { IfSome result (λ n. NumbersStay self.old self.new) }
        ensures keys { IfSome result (λ n. KeysStay self.old self.new) }
        ensures postings { IfSome result (λ n. TreesLose self.old self.new) }
        ensures same { IfNone result (self.new ≡ self.old) }
    {
        let key = self.clauses.last_key()?;
        let clause = self.clauses.remove(key);
        self.trees.remove_clause(key);
        Some(self.register.leave(&clause, key))
    }
}
