// The kept clauses that subsume a formula, and those that it subsumes.
ghost use Rattle.std.specs.Prelude.{◌≡◌, ◌<◌, ◌-◌, ◌^◌, ℕ, [], IfOk, OnOk, length, map};
ghost use Rattle.std.specs.List.{AllByRecursion};
ghost use Rattle.si_defs.specs.Clauses.{IsSoundClause, AreSoundLiterals};
ghost use Rattle.si_form.specs.TableNumbers.{HaveNumbers};
ghost use Rattle.si_state.specs.Subsumption.{IsMap, AnswersLeast};
ghost use Rattle.si_defs.specs.Entries.{literals_symbols};
ghost use Rattle.si_term.specs.Meaning.{literal_of};
ghost use Rattle.si_state.specs.Signatures.{numbering};
ghost use Rattle.si_defs.specs.Symbols.{IsNumbering};
ghost use Rattle.si_keyed.specs.Placed.{HasPlace};
ghost use Rattle.si_lanes.specs.Rows.{AppendsPositions};
ghost use Rattle.si_index.specs.Holding.{Spares};
ghost use Rattle.si_index.specs.Slots.{HasSlots};
ghost use Rattle.si_index.specs.Subsuming.{AreKnownSlots, AreMappedFrom, ArePassing, HasMap, IsFlatFormula, IsFormulaRow, IsMapIn, PassesIn, TriesSlot, TriesSlots, clause_owner, formula_owner, from_to};

use crate::holding::Holders;
use crate::index::Index;
use si_flat::{Cell, ClauseBuffer, LitMap, Owner};
use si_keyed::Places;
use si_lanes::{Row, subset_rows, superset_rows};
use si_screen::{Extra, literals_row, may_have_map};
use si_sign::Signature;
use si_subsume::least_map_of;
use si_term::list::Items;
use si_term::{Clause, Literals};
use std::alloc::{AllocError, Global};

/// A kept clause, by its position from 0, and the least map.
#[derive(Drop)]
pub struct Mapped {
    pub clause: u32,
    pub map: LitMap,
}

/// Clauses that are answered, positions rising.
pub type Mappeds = Items<Mapped>;

/// Whether the maps go from a clause to the formula, or from the formula to a clause.
#[derive(Clone, Copy)]
enum Direction {
    ToFormula,
    FromFormula,
}

impl Direction {
    /// Whose variables those of the formula are. A query's are bound, and an entry's are not.
    fn formula_owner(self) -> Owner
        ensures { result ≡ formula_owner self }
    {
        match self {
            Direction::ToFormula => Owner::Entry,
            Direction::FromFormula => Owner::Query,
        }
    }

    /// Whose variables those of a clause are.
    fn clause_owner(self) -> Owner
        ensures { result ≡ clause_owner self }
    {
        match self {
            Direction::ToFormula => Owner::Query,
            Direction::FromFormula => Owner::Entry,
        }
    }

    /// What maps go from, and what they go to.
    fn from_to<T: Copy>(self, formula: T, clause: T) -> (T, T)
        ensures { result ≡ from_to self formula clause }
    {
        match self {
            Direction::ToFormula => (clause, formula),
            Direction::FromFormula => (formula, clause),
        }
    }
}

/// A formula, and what is asked of it and each clause.
#[derive(Clone, Copy)]
struct Comparison<'a> {
    alloc: Global,
    direction: Direction,
    formula: &'a Literals,
}

/// The cells of a formula, and the signature by whose numbers it and the clauses are made flat.
#[derive(Clone, Copy)]
struct FlatFormula<'a> {
    signature: &'a Signature,
    cells: &'a [Cell],
}

impl<'a> Comparison<'a> {
    /// The least map between the formula and a clause with these literals; `None` where there is
    /// none. The clause is made flat only where signs and symbols allow a map.
    fn answer<'b>(
        &self,
        flat: &FlatFormula<'_>,
        literals: &'b Literals,
        clause: &mut ClauseBuffer<'b>,
    ) -> Result<Option<LitMap>, AllocError>
        requires formula { AreSoundLiterals (map literal_of self.now.formula.now) }
        requires literals { AreSoundLiterals (map literal_of literals.now) }
        requires known { HaveNumbers (numbering flat.now.signature.now)
            (literals_symbols (map literal_of literals.now)) }
        requires flat { IsFlatFormula self.now.direction (map literal_of self.now.formula.now)
            flat.now }
        ensures { IfOk result (AnswersLeast (IsMapIn self.now.direction
            (map literal_of self.now.formula.now) (map literal_of literals.now))) }
    {
        let (from, to) = self.direction.from_to(self.formula, literals);
        if !may_have_map(from, to) {
            return Ok(None);
        }
        let owner = self.direction.clause_owner();
        clause.fill(flat.signature, owner, literals.as_slice())?;
        let (from, to) = self.direction.from_to(flat.cells, clause.cells());
        least_map_of(self.alloc, from, to)
    }

    /// Appends the slots whose rows allow a map.
    fn pass(&self, row: &Row, rows: &[Row], slots: &mut Vec<u32>) -> Result<(), AllocError>
        requires { length rows.now < 2 ^ 32 - 1 }
        ensures { OnOk result (AppendsPositions (PassesIn self.now.direction row.now) rows.now
            slots.old.items slots.new.items) }
    {
        match self.direction {
            Direction::ToFormula => subset_rows(row, rows, slots),
            Direction::FromFormula => superset_rows(row, rows, slots),
        }
    }

    /// Adds the clause in a slot, with its least map, if there are any.
    fn try_slot<'b>(
        &self,
        flat: &FlatFormula<'_>,
        places: &Places<'b, Clause>,
        slot: usize,
        buffer: &mut ClauseBuffer<'b>,
        mappeds: &mut Mappeds,
    ) -> Result<(), AllocError>
        requires formula { AreSoundLiterals (map literal_of self.now.formula.now) }
        requires flat { IsFlatFormula self.now.direction (map literal_of self.now.formula.now)
            flat.now }
        requires known { AreKnownSlots (numbering flat.now.signature.now) places.now }
        ensures { OnOk result (TriesSlot (IsMapIn self.now.direction
            (map literal_of self.now.formula.now)) places.now slot mappeds.old mappeds.new) }
    {
        let Some(clause) = places.get(slot) else {
            return Ok(());
        };
        let Some(map) = self.answer(flat, &clause.literals, buffer)? else {
            return Ok(());
        };
        let (position, _) = places.at(slot);
        mappeds.push(Mapped {
            clause: position as u32,
            map,
        })
    }

    /// The slots whose clauses may have a map, as far as the tree of literals tells.
    fn holders(
        &self,
        index: &Index,
        places: &Places<'_, Clause>,
        slots: usize,
    ) -> Result<Holders, AllocError>
        requires formula { AreSoundLiterals (map literal_of self.now.formula.now) }
        requires clauses { AllByRecursion IsSoundClause index.now.clauses }
        requires places { HasSlots index.now places.now }
        requires all { (slot : ℕ) → HasPlace places.now slot → slot < slots }
        ensures { IfOk result (Spares (HasMap (IsMapIn self.now.direction
            (map literal_of self.now.formula.now))) places.now) }
    {
        if self.formula.len() == 0 {
            return Ok(Holders::all(self.alloc));
        }
        match self.direction {
            Direction::ToFormula => Ok(Holders::all(self.alloc)),
            Direction::FromFormula => Holders::of(index, places, slots, self.formula.at(0)),
        }
    }

    /// The row of the formula. Its symbols that the index lacks have numbers after the others.
    fn row(&self, signature: &Signature) -> Result<Row, AllocError>
        requires { AreSoundLiterals (map literal_of self.now.formula.now) }
        ensures { IfOk result (IsFormulaRow (numbering signature.now)
            (map literal_of self.now.formula.now)) }
    {
        let literals = self.formula.as_slice();
        let extra = Extra::of(self.alloc, signature, literals)?;
        Ok(literals_row(signature, &extra, literals))
    }

    /// The slots whose rows allow a map.
    fn passing(&self, signature: &Signature, rows: &[Row]) -> Result<Vec<u32>, AllocError>
        requires formula { AreSoundLiterals (map literal_of self.now.formula.now) }
        requires few { length rows.now < 2 ^ 32 - 1 }
        ensures { IfOk result (λ slots. ArePassing (numbering signature.now) self.now.direction
            (map literal_of self.now.formula.now) rows.now slots.items) }
    {
        let row = self.row(signature)?;
        let mut slots = Vec::new(self.alloc);
        self.pass(&row, rows, &mut slots)?;
        Ok(slots)
    }

    /// The clauses that have a map, each with the least. Only those are tried whose rows and
    /// literals allow one, and where no row does, neither is the tree of literals asked nor the
    /// formula made flat; no clause says so.
    fn mapped_clauses(&self, index: &Index) -> Result<Mappeds, AllocError>
        requires { AreSoundLiterals (map literal_of self.now.formula.now) }
        ensures { IfOk result (AreMappedFrom (IsMapIn self.now.direction
            (map literal_of self.now.formula.now)) 0 index.now.clauses) }
    {
        let signature = index.signature();
        let (places, rows) = index.slots_and_rows();
        let slots = self.passing(signature, rows)?;
        if slots.is_empty() {
            return Ok(Mappeds::new(self.alloc));
        }
        self.try_passing(index, &places, rows.len(), slots.as_slice())
    }

    /// The clauses in these slots that have a map, each with the least, where the index has so many
    /// slots. The tree of literals is asked first.
    fn try_passing(
        &self,
        index: &Index,
        places: &Places<'_, Clause>,
        count: usize,
        slots: &[u32],
    ) -> Result<Mappeds, AllocError>
        requires formula { AreSoundLiterals (map literal_of self.now.formula.now) }
        requires clauses { AllByRecursion IsSoundClause index.now.clauses }
        requires places { HasSlots index.now places.now }
        requires all { (slot : ℕ) → HasPlace places.now slot → slot < count }
        ensures { IfOk result (TriesSlots (IsMapIn self.now.direction
            (map literal_of self.now.formula.now)) places.now slots.now []) }
    {
        let holders = self.holders(index, places, count)?;
        self.try_held(index.signature(), places, &holders, slots)
    }

    /// The same of those that aren't ruled out. The formula is made flat first.
    fn try_held(
        &self,
        signature: &Signature,
        places: &Places<'_, Clause>,
        holders: &Holders,
        slots: &[u32],
    ) -> Result<Mappeds, AllocError>
        requires formula { AreSoundLiterals (map literal_of self.now.formula.now) }
        requires numbering { IsNumbering (numbering signature.now) }
        requires known { AreKnownSlots (numbering signature.now) places.now }
        requires spares { Spares (HasMap (IsMapIn self.now.direction
            (map literal_of self.now.formula.now))) places.now holders.now }
        ensures { IfOk result (TriesSlots (IsMapIn self.now.direction
            (map literal_of self.now.formula.now)) places.now slots.now []) }
    {
        let mut buffer = ClauseBuffer::new(self.alloc);
        let owner = self.direction.formula_owner();
        buffer.fill(signature, owner, self.formula.as_slice())?;
        let flat = FlatFormula {
            signature,
            cells: buffer.cells(),
        };
        self.try_slots(&flat, places, holders, slots)
    }

    /// The clauses in these slots that have a map, each with the least.
    fn try_slots<'b>(
        &self,
        flat: &FlatFormula<'_>,
        places: &Places<'b, Clause>,
        holders: &Holders,
        slots: &[u32],
    ) -> Result<Mappeds, AllocError>
        requires formula { AreSoundLiterals (map literal_of self.now.formula.now) }
        requires flat { IsFlatFormula self.now.direction (map literal_of self.now.formula.now)
            flat.now }
        requires known { AreKnownSlots (numbering flat.now.signature.now) places.now }
        requires spares { Spares (HasMap (IsMapIn self.now.direction
            (map literal_of self.now.formula.now))) places.now holders.now }
        ensures { IfOk result (TriesSlots (IsMapIn self.now.direction
            (map literal_of self.now.formula.now)) places.now slots.now []) }
    {
        let mut buffer = ClauseBuffer::new(self.alloc);
        let mut mappeds = Mappeds::new(self.alloc);
        for i in 0..slots.len() {
            let slot = slots[i] as usize;
            if holders.rules_out(slot) {
                continue;
            }
            self.try_slot(flat, places, slot, &mut buffer, &mut mappeds)?;
        }
        Ok(mappeds)
    }
}

impl Index {
    /// The clauses that subsume the formula, each with the least map to it.
    pub fn subsumers(&self, formula: &Literals) -> Result<Mappeds, AllocError>
        requires { AreSoundLiterals (map literal_of formula.now) }
        ensures { IfOk result (AreMappedFrom (λ ls. IsMap ls (map literal_of formula.now)) 0
            self.now.clauses) }
    {
        let comparison = Comparison {
            alloc: self.allocator(),
            direction: Direction::ToFormula,
            formula,
        };
        comparison.mapped_clauses(self)
    }

    /// The clauses that the formula subsumes, each with the least map from it.
    pub fn subsumed(&self, formula: &Literals) -> Result<Mappeds, AllocError>
        requires { AreSoundLiterals (map literal_of formula.now) }
        ensures { IfOk result (AreMappedFrom (IsMap (map literal_of formula.now)) 0
            self.now.clauses) }
    {
        let comparison = Comparison {
            alloc: self.allocator(),
            direction: Direction::FromFormula,
            formula,
        };
        comparison.mapped_clauses(self)
    }
}
