// Variables and their slots.
ghost use Rattle.std.specs.Prelude.{◌≡◌, ◌<◌, ◌^◌, ◌↔◌, ℕ, IsTrue};
ghost use Rattle.si_flat.specs.Cells.{query, entry, ind, variable_cell};
ghost use Rattle.si_unify.specs.Solving.{slot_count, slot_of, variable_of, CellIsInRange, AreInRange};
ghost use Rattle.si_unify.specs.Spots.{cell_slot, free_slot};

use si_flat::Cell;

/// How many variables there are of each kind, and which of them are constants.
///
/// Slots number the query's variables first, then the entry's, and the indicators last.
#[derive(Clone, Copy, Debug)]
pub struct Slots {
    /// How many variables the query has.
    pub query: u32,
    /// How many variables the entry has.
    pub entry: u32,
    /// How many indicators there are.
    pub inds: u32,
    /// Whether the query's variables are constants.
    pub freeze_query: bool,
    /// Whether the entry's variables are constants.
    pub freeze_entry: bool,
}

impl Slots {
    /// The number of slots.
    pub fn count(&self) -> usize
        ensures count { result ≡ slot_count self.now }
        ensures small { result < 2 ^ 34 }
    {
        self.query as usize + self.entry as usize + self.inds as usize
    }

    /// Whether each variable of these cells has a slot, as it must have to be solved.
    pub fn are_in_range(&self, cells: &[Cell]) -> bool
        ensures { IsTrue result ↔ AreInRange self.now cells.now }
    {
        cells.iter().all(|cell| self.is_in_range(*cell))
    }

    fn is_in_range(&self, cell: Cell) -> bool
        ensures { IsTrue result ↔ CellIsInRange self.now cell }
    {
        match cell {
            Cell::App { .. } => true,
            Cell::Query(number) => number < self.query,
            Cell::Entry(number) => number < self.entry,
            Cell::Ind(number) => number < self.inds,
        }
    }

    /// The slot of the query's variable with this number.
    #[inline(always)]
    pub fn query_slot(&self, number: u32) -> usize
        ensures { result ≡ slot_of self.now (query number) }
    {
        number as usize
    }

    /// The slot of the entry's variable with this number.
    #[inline(always)]
    pub fn entry_slot(&self, number: u32) -> usize
        ensures { result ≡ slot_of self.now (entry number) }
    {
        self.query as usize + number as usize
    }

    /// The slot of the indicator with this number.
    #[inline(always)]
    pub fn indicator_slot(&self, number: u32) -> usize
        ensures { result ≡ slot_of self.now (ind number) }
    {
        self.query as usize + self.entry as usize + number as usize
    }

    /// Whether the slot is one of the entry's variables.
    pub fn is_entry_slot(&self, slot: usize) -> bool
        ensures { IsTrue result ↔ ((n : ℕ) × (variable_of self.now slot ≡ entry n)) }
    {
        let first = self.query as usize;
        slot >= first && slot < first + self.entry as usize
    }

    /// The slot of a variable's cell.
    pub fn slot_of(&self, cell: Cell) -> Option<usize>
        ensures { result ≡ cell_slot self.now cell }
    {
        match cell {
            Cell::App { .. } => None,
            Cell::Query(number) => Some(self.query_slot(number)),
            Cell::Entry(number) => Some(self.entry_slot(number)),
            Cell::Ind(number) => Some(self.indicator_slot(number)),
        }
    }

    /// The cell of the variable of a slot.
    pub fn cell_of(&self, slot: usize) -> Cell
        requires { slot < slot_count self.now }
        ensures { result ≡ variable_cell (variable_of self.now slot) }
    {
        let queries = self.query as usize;
        let entries = self.entry as usize;
        if slot < queries {
            return Cell::Query(slot as u32);
        }
        if slot < queries + entries {
            return Cell::Entry((slot - queries) as u32);
        }
        Cell::Ind((slot - queries - entries) as u32)
    }

    /// The slot of the cell of a variable that isn't frozen.
    pub fn free_slot(&self, cell: Cell) -> Option<usize>
        ensures { result ≡ free_slot self.now cell }
    {
        match cell {
            Cell::Query(_) if self.freeze_query => None,
            Cell::Entry(_) if self.freeze_entry => None,
            _ => self.slot_of(cell),
        }
    }
}
