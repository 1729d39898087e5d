// The indicators that a path opens, and where in a term stands what they stand for.
ghost use Rattle.std.specs.Prelude.{◌≡◌, ◌<◌, ◌≤◌, [], ◌∷◌, ◌++◌, false, IfOk, OnOk, OnErr, length, take};
ghost use Rattle.si_defs.specs.Substitutions.{IsAmong};
ghost use Rattle.si_flat.specs.Cells.{IsWhole};
ghost use Rattle.si_insert.specs.Opened.{numbers, BeginsAtPlace, with_bound, open_pairs, AreWithin};

use si_flat::{Bindings, reach, sub};
use std::alloc::{AllocError, Global};
use std::marker::Model;

/// An indicator that a path opens.
#[derive(Clone, Copy)]
pub struct Opened {
    /// Its number.
    pub indicator: u32,
    /// The place of the first cell of what stands for it.
    pub at: usize,
    /// Whether the path binds it.
    pub bound: bool,
}

/// The memory of an insertion: the indicators that a path opens, in the order in which it opens
/// them. It is lent to one insertion after the other.
#[derive(Drop)]
pub struct Openings {
    opened: Vec<Opened>,
    // Where each indicator stands among them. What is left from an earlier path is told by looking
    // there (Briggs and Torczon 1993).
    places: Vec<usize>,
}

impl Model for Openings {
    ghost use Rattle.std.specs.Prelude.{List};
    ghost use Rattle.si_defs.specs.Substitutions.{AreDistinct};
    ghost use Rattle.si_insert.specs.declared.open.Opened.{Opened as Seen};
    ghost use Rattle.si_insert.specs.Opened.{numbers, AreListedFrom};

    ghost Value = { List Seen };

    ghost view = { λ o. o.opened.items };

    ghost invariant = { λ o. AreListedFrom o.places.items 0 o.opened.items
        × AreDistinct (numbers o.opened.items) };
}

impl Openings {
    /// No indicator is open.
    pub fn new(alloc: Global) -> Openings
        ensures { result ≡ [] }
    {
        Openings {
            opened: Vec::new(alloc),
            places: Vec::new(alloc),
        }
    }

    /// Begins anew, with indicator 0 for the whole term.
    pub(crate) fn start(&mut self) -> Result<(), AllocError>
        ensures { OnOk result (self.new ≡ record { indicator = 0; at = 0; bound = false } ∷ []) }
    {
        self.undo(0);
        self.open(0, 0)
    }

    /// The number of indicators that were opened.
    pub(crate) fn mark(&self) -> usize
        ensures { result ≡ length self.now }
    {
        self.opened.len()
    }

    /// Forgets all indicators but the first so many.
    pub(crate) fn undo(&mut self, mark: usize)
        requires { mark ≤ length self.old }
        ensures { self.new ≡ take mark self.old }
    {
        self.opened.truncate(mark);
    }

    /// Opens an indicator. At an error nothing has changed.
    pub(crate) fn open(&mut self, indicator: u32, at: usize) -> Result<(), AllocError>
        requires { IsAmong (numbers self.old) indicator → ⊥ }
        ensures ok { OnOk result (self.new ≡ self.old
            ++ record { indicator = indicator; at = at; bound = false } ∷ []) }
        ensures err { OnErr result (self.new ≡ self.old) }
    {
        reach(&mut self.places, indicator, 0)?;
        self.opened.push(Opened {
            indicator,
            at,
            bound: false,
        })?;
        self.places[indicator as usize] = self.opened.len() - 1;
        Ok(())
    }

    /// The place of what an indicator stands for.
    pub(crate) fn at(&self, indicator: u32) -> usize
        requires { IsAmong (numbers self.now) indicator }
        ensures { BeginsAtPlace self.now indicator result }
    {
        self.opened[self.places[indicator as usize]].at
    }

    /// Binds an indicator.
    pub(crate) fn bind(&mut self, indicator: u32)
        requires { IsAmong (numbers self.old) indicator }
        ensures { self.new ≡ with_bound indicator self.old }
    {
        let number = self.places[indicator as usize];
        self.opened[number].bound = true;
    }

    /// What stands for the indicators that aren't bound.
    pub(crate) fn bindings(
        &self,
        alloc: Global,
        cells: &[si_flat::Cell],
    ) -> Result<Bindings, AllocError>
        requires whole { IsWhole cells.now }
        requires within { AreWithin cells.now self.now }
        ensures { IfOk result (λ bindings. bindings ≡ open_pairs cells.now self.now) }
    {
        let room = cells.len().saturating_add(self.opened.len());
        let mut bindings = Bindings::with_capacity(alloc, room)?;
        for opened in self.opened.as_slice() {
            if opened.bound {
                continue;
            }
            bindings.push(opened.indicator, sub(cells, opened.at))?;
        }
        bindings.copy(alloc)
    }
}
