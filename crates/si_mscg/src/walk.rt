// The walk over two lists of bindings.
ghost use Rattle.std.specs.Prelude.{◌≡◌, ◌+◌, ◌++◌, ◌<◌, ◌^◌, IfOk, OnOk};
ghost use Rattle.si_defs.specs.Substitutions.{IsAmong};
ghost use Rattle.si_flat.specs.Cells.{IsWhole};
ghost use Rattle.si_flat.specs.Rows.{left_sides};
ghost use Rattle.si_mscg.specs.Walking.{BeginsWithTerm, Cuts, HaveSides, Keeps, MayAgree, MayLeave, MayShare, MaySharePair, OfSides, Shares, SharesPair, start, state_of, with_agreeing, with_differing, with_whole};

use crate::spans::{set_spans, without_span};
use crate::{have_same_head, have_same_heads};
use si_flat::{Bindings, Cell, Pair, Split};
use std::alloc::{AllocError, Global};

/// What was found so far, and the number of the next fresh indicator.
#[derive(Drop)]
pub(crate) struct Walk {
    split: Split,
    next: u32,
    /// The cells of one common right side, while they are found. Symbols don't know their numbers
    /// of cells yet.
    draft: Vec<Cell>,
}

impl Walk {
    /// Nothing was found yet. There is room for what two lists of so many cells can have.
    pub(crate) fn new(
        alloc: Global,
        node_cells: usize,
        new_cells: usize,
        next: u32,
    ) -> Result<Walk, AllocError>
        ensures { IfOk result (λ walk. state_of walk ≡ start next) }
    {
        Ok(Walk {
            split: Split {
                common: Bindings::with_capacity(alloc, node_cells)?,
                rest_node: Bindings::with_capacity(alloc, node_cells)?,
                rest_new: Bindings::with_capacity(alloc, new_cells)?,
            },
            next,
            draft: Vec::with_capacity(alloc, node_cells)?,
        })
    }

    /// The parts, with no room after their last cells.
    pub(crate) fn finish(&self, alloc: Global) -> Result<Split, AllocError>
        ensures { IfOk result (λ split. split ≡ self.now.split) }
    {
        Ok(Split {
            common: self.split.common.copy(alloc)?,
            rest_node: self.split.rest_node.copy(alloc)?,
            rest_new: self.split.rest_new.copy(alloc)?,
        })
    }

    /// Leaves to both rests what differs at the root.
    pub(crate) fn leave_differing(
        &mut self,
        node: &Bindings,
        new: &Bindings,
    ) -> Result<(), AllocError>
        requires { HaveSides node.now new.now (MayLeave (state_of self.old)) }
        ensures { OnOk result (OfSides node.now new.now
            (λ ss. state_of self.new ≡ with_differing (state_of self.old) ss)) }
    {
        for (pair, other) in node.pairs().zip(new.pairs()) {
            if have_same_heads(&pair, &other) {
                continue;
            }
            self.leave(&pair, &other)?;
        }
        Ok(())
    }

    /// Puts into the common part what agrees at the root, and what is left of it into the rests.
    pub(crate) fn share_agreeing(
        &mut self,
        node: &Bindings,
        new: &Bindings,
    ) -> Result<(), AllocError>
        requires { HaveSides node.now new.now (MayAgree (state_of self.old)) }
        ensures { OnOk result (OfSides node.now new.now
            (λ ss. state_of self.new ≡ with_agreeing (state_of self.old) ss)) }
    {
        for (pair, other) in node.pairs().zip(new.pairs()) {
            if !have_same_heads(&pair, &other) {
                continue;
            }
            self.share_pair(&pair, &other)?;
        }
        Ok(())
    }

    // Leaves two right sides to the rests.
    fn leave(&mut self, pair: &Pair<'_>, other: &Pair<'_>) -> Result<(), AllocError>
        requires unbound { IsAmong (left_sides self.old.split.rest_node) pair.now.0 → ⊥ }
        requires new_unbound { IsAmong (left_sides self.old.split.rest_new) pair.now.0 → ⊥ }
        ensures { OnOk result (state_of self.new
            ≡ with_whole (state_of self.old) pair.now other.now) }
    {
        self.split.rest_node.push(pair.left(), pair.right())?;
        self.split.rest_new.push(pair.left(), other.right())?;
        Ok(())
    }

    // Puts what two right sides have in common into the common part, and the others into the
    // rests.
    fn share_pair(&mut self, pair: &Pair<'_>, other: &Pair<'_>) -> Result<(), AllocError>
        requires { MaySharePair (state_of self.old) pair.now other.now }
        ensures { OnOk result (SharesPair (state_of self.old) pair.now other.now
            (state_of self.new)) }
    {
        self.share(pair.right(), other.right())?;
        set_spans(&mut self.draft);
        self.split.common.push(pair.left(), self.draft.as_slice())?;
        self.draft.clear();
        Ok(())
    }

    // Drafts the common part of two terms, and leaves the others to the rests.
    fn share<'a>(&mut self, mut node: &'a [Cell], mut new: &'a [Cell]) -> Result<(), AllocError>
        requires whole { IsWhole node.now }
        requires new_whole { IsWhole new.now }
        requires may_share { MayShare (state_of self.old) node.now new.now }
        ensures { OnOk result (Shares self.old node.entry.now new.entry.now self.new) }
    {
        while let Some((cell, arguments)) = node.split_first() {
            let Some((other, inside)) = new.split_first() else {
                unreachable!()
            };
            if let Cell::Ind(kept) = *cell {
                node = arguments;
                new = self.keep(kept, new)?;
            } else if have_same_head(*cell, *other) {
                self.draft.push(without_span(*cell))?;
                node = arguments;
                new = inside;
            } else {
                let (node_rest, new_rest) = self.cut(node, new)?;
                node = node_rest;
                new = new_rest;
            }
        }
        Ok(())
    }

    // Keeps an indicator of the node, and leaves the first term of the others to the new rest.
    // Answers what stands after that.
    fn keep<'a>(&mut self, kept: u32, new: &'a [Cell]) -> Result<&'a [Cell], AllocError>
        requires begins { BeginsWithTerm new.now }
        requires unbound { IsAmong (left_sides self.old.split.rest_new) kept → ⊥ }
        ensures { IfOk result (λ rest. Keeps self.old kept new.now self.new rest.now) }
    {
        let (part, rest) = first_term(new);
        self.draft.push(Cell::Ind(kept))?;
        self.split.rest_new.push(kept, part)?;
        Ok(rest)
    }

    // Has a fresh indicator stand for the two first terms, and leaves these to the rests. Answers
    // what stands after them.
    fn cut<'a>(
        &mut self,
        node: &'a [Cell],
        new: &'a [Cell],
    ) -> Result<(&'a [Cell], &'a [Cell]), AllocError>
        requires begins { BeginsWithTerm node.now }
        requires new_begins { BeginsWithTerm new.now }
        requires unbound { IsAmong (left_sides self.old.split.rest_node) self.old.next → ⊥ }
        requires new_unbound { IsAmong (left_sides self.old.split.rest_new) self.old.next → ⊥ }
        requires small { self.old.next + 1 < 2 ^ 32 }
        ensures { IfOk result (λ rests. Cuts self.old node.now new.now self.new rests.0.now
            rests.1.now) }
    {
        let (left, node_rest) = first_term(node);
        let (part, new_rest) = first_term(new);
        self.draft.push(Cell::Ind(self.next))?;
        self.split.rest_node.push(self.next, left)?;
        self.split.rest_new.push(self.next, part)?;
        self.next += 1;
        Ok((node_rest, new_rest))
    }
}

// The cells of the first of some terms, and the others.
fn first_term(cells: &[Cell]) -> (&[Cell], &[Cell])
    requires { BeginsWithTerm cells.now }
    ensures whole { IsWhole result.0.now }
    ensures parts { cells.now ≡ result.0.now ++ result.1.now }
{
    cells.split_at(cells[0].span())
}
