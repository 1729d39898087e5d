// The literals of each part, found one after the other.
ghost use Rattle.std.specs.Prelude.{◌≡◌, ◌<◌, ◌-◌, ◌^◌, ◌++◌, ℕ, IfOk, OnOk, length, map};
ghost use Rattle.std.specs.List.{AllByRecursion};
ghost use Rattle.si_subsume.specs.Parts.{AreChained, select, parts_from};
ghost use Rattle.si_subsume.specs.Search.{number_from_one};

use crate::search::Choice;
use si_flat::Cell;
use std::alloc::{AllocError, Global};
use std::marker::Model;

/// The literals with each label, one after the other. Contracts see the labels.
#[derive(Drop)]
pub(crate) struct Chains {
    labels: Vec<usize>,
    // For each label the first literal that has it,
    first: Vec<usize>,
    // and for each literal the next one with its label. Where there is none, their number stands.
    next: Vec<usize>,
}

impl Model for Chains {
    ghost use Rattle.std.specs.Prelude.{ℕ, List};
    ghost use Rattle.si_subsume.specs.Parts.{AreChained};

    ghost Value = { List ℕ };

    ghost view = { λ c. c.labels.items };

    ghost invariant = { λ c. AreChained c.first.items c.next.items c.labels.items };
}

// The first literal with each label, and the next one with the label of each literal.
fn chain(alloc: Global, labels: &[usize]) -> Result<(Vec<usize>, Vec<usize>), AllocError>
    requires { AllByRecursion (λ l. l < length labels.now) labels.now }
    ensures { IfOk result (λ r. AreChained r.0.items r.1.items labels.now) }
{
    let end = labels.len();
    let mut first = vec![in alloc; end; end]?;
    let mut next = Vec::with_capacity(alloc, end)?;
    for behind in 0..end {
        let number = end - 1 - behind;
        let label = labels[number];
        next.push(first[label])?;
        first[label] = number;
    }
    next.reverse();
    Ok((first, next))
}

impl Chains {
    /// The chains of literals with these labels.
    pub(crate) fn of(alloc: Global, labels: Vec<usize>) -> Result<Chains, AllocError>
        requires { AllByRecursion (λ l. l < length labels.items) labels.items }
        ensures { IfOk result (λ c. c ≡ labels.items) }
    {
        let (first, next) = chain(alloc, &labels)?;
        Ok(Chains {
            labels,
            first,
            next,
        })
    }

    /// Appends the literals with a label, in order.
    fn append_part<'a>(
        &self,
        label: usize,
        literals: &[&'a [Cell]],
        grouped: &mut Vec<&'a [Cell]>,
    ) -> Result<(), AllocError>
        requires sizes { length literals.now ≡ length self.now }
        requires label { label < length self.now }
        ensures { OnOk result (grouped.new.items
            ≡ grouped.old.items ++ select self.now label literals.now) }
    {
        let mut at = self.first[label];
        while at < literals.len() {
            grouped.push(literals[at])?;
            at = self.next[at];
        }
        Ok(())
    }

    /// How many literals have a label.
    pub(crate) fn part_len(&self, label: usize) -> usize
        requires { label < length self.now }
        ensures { result ≡ length (select self.now label self.now) }
    {
        let mut count = 0;
        let mut at = self.first[label];
        while at < self.next.len() {
            count += 1;
            at = self.next[at];
        }
        count
    }

    /// The literals, those of each part one after the other, by rising labels.
    pub(crate) fn grouped<'a>(
        &self,
        alloc: Global,
        literals: &[&'a [Cell]],
    ) -> Result<Vec<&'a [Cell]>, AllocError>
        requires { length literals.now ≡ length self.now }
        ensures { IfOk result (λ g. g.items
            ≡ parts_from self.now 0 (length literals.now) literals.now) }
    {
        let mut grouped = Vec::with_capacity(alloc, literals.len())?;
        for label in 0..literals.len() {
            self.append_part(label, literals, &mut grouped)?;
        }
        Ok(grouped)
    }

    /// Writes the numbers of the targets that were chosen for the literals with a label.
    pub(crate) fn write(&self, label: usize, choices: &[Choice], numbers: &mut Vec<u32>)
        requires sizes { length numbers.old.items ≡ length self.now }
        requires label { label < length self.now }
        requires count { length choices.now
            ≡ length (select self.now label numbers.old.items) }
        requires small { AllByRecursion (λ choice. choice.number < 2 ^ 32 - 1) choices.now }
        ensures own { select self.now label numbers.new.items
            ≡ map number_from_one choices.now }
        ensures others { (p : ℕ) → (p ≡ label → ⊥)
            → select self.now p numbers.new.items
            ≡ select self.now p numbers.old.items }
        ensures size { length numbers.new.items ≡ length self.now }
    {
        let mut at = self.first[label];
        for i in 0..choices.len() {
            numbers[at] = choices[i].number as u32 + 1;
            at = self.next[at];
        }
    }
}
