// Which literals share variables: those that do, by themselves or through others, are one part.
ghost use Rattle.std.specs.Prelude.{◌≡◌, ◌<◌, ◌↔◌, IsTrue, IfOk, IfSome, length, replicate};
ghost use Rattle.std.specs.List.{AllByRecursion};
ghost use Rattle.si_subsume.specs.Parts.{BelongToParts, AreParts, BelongsTo, owner_in};

use si_flat::Cell;
use si_unify::Slots;
use std::alloc::{AllocError, Global};

/// Stands where no literal is known yet.
const NONE: usize = usize::MAX;

/// What is known while literals are joined (Tarjan 1975). Nothing is promised of it: what comes of
/// it is looked at before it is used.
#[derive(Drop)]
struct Joining {
    // For each literal one of its part with a smaller number, or itself.
    leaders: Vec<usize>,
    // The first literal in which the variable of each slot stands.
    owners: Vec<usize>,
}

impl Joining {
    /// So many literals by themselves, and as many slots.
    fn new(alloc: Global, literals: usize, slots: usize) -> Result<Joining, AllocError> {
        let mut leaders = Vec::with_capacity(alloc, literals)?;
        for literal in 0..literals {
            leaders.push(literal)?;
        }
        let owners = vec![in alloc; NONE; slots]?;
        Ok(Joining { leaders, owners })
    }

    /// A literal of the same part with a smaller number, if one is known. The way there becomes
    /// shorter.
    fn step(&mut self, literal: usize) -> Option<usize>
        ensures { IfSome result (λ n. n < literal) }
    {
        let above = *self.leaders.get(literal)?;
        let far = *self.leaders.get(above)?;
        if literal <= above {
            return None;
        }
        let next = far.min(above);
        self.leaders[literal] = next;
        Some(next)
    }

    /// The literal by which a literal's part is known.
    fn leader(&mut self, literal: usize) -> usize {
        let mut at = literal;
        while let Some(next) = self.step(at) {
            at = next;
        }
        at
    }

    /// Joins a literal with that in which the variable of a slot stands first.
    fn join(&mut self, slot: usize, literal: usize) {
        let Some(owner) = self.owners.get(slot).copied() else {
            return;
        };
        if owner == NONE {
            self.owners[slot] = literal;
            return;
        }
        let one = self.leader(owner);
        let other = self.leader(literal);
        if let Some(leader) = self.leaders.get_mut(one.max(other)) {
            *leader = one.min(other);
        }
    }

    /// Joins a literal with those before it with which it shares variables.
    fn join_cells(&mut self, slots: &Slots, literal: usize, cells: &[Cell]) {
        for &cell in cells {
            if let Some(slot) = slots.free_slot(cell) {
                self.join(slot, literal);
            }
        }
    }

    /// Joins the literals that share variables which may be bound.
    fn join_all(&mut self, slots: &Slots, literals: &[&[Cell]]) {
        for literal in 0..literals.len() {
            self.join_cells(slots, literal, literals[literal]);
        }
    }

    /// The label of each of so many literals.
    fn labels(&mut self, alloc: Global, literals: usize) -> Result<Vec<usize>, AllocError>
        ensures { IfOk result (λ labels. length labels.items ≡ literals) }
    {
        let mut labels = Vec::with_capacity(alloc, literals)?;
        for literal in 0..literals {
            labels.push(self.leader(literal))?;
        }
        Ok(labels)
    }
}

// The label of the literal in which the variable of a slot stands first.
fn owner_of(owners: &[usize], labels: &[usize], slot: usize) -> usize
    ensures { result ≡ owner_in owners.now labels.now slot }
{
    let owner = owners.get(slot).copied().unwrap_or(NONE);
    labels.get(owner).copied().unwrap_or(0)
}

fn belongs(slots: &Slots, owners: &[usize], labels: &[usize], label: usize, cell: Cell) -> bool
    ensures { IsTrue result ↔ BelongsTo slots.now (owner_in owners.now labels.now) label cell }
{
    match slots.free_slot(cell) {
        Some(slot) => owner_of(owners, labels, slot) == label,
        None => true,
    }
}

// Whether each variable of the cells belongs to the part with this label.
fn all_belong(
    slots: &Slots,
    owners: &[usize],
    labels: &[usize],
    label: usize,
    cells: &[Cell],
) -> bool
    ensures { IsTrue result
        ↔ AllByRecursion (BelongsTo slots.now (owner_in owners.now labels.now) label) cells.now }
{
    cells
        .iter()
        .all(|cell| belongs(slots, owners, labels, label, *cell))
}

// Whether the labels tell parts that share no variable, by the owners of slots.
fn are_parts(slots: &Slots, owners: &[usize], labels: &[usize], literals: &[&[Cell]]) -> bool
    requires { length labels.now ≡ length literals.now }
    ensures apart { IsTrue result
        → BelongToParts slots.now (owner_in owners.now labels.now) labels.now literals.now }
    ensures below { IsTrue result
        → AllByRecursion (λ l. l < length literals.now) labels.now }
{
    for i in 0..literals.len() {
        let label = labels[i];
        if literals.len() <= label || !all_belong(slots, owners, labels, label, literals[i]) {
            return false;
        }
    }
    true
}

/// The label of the part of each literal. Literals of two parts share no variable that may be
/// bound.
pub(crate) fn part_labels(
    alloc: Global,
    slots: &Slots,
    literals: &[&[Cell]],
) -> Result<Vec<usize>, AllocError>
    ensures { IfOk result (λ labels. AreParts slots.now literals.now labels.items) }
{
    let mut joining = Joining::new(alloc, literals.len(), slots.count())?;
    joining.join_all(slots, literals);
    let labels = joining.labels(alloc, literals.len())?;
    if are_parts(slots, &joining.owners, &labels, literals) {
        return Ok(labels);
    }
    one_part(alloc, literals.len())
}

// All literals are one part.
fn one_part(alloc: Global, literals: usize) -> Result<Vec<usize>, AllocError>
    ensures { IfOk result (λ labels. labels.items ≡ replicate literals 0) }
{
    Ok(vec![in alloc; 0; literals]?)
}
