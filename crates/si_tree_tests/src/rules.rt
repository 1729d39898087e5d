// The rules of a legal tree (`Legal.antt` of si_legal), each by itself.
use crate::seen::{Seen, SeenTree, right_of};
use si_defs::MOST_OCCURRENCES;
use si_flat::{Bindings, Cell};
use si_tree::{Head, Tree};

// ---- terms
/// The cells are those of one term by the numbers of arguments.
pub fn is_one_term(cells: &[Cell]) -> bool {
    let mut lacking: u64 = 1;
    for cell in cells {
        if lacking == 0 {
            return false;
        }
        lacking -= 1;
        if let Cell::App { arity, .. } = cell {
            lacking = lacking.saturating_add(u64::from(*arity));
        }
    }
    lacking == 0
}

/// The subterm that begins at each place is as long as its first cell says.
fn has_lengths(cells: &[Cell]) -> bool {
    for (place, cell) in cells.iter().enumerate() {
        let rest = &cells[place..];
        let Some(part) = rest.get(..cell.span()) else {
            return false;
        };
        if !is_one_term(part) {
            return false;
        }
    }
    true
}

/// The variables are numbered from 0 by their first occurrence, and all are of an entry.
fn is_numbered(cells: &[Cell]) -> bool {
    let mut next: u32 = 0;
    for cell in cells {
        match cell {
            Cell::App { .. } => {}
            Cell::Entry(number) => {
                if *number > next {
                    return false;
                }
                next = next.max(number.saturating_add(1));
            }
            Cell::Query(_) => return false,
            Cell::Ind(_) => return false,
        }
    }
    true
}

/// What a term with these cells begins with, as it tells children apart.
fn head(cells: &[Cell]) -> Option<Head> {
    match *cells.first()? {
        Cell::App { sym, arity, .. } => Some(Head::Sym { sym, arity }),
        Cell::Entry(number) => Some(Head::Var(number)),
        Cell::Query(_) => None,
        Cell::Ind(_) => None,
    }
}

// ---- the tree
/// Indicator 0 is known.
pub fn knows_zero(tree: &Tree) -> bool {
    tree.next() > 0
}

/// A term has no more variables than may occur in one.
pub fn has_few_variables(tree: &Tree) -> bool {
    tree.vars() as usize <= MOST_OCCURRENCES
}

/// The root has no parent and binds nothing, and its children differ by indicator 0.
pub fn has_plain_root(seen: &SeenTree<'_>) -> bool {
    let Some(root) = seen.nodes.as_slice().first() else {
        return false;
    };
    root.parent.is_none() && root.bindings.len() == 0 && root.split == Some(0)
}

/// The nodes that were seen, from the root downwards, are all of the tree, and so are the leaves.
pub fn are_all_seen(tree: &Tree, seen: &SeenTree<'_>) -> bool {
    let counts = tree.counts();
    let mut leaves: u64 = 0;
    for node in seen.nodes.as_slice() {
        if node.split.is_none() {
            leaves = leaves.saturating_add(1);
        }
    }
    counts.nodes == seen.nodes.len() as u64 && counts.leaves == leaves && counts.unmerged == 0
}

/// No node was seen twice.
pub fn are_seen_once(seen: &SeenTree<'_>) -> bool {
    let nodes = seen.nodes.as_slice();
    for (place, node) in nodes.iter().enumerate() {
        if nodes[..place].iter().any(|other| other.id == node.id) {
            return false;
        }
    }
    true
}

/// No two leaves have the same term.
pub fn do_terms_differ(seen: &SeenTree<'_>) -> bool {
    let nodes = seen.nodes.as_slice();
    for (place, node) in nodes.iter().enumerate() {
        for other in &nodes[..place] {
            let are_leaves = node.split.is_none() && other.split.is_none();
            if are_leaves && seen.term(node.term) == seen.term(other.term) {
                return false;
            }
        }
    }
    true
}

/// No posting stands twice, in one leaf or in two.
pub fn do_postings_differ(seen: &SeenTree<'_>) -> bool {
    let postings = seen.postings.as_slice();
    for (place, posting) in postings.iter().enumerate() {
        if postings[..place].contains(posting) {
            return false;
        }
    }
    true
}

// ---- each node
/// The node's parent is the node among whose children it stands. The root alone has none.
pub fn is_below_its_parent(seen: &SeenTree<'_>, node: &Seen<'_>) -> bool {
    match seen.at(node.above) {
        Some(above) => node.parent == Some(above.id),
        None => node.parent.is_none(),
    }
}

// ---- its bindings
/// Each left side is an indicator that is open below the path above: it stands in its term.
pub fn binds_open(above: &[Cell], bindings: &Bindings) -> bool {
    for pair in bindings.pairs() {
        if !above.contains(&Cell::Ind(pair.left())) {
            return false;
        }
    }
    true
}

/// How many left sides are this indicator.
fn times_bound(bindings: &Bindings, indicator: u32) -> u64 {
    let mut times: u64 = 0;
    for pair in bindings.pairs() {
        if pair.left() == indicator {
            times = times.saturating_add(1);
        }
    }
    times
}

/// No two left sides are the same.
pub fn binds_once(bindings: &Bindings) -> bool {
    for pair in bindings.pairs() {
        if times_bound(bindings, pair.left()) > 1 {
            return false;
        }
    }
    true
}

/// Each right side is the cells of exactly one term.
pub fn binds_terms(bindings: &Bindings) -> bool {
    for pair in bindings.pairs() {
        if !is_one_term(pair.right()) || !has_lengths(pair.right()) {
            return false;
        }
    }
    true
}

/// No right side is an indicator alone.
pub fn binds_no_indicator(bindings: &Bindings) -> bool {
    for pair in bindings.pairs() {
        if let Some(Cell::Ind(_)) = pair.right().first() {
            return false;
        }
    }
    true
}

/// On right sides stands no variable of a query, and all others are below the tree's bounds.
pub fn stays_within(tree: &Tree, bindings: &Bindings) -> bool {
    for pair in bindings.pairs() {
        for cell in pair.right() {
            let within = match *cell {
                Cell::App { .. } => true,
                Cell::Query(_) => false,
                Cell::Entry(number) => number < tree.vars(),
                Cell::Ind(number) => number < tree.next(),
            };
            if !within {
                return false;
            }
        }
    }
    true
}

/// How often the indicator occurs on the right sides.
fn occurrences(bindings: &Bindings, indicator: u32) -> u64 {
    let mut times: u64 = 0;
    for pair in bindings.pairs() {
        for cell in pair.right() {
            if *cell == Cell::Ind(indicator) {
                times = times.saturating_add(1);
            }
        }
    }
    times
}

/// How often the path to the node at this place opens the indicator. Above the root 0 is open.
fn openings(seen: &SeenTree<'_>, place: Option<usize>, indicator: u32) -> u64 {
    let mut times = u64::from(indicator == 0);
    let mut place = place;
    for _ in 0..seen.nodes.len() {
        let Some(node) = seen.at(place) else {
            return times;
        };
        times = times.saturating_add(occurrences(node.bindings, indicator));
        place = node.above;
    }
    times
}

/// Each indicator on the right sides is opened once on the path: nowhere above, and here once.
pub fn opens_once(seen: &SeenTree<'_>, node: &Seen<'_>) -> bool {
    for pair in node.bindings.pairs() {
        for cell in pair.right() {
            if let Cell::Ind(number) = *cell {
                let above = openings(seen, node.above, number);
                if above != 0 || occurrences(node.bindings, number) != 1 {
                    return false;
                }
            }
        }
    }
    true
}

// ---- inner nodes
/// The split is open below the node: it stands in the term of the path to it.
pub fn splits_open(seen: &SeenTree<'_>, node: &Seen<'_>) -> bool {
    match node.split {
        Some(split) => seen.term(node.term).contains(&Cell::Ind(split)),
        None => true,
    }
}

/// An inner node other than the root has two children at least.
pub fn has_enough_children(node: &Seen<'_>) -> bool {
    node.split.is_none() || node.above.is_none() || node.children.len() >= 2
}

/// Each child binds the split, to a term with the head that the node has for it, and there is no
/// other head.
pub fn do_children_bind_split(seen: &SeenTree<'_>, node: &Seen<'_>) -> bool {
    let Some(split) = node.split else {
        return node.heads.is_empty();
    };
    for (place, id) in node.children.iter().enumerate() {
        let Some(child) = seen.node(*id) else {
            return false;
        };
        let Some(right) = right_of(child.bindings, split) else {
            return false;
        };
        let Some(head) = head(right) else {
            return false;
        };
        if node.heads.get(place) != Some(&head) {
            return false;
        }
    }
    node.heads.len() == node.children.len()
}

/// No two children have the same head, and each is found by it.
pub fn do_children_differ(node: &Seen<'_>) -> bool {
    for (place, head) in node.heads.iter().enumerate() {
        if node.heads[..place].contains(head) {
            return false;
        }
    }
    node.leads
}

/// An inner node has no postings.
pub fn has_postings_at_leaf(seen: &SeenTree<'_>, node: &Seen<'_>) -> bool {
    node.split.is_none() || seen.postings_in(node.postings).is_empty()
}

// ---- leaves
/// A leaf has no children.
pub fn ends_at_leaf(node: &Seen<'_>) -> bool {
    node.split.is_some() || node.children.is_empty()
}

/// A leaf has a posting. Only where memory ran out it may have none.
pub fn stores_at_leaf(seen: &SeenTree<'_>, node: &Seen<'_>) -> bool {
    node.split.is_some() || !seen.postings_in(node.postings).is_empty()
}

/// A leaf's term has no indicator, its variables are numbered from 0 by first occurrence, and each
/// of its symbols has as many arguments as its arity.
pub fn has_leaf_term(seen: &SeenTree<'_>, node: &Seen<'_>) -> bool {
    let term = seen.term(node.term);
    node.split.is_some() || is_one_term(term) && is_numbered(term) && term.len() <= MOST_OCCURRENCES
}
