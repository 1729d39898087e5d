// A tree as it is read from outside: its nodes, and the term of the path to each.
ghost use Rattle.si_legal.specs.Legal.{IsLegal};
ghost use Rattle.si_tree.specs.Reading.{IsNode};

use si_flat::{Bindings, Cell};
use si_legal::Posting;
use si_tree::{Counts, Head, NodeId, Tree};
use std::alloc::{AllocError, Global};

/// Where some items stand in a longer list.
#[derive(Clone, Copy)]
pub struct Span {
    pub from: usize,
    pub to: usize,
}

/// A node as it was read, and what follows from the nodes above it.
#[derive(Clone, Copy)]
pub struct Seen<'a> {
    pub id: NodeId,
    /// The node among whose children it was found, by its place among those that were seen. The
    /// root has none.
    pub above: Option<usize>,
    pub parent: Option<NodeId>,
    pub bindings: &'a Bindings,
    pub split: Option<u32>,
    pub children: &'a [NodeId],
    pub heads: &'a [Head],
    /// Whether each head leads to its child.
    pub leads: bool,
    pub postings: Span,
    pub term: Span,
}

/// What was seen of a tree. Each node comes after the one above it.
#[derive(Drop)]
pub struct SeenTree<'a> {
    pub nodes: Vec<Seen<'a>>,
    /// The postings of all nodes.
    pub postings: Vec<Posting>,
    /// The terms of all paths, without the lengths of their subterms.
    pub cells: Vec<Cell>,
}

/// The cell without the length of its subterm, which changes where an indicator is replaced.
pub fn bare(cell: Cell) -> Cell {
    match cell {
        Cell::App { sym, arity, .. } => Cell::App { sym, arity, len: 0 },
        other => other,
    }
}

/// What the bindings give an indicator.
pub fn right_of(bindings: &Bindings, indicator: u32) -> Option<&[Cell]> {
    for pair in bindings.pairs() {
        if pair.left() == indicator {
            return Some(pair.right());
        }
    }
    None
}

/// These items of a list, and none where it is too short.
pub fn items_at<T>(items: &[T], span: Span) -> &[T] {
    match items.get(span.from..span.to) {
        Some(part) => part,
        None => Default::default(),
    }
}

/// Whether each head of a node's children leads to the child at its place.
fn leads(tree: &Tree, id: NodeId) -> bool
    requires { IsNode tree.now id }
{
    let children = tree.children(id);
    for (place, head) in tree.heads(id).iter().enumerate() {
        if tree.child(id, *head) != children.get(place).copied() {
            return false;
        }
    }
    true
}

impl<'a> SeenTree<'a> {
    /// Nothing was seen yet.
    pub fn new(alloc: Global) -> SeenTree<'a> {
        SeenTree {
            nodes: Vec::new(alloc),
            postings: Vec::new(alloc),
            cells: Vec::new(alloc),
        }
    }

    /// The node at this place.
    pub fn at(&self, place: Option<usize>) -> Option<&Seen<'a>> {
        self.nodes.as_slice().get(place?)
    }

    /// The term of the path to the node at this place. Above the root there is none.
    pub fn term_at(&self, place: Option<usize>) -> &[Cell] {
        match self.at(place) {
            Some(node) => self.term(node.term),
            None => Default::default(),
        }
    }

    /// The node with this name.
    pub fn node(&self, id: NodeId) -> Option<&Seen<'a>> {
        for node in self.nodes.as_slice() {
            if node.id == id {
                return Some(node);
            }
        }
        None
    }

    /// A path's term: indicator 0 with the bindings of all nodes on the path applied, from the root
    /// on.
    pub fn term(&self, term: Span) -> &[Cell] {
        items_at(self.cells.as_slice(), term)
    }

    /// The postings of a node.
    pub fn postings_in(&self, postings: Span) -> &[Posting] {
        items_at(self.postings.as_slice(), postings)
    }

    /// Appends the cell, or what the bindings give it where it is an indicator.
    fn put(&mut self, bindings: &Bindings, cell: Cell) -> Result<(), AllocError> {
        let Cell::Ind(number) = cell else {
            self.cells.push(cell)?;
            return Ok(());
        };
        let Some(right) = right_of(bindings, number) else {
            self.cells.push(cell)?;
            return Ok(());
        };
        for other in right {
            self.cells.push(bare(*other))?;
        }
        Ok(())
    }

    /// The same with the cell at this place.
    fn put_at(&mut self, bindings: &Bindings, place: usize) -> Result<(), AllocError> {
        match self.cells.as_slice().get(place).copied() {
            Some(cell) => self.put(bindings, cell),
            None => Ok(()),
        }
    }

    /// Appends the term of the path to a node with these bindings, where the path above it has that
    /// term, and answers where it stands.
    fn put_term(&mut self, bindings: &Bindings, above: Option<Span>) -> Result<Span, AllocError> {
        let from = self.cells.len();
        match above {
            Some(term) => {
                for place in term.from..term.to {
                    self.put_at(bindings, place)?;
                }
            }
            None => self.put(bindings, Cell::Ind(0))?,
        }
        let to = self.cells.len();
        Ok(Span { from, to })
    }

    /// Reads the node, and answers its place.
    fn read(
        &mut self,
        tree: &'a Tree,
        id: NodeId,
        above: Option<usize>,
    ) -> Result<usize, AllocError>
        requires { IsNode tree.now id }
    {
        let bindings = tree.bindings(id);
        let term_above = match self.at(above) {
            Some(node) => Some(node.term),
            None => None,
        };
        let term = self.put_term(bindings, term_above)?;
        let from = self.postings.len();
        tree.postings(id).append_to(&mut self.postings)?;
        let to = self.postings.len();
        let place = self.nodes.len();
        self.nodes.reserve(1)?;
        self.nodes.push_reserved(Seen {
            id,
            above,
            parent: tree.parent(id),
            bindings,
            split: tree.split(id),
            children: tree.children(id),
            heads: tree.heads(id),
            leads: leads(tree, id),
            postings: Span { from, to },
            term,
        });
        Ok(place)
    }

    /// Reads the node and all below it, as deep as there are nodes in the tree.
    fn read_below(
        &mut self,
        tree: &'a Tree,
        id: NodeId,
        above: Option<usize>,
        deep: u64,
    ) -> Result<(), AllocError>
        requires legal { IsLegal tree.now }
        requires node { IsNode tree.now id }
    {
        let place = self.read(tree, id, above)?;
        if deep == 0 {
            return Ok(());
        }
        for child in tree.children(id) {
            self.read_below(tree, *child, Some(place), deep - 1)?;
        }
        Ok(())
    }

    /// Reads all nodes.
    pub fn read_all(&mut self, tree: &'a Tree) -> Result<(), AllocError> {
        let root = tree.root();
        self.read_below(tree, root, None, tree.counts().nodes)
    }
}
