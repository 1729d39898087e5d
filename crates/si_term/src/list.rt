// Lists that contracts see as lists of their items.
ghost use Rattle.std.specs.Prelude.{◌≡◌, ◌<◌, [], ◌∷◌, ◌++◌, IfOk, OnOk, OnErr, Some, length, slice_get};

use crate::clause::{Literal, Name};
use crate::term::Sym;
use crate::text::Text;
use std::alloc::{AllocError, Global};
use std::marker::Model;

/// A list of items, which contracts see as the list of what the items are seen as.
#[derive(Drop)]
pub struct Items<T> {
    items: Vec<T>,
}

/// The literals of a clause or a formula.
pub type Literals = Items<Literal>;

/// The names of clauses.
pub type Names = Items<Name>;

/// Symbols.
pub type Syms = Items<Sym>;

/// The names of variables.
pub type Texts = Items<Text>;

impl<T> Model for Items<T> {
    ghost use Rattle.std.specs.Prelude.{List};

    ghost Value = { List T };

    ghost view = { λ a. a.items.items };
}

impl<T> Items<T> {
    /// The empty list.
    pub fn new(alloc: Global) -> Items<T>
        ensures { result ≡ [] }
    {
        Items {
            items: Vec::new(alloc),
        }
    }

    /// The empty list, with room for as many items and no more.
    pub fn with_capacity(alloc: Global, capacity: usize) -> Result<Items<T>, AllocError>
        ensures { IfOk result (λ items. items ≡ []) }
    {
        Ok(Items {
            items: Vec::with_capacity(alloc, capacity)?,
        })
    }

    /// The number of items.
    pub fn len(&self) -> usize
        ensures { result ≡ length self.now }
    {
        self.items.len()
    }

    /// The item with this number from 0.
    pub fn at(&self, n: usize) -> &T
        requires { n < length self.now }
        ensures { slice_get self.now n ≡ Some result.now }
    {
        &self.items[n]
    }

    /// The items in order.
    pub fn as_slice(&self) -> &[T]
        ensures { result.now ≡ self.now }
    {
        self.items.as_slice()
    }
}

impl<T: Drop> Items<T> {
    /// One item, without room for more.
    pub fn one(alloc: Global, item: T) -> Result<Items<T>, AllocError>
        ensures { IfOk result (λ items. items ≡ item ∷ []) }
    {
        let mut items = Vec::with_capacity(alloc, 1)?;
        items.push_reserved(item);
        Ok(Items { items })
    }

    /// Two items, without room for more.
    pub fn pair(alloc: Global, left: T, right: T) -> Result<Items<T>, AllocError>
        ensures { IfOk result (λ items. items ≡ left ∷ right ∷ []) }
    {
        let mut items = Vec::with_capacity(alloc, 2)?;
        items.push_reserved(left);
        items.push_reserved(right);
        Ok(Items { items })
    }

    /// Three items, without room for more.
    pub fn three(alloc: Global, first: T, second: T, third: T) -> Result<Items<T>, AllocError>
        ensures { IfOk result (λ items. items ≡ first ∷ second ∷ third ∷ []) }
    {
        let mut items = Vec::with_capacity(alloc, 3)?;
        items.push_reserved(first);
        items.push_reserved(second);
        items.push_reserved(third);
        Ok(Items { items })
    }

    /// Gives back the room that no item stands in, as far as there is memory for that.
    pub fn shrink(&mut self)
        ensures { self.new ≡ self.old }
    {
        self.items.shrink_to_fit();
    }

    /// Appends an item. At an error the list is as before, and the item is dropped.
    pub fn push(&mut self, item: T) -> Result<(), AllocError>
        ensures ok { OnOk result (self.new ≡ self.old ++ item ∷ []) }
        ensures err { OnErr result (self.new ≡ self.old) }
    {
        self.items.push(item)?;
        Ok(())
    }
}
