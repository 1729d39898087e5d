// Where a posting stands.
ghost use Rattle.std.specs.Prelude.{◌≡◌, ◌≤◌, ◌^◌, IfSome, IfNone};
ghost use Rattle.si_forest.specs.Locations.{location};

use si_tree::NodeId;
use std::marker::Model;

/// In which tree a posting stands, and in which of its leaves. Contracts see both.
#[derive(Clone, Copy)]
pub(crate) struct Location {
    // Twice the leaf's number, and one more in the tree of literals.
    number: u32,
}

impl Model for Location {
    ghost use Rattle.si_forest.specs.Codes.{location_code};
    ghost use Rattle.si_forest.specs.Locations.{Location as Place, number_of, location_of, number_again};

    ghost Value = { Place };

    ghost coded = { location_code };

    ghost view = { λ at. location_of at.number };

    ghost inverse = { λ at. record { number = number_of at } };

    ghost inverse_ok = { λ at _ i. record { number = number_again at.number i } };
}

impl Location {
    /// The location at this leaf, where twice its number is a `u32`.
    pub(crate) fn new(literal: bool, leaf: NodeId) -> Option<Location>
        ensures some { IfSome result (λ at. at ≡ location literal leaf) }
        ensures none { IfNone result (2 ^ 31 ≤ leaf) }
    {
        let doubled = leaf.number().checked_mul(2)?;
        Some(Location {
            number: doubled + literal as u32,
        })
    }

    /// Whether it is in the tree of literals.
    pub(crate) fn literal(self) -> bool
        ensures { result ≡ self.literal }
    {
        self.number % 2 == 1
    }

    /// The leaf.
    pub(crate) fn leaf(self) -> NodeId
        ensures { result ≡ self.leaf }
    {
        NodeId::with_number(self.number / 2)
    }
}
