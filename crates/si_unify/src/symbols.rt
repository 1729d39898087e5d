// The heads of terms, told by their first cells.
ghost use Rattle.std.specs.Prelude.{◌≡◌, ◌↔◌, IsTrue};
ghost use Rattle.si_unify.specs.Symbols.{same_symbol, IsSameVariable};

use si_flat::Cell;

/// Whether terms that begin with these cells have the same symbol at the head.
#[inline(always)]
pub fn have_same_symbol(left: Cell, right: Cell) -> bool
    ensures { result ≡ same_symbol left right }
{
    match (left, right) {
        (
            Cell::App { sym, arity, .. },
            Cell::App {
                sym: other_sym,
                arity: other_arity,
                ..
            },
        ) => sym == other_sym && arity == other_arity,
        _ => false,
    }
}

/// Whether the cells are those of one variable.
#[inline(always)]
pub fn is_same_variable(one: Cell, other: Cell) -> bool
    ensures { IsTrue result ↔ IsSameVariable one other }
{
    match (one, other) {
        (Cell::Query(number), Cell::Query(other)) => number == other,
        (Cell::Entry(number), Cell::Entry(other)) => number == other,
        (Cell::Ind(number), Cell::Ind(other)) => number == other,
        _ => false,
    }
}
