// How many variables a term has.
ghost use Rattle.std.specs.Prelude.{◌≡◌, length};
ghost use Rattle.si_flat.specs.Cells.{IsWhole};
ghost use Rattle.si_form.specs.Answers.{AreNumbered};
ghost use Rattle.si_form.specs.Unifying.{HasVariables};

use crate::matching::variable_number;
use si_flat::{Cell, Owner};

// The number of cells of a term.
pub(crate) fn size(cells: &[Cell]) -> u32
    requires { IsWhole cells.now }
    ensures { result ≡ length cells.now }
{
    match cells[0] {
        Cell::App { len, .. } => len,
        Cell::Query(_) | Cell::Entry(_) | Cell::Ind(_) => 1,
    }
}

/// The number of variables of a term, all of which are the owner's.
pub(crate) fn count_variables(owner: Owner, cells: &[Cell]) -> u32
    requires whole { IsWhole cells.now }
    requires numbered { AreNumbered owner cells.now }
    ensures { HasVariables owner cells.now result }
{
    let mut count = 0;
    for at in 0..size(cells) {
        let Some(number) = variable_number(owner, cells[at as usize]) else {
            continue;
        };
        if number == count {
            count += 1;
        }
    }
    count
}
