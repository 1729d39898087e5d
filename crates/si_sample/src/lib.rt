//! Clauses that are drawn at random, the same ones from the same start. They serve to try the index
//! on many clauses without a file.
#![tactic(auto)]

ghost use Rattle.std.specs.Prelude.{◌≤◌, ◌*◌, List, IfOk, length};
ghost use Rattle.si_defs.specs.Clauses as defs;
ghost use Rattle.si_defs.specs.Generator.{IsSample};
ghost use Rattle.si_state.specs.Harvest.{AreClauses};
ghost use Rattle.si_state.specs.declared.TheConstants.{GREATEST_START, MOST_DRAWN};

use std::alloc::{AllocError, Global};

mod sampler;

use sampler::Sampler;

/// The text of `count` clauses, a line each, that are drawn from `start`.
pub fn sample(alloc: Global, start: u32, count: u32) -> Result<Vec<u8>, AllocError>
    requires start { start ≤ GREATEST_START }
    requires count { (1 ≤ count) × (count ≤ MOST_DRAWN) }
    ensures drawn { IfOk result (λ text. IsSample start count text.items) }
    ensures clauses { IfOk result (λ text. (clauses : List defs.Clause)
        × AreClauses clauses text.items) }
    ensures short { IfOk result (λ text. length text.items ≤ 95 * count) }
{
    let mut sampler = Sampler::new(alloc, start);
    for i in 0..count {
        sampler.clause(i + 1)?;
    }
    Ok(sampler.into_text())
}
