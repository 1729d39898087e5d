// The least map between clauses.
ghost use Rattle.std.specs.Prelude.{IfOk, map};
ghost use Rattle.si_defs.specs.Clauses.{AreSoundLiterals};
ghost use Rattle.si_state.specs.Subsumption.{IsMap, AnswersLeast};
ghost use Rattle.si_term.specs.Meaning.{literal_of};

use crate::flat::least_map_of;
use si_flat::{LitMap, flatten_clauses};
use si_term::Literals;
use std::alloc::{AllocError, Global};

/// The least map from the literals of `c` to those of `d`, numbered from 1; `None` where `c`
/// doesn't subsume `d`.
pub fn least_map(alloc: Global, c: &Literals, d: &Literals) -> Result<Option<LitMap>, AllocError>
    requires c { AreSoundLiterals (map literal_of c.now) }
    requires d { AreSoundLiterals (map literal_of d.now) }
    ensures { IfOk result (AnswersLeast (IsMap (map literal_of c.now) (map literal_of d.now))) }
{
    let (flat_c, flat_d) = flatten_clauses(alloc, c, d)?;
    least_map_of(alloc, flat_c.cells(), flat_d.cells())
}
