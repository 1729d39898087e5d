// Where clauses are kept.
ghost use Rattle.std.specs.Prelude.{◌≡◌, List, [], ◌∷◌, ◌++◌, length, IfOk, OnErr, IfErr, IfSome, IfNone};
ghost use Rattle.si_defs.specs.Clauses as defs;
ghost use Rattle.si_defs.specs.Clauses.{IsSoundClause};
ghost use Rattle.si_defs.specs.Entries.{entries};
ghost use Rattle.si_state.specs.States.{Rules};
ghost use Rattle.si_state.specs.Acceptance.{IsTaken, Accepts, Removes};
ghost use Rattle.si_term.specs.Meaning.{clause_of, name_of};
ghost use Rattle.si_sign.specs.Stores.{IsStored, Rejects};

use crate::faults::Rejected;
use si_term::{Clause, Name};

/// A list of clauses with distinct names, in the order of acceptance, and the rules by which they
/// are accepted.
pub trait ClauseStore {
    /// The clauses in order.
    ghost clauses: { Self → List defs.Clause };

    /// The rules of acceptance. No call changes them.
    ghost rules: { Self → Rules };

    /// Adds a clause, last, and answers the number of its entries. At an error the list is as
    /// before, and the clause is handed back.
    ///
    /// `Taken`: its name is kept. `Clash`: else, one of its symbols stands elsewhere with another
    /// side or arity: in front of it in the clause, or in one that is kept. `Full`: else, there
    /// would be more entries than the rules allow.
    fn add(&mut self, clause: Clause) -> Result<u32, Rejected>
        requires sound { IsSoundClause (clause_of clause) }
        ensures added { IfOk result (λ n. Accepts (rules self.old) (clauses self.old)
            (clause_of clause) (clauses self.new)) }
        ensures entries { IfOk result (λ n. n ≡ length (entries (clause_of clause))) }
        ensures rejected { IfErr result (λ r. Rejects (rules self.old) (clauses self.old)
            (clause_of clause) r.why) }
        ensures handed_back { IfErr result (λ r. r.clause ≡ clause) }
        ensures err { OnErr result (clauses self.new ≡ clauses self.old) }
        ensures rules { rules self.new ≡ rules self.old }
        ensures stored { IsStored (rules self.new) (clauses self.new) };

    /// Takes the clause with this name away, and answers the number of its entries. `None`: no
    /// clause has the name, and the list is as before.
    fn remove(&mut self, name: &Name) -> Option<u32>
        ensures removed { IfSome result (λ n. (c : defs.Clause) × Removes (clauses self.old)
            (name_of name.now) c (clauses self.new) × (n ≡ length (entries c))) }
        ensures unknown { IfNone result (IsTaken (clauses self.old) (name_of name.now) → ⊥) }
        ensures none { IfNone result (clauses self.new ≡ clauses self.old) }
        ensures rules { rules self.new ≡ rules self.old }
        ensures stored { IsStored (rules self.new) (clauses self.new) };

    /// Takes the last clause away, and answers the number of its entries. `None`: there is none.
    fn remove_last(&mut self) -> Option<u32>
        ensures removed { IfSome result (λ n. (c : defs.Clause) × (clauses self.old
            ≡ clauses self.new ++ c ∷ []) × (n ≡ length (entries c))) }
        ensures empty { IfNone result (clauses self.old ≡ []) }
        ensures none { IfNone result (clauses self.new ≡ clauses self.old) }
        ensures rules { rules self.new ≡ rules self.old }
        ensures stored { IsStored (rules self.new) (clauses self.new) };
}
