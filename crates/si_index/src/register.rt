// The register of clauses: their names, their symbols, and how many entries they have.
ghost use Rattle.std.specs.Prelude.{◌≡◌, ◌+◌, ◌≤◌, [], None, IfOk, OnOk, OnErr, IfErr, length};
ghost use Rattle.si_defs.specs.Symbols.{Symbol, times};
ghost use Rattle.si_defs.specs.Clauses as defs;
ghost use Rattle.si_defs.specs.Entries.{clause_symbols, entries};
ghost use Rattle.si_defs.specs.declared.TheConstants.{MOST_OCCURRENCES};
ghost use Rattle.si_state.specs.States.{limited_to};
ghost use Rattle.si_state.specs.Acceptance.{AllAgree};
ghost use Rattle.si_state.specs.Signatures as signatures;
ghost use Rattle.si_state.specs.Signatures.{IsSignature, uses_of, known_symbols};
ghost use Rattle.si_term.specs.Meaning.{clause_of};
ghost use Rattle.si_sign.specs.declared.uses.TheConstants.{MOST_USES};
ghost use Rattle.si_index.specs.Names.{key_of_name, AreNamed};
ghost use Rattle.si_index.specs.Register.{Admits, CountsClause, UncountsClause, StrikesOut, IsSameRegister, Bars};

use crate::names::ClauseNames;
use si_keyed::KeyedList;
use si_lanes::Row;
use si_sign::{AddFault, Signature, TakeFault};
use si_term::{Clause, entry_count};
use std::alloc::Global;

/// The keys of some clauses by their names, their signature, and the number of their entries.
#[derive(Drop)]
pub struct Register {
    pub names: ClauseNames,
    pub signature: Signature,
    pub entries: u64,
}

impl Register {
    /// The register of no clause.
    pub fn new(alloc: Global) -> Register
        ensures names { (name : defs.Name) → key_of_name [] result.names name ≡ None }
        ensures signature { result.signature ≡ [] }
        ensures entries { result.entries ≡ 0 }
    {
        Register {
            names: ClauseNames::new(alloc),
            signature: Signature::new(alloc),
            entries: 0,
        }
    }

    /// Counts the symbols and the entries of a clause beside these, and answers the number of its
    /// entries. The names stay as they are. At an error the register says the same as before.
    ///
    /// `Taken`: its name is there. `Clash`: else, a symbol of it has another shape than one that is
    /// there or stands earlier in it. `Full`: else, there would be more entries than the limit.
    pub fn enter(
        &mut self,
        clauses: &KeyedList<Clause, Row>,
        clause: &Clause,
        limit: u64,
    ) -> Result<u32, AddFault>
        requires named { AreNamed clauses.now.items (key_of_name clauses.now.items self.old.names) }
        requires signature { IsSignature self.old.signature }
        requires room { signatures.total self.old.signature
            + length (clause_symbols (clause_of clause.now)) ≤ MOST_USES }
        requires counted { self.old.entries ≤ MOST_OCCURRENCES }
        requires few { length (entries (clause_of clause.now)) ≤ MOST_OCCURRENCES }
        ensures admits { OnOk result (Admits (limited_to limit) clauses.now.items self.old
            (clause_of clause.now)) }
        ensures enters { OnOk result (CountsClause (clause_of clause.now) self.old self.new) }
        ensures number { IfOk result (λ n. n ≡ length (entries (clause_of clause.now))) }
        ensures why { IfErr result (Bars (limited_to limit) clauses.now.items self.old
            (clause_of clause.now)) }
        ensures err { OnErr result (IsSameRegister clauses.now.items self.old self.new) }
    {
        if self.names.get(clauses, &clause.name).is_some() {
            return Err(AddFault::Taken);
        }
        match self.signature.take(clause) {
            Ok(()) => {}
            Err(TakeFault::Clash(clash)) => return Err(AddFault::Clash(clash)),
            Err(TakeFault::Memory) => return Err(AddFault::Memory),
        }
        let entries = entry_count(clause);
        let needed = self.entries + entries as u64;
        if needed > limit {
            self.signature.give_back(clause);
            return Err(AddFault::Full { needed, limit });
        }
        self.entries = needed;
        Ok(entries)
    }

    /// Counts the symbols and the entries of a clause no more, and answers the number of its
    /// entries. The names stay as they are. It takes no memory.
    pub fn uncount(&mut self, gone: &Clause) -> u32
        requires used { (s : Symbol) → times s (clause_symbols (clause_of gone.now))
            ≤ uses_of self.old.signature s }
        requires counted { length (entries (clause_of gone.now)) ≤ self.old.entries }
        requires few { length (entries (clause_of gone.now)) ≤ MOST_OCCURRENCES }
        ensures uncounts { UncountsClause (clause_of gone.now) self.old self.new }
        ensures names { self.new.names ≡ self.old.names }
        ensures number { result ≡ length (entries (clause_of gone.now)) }
    {
        let entries = entry_count(gone);
        self.signature.give_back(gone);
        self.entries -= entries as u64;
        entries
    }

    /// Strikes out the clause with this key, and answers the number of its entries. It takes no
    /// memory.
    pub fn leave(&mut self, gone: &Clause, key: usize) -> u32
        requires used { (s : Symbol) → times s (clause_symbols (clause_of gone.now))
            ≤ uses_of self.old.signature s }
        requires counted { length (entries (clause_of gone.now)) ≤ self.old.entries }
        requires few { length (entries (clause_of gone.now)) ≤ MOST_OCCURRENCES }
        ensures leaves { StrikesOut (clause_of gone.now) key self.old self.new }
        ensures number { result ≡ length (entries (clause_of gone.now)) }
    {
        self.names.remove(&gone.name, key);
        self.uncount(gone)
    }
}
