// The signature of some clauses.
ghost use Rattle.std.specs.Prelude.{◌≡◌, ◌+◌, ◌≤◌, [], ℕ, OnOk, OnErr, IfErr, IfSome, IfNone, length};
ghost use Rattle.si_defs.specs.Symbols.{Symbol, Numbering, IsNumbering, times};
ghost use Rattle.si_defs.specs.Entries.{clause_symbols};
ghost use Rattle.si_defs.specs.Substitutions.{IsAmong};
ghost use Rattle.si_state.specs.Acceptance.{AllAgree};
ghost use Rattle.si_state.specs.Signatures as signatures;
ghost use Rattle.si_state.specs.Signatures.{IsSignature, KeepsNumbers, uses_of, known_symbols, keys, numbering};
ghost use Rattle.si_term.specs.Terms.{symbol_of};
ghost use Rattle.si_term.specs.Meaning.{clause_of};
ghost use Rattle.si_sign.specs.Shapes.{RefusesSymbols};
ghost use Rattle.si_sign.specs.declared.uses.TheConstants.{MOST_USES};

use crate::faults::{Shape, TakeFault};
use crate::uses::{Uses, has_shape_of, shape};
use si_defs::SymKind;
use si_term::{Clause, Sym, SymTable};
use std::alloc::Global;
use std::marker::Model;

/// The symbols that occur in some clauses, how often, and by which number each goes.
///
/// A symbol keeps its number while it occurs. Contracts see a signature as a finite map from kind
/// and text to side, arity, uses and number.
#[derive(Drop)]
pub struct Signature {
    alloc: Global,
    uses: Uses,
}

impl Model for Signature {
    ghost use Rattle.si_state.specs.Signatures as state;
    ghost use Rattle.si_sign.specs.Uses.{seen, IsUses};

    ghost Value = { state.Signature };

    ghost view = { λ s. seen s.uses };

    ghost invariant = { λ s. IsUses s.uses };
}

impl Signature {
    /// The signature of no clause.
    pub fn new(alloc: Global) -> Signature
        ensures { result ≡ [] }
    {
        Signature {
            alloc,
            uses: Uses::new(alloc),
        }
    }

    /// Counts the occurrences of symbols in a clause. At an error nothing has changed.
    ///
    /// `Clash`: a symbol of the clause has another side or arity than one of the same kind and text
    /// that occurs here or earlier in the clause. The first such is named.
    pub fn take(&mut self, clause: &Clause) -> Result<(), TakeFault>
        requires room { signatures.total self.old + length (clause_symbols (clause_of clause.now))
            ≤ MOST_USES }
        ensures uses { OnOk result ((s : Symbol) → uses_of self.new s
            ≡ uses_of self.old s + times s (clause_symbols (clause_of clause.now))) }
        ensures agree { OnOk result (AllAgree (known_symbols self.old)
            (clause_symbols (clause_of clause.now))) }
        ensures total { OnOk result (signatures.total self.new ≡ signatures.total self.old
            + length (clause_symbols (clause_of clause.now))) }
        ensures refused { IfErr result (RefusesSymbols (known_symbols self.old)
            (clause_symbols (clause_of clause.now))) }
        ensures err { OnErr result (self.new ≡ self.old) }
        ensures numbers { KeepsNumbers self.old self.new }
        ensures signature { IsSignature self.new }
    {
        let begin = self.uses.total;
        self.uses
            .take_literals(self.alloc, clause.literals.as_slice(), begin)
    }

    /// Counts the occurrences of symbols in a clause no more.
    pub fn give_back(&mut self, clause: &Clause)
        requires used { (s : Symbol) → times s (clause_symbols (clause_of clause.now))
            ≤ uses_of self.old s }
        ensures uses { (s : Symbol) → uses_of self.new s
            + times s (clause_symbols (clause_of clause.now)) ≡ uses_of self.old s }
        ensures total { signatures.total self.new + length (clause_symbols (clause_of clause.now))
            ≡ signatures.total self.old }
        ensures numbers { KeepsNumbers self.old self.new }
        ensures signature { IsSignature self.new }
    {
        self.uses.give_back_literals(clause.literals.as_slice());
    }

    /// The side and arity that the kind and text have here, if they occur.
    pub fn shape_of(&self, kind: SymKind, text: &[u8]) -> Option<Shape>
        ensures found { IfSome result (λ s. IsAmong (known_symbols self.now) (record {
          kind = kind;
          text = text.now;
          side = s.side;
          arity = s.arity;
        })) }
        ensures none { IfNone result (IsAmong (keys self.now) (kind, text.now) → ⊥) }
        ensures signature { IsSignature self.now }
    {
        let Some(key) = self.uses.key_of(kind, text) else {
            return None;
        };
        let counted = &self.uses.slots[key];
        Some(shape(&counted.sym))
    }

    /// The number of symbols.
    pub fn len(&self) -> u32
        ensures number { result ≡ length self.now }
        ensures signature { IsSignature self.now }
    {
        self.uses.slots.len() as u32
    }

    /// The number of all uses.
    pub fn total(&self) -> u64
        ensures number { result ≡ signatures.total self.now }
        ensures few { result ≤ MOST_USES }
        ensures signature { IsSignature self.now }
    {
        self.uses.total
    }
}

impl SymTable for Signature {
    ghost pairs = { λ s. numbering s };

    fn id_of(&self, sym: &Sym) -> Option<u32> {
        let Some(key) = self.uses.find(sym) else {
            return None;
        };
        let counted = &self.uses.slots[key];
        if !has_shape_of(sym, &counted.sym) {
            return None;
        }
        Some(2 * key as u32)
    }

    fn sym_at(&self, id: u32) -> Option<&Sym> {
        let Some(counted) = self.uses.slots.get(id as usize / 2) else {
            return None;
        };
        if id % 2 == 1 {
            return None;
        }
        Some(&counted.sym)
    }
}
