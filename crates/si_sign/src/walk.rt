// Occurrences of symbols in terms and literals, taken and given back.
ghost use Rattle.std.specs.Prelude.{◌≡◌, ◌+◌, ◌≤◌, OnOk, OnErr, IfErr, length, map};
ghost use Rattle.si_defs.specs.Terms.{row, symbols, symbols_of_all};
ghost use Rattle.si_defs.specs.Symbols.{Symbol, times};
ghost use Rattle.si_defs.specs.Entries.{literals_symbols};
ghost use Rattle.si_state.specs.Signatures.{uses_of};
ghost use Rattle.si_term.specs.Terms.{term_of};
ghost use Rattle.si_term.specs.Meaning.{literal_of};
ghost use Rattle.si_sign.specs.Uses.{seen, IsUses};
ghost use Rattle.si_sign.specs.Taking.{TakesUses, GivesBack, RefusesFrom};
ghost use Rattle.si_sign.specs.declared.uses.TheConstants.{MOST_USES};

use crate::faults::TakeFault;
use crate::uses::Uses;
use si_term::{Literal, Term};
use std::alloc::Global;

impl Uses {
    /// Counts the occurrences of symbols in literals. `begin` is the number of uses before their
    /// clause. At an error none of them is counted.
    pub fn take_literals(
        &mut self,
        alloc: Global,
        literals: &[Literal],
        begin: u64,
    ) -> Result<(), TakeFault>
        requires uses { IsUses self.old }
        requires begun { begin ≤ self.old.total }
        requires room { self.old.total + length (literals_symbols (map literal_of literals.now))
            ≤ MOST_USES }
        ensures uses { IsUses self.new }
        ensures ok { OnOk result (TakesUses (literals_symbols (map literal_of literals.now))
            (seen self.old) (seen self.new)) }
        ensures why { IfErr result (RefusesFrom begin (seen self.old)
            (literals_symbols (map literal_of literals.now))) }
        ensures err { OnErr result (seen self.new ≡ seen self.old) }
    {
        for i in 0..literals.len() {
            match self.take_term(alloc, &literals[i].atom, begin) {
                Ok(()) => {}
                Err(fault) => {
                    self.give_back_literals(&literals[..i]);
                    return Err(fault);
                }
            }
        }
        Ok(())
    }

    /// Counts the occurrences of symbols in literals no more.
    pub fn give_back_literals(&mut self, literals: &[Literal])
        requires uses { IsUses self.old }
        requires used { (s : Symbol) → times s (literals_symbols (map literal_of literals.now))
            ≤ uses_of (seen self.old) s }
        ensures uses { IsUses self.new }
        ensures back { GivesBack (literals_symbols (map literal_of literals.now))
            (seen self.old) (seen self.new) }
    {
        for i in 0..literals.len() {
            self.give_back_term(&literals[i].atom);
        }
    }

    /// Counts the occurrences of symbols in a term. At an error none of them is counted.
    #[cycle(take)]
    fn take_term(&mut self, alloc: Global, term: &Term, begin: u64) -> Result<(), TakeFault>
        requires uses { IsUses self.old }
        requires begun { begin ≤ self.old.total }
        requires room { self.old.total + length (symbols (term_of term.now)) ≤ MOST_USES }
        ensures uses { IsUses self.new }
        ensures ok { OnOk result (TakesUses (symbols (term_of term.now)) (seen self.old)
            (seen self.new)) }
        ensures why { IfErr result (RefusesFrom begin (seen self.old)
            (symbols (term_of term.now))) }
        ensures err { OnErr result (seen self.new ≡ seen self.old) }
    {
        match term {
            Term::Var(_) => Ok(()),
            Term::App(symbol, arguments) => {
                match self.take(alloc, symbol, begin) {
                    Ok(()) => {}
                    Err(fault) => return Err(fault),
                }
                match self.take_terms(alloc, arguments.as_slice(), begin) {
                    Ok(()) => Ok(()),
                    Err(fault) => {
                        self.give_back(symbol);
                        Err(fault)
                    }
                }
            }
        }
    }

    #[cycle(take)]
    fn take_terms(&mut self, alloc: Global, terms: &[Term], begin: u64) -> Result<(), TakeFault>
        requires uses { IsUses self.old }
        requires begun { begin ≤ self.old.total }
        requires room { self.old.total + length (symbols_of_all (row (map term_of terms.now)))
            ≤ MOST_USES }
        ensures uses { IsUses self.new }
        ensures ok { OnOk result (TakesUses (symbols_of_all (row (map term_of terms.now)))
            (seen self.old) (seen self.new)) }
        ensures why { IfErr result (RefusesFrom begin (seen self.old)
            (symbols_of_all (row (map term_of terms.now)))) }
        ensures err { OnErr result (seen self.new ≡ seen self.old) }
    {
        for i in 0..terms.len() {
            match self.take_term(alloc, &terms[i], begin) {
                Ok(()) => {}
                Err(fault) => {
                    self.give_back_terms(&terms[..i]);
                    return Err(fault);
                }
            }
        }
        Ok(())
    }

    /// Counts the occurrences of symbols in a term no more.
    #[cycle(give)]
    fn give_back_term(&mut self, term: &Term)
        requires uses { IsUses self.old }
        requires used { (s : Symbol) → times s (symbols (term_of term.now))
            ≤ uses_of (seen self.old) s }
        ensures uses { IsUses self.new }
        ensures back { GivesBack (symbols (term_of term.now)) (seen self.old) (seen self.new) }
    {
        match term {
            Term::Var(_) => {}
            Term::App(symbol, arguments) => {
                self.give_back(symbol);
                self.give_back_terms(arguments.as_slice());
            }
        }
    }

    #[cycle(give)]
    fn give_back_terms(&mut self, terms: &[Term])
        requires uses { IsUses self.old }
        requires used { (s : Symbol) → times s (symbols_of_all (row (map term_of terms.now)))
            ≤ uses_of (seen self.old) s }
        ensures uses { IsUses self.new }
        ensures back { GivesBack (symbols_of_all (row (map term_of terms.now))) (seen self.old)
            (seen self.new) }
    {
        for i in 0..terms.len() {
            self.give_back_term(&terms[i]);
        }
    }
}
