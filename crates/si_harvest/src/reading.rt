// The reading of files, item by item.
ghost use Rattle.std.specs.Prelude.{◌≡◌, ◌≤◌, true, [], ◌∷◌, ◌++◌, IfOk, IfErr, OnOk};
ghost use Rattle.si_defs.specs.Clauses.{IsSoundClause};
ghost use Rattle.si_defs.specs.declared.TheConstants.{MOST_OCCURRENCES};
ghost use Rattle.si_state.specs.Harvest.{IsRejected};
ghost use Rattle.si_term.specs.Meaning.{clause_of};
ghost use Rattle.si_parse.specs.Meaning.{selection_of};
ghost use Rattle.si_harvest.specs.Faults.{NamesWhy, UsesLibrary, bounds_of};
ghost use Rattle.si_harvest.specs.Opened.{Enters, TriesClause, is_selected};
ghost use Rattle.si_harvest.specs.Stepping.{FetchesOn, StepsReading};
ghost use Rattle.si_harvest.specs.Gains.{CountsNoMore, GainsOn};
ghost use Rattle.si_harvest.specs.Underway.{AreFilesWithin, Lists};

use crate::faults::{HarvestFault, HarvestLimits, Loaded};
use crate::files::{OpenFile, line_of, may_ask, open, select};
use crate::names::NameSet;
use crate::store::add;
use si_io::Library;
use si_parse::grammar::Selection;
use si_parse::item::{Read, next_item};
use si_sign::ClauseStore;
use si_term::{Clause, Text};
use std::alloc::{AllocError, Global};

/// The files that are open, the first one first, and how often a file was fetched.
#[derive(Drop)]
pub struct Reading {
    files: Vec<OpenFile>,
    fetches: u32,
}

impl Reading {
    /// No file is open, and none was fetched.
    pub fn new(alloc: Global) -> Reading
        ensures files { result.files.items ≡ [] }
        ensures fetches { result.fetches ≡ 0 }
    {
        Reading {
            files: Vec::new(alloc),
            fetches: 0,
        }
    }

    /// Opens a file inside those that are open.
    #[tactic(auto, using(crate::proofs::Fetching::counted))]
    pub fn enter<L: Library>(
        &mut self,
        alloc: Global,
        library: &mut L,
        limits: &HarvestLimits,
        name: &[u8],
        chosen: Option<NameSet>,
    ) -> Result<(), HarvestFault>
        ensures enters { Enters (L.shown library.old).files (bounds_of limits.now) name.now
            (λ names. names ≡ chosen) self.old.files.items self.old.fetches self.new result }
        ensures library { UsesLibrary (L.shown library.old) (L.shown library.new) result }
        ensures fetches { FetchesOn limits.now.fetches self.old self.new (L.shown library.old)
            (L.shown library.new) }
    {
        may_ask(alloc, self.files.as_slice(), self.fetches, limits, name)?;
        let file_name = Text::from_bytes(alloc, name)?;
        self.fetches += 1;
        let file = open(alloc, library, limits, file_name, chosen)?;
        self.push(file)?;
        Ok(())
    }

    fn push(&mut self, file: OpenFile) -> Result<(), AllocError>
        ensures files { OnOk result (self.new.files.items ≡ self.old.files.items ++ file ∷ []) }
        ensures fetches { self.new.fetches ≡ self.old.fetches }
    {
        self.files.push(file)?;
        Ok(())
    }

    /// Adds a clause that the selections list, and reads on after it.
    fn take<T: ClauseStore>(
        &mut self,
        file: OpenFile,
        clause: Clause,
        store: &mut T,
        loaded: &mut Loaded,
    ) -> Result<(), HarvestFault>
        requires sound { IsSoundClause (clause_of clause) }
        requires limit { (T.rules store.old).entries ≤ MOST_OCCURRENCES }
        requires counted { CountsNoMore loaded.old (T.clauses store.old) }
        ensures files { OnOk result (self.new.files.items ≡ self.old.files.items ++ file ∷ []) }
        ensures fetches { self.new.fetches ≡ self.old.fetches }
        ensures taken { OnOk result (TriesClause (T.rules store.old) self.new.files.items
            (clause_of clause) (T.clauses store.old) (T.clauses store.new)) }
        ensures refused { IfErr result (λ e. NamesWhy (T.rules store.old) e (λ fault.
            (is_selected (self.old.files.items ++ file ∷ []) (clause_of clause).name ≡ true)
            × IsRejected (T.rules store.old) (T.clauses store.old) (clause_of clause) fault)) }
        ensures gains { GainsOn (T.rules store.old) (T.rules store.new) (T.clauses store.old)
            (T.clauses store.new) loaded.old loaded.new }
    {
        self.push(file)?;
        if !select(self.files.as_slice(), &clause.name) {
            return Ok(());
        }
        add(store, clause, loaded)
    }

    /// Opens a file that is included, and goes on past the include later.
    #[tactic(auto, using(crate::proofs::Fetching::counted))]
    fn include<L: Library>(
        &mut self,
        alloc: Global,
        library: &mut L,
        limits: &HarvestLimits,
        file: OpenFile,
        name: &[u8],
        selection: &Selection,
    ) -> Result<(), HarvestFault>
        ensures enters { Enters (L.shown library.old).files (bounds_of limits.now) name.now
            (Lists (selection_of selection.now)) (self.old.files.items ++ file ∷ [])
            self.old.fetches self.new result }
        ensures library { UsesLibrary (L.shown library.old) (L.shown library.new) result }
        ensures fetches { FetchesOn limits.now.fetches self.old self.new (L.shown library.old)
            (L.shown library.new) }
    {
        self.push(file)?;
        let chosen = chosen(alloc, selection)?;
        self.enter(alloc, library, limits, name, chosen)
    }

    /// Reads on by one item, or leaves the file at its end. Answers whether a file was open.
    #[tactic(auto, using(crate::proofs::Fetching::counted))]
    pub fn step<L: Library, T: ClauseStore>(
        &mut self,
        alloc: Global,
        library: &mut L,
        limits: &HarvestLimits,
        store: &mut T,
        loaded: &mut Loaded,
    ) -> Result<bool, HarvestFault>
        requires within { AreFilesWithin self.old.files.items }
        requires file { limits.now.file ≤ MOST_OCCURRENCES }
        requires limit { (T.rules store.old).entries ≤ MOST_OCCURRENCES }
        requires counted { CountsNoMore loaded.old (T.clauses store.old) }
        ensures stepped { StepsReading (L.shown library.old).files (bounds_of limits.now)
            (T.rules store.old) self.old self.new (T.clauses store.old) (T.clauses store.new)
            result }
        ensures gains { GainsOn (T.rules store.old) (T.rules store.new) (T.clauses store.old)
            (T.clauses store.new) loaded.old loaded.new }
        ensures library { UsesLibrary (L.shown library.old) (L.shown library.new) result }
        ensures fetches { FetchesOn limits.now.fetches self.old self.new (L.shown library.old)
            (L.shown library.new) }
    {
        let Some(mut file) = self.files.pop() else {
            return Ok(false);
        };
        match next_item(alloc, file.bytes.as_slice(), file.at)? {
            Read::End => Ok(true),
            Read::Cnf(clause, end) => {
                file.at = end;
                self.take(file, clause, store, loaded)?;
                Ok(true)
            }
            Read::Include(name, selection, end) => {
                file.at = end;
                self.include(alloc, library, limits, file, name.as_bytes(), &selection)?;
                Ok(true)
            }
            Read::Syntax(place) => {
                let line = line_of(&file, place);
                Err(HarvestFault::Syntax {
                    file: file.name,
                    line,
                })
            }
            Read::Language(place) => {
                let line = line_of(&file, place);
                Err(HarvestFault::Language {
                    file: file.name,
                    line,
                })
            }
        }
    }
}

/// The names that a selection lists, if it lists any.
fn chosen(alloc: Global, selection: &Selection) -> Result<Option<NameSet>, AllocError>
    ensures { IfOk result (Lists (selection_of selection.now)) }
{
    match selection {
        Selection::All => Ok(None),
        Selection::Only(names) => Ok(Some(NameSet::from_names(alloc, names.as_slice())?)),
    }
}
