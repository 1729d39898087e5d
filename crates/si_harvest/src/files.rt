// Files that are open, and the fetch of another.
ghost use Rattle.std.specs.Prelude.{Bool, ◌≡◌, ◌≤◌, Option, length, take, IfOk, IfErr, IfSome, OnOk};
ghost use Rattle.si_defs.specs.Texts.{line_of};
ghost use Rattle.si_state.specs.States.{Rules};
ghost use Rattle.si_state.specs.Harvest.{MayAsk, IsBarred, IsWithheld};
ghost use Rattle.si_term.specs.Meaning.{name_of};
ghost use Rattle.si_io.specs.Counts.{raised};
ghost use Rattle.si_io.specs.Library.{Counts};
ghost use Rattle.si_harvest.specs.Faults.{NamesWhy, HasLoadCause, UsesLibrary, bounds_of};
ghost use Rattle.si_harvest.specs.Opened.{HasOpened, opened_names, has_open, lists, is_selected};

use crate::faults::{HarvestFault, HarvestLimits};
use crate::names::NameSet;
use si_io::{Fetched, Library};
use si_term::{Name, Text};
use std::alloc::Global;

/// A file that is open.
#[derive(Drop)]
pub struct OpenFile {
    pub name: Text,
    pub bytes: Vec<u8>,
    /// How many of the bytes were read.
    pub at: usize,
    /// The names that its include lists, if it lists any.
    pub chosen: Option<NameSet>,
}

impl OpenFile {
    /// Whether its selection lists the name, if it has one.
    fn lists(&self, name: &Name) -> bool
        ensures { result ≡ lists self.now.chosen (name_of name.now) }
    {
        match &self.chosen {
            Some(chosen) => chosen.contains(name),
            None => true,
        }
    }
}

/// Whether one of these files has the name.
pub fn has_name(files: &[OpenFile], name: &[u8]) -> bool
    ensures { result ≡ has_open files.now name.now }
{
    files.iter().any(|file| file.name.as_bytes() == name)
}

/// Whether the selections of all these files list the name.
pub fn select(files: &[OpenFile], name: &Name) -> bool
    ensures { result ≡ is_selected files.now (name_of name.now) }
{
    files.iter().all(|file| file.lists(name))
}

/// Whether a file may be asked for while these are open and after so many fetches, and else why
/// not.
pub fn may_ask(
    alloc: Global,
    files: &[OpenFile],
    fetches: u32,
    limits: &HarvestLimits,
    name: &[u8],
) -> Result<(), HarvestFault>
    ensures may { OnOk result (MayAsk (bounds_of limits.now) (opened_names files.now) fetches
        name.now) }
    ensures barred { IfErr result (λ e. (rules : Rules) → NamesWhy rules e (IsBarred
        (bounds_of limits.now) (opened_names files.now) fetches name.now)) }
    ensures cause { (may_fail : Bool) (counts : Counts) → HasLoadCause may_fail counts counts
        result }
{
    if has_name(files, name) {
        return Err(HarvestFault::Cycle(Text::from_bytes(alloc, name)?));
    }
    if files.len() >= limits.depth as usize {
        return Err(HarvestFault::Depth(Text::from_bytes(alloc, name)?));
    }
    if fetches >= limits.fetches {
        return Err(HarvestFault::Fetches);
    }
    Ok(())
}

/// Fetches a file, which is then open at its front.
#[tactic(auto, using(crate::proofs::Fetching::one_fetch))]
pub fn open<L: Library>(
    alloc: Global,
    library: &mut L,
    limits: &HarvestLimits,
    name: Text,
    chosen: Option<NameSet>,
) -> Result<OpenFile, HarvestFault>
    ensures opened { IfOk result
        (HasOpened (L.shown library.old).files (bounds_of limits.now) name chosen) }
    ensures withheld { IfErr result (λ e. (rules : Rules) → NamesWhy rules e (λ fault. IfSome
        (L.shown library.old).files
        (λ files. IsWithheld files (bounds_of limits.now) name fault))) }
    ensures library { UsesLibrary (L.shown library.old) (L.shown library.new) result }
    ensures once { (L.shown library.new).counts.calls
        ≡ raised (L.shown library.old).counts.calls }
{
    let mut bytes = Vec::new(alloc);
    match library.fetch(name.as_bytes(), &mut bytes, limits.file) {
        Fetched::File => Ok(OpenFile {
            name,
            bytes,
            at: 0,
            chosen,
        }),
        Fetched::Missing => Err(HarvestFault::Missing(name)),
        Fetched::TooBig => Err(HarvestFault::Big(name)),
        Fetched::Failed => Err(HarvestFault::Fault(name)),
        Fetched::Memory => Err(HarvestFault::Memory),
    }
}

/// The line of a place in a file, from 1.
pub fn line_of(file: &OpenFile, place: usize) -> u64
    requires { place ≤ length file.now.bytes.items }
    ensures { result ≡ line_of (take place file.now.bytes.items) }
{
    1 + file.bytes[..place]
        .iter()
        .filter(|byte| **byte == b'\n')
        .count() as u64
}
