// What bounds a load, what it gains, and why it is refused.
use si_sign::Rejected;
use si_term::Text;
use std::alloc::AllocError;

/// What bounds a load.
#[derive(Clone, Copy, Debug, PartialEq, Eq)]
pub struct HarvestLimits {
    /// The most bytes of a file.
    pub file: usize,
    /// The most fetches.
    pub fetches: u32,
    /// The most files that are open at once.
    pub depth: u32,
}

/// What a load gained.
#[derive(Clone, Copy, Debug, PartialEq, Eq)]
pub struct Loaded {
    /// The number of clauses.
    pub clauses: u32,
    /// The number of their entries.
    pub entries: u32,
}

/// Why a load is refused.
#[derive(Drop)]
pub enum HarvestFault {
    /// No item stands on this line of the file, from 1.
    Syntax { file: Text, line: u64 },
    /// A formula of another TPTP language stands there.
    Language { file: Text, line: u64 },
    /// The store rejects a clause, and not for want of memory.
    Rejected(Rejected),
    /// The library has no file of this name.
    Missing(Text),
    /// The file has too many bytes.
    Big(Text),
    /// The library failed at this file.
    Fault(Text),
    /// The file is open already.
    Cycle(Text),
    /// Too many files are open to open this one.
    Depth(Text),
    /// Too many fetches were made to make another.
    Fetches,
    /// Memory ran out.
    Memory,
}

impl From<AllocError> for HarvestFault {
    ghost use Rattle.std.specs.Prelude.{◌≡◌};
    ghost use Rattle.si_harvest.specs.declared.faults.HarvestFault.TheVariants.{Memory};

    ghost from_gives = { λ _ e. e ≡ Memory };

    fn from(_: AllocError) -> HarvestFault {
        HarvestFault::Memory
    }
}
