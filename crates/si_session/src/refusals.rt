// Why clauses and loads are refused, as replies.
ghost use Rattle.std.specs.Prelude.{◌≡◌, ◌<◌, Some, length, slice_get};
ghost use Rattle.si_defs.specs.Clauses.{IsSoundClause};
ghost use Rattle.si_defs.specs.Entries.{clause_symbols};
ghost use Rattle.si_term.specs.Terms.{symbol_of};
ghost use Rattle.si_term.specs.Meaning.{clause_of};
ghost use Rattle.si_session.specs.Rejections.{IsReportableClause, ReportsWhy, IsReportable, ReportsFaultOfLoad};

use crate::reply::{FileFault, LineFault, ReplyLine};
use si_harvest::HarvestFault;
use si_sign::{AddFault, Rejected};
use si_term::{Clause, Sym, head_at};

/// Why a clause isn't kept, as a reply.
pub fn refusal(rejected: &Rejected) -> ReplyLine<'_>
    requires { IsReportableClause rejected.now }
    ensures { ReportsWhy rejected.now result }
{
    match &rejected.why {
        AddFault::Taken => ReplyLine::Taken(&rejected.clause.name),
        AddFault::Clash(clash) => ReplyLine::Misused {
            symbol: symbol_at(&rejected.clause, clash.occurrence),
            found: clash.found,
            kept: clash.kept,
        },
        AddFault::Full { needed, limit } => ReplyLine::Full {
            needed: *needed,
            limit: *limit,
        },
        AddFault::Memory => ReplyLine::Memory,
    }
}

/// The symbol at the occurrence with this number from 0. It heads the entry with this number, as
/// long as each entry of a clause is an occurrence of a symbol.
fn symbol_at(clause: &Clause, occurrence: u32) -> &Sym
    requires sound { IsSoundClause (clause_of clause.now) }
    requires within { occurrence < length (clause_symbols (clause_of clause.now)) }
    ensures { slice_get (clause_symbols (clause_of clause.now)) occurrence
        ≡ Some (symbol_of result.now) }
{
    head_at(clause, occurrence)
}

/// Why a load is refused, as a reply.
#[tactic(auto, unfolding(crate::specs::Replies::file_word, crate::specs::Replies::line_word))]
pub fn load_refusal(fault: &HarvestFault) -> ReplyLine<'_>
    requires { IsReportable fault.now }
    ensures { ReportsFaultOfLoad fault.now result }
{
    match fault {
        HarvestFault::Syntax { file, line } => ReplyLine::Line(LineFault::Syntax, file, *line),
        HarvestFault::Language { file, line } => ReplyLine::Line(LineFault::Language, file, *line),
        HarvestFault::Rejected(rejected) => refusal(rejected),
        HarvestFault::Missing(file) => ReplyLine::File(FileFault::Missing, file),
        HarvestFault::Big(file) => ReplyLine::File(FileFault::Big, file),
        HarvestFault::Fault(file) => ReplyLine::File(FileFault::Failed, file),
        HarvestFault::Cycle(file) => ReplyLine::File(FileFault::Cycle, file),
        HarvestFault::Depth(file) => ReplyLine::File(FileFault::Depth, file),
        HarvestFault::Fetches => ReplyLine::Fetches,
        HarvestFault::Memory => ReplyLine::Memory,
    }
}
