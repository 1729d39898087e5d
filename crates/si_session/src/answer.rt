// The answer to a query: a line for each hit.
ghost use Rattle.std.specs.Prelude.{◌≡◌, ◌<◌, ◌^◌, length};
ghost use Rattle.std.specs.List.{AllByRecursion};
ghost use Rattle.si_term.specs.Meaning.{name_of, place_of};
ghost use Rattle.si_index.specs.Searching.{HaveCanonicalSolutions};
ghost use Rattle.si_reply.specs.NamedLists.{ShowsList};
ghost use Rattle.si_reply.specs.ShownTexts.{StandForSome, SendsText};
ghost use Rattle.si_session.specs.Answering.{IsInside, ReportsAnswer, hit_line};

use crate::reply::put_end;
use crate::separator::{Separator, put_separator};
use si_form::Solution;
use si_index::Found;
use si_io::{Failed, Lines, Sink, write_lines};
use si_reply::{Naming, put_place, put_solution};
use si_sign::Signature;
use si_term::{Name, Place};

/// Writes the line of a hit: its place and its list.
fn put_hit<'a, K: Sink>(
    sink: &mut K,
    name: &Name,
    place: &Place,
    naming: &Naming<'a, Signature, &'a [&'a [u8]]>,
    solution: &Solution,
) -> Result<(), Failed>
    requires known { StandForSome (ShowsList naming.now solution.now) }
    ensures { SendsText result (hit_line (name_of name.now) (place_of place.now))
        (ShowsList naming.now solution.now) (K.shown sink.old) (K.shown sink.new) }
{
    put_place(sink, name, place)?;
    put_separator(sink, Separator::Space)?;
    put_solution(sink, naming, solution)?;
    put_separator(sink, Separator::LineFeed)
}

/// The hits of a query, as the lines that answer it.
#[derive(Clone, Copy)]
struct Hits<'a, 'b> {
    found: &'a Found<'b>,
    count: u32,
    ghost counted: { count ≡ length found.now.hits },
    ghost few: { count < 2 ^ 32 },
}

impl Lines for Hits<'_, '_> {
    ghost use Rattle.si_steps.specs.Replies.{end_line};
    ghost use Rattle.si_session.specs.Answering.{IsHitLine};

    ghost count = { λ hits. length hits.found.now.hits };

    ghost line = { λ hits. IsHitLine hits.found.now };

    ghost last = { λ hits. end_line (length hits.found.now.hits) };

    fn count(&self) -> usize {
        self.count as usize
    }

    fn put_line<K: Sink>(&self, n: usize, sink: &mut K) -> Result<(), Failed> {
        let n = n as u32;
        let clause = self.found.clause(n);
        let hit = self.found.hit(n);
        let lent = self.found.lent(n);
        let naming = Naming {
            table: self.found.signature(),
            extra: lent.extra,
            query_names: lent.query_names,
            entry_names: &lent.entry_names,
        };
        put_hit(sink, &clause.name, &hit.place, &naming, lent.solution)
    }

    fn put_last<K: Sink>(&self, sink: &mut K) -> Result<(), Failed> {
        put_end(sink, u64::from(self.count))
    }
}

/// Writes the answer, in large pieces. This takes no memory.
pub fn report_answer<K: Sink>(found: &Found<'_>, sink: &mut K) -> Result<(), Failed>
    requires inside { AllByRecursion (IsInside found.now.index.clauses) found.now.hits }
    requires solved { HaveCanonicalSolutions found.now.relation found.now.pattern found.now.hits }
    ensures { ReportsAnswer found.now result (K.shown sink.old) (K.shown sink.new) }
{
    let count = found.len();
    let hits = Hits { found, count };
    write_lines(&hits, sink)
}
