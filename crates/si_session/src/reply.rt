// Replies of one line, written to a sink.
ghost use Rattle.std.specs.Prelude.{◌≡◌, ◌++◌, [], ◌∷◌, decimal};
ghost use Rattle.si_defs.specs.Printing.{name_text, file_text, symbol_text};
ghost use Rattle.si_steps.specs.Replies.{is_refusal, end_line};
ghost use Rattle.si_io.specs.Sends.{Sends};
ghost use Rattle.si_term.specs.Terms.{symbol_of};
ghost use Rattle.si_term.specs.Meaning.{name_of};
ghost use Rattle.si_session.specs.Separators.{separator_text};
ghost use Rattle.si_session.specs.declared.separator.Separator.TheVariants.{Space};
ghost use Rattle.si_session.specs.Replies.{reply_line, closed_line, stats_text, closed_shape, file_word, line_word};
ghost use Rattle.si_session.specs.Session.{Writes};

use crate::separator::{Separator, put_separator};
use crate::short_reply::ShortReply;
use crate::stepped::Stepped;
use si_index::{Explained, Stats};
use si_io::{Failed, Sink, write_lines};
use si_reply::{put_bytes, put_file, put_name, put_number, put_symbol};
use si_sign::Shape;
use si_term::{Name, Side, Sym, Text};

/// Why a load is refused for a file.
#[derive(Clone, Copy)]
pub enum FileFault {
    /// It is open already.
    Cycle,
    /// Too many files are open.
    Depth,
    /// The library has no such file.
    Missing,
    /// It has too many bytes.
    Big,
    /// The library failed at it.
    Failed,
}

/// Why a load is refused at a line of a file.
#[derive(Clone, Copy)]
pub enum LineFault {
    /// No item stands there.
    Syntax,
    /// A formula of another language stands there.
    Language,
}

/// A reply of one line.
#[derive(Clone, Copy)]
pub enum ReplyLine<'a> {
    /// So many clauses with so many entries were gained.
    Ok {
        clauses: u64,
        entries: u64,
    },
    /// So much is kept.
    Stats(Stats),
    /// So many clauses with so many entries were drawn, and so many answers were summed.
    Sample {
        clauses: u64,
        entries: u64,
        sum: u64,
    },
    /// So much a query passes and answers.
    Explained(Explained),
    /// A kept clause has this name.
    Taken(&'a Name),
    /// The symbol has one shape in the tried clause, and another stands against it.
    Misused {
        symbol: &'a Sym,
        found: Shape,
        kept: Shape,
    },
    /// So many entries there would be, and no more than the limit may be.
    Full {
        needed: u64,
        limit: u64,
    },
    /// No kept clause has this name.
    Unknown(&'a Name),
    /// A load is refused for this file.
    File(FileFault, &'a Text),
    /// A load is refused at this line of the file.
    Line(LineFault, &'a Text, u64),
    /// A load would make too many fetches.
    Fetches,
    /// The line has more bytes than a line may have.
    Long,
    /// The line adds a formula of another language.
    Language,
    /// The line is no command.
    Syntax,
    /// Memory ran out.
    Memory,
}

/// Writes a word and the name of a clause.
#[tactic(auto, using(si_io::proofs::Sends::sends))]
fn put_named<K: Sink>(sink: &mut K, word: &[u8], name: &Name) -> Result<(), Failed>
    ensures { Sends result (word.now ++ name_text (name_of name.now)) (K.shown sink.old)
        (K.shown sink.new) }
{
    put_bytes(sink, word)?;
    put_name(sink, name)
}

/// The word of a fault, before the name of a file.
#[tactic(auto, unfolding(crate::specs::Replies::file_word))]
fn file_word(fault: FileFault) -> &'static [u8]
    ensures { result.now ≡ file_word fault }
{
    match fault {
        FileFault::Cycle => b"! cycle ",
        FileFault::Depth => b"! depth ",
        FileFault::Missing => b"! missing ",
        FileFault::Big => b"! big ",
        FileFault::Failed => b"! fault ",
    }
}

/// The word of a fault, before the name of a file and a line of it.
#[tactic(auto, unfolding(crate::specs::Replies::line_word))]
fn line_word(fault: LineFault) -> &'static [u8]
    ensures { result.now ≡ line_word fault }
{
    match fault {
        LineFault::Syntax => b"! syntax ",
        LineFault::Language => b"! language ",
    }
}

/// Writes a word and the name of a file.
#[tactic(auto, using(si_io::proofs::Sends::sends))]
fn put_filed<K: Sink>(sink: &mut K, word: &[u8], file: &[u8]) -> Result<(), Failed>
    ensures { Sends result (word.now ++ file_text file.now) (K.shown sink.old)
        (K.shown sink.new) }
{
    put_bytes(sink, word)?;
    put_file(sink, file)
}

/// Writes a word, the name of a file, and the number of a line of it.
#[tactic(auto, using(si_io::proofs::Sends::sends))]
fn put_lined<K: Sink>(
    sink: &mut K,
    word: &[u8],
    file: &[u8],
    space: &[u8],
    line: u64,
) -> Result<(), Failed>
    ensures { Sends result (word.now ++ (file_text file.now ++ (space.now ++ decimal line)))
        (K.shown sink.old) (K.shown sink.new) }
{
    put_bytes(sink, word)?;
    put_file(sink, file)?;
    put_number(sink, space, line)
}

/// Writes two words, each with a number.
#[tactic(auto, using(si_io::proofs::Sends::sends))]
fn put_counts<K: Sink>(
    sink: &mut K,
    word: &[u8],
    number: u64,
    next: &[u8],
    count: u64,
) -> Result<(), Failed>
    ensures { Sends result ((word.now ++ decimal number) ++ (next.now ++ decimal count))
        (K.shown sink.old) (K.shown sink.new) }
{
    put_number(sink, word, number)?;
    put_number(sink, next, count)
}

/// Writes three words, each with a number.
#[tactic(auto, using(si_io::proofs::Sends::sends))]
pub fn put_three<K: Sink>(
    sink: &mut K,
    word: &[u8],
    number: u64,
    next: &[u8],
    count: u64,
    last: &[u8],
    sum: u64,
) -> Result<(), Failed>
    ensures { Sends result ((word.now ++ decimal number) ++ ((next.now ++ decimal count)
        ++ (last.now ++ decimal sum))) (K.shown sink.old) (K.shown sink.new) }
{
    put_number(sink, word, number)?;
    put_counts(sink, next, count, last, sum)
}

/// Writes how much is kept.
fn put_stats<K: Sink>(sink: &mut K, stats: Stats) -> Result<(), Failed>
    ensures { Sends result (stats_text stats) (K.shown sink.old) (K.shown sink.new) }
{
    let clauses = u64::from(stats.clauses);
    let symbols = u64::from(stats.symbols);
    put_three(
        sink,
        b"clauses ",
        clauses,
        b" entries ",
        stats.entries,
        b" symbols ",
        symbols,
    )
}

/// Writes a side and an arity.
fn put_shape<K: Sink>(sink: &mut K, shape: Shape) -> Result<(), Failed>
    ensures { Sends result (closed_shape shape) (K.shown sink.old) (K.shown sink.new) }
{
    match shape.side {
        Side::Predicate => put_number(sink, b"predicate/", u64::from(shape.arity)),
        Side::Function => put_number(sink, b"function/", u64::from(shape.arity)),
    }
}

/// Writes two shapes, each after a space.
#[tactic(auto, using(si_io::proofs::Sends::sends))]
fn put_shapes<K: Sink>(sink: &mut K, found: Shape, kept: Shape) -> Result<(), Failed>
    ensures { Sends result (separator_text Space ++ (closed_shape found ++ (separator_text Space
        ++ closed_shape kept))) (K.shown sink.old) (K.shown sink.new) }
{
    put_separator(sink, Separator::Space)?;
    put_shape(sink, found)?;
    put_separator(sink, Separator::Space)?;
    put_shape(sink, kept)
}

/// Writes a word, a symbol and two shapes.
#[tactic(auto, using(si_io::proofs::Sends::sends))]
fn put_misused<K: Sink>(
    sink: &mut K,
    word: &[u8],
    symbol: &Sym,
    found: Shape,
    kept: Shape,
) -> Result<(), Failed>
    ensures { Sends result (word.now ++ (symbol_text (symbol_of symbol.now) ++ (separator_text Space
        ++ (closed_shape found ++ (separator_text Space ++ closed_shape kept))))) (K.shown sink.old)
        (K.shown sink.new) }
{
    put_bytes(sink, word)?;
    put_symbol(sink, symbol)?;
    put_shapes(sink, found, kept)
}

/// Writes the last line of an answer without its line feed: how many lines stand before it.
pub fn put_end<K: Sink>(sink: &mut K, lines: u64) -> Result<(), Failed>
    ensures { Sends result (end_line lines) (K.shown sink.old) (K.shown sink.new) }
{
    put_number(sink, b"end ", lines)
}

/// Writes a reply of one line without its line feed, piece by piece.
pub fn put_reply<K: Sink>(sink: &mut K, reply: ReplyLine<'_>) -> Result<(), Failed>
    ensures { Sends result (closed_line reply.entry) (K.shown sink.old)
        (K.shown sink.new) }
{
    match reply {
        ReplyLine::Ok { clauses, entries } => put_counts(sink, b"ok ", clauses, b" ", entries),
        ReplyLine::Stats(stats) => put_stats(sink, stats),
        ReplyLine::Sample {
            clauses,
            entries,
            sum,
        } => put_three(sink, b"sample ", clauses, b" ", entries, b" ", sum),
        ReplyLine::Explained(explained) => put_three(
            sink,
            b"passed ",
            explained.passed,
            b" nodes ",
            explained.nodes,
            b" answers ",
            explained.answers,
        ),
        ReplyLine::Taken(name) => put_named(sink, b"! taken ", name),
        ReplyLine::Misused {
            symbol,
            found,
            kept,
        } => put_misused(sink, b"! use ", symbol, found, kept),
        ReplyLine::Full { needed, limit } => put_counts(sink, b"! full ", needed, b" ", limit),
        ReplyLine::Unknown(name) => put_named(sink, b"! unknown ", name),
        ReplyLine::File(fault, file) => put_filed(sink, file_word(fault), file.as_bytes()),
        ReplyLine::Line(fault, file, line) => {
            put_lined(sink, line_word(fault), file.as_bytes(), b" ", line)
        }
        ReplyLine::Fetches => put_bytes(sink, b"! fetches"),
        ReplyLine::Long => put_bytes(sink, b"! long"),
        ReplyLine::Language => put_bytes(sink, b"! language"),
        ReplyLine::Syntax => put_bytes(sink, b"! syntax"),
        ReplyLine::Memory => put_bytes(sink, b"! memory"),
    }
}

/// Writes a reply of one line, at once where it isn't long.
fn put_at_once<K: Sink>(sink: &mut K, reply: ReplyLine<'_>) -> Result<(), Failed>
    ensures { Sends result (closed_line reply.entry ++ 10 ∷ []) (K.shown sink.old)
        (K.shown sink.new) }
{
    write_lines(&ShortReply::Line(reply), sink)
}

/// Whether the line is a refusal.
fn refuses(reply: ReplyLine<'_>) -> bool
    ensures { result ≡ is_refusal (reply_line reply.entry ∷ []) }
{
    match reply {
        ReplyLine::Ok { .. } | ReplyLine::Stats(_) | ReplyLine::Sample { .. } => false,
        ReplyLine::Explained(_) => false,
        ReplyLine::Taken(_)
        | ReplyLine::Misused { .. }
        | ReplyLine::Full { .. }
        | ReplyLine::Unknown(_) => true,
        ReplyLine::File(..) | ReplyLine::Line(..) | ReplyLine::Fetches => true,
        ReplyLine::Long | ReplyLine::Language => true,
        ReplyLine::Syntax | ReplyLine::Memory => true,
    }
}

/// Writes a line of a reply, and says what became of the command line.
pub fn report<K: Sink>(sink: &mut K, reply: ReplyLine<'_>) -> Stepped
    ensures { Writes result (reply_line reply.entry ∷ []) (K.shown sink.old) (K.shown sink.new) }
{
    match put_at_once(sink, reply) {
        Ok(()) if refuses(reply) => Stepped::Refused,
        Ok(()) => Stepped::Answered,
        Err(_) => Stepped::SinkFailed,
    }
}
