// The replies that show the trees.
ghost use Rattle.std.specs.Prelude.{◌++◌};
ghost use Rattle.si_defs.specs.Clauses.{IsSoundPattern};
ghost use Rattle.si_steps.specs.Runs.{ended};
ghost use Rattle.si_io.specs.Sends.{Sends};
ghost use Rattle.si_term.specs.Meaning.{pattern_of};
ghost use Rattle.si_session.specs.Session.{Writes};
ghost use Rattle.si_session.specs.Explained.{ReportsExplained};
ghost use Rattle.si_session.specs.Replies.{counts_reply};
ghost use Rattle.si_session.specs.Separators.{separator_text};
ghost use Rattle.si_session.specs.ShortReplies.{tree_text};
ghost use Rattle.si_session.specs.declared.separator.Separator.TheVariants.{LineFeed};

use crate::reply::{ReplyLine, put_three, report};
use crate::separator::{Separator, put_separator};
use crate::short_reply::ShortReply;
use crate::stepped::Stepped;
use si_defs::Relation;
use si_index::{Index, SearchMemory, TreeCounts};
use si_io::{Failed, Sink, write_lines};
use si_term::Pattern;
use si_tree::Counts;

/// Writes the numbers of nodes of both trees, a line each.
pub fn report_trees<K: Sink>(sink: &mut K, counts: TreeCounts) -> Stepped
    ensures { Writes result (counts_reply counts) (K.shown sink.old) (K.shown sink.new) }
{
    match put_trees(sink, counts) {
        Ok(()) => Stepped::Answered,
        Err(_) => Stepped::SinkFailed,
    }
}

/// Writes the line of each tree, in one piece.
fn put_trees<K: Sink>(sink: &mut K, counts: TreeCounts) -> Result<(), Failed>
    ensures { Sends result (ended (counts_reply counts)) (K.shown sink.old) (K.shown sink.new) }
{
    write_lines(&ShortReply::Trees(counts), sink)
}

/// Writes the line of a tree, which begins with these words.
#[tactic(auto, using(si_io::proofs::Sends::sends))]
pub fn put_tree_line<K: Sink>(sink: &mut K, words: &[u8], counts: Counts) -> Result<(), Failed>
    ensures { Sends result (tree_text words.now counts ++ separator_text LineFeed)
        (K.shown sink.old) (K.shown sink.new) }
{
    put_tree(sink, words, counts)?;
    put_separator(sink, Separator::LineFeed)
}

/// Writes the same without its line feed.
#[tactic(auto, using(si_io::proofs::Sends::sends))]
pub fn put_tree<K: Sink>(sink: &mut K, words: &[u8], counts: Counts) -> Result<(), Failed>
    ensures { Sends result (tree_text words.now counts) (K.shown sink.old) (K.shown sink.new) }
{
    put_three(
        sink,
        words,
        counts.nodes,
        b" leaves ",
        counts.leaves,
        b" unmerged ",
        counts.unmerged,
    )
}

/// Writes what a query passes in its tree, and how many answers it has.
pub fn explain<K: Sink>(
    index: &Index,
    memory: &mut SearchMemory,
    relation: Relation,
    pattern: &Pattern,
    sink: &mut K,
) -> Stepped
    requires { IsSoundPattern (pattern_of pattern.now) }
    ensures { ReportsExplained index.now relation (pattern_of pattern.now) result
        (K.shown sink.old) (K.shown sink.new) }
{
    match index.explain(memory, relation, pattern) {
        Ok(explained) => report(sink, ReplyLine::Explained(explained)),
        Err(_) => report(sink, ReplyLine::Memory),
    }
}
