// Replies that are known before their first line is written.

use crate::reply::{ReplyLine, put_reply};
use crate::trees::{put_tree, put_tree_line};
use si_index::TreeCounts;
use si_io::{Failed, Lines, Sink};

/// A reply that is known before its first line is written.
#[derive(Clone, Copy)]
pub enum ShortReply<'a> {
    /// One line.
    Line(ReplyLine<'a>),
    /// A line for each tree.
    Trees(TreeCounts),
}

impl Lines for ShortReply<'_> {
    ghost use Rattle.si_session.specs.ShortReplies.{lines_before, IsLineBefore, last_line};

    ghost count = { λ reply. lines_before reply };

    ghost line = { λ reply. IsLineBefore reply };

    ghost last = { λ reply. last_line reply };

    fn count(&self) -> usize {
        match *self {
            ShortReply::Line(_) => 0,
            ShortReply::Trees(_) => 1,
        }
    }

    fn put_line<K: Sink>(&self, _n: usize, sink: &mut K) -> Result<(), Failed> {
        match *self {
            ShortReply::Line(_) => unreachable!(),
            ShortReply::Trees(counts) => put_tree_line(sink, b"literals nodes ", counts.literals),
        }
    }

    fn put_last<K: Sink>(&self, sink: &mut K) -> Result<(), Failed> {
        match *self {
            ShortReply::Line(reply) => put_reply(sink, reply),
            ShortReply::Trees(counts) => put_tree(sink, b"terms nodes ", counts.terms),
        }
    }
}
