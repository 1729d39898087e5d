// What stands between the parts of a printed text.
ghost use Rattle.std.specs.Prelude.{OnOk, OnErr};
ghost use Rattle.si_io.specs.Sends.{Sends};
ghost use Rattle.si_session.specs.Separators.{separator_text};

use si_io::{Failed, Sink};
use si_reply::put_bytes;

/// What stands between two parts of a printed text.
#[derive(Clone, Copy, Debug, PartialEq, Eq)]
pub enum Separator {
    /// A space, after a place or a name.
    Space,
    /// The end of a line.
    LineFeed,
}

/// Writes a separator.
#[tactic(auto, unfolding(crate::specs::Separators::separator_text))]
pub fn put_separator<K: Sink>(sink: &mut K, separator: Separator) -> Result<(), Failed>
    ensures { Sends result (separator_text separator) (K.shown sink.old) (K.shown sink.new) }
{
    match separator {
        Separator::Space => put_bytes(sink, b" "),
        Separator::LineFeed => put_bytes(sink, b"\n"),
    }
}
