// Lines that are written one by one, and the one function that writes them all.
ghost use Rattle.std.specs.Prelude.{◌≡◌, ◌<◌, ℕ, List, [], ◌∷◌, ◌++◌};
ghost use Rattle.si_io.specs.Lines.{HaveTexts, WritesLines};
ghost use Rattle.si_io.specs.Sends.{Sends};

use crate::buffered::{Borrowed, Buffered, Origin};
use crate::{Failed, Sink};
use std::marker::Brand;

/// What is answered: some lines, and one more that ends them.
pub trait Lines {
    /// How many lines stand before the last one.
    ghost count: { Self → ℕ };

    /// The texts that are right for the line with a number from 0, each with its line feed.
    ghost line: { Self → ℕ → List ℕ → Type 0 };

    /// The last line, without its line feed.
    ghost last: { Self → List ℕ };

    /// How many lines stand before the last one.
    fn count(&self) -> usize
        ensures { result ≡ count self.now };

    /// Writes a text that is right for the line with this number.
    fn put_line<K: Sink>(&self, n: usize, sink: &mut K) -> Result<(), Failed>
        requires { n < count self.now }
        ensures { (text : List ℕ) × line self.now n text
            × Sends result text (K.shown sink.old) (K.shown sink.new) };

    /// Writes the last line, without its line feed.
    fn put_last<K: Sink>(&self, sink: &mut K) -> Result<(), Failed>
        ensures { Sends result (last self.now) (K.shown sink.old) (K.shown sink.new) };
}

/// Writes the lines before the last one.
fn put_lines<A: Lines, K: Sink>(lines: &A, sink: &mut K) -> Result<(), Failed>
    requires { HaveTexts (A.line lines.now) (A.count lines.now) }
    ensures { WritesLines (A.line lines.now) (A.count lines.now) [] result (K.shown sink.old)
        (K.shown sink.new) }
{
    for n in 0..lines.count() {
        lines.put_line(n, sink)?;
    }
    Ok(())
}

/// Writes all lines, but for the last line feed.
fn put_all<A: Lines, K: Sink>(lines: &A, sink: &mut K) -> Result<(), Failed>
    requires { HaveTexts (A.line lines.now) (A.count lines.now) }
    ensures { WritesLines (A.line lines.now) (A.count lines.now) (A.last lines.now) result
        (K.shown sink.old) (K.shown sink.new) }
{
    put_lines(lines, sink)?;
    lines.put_last(sink)
}

/// Writes them over a sink that gathers their bytes.
fn put_over<A: Lines, S: Borrowed, B: Origin>(lines: &A, sink: S) -> (Result<(), Failed>, S)
    requires texts { HaveTexts (A.line lines.now) (A.count lines.now) }
    requires same { S.name sink ≡ B.name }
    requires start { S.shown sink ≡ B.shown }
    ensures written { WritesLines (A.line lines.now) (A.count lines.now)
        (A.last lines.now ++ 10 ∷ []) result.0 (S.shown sink) (S.shown result.1) }
    ensures same { S.name result.1 ≡ S.name sink }
{
    let mut buffered = Buffered::<S, B>::over(sink);
    let written = put_all(lines, &mut buffered);
    buffered.finish(written)
}

/// Writes the lines, each with its line feed, in large pieces. This takes no memory.
pub fn write_lines<A: Lines, K: Sink>(lines: &A, sink: &mut K) -> Result<(), Failed>
    requires { HaveTexts (A.line lines.now) (A.count lines.now) }
    ensures { WritesLines (A.line lines.now) (A.count lines.now) (A.last lines.now ++ 10 ∷ [])
        result (K.shown sink.old) (K.shown sink.new) }
{
    let (written, _) = put_over::<A, &mut K, Brand>(lines, sink);
    written
}
