// Calls that are made again where a signal interrupts them, as std does it.
ghost use Rattle.std.specs.Prelude.{◌≡◌, ◌≤◌, length, IfOk};
ghost use Rattle.std.specs.Io.KnownBytes.{Keeps, ReadConsumes, WriteAppends};
ghost use Rattle.si_io.specs.Tries.{Tries, TriesToRead, TriesWith, is_interrupted};

use super::device::{Input, Output};
use super::disk::Disk;
use std::io;
use std::io::ErrorKind;

fn is_interrupted<T>(answer: &io::Result<T>) -> bool
    ensures { result ≡ is_interrupted answer.now }
{
    match answer {
        Ok(_) => false,
        Err(error) => match error.kind() {
            ErrorKind::Interrupted => true,
            _ => false,
        },
    }
}

pub fn read_again<R: Input>(input: &mut R, into: &mut [u8]) -> io::Result<usize>
    ensures bound { IfOk result (λ n. n ≤ length into.old) }
    ensures bytes { ReadConsumes (R.rest input.old) (R.rest input.new) result into.new }
    ensures tries { TriesToRead R.reads input.old into.old result input.new into.new }
{
    for i in 0..u64::MAX {
        let answer = input.read_once(into);
        if !is_interrupted(&answer) {
            return answer;
        }
    }
    input.read_once(into)
}

pub fn write_again<W: Output>(output: &mut W, bytes: &[u8]) -> io::Result<usize>
    ensures bound { IfOk result (λ n. n ≤ length bytes.now) }
    ensures bytes { WriteAppends (W.text output.old) (W.text output.new) result bytes.now }
    ensures tries { TriesWith W.writes output.old bytes.now result output.new }
{
    for i in 0..u64::MAX {
        let answer = output.write_once(bytes);
        if !is_interrupted(&answer) {
            return answer;
        }
    }
    output.write_once(bytes)
}

pub fn flush_again<W: Output>(output: &mut W) -> io::Result<()>
    ensures bytes { Keeps (W.text output.old) (W.text output.new) }
    ensures tries { Tries W.flushes output.old result output.new }
{
    for i in 0..u64::MAX {
        let answer = output.flush_once();
        if !is_interrupted(&answer) {
            return answer;
        }
    }
    output.flush_once()
}

pub fn open_again<D: Disk>(disk: &mut D, path: &str) -> io::Result<D::File>
    ensures { TriesWith D.opens disk.old path.now result disk.new }
{
    for i in 0..u64::MAX {
        let answer = disk.open(path);
        if !is_interrupted(&answer) {
            return answer;
        }
    }
    disk.open(path)
}
