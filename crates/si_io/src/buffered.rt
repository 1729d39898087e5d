// A sink over a sink, which gathers the bytes of a reply and hands them on in large pieces.
ghost use Rattle.std.specs.Prelude.{◌≡◌, ◌+◌, ◌-◌, ◌<◌, ◌≤◌, ℕ, List, [], ◌∷◌, ◌++◌, length, take, drop, min, IfOk, OnOk, OnErr};
ghost use Rattle.std.specs.Borrow.{GName};
ghost use Rattle.std.proofs.Props.{props};
ghost use Rattle.si_io.specs.Content.{untold, append_told, Receives, TakesFitting};
ghost use Rattle.si_io.specs.Counts.{nothing_written, raised_by, write_counted};
ghost use Rattle.si_io.specs.Sends.{WritesFew, Sends};
ghost use Rattle.si_io.specs.Shown.{SinkShown};
ghost use Rattle.si_io.specs.Buffering.{held, last_line_feed, HandsOn, gathered, begun, HasBytesSince, HasRoomSince};

use crate::{Failed, Sink};
use std::marker::{Brand, PhantomData};

/// So many bytes are held at most. A few pieces of this size fit the buffer of a `BufWriter`.
const HELD: usize = 1023;

/// Those, and the line feed that ends the reply.
const SIZE: usize = HELD + 1;

const LINE_FEED: u8 = b'\n';

/// Which sink is written to, and what it showed at the start: for proofs alone.
pub trait Origin {
    ghost name: { GName };

    ghost shown: { SinkShown };
}

impl Origin for Brand {
    ghost name = { 0 };

    ghost shown = { record {
      told = untold;
      counts = nothing_written;
    } };
}

/// A sink that is borrowed. Beside what a sink promises, it stays the same one.
pub trait Borrowed {
    ghost shown: { Self → SinkShown };

    ghost name: { Self → GName };

    /// Takes some bytes, as the sink's `write` does. It is called with some bytes only.
    fn pass(&mut self, bytes: &[u8]) -> Result<usize, Failed>
        requires { 0 < length bytes.now }
        ensures bound { IfOk result (λ n. n ≤ length bytes.now) }
        ensures taken { IfOk result (λ n. Receives (shown self.old).told (take n bytes.now)
            (shown self.new).told) }
        ensures kept { OnErr result ((shown self.new).told ≡ (shown self.old).told) }
        ensures fits { TakesFitting (shown self.old).told.room bytes.now result }
        ensures counts { (shown self.new).counts
            ≡ write_counted (length bytes.now) result (shown self.old).counts }
        ensures same { name self.new ≡ name self.old };
}

impl<K: Sink> Borrowed for &mut K {
    ghost shown = { λ sink. K.shown sink.now };

    ghost name = { λ sink. sink.ghost_name };

    fn pass(&mut self, bytes: &[u8]) -> Result<usize, Failed> {
        (**self).write(bytes)
    }
}

/// Hands on the bytes from a place on, in as many calls as the sink needs, and moves the place
/// after those that were taken.
fn hand_on<S: Borrowed>(sink: &mut S, bytes: &[u8], from: &mut usize) -> Result<(), Failed>
    requires { from.old ≤ length bytes.now }
    ensures sends { Sends result (drop from.old bytes.now) (S.shown sink.old) (S.shown sink.new) }
    ensures left { append_told (S.shown sink.new).told (drop from.new bytes.now)
        ≡ append_told (S.shown sink.old).told (drop from.old bytes.now) }
    ensures count { raised_by (length bytes.now - from.new) (S.shown sink.new).counts.bytes
        ≡ raised_by (length bytes.now - from.old) (S.shown sink.old).counts.bytes }
    ensures on { from.old ≤ from.new }
    ensures within { from.new ≤ length bytes.now }
    ensures all { OnOk result (from.new ≡ length bytes.now) }
    ensures same { S.name sink.new ≡ S.name sink.old }
{
    while *from < bytes.len() {
        let count = sink.pass(&bytes[*from..])?;
        if count == 0 {
            return Err(Failed);
        }
        *from += count;
    }
    Ok(())
}

/// Copies bytes over as many others. A few of them are copied without a call.
#[inline(always)]
fn copy(into: &mut [u8], bytes: &[u8])
    requires { length into.old ≡ length bytes.now }
    ensures { into.new ≡ bytes.now }
{
    let size = bytes.len();
    if size < 2 || 16 < size {
        copy_any(into, bytes);
        return;
    }
    if size < 4 {
        copy_ends::<2>(into, bytes);
        return;
    }
    if size < 8 {
        copy_ends::<4>(into, bytes);
        return;
    }
    copy_ends::<8>(into, bytes);
}

/// Copies any number of bytes. Few pieces are so long, so this isn't inlined.
#[inline(never)]
fn copy_any(into: &mut [u8], bytes: &[u8])
    requires { length into.old ≡ length bytes.now }
    ensures { into.new ≡ bytes.now }
{
    into.copy_from_slice(bytes);
}

/// Copies so many bytes from the front and as many from the end, which is all of them: these may
/// overlap. By way of arrays, which nothing else refers to, each is one load and one store.
#[inline(always)]
fn copy_ends<const N: usize>(into: &mut [u8], bytes: &[u8])
    requires same { length into.old ≡ length bytes.now }
    requires some { N ≤ length bytes.now }
    requires all { length bytes.now ≤ N + N }
    ensures { into.new ≡ bytes.now }
{
    let behind = bytes.len() - N;
    let mut front = [0; N];
    front.copy_from_slice(&bytes[..N]);
    let mut back = [0; N];
    back.copy_from_slice(&bytes[behind..]);
    into[..N].copy_from_slice(&front);
    into[behind..].copy_from_slice(&back);
}

/// A sink over a sink, which gathers what it is given, and hands it on where there is no room for
/// more.
#[derive(Drop)]
pub struct Buffered<S: Borrowed, B: Origin> {
    sink: S,
    bytes: [u8; SIZE],
    // The bytes from here on are held,
    start: usize,
    // up to here.
    end: usize,
    origin: PhantomData<B>,
    ghost same: { S.name sink ≡ B.name },
    ghost order: { start ≤ end },
    ghost within: { end ≤ 1023 },
    ghost given: { HasBytesSince B.shown.told (S.shown sink).told } by { Prim.hlevel props },
    ghost fallen: { HasRoomSince B.shown.told (S.shown sink).told },
    ghost few: { WritesFew B.shown.counts (S.shown sink).counts } by { Prim.hlevel props },
}

impl<S: Borrowed, B: Origin> Buffered<S, B> {
    /// Over this sink, with nothing held yet.
    pub fn over(sink: S) -> Buffered<S, B>
        requires same { S.name sink ≡ B.name }
        requires start { S.shown sink ≡ B.shown }
        ensures sink { result.sink ≡ sink }
        ensures none { held result.bytes result.start result.end ≡ [] }
    {
        Buffered {
            sink,
            bytes: [0; SIZE],
            start: 0,
            end: 0,
            origin: PhantomData,
        }
    }

    /// Hands on what is held up to a place.
    fn hand_on_to(&mut self, place: usize) -> Result<(), Failed>
        requires from { self.old.start ≤ place }
        requires within { place ≤ self.old.end }
        ensures handed_on { HandsOn result
            (S.shown self.old.sink) (held self.old.bytes self.old.start self.old.end)
            (S.shown self.new.sink) (held self.new.bytes self.new.start self.new.end) }
        ensures start { OnOk result (self.new.start ≡ place) }
        ensures bytes { self.new.bytes ≡ self.old.bytes }
        ensures end { self.new.end ≡ self.old.end }
    {
        hand_on(&mut self.sink, &self.bytes[..place], &mut self.start)
    }

    /// The place of a line feed that is held at the end, or else the end.
    fn before_line_feed(&self) -> usize
        ensures from { self.now.start ≤ result }
        ensures within { result ≤ self.now.end }
        ensures near { self.now.end ≤ result + 1 }
        ensures line_feed { held self.now.bytes result self.now.end
            ≡ last_line_feed (held self.now.bytes self.now.start self.now.end) }
    {
        if self.start < self.end && self.bytes[self.end - 1] == LINE_FEED {
            return self.end - 1;
        }
        self.end
    }

    /// Hands on what is held, but for a line feed at its end: a sink that hands bytes on at the end
    /// of a line would do so within a reply.
    #[inline(never)]
    fn hand_on_held(&mut self) -> Result<(), Failed>
        ensures handed_on { HandsOn result
            (S.shown self.old.sink) (held self.old.bytes self.old.start self.old.end)
            (S.shown self.new.sink) (held self.new.bytes self.new.start self.new.end) }
        ensures few { OnOk result (self.new.end ≤ 1) }
        ensures left { OnOk result (held self.new.bytes self.new.start self.new.end
            ≡ last_line_feed (held self.old.bytes self.old.start self.old.end)) }
    {
        let place = self.before_line_feed();
        self.hand_on_to(place)?;
        self.bytes[0] = self.bytes[place];
        self.end -= place;
        self.start = 0;
        Ok(())
    }

    /// Holds bytes after those that are held.
    #[inline(always)]
    fn hold(&mut self, bytes: &[u8])
        requires { self.old.end + length bytes.now ≤ 1023 }
        ensures held { held self.new.bytes self.new.start self.new.end
            ≡ held self.old.bytes self.old.start self.old.end ++ bytes.now }
        ensures sink { self.new.sink ≡ self.old.sink }
    {
        let start = self.end;
        // One byte is stored as it is.
        if bytes.len() == 1 {
            self.bytes[start] = bytes[0];
            self.end = start + 1;
            return;
        }
        let end = start + bytes.len();
        copy(&mut self.bytes[start..end], bytes);
        self.end = end;
    }

    /// Holds bytes, as `hold` does, for a caller that seldom does so.
    #[inline(never)]
    fn hold_apart(&mut self, bytes: &[u8])
        requires { self.old.end + length bytes.now ≤ 1023 }
        ensures held { held self.new.bytes self.new.start self.new.end
            ≡ held self.old.bytes self.old.start self.old.end ++ bytes.now }
        ensures sink { self.new.sink ≡ self.old.sink }
    {
        self.hold(bytes);
    }

    /// Ends a reply whose last line feed alone isn't written yet: hands on what is held, and that.
    /// After a failure the sink is given back without another call.
    pub fn finish(self, written: Result<(), Failed>) -> (Result<(), Failed>, S)
        ensures written { (text : List ℕ) → Sends written text (begun B.shown)
            (gathered (S.shown self.sink) self.bytes self.start self.end)
            → Sends result.0 (text ++ 10 ∷ []) B.shown (S.shown result.1) }
        ensures uncalled { OnErr written (result.1 ≡ self.sink) }
        ensures same { S.name result.1 ≡ B.name }
    {
        let Buffered {
            mut sink,
            mut bytes,
            mut start,
            end,
            ..
        } = self;
        if written.is_err() {
            return (written, sink);
        }
        bytes[end] = LINE_FEED;
        let handed_on = hand_on(&mut sink, &bytes[..end + 1], &mut start);
        (handed_on, sink)
    }
}

impl<S: Borrowed, B: Origin> Sink for Buffered<S, B> {
    ghost shown = { λ b. gathered (S.shown b.sink) b.bytes b.start b.end };

    #[inline(always)]
    fn write(&mut self, bytes: &[u8]) -> Result<usize, Failed> {
        if bytes.len() <= HELD - self.end {
            self.hold(bytes);
            return Ok(bytes.len());
        }
        self.hand_on_held()?;
        let count = bytes.len().min(HELD - self.end);
        self.hold_apart(&bytes[..count]);
        Ok(count)
    }
}
