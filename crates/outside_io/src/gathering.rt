//! Bytes that are gathered before a sink: pieces that find room wait together, and are handed on at
//! once.

ghost use Rattle.std.specs.Prelude.{◌≡◌, ◌+◌, ◌≤◌, ◌++◌, [], drop, length, take};
ghost use Rattle.std.specs.Bool.{OnFalse, OnTrue};
ghost use Rattle.outside_io.specs.Sink.{HandsOn, Takes};
ghost use Rattle.outside_io.specs.declared.gathering.TheConstants.{GATHERED_BYTES};

use crate::sink::{Failed, Sink};

// As many bytes are gathered at most.
const GATHERED_BYTES: usize = 8192;

/// A sink that gathers up to 8 KiB before it hands them on to another sink: where the next piece
/// finds no room, and at each `flush`. A piece that is longer than the room goes to the sink itself,
/// after all that was gathered.
///
/// A hand-on that fails loses nothing: the rest waits still, and the next one goes on where it
/// stopped. So its sink never has a byte behind a hole.
#[derive(Drop)]
pub struct Gathering<S> {
    sink: S,
    // The first `len` bytes were gathered. Those after them stay as they are, so that no hand-on writes any.
    held: [u8; GATHERED_BYTES],
    len: usize,
    // So many of the gathered bytes were handed on.
    at: usize,
    ghost within: { at ≤ len },
    ghost room: { len ≤ GATHERED_BYTES },
}

// The bytes from a place on, of so many.
fn part_of(held: &[u8], at: usize, len: usize) -> &[u8]
    requires within { at ≤ len }
    requires room { len ≤ length held.now }
    ensures { result.now ≡ drop at (take len held.now) }
{
    let gathered = &held[..len];
    &gathered[at..]
}

// Puts a piece behind the first so many bytes.
fn put_after(held: &mut [u8], len: usize, piece: &[u8])
    requires { len + length piece.now ≤ length held.old }
    ensures { take (len + length piece.now) held.new ≡ take len held.old ++ piece.now }
{
    let end = len + piece.len();
    held[len..end].copy_from_slice(piece);
}

impl<S: Sink> Gathering<S> {
    ghost use Rattle.outside_io.specs.Gathering.{seen_through, sink_of, waiting_in};

    /// Nothing is gathered yet before this sink.
    pub fn of(sink: S) -> Self
        ensures sink { sink_of result ≡ sink }
        ensures empty { waiting_in result ≡ [] }
        ensures seen { seen_through S.seen result ≡ S.seen sink }
    {
        Gathering {
            sink,
            held: [0; GATHERED_BYTES],
            len: 0,
            at: 0,
        }
    }

    /// The sink that takes what is handed on, lent.
    pub fn sink(&self) -> &S
        ensures { result.now ≡ sink_of self.now }
    {
        &self.sink
    }

    // Hands on what was gathered. After `Failed` the rest of it waits still.
    fn hand_on(&mut self) -> Result<(), Failed>
        ensures { HandsOn (seen_through S.seen self.old) (seen_through S.seen self.new)
            result (waiting_in self.new) }
    {
        while self.at < self.len {
            let waiting = part_of(&self.held, self.at, self.len);
            self.at += self.sink.put(waiting)?;
        }
        self.at = 0;
        self.len = 0;
        Ok(())
    }

    // Gathers a piece, where it finds room.
    fn add(&mut self, piece: &[u8]) -> bool
        ensures added { OnTrue result
            (Takes (seen_through S.seen self.old) (seen_through S.seen self.new) piece.now) }
        ensures unchanged { OnFalse result (self.new ≡ self.old) }
        ensures same_sink { sink_of self.new ≡ sink_of self.old }
    {
        if piece.len() > GATHERED_BYTES - self.len {
            return false;
        }
        put_after(&mut self.held, self.len, piece);
        self.len += piece.len();
        true
    }
}

impl<S: Sink> Sink for Gathering<S> {
    ghost use Rattle.outside_io.specs.Gathering.{seen_through};

    ghost seen = { seen_through S.seen };

    fn put(&mut self, piece: &[u8]) -> Result<usize, Failed> {
        if self.add(piece) {
            return Ok(piece.len());
        }
        self.hand_on()?;
        if self.add(piece) {
            Ok(piece.len())
        } else {
            self.sink.put(piece)
        }
    }

    /// What was gathered is handed on, and then the sink is flushed.
    fn flush(&mut self) -> Result<(), Failed> {
        self.hand_on()?;
        self.sink.flush()
    }
}
