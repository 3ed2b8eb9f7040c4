//! A sink in memory, none of whose puts fails.

ghost use Rattle.std.specs.Prelude.{◌≡◌, ◌+◌, ◌<◌, ◌≤◌, ◌++◌, [], Some, None, IfOk, IfSome, IsOk, vec_len, vec_capacity, length};
ghost use Rattle.outside_io.specs.Sink.{Puts};

use crate::sink::{Failed, Sink};
use ffm_model::Memory;
use std::alloc::Global;

/// A sink in memory that takes each piece whole. It keeps and tells the bytes as long as all that it
/// took fits in its room; afterwards it keeps no further byte and tells nothing.
///
/// Its count of faults is 0.
#[derive(Drop)]
pub struct SteadySink {
    bytes: Vec<u8>,
    room: usize,
    is_over: bool,
    ghost within: { vec_len bytes ≤ room },
    ghost made: { room ≤ vec_capacity bytes },
}

impl SteadySink {
    ghost use Rattle.outside_io.specs.SteadySink.{kept_by, room_of, told_by};

    /// A sink with room for `room` bytes, which is made now.
    ///
    /// `Memory` comes where no memory is found for the room.
    pub fn new(alloc: Global, room: usize) -> Result<SteadySink, Memory>
        ensures empty { IfOk result (λ sink. told_by sink ≡ Some []) }
        ensures room { IfOk result (λ sink. room_of sink ≡ room) }
    {
        Ok(SteadySink {
            bytes: Vec::with_capacity(alloc, room)?,
            room,
            is_over: false,
        })
    }

    /// The bytes that it keeps, lent: those taken, where it tells them.
    pub fn bytes(&self) -> &[u8]
        ensures kept { result.now ≡ kept_by self.now }
        ensures told { IfSome (told_by self.now) (λ bytes. result.now ≡ bytes) }
    {
        &self.bytes
    }
}

impl Sink for SteadySink {
    ghost use Rattle.outside_io.specs.SteadySink.{kept_by, room_of, seen_of, told_by};

    ghost seen = { seen_of };

    fn put(&mut self, piece: &[u8]) -> Result<usize, Failed>
        requires { 0 < length piece.now }
        ensures fine { IsOk result }
        ensures some { IfOk result (λ count. 0 < count) }
        ensures within { IfOk result (λ count. count ≤ length piece.now) }
        ensures puts { Puts (seen_of self.old) (seen_of self.new) result piece.now }
        ensures whole { IfOk result (λ count. count ≡ length piece.now) }
        ensures room { room_of self.new ≡ room_of self.old }

        // The bytes are told up to the piece that finds no room, which isn't kept, and never again.
        ensures fits { IfSome (told_by self.old) (λ bytes.
            length bytes + length piece.now ≤ room_of self.old
            → told_by self.new ≡ Some (bytes ++ piece.now)) }
        ensures over { IfSome (told_by self.old) (λ bytes.
            room_of self.old < length bytes + length piece.now → told_by self.new ≡ None) }
        ensures untold { told_by self.old ≡ None → told_by self.new ≡ None }
        ensures dropped { told_by self.new ≡ None → kept_by self.new ≡ kept_by self.old }
    {
        if self.is_over || piece.len() > self.room - self.bytes.len() {
            self.is_over = true;
            return Ok(piece.len());
        }
        self.bytes.extend_from_slice(piece).unwrap();
        Ok(piece.len())
    }

    /// Nothing ever waits.
    fn flush(&mut self) -> Result<(), Failed>
        ensures fine { IsOk result }
        ensures same { self.new ≡ self.old }
    {
        Ok(())
    }
}
