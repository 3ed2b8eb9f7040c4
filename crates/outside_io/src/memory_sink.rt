//! A sink in memory, with a room, some of whose puts fail.

ghost use Rattle.std.specs.Prelude.{◌≡◌, ◌↔◌, ◌<◌, ◌≤◌, IfOk, OnErr, IsErr, IsOk, vec_len, vec_capacity, length};
ghost use Rattle.outside_io.specs.Count.{one_more};
ghost use Rattle.outside_io.specs.Sink.{Puts};

use crate::listed::is_listed;
use crate::sink::{Failed, Sink};
use ffm_model::{List, Memory};
use std::alloc::Global;

/// A sink in memory. It takes pieces of a stated size as long as there is room, and tells its bytes.
///
/// A put fails where its call is listed, or where no room is left.
#[derive(Drop)]
pub struct MemorySink {
    bytes: Vec<u8>,
    room: usize,
    piece: usize,
    failing: List<u32>,
    calls: u64,
    faults: u64,
    ghost some: { 0 < piece },
    ghost within: { vec_len bytes ≤ room },
    ghost made: { room ≤ vec_capacity bytes },
}

impl MemorySink {
    ghost use Rattle.outside_io.specs.MemorySink.{IsNew, taken_by};

    /// A sink with room for `room` bytes, which is made now. A put takes at most `piece` bytes, and
    /// the puts with the numbers of `fail` fail; the first put has the number 1.
    ///
    /// `Memory` comes where no memory is found for the room.
    pub fn new(
        alloc: Global,
        room: usize,
        piece: usize,
        fail: List<u32>,
    ) -> Result<MemorySink, Memory>
        requires { 0 < piece }
        ensures { IfOk result (IsNew room piece fail) }
    {
        Ok(MemorySink {
            bytes: Vec::with_capacity(alloc, room)?,
            room,
            piece,
            failing: fail,
            calls: 0,
            faults: 0,
        })
    }

    /// The bytes taken so far, lent.
    pub fn bytes(&self) -> &[u8]
        ensures { result.now ≡ taken_by self.now }
    {
        &self.bytes
    }
}

impl Sink for MemorySink {
    ghost use Rattle.outside_io.specs.MemorySink.{seen_of, calls_of, faults_of, takes_of, Fails, SameBounds};

    ghost seen = { seen_of };

    fn put(&mut self, piece: &[u8]) -> Result<usize, Failed>
        requires { 0 < length piece.now }
        ensures some { IfOk result (λ count. 0 < count) }
        ensures within { IfOk result (λ count. count ≤ length piece.now) }
        ensures puts { Puts (seen_of self.old) (seen_of self.new) result piece.now }

        // Exactly the listed calls fail, and those with no room left.
        ensures fails { IsErr result ↔ Fails self.old }
        ensures count { IfOk result (λ count. count ≡ takes_of self.old (length piece.now)) }
        ensures calls { calls_of self.new ≡ one_more (calls_of self.old) }
        ensures same_bounds { SameBounds self.old self.new }

        // A failed put is counted once.
        ensures counted { OnErr result (faults_of self.new ≡ one_more (faults_of self.old)) }
    {
        self.calls = self.calls.saturating_add(1);
        let count = piece
            .len()
            .min(self.piece)
            .min(self.room - self.bytes.len());
        if is_listed(&self.failing, self.calls) || count == 0 {
            self.faults = self.faults.saturating_add(1);
            return Err(Failed);
        }
        self.bytes.extend_from_slice(&piece[..count]).unwrap();
        Ok(count)
    }

    /// Nothing ever waits.
    fn flush(&mut self) -> Result<(), Failed>
        ensures fine { IsOk result }
        ensures same { self.new ≡ self.old }
    {
        Ok(())
    }
}
