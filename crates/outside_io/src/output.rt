//! A writer as a sink.

ghost use Rattle.std.specs.Prelude.{◌≡◌, IsTrue, IsSome, Bool, false};

use crate::sink::{Failed, Sink};
use std::io::{Printer, Write};

/// A writer that holds nothing back: each write goes where it stays. It is known beforehand whether
/// it tells its bytes.
pub trait Telling: Write {
    /// It tells its bytes from the start on. One that doesn't is taken to tell nothing.
    ghost tells: { Bool };
}

impl<P: Print> Telling for Printer<'_, P> {
    ghost tells = { false };
}

impl Telling for Vec<u8> {
    ghost use Rattle.std.specs.Prelude.{true};

    ghost tells = { true };
}

/// A writer with nothing between: each put is one write.
///
/// It tells the bytes that the writer holds, where the writer tells them from the start on.
#[derive(Drop)]
pub struct Output<W: Telling> {
    writer: W,
    faults: u64,
    ghost told: { IsTrue W.tells → IsSome (W.contents writer) },
}

impl<W: Telling> Output<W> {
    ghost use Rattle.outside_io.specs.Output.{faults_of, told_through};

    /// This writer, none of whose writes failed yet.
    pub fn of(writer: W) -> Self
        requires { IsTrue W.tells → IsSome (W.contents writer) }
        ensures no_fault { faults_of result ≡ 0 }
        ensures told { IsTrue W.tells → told_through W.tells W.contents result ≡ W.contents writer }
    {
        Output { writer, faults: 0 }
    }
}

impl<W: Telling> Sink for Output<W> {
    ghost use Rattle.outside_io.specs.Output.{seen_through};

    ghost seen = { seen_through W.tells W.contents };

    /// A write that takes no byte counts as an error.
    fn put(&mut self, piece: &[u8]) -> Result<usize, Failed> {
        match self.writer.write(piece) {
            Ok(count) if count > 0 => Ok(count),
            _ => {
                self.faults = self.faults.saturating_add(1);
                Err(Failed)
            }
        }
    }

    /// Nothing ever waits.
    fn flush(&mut self) -> Result<(), Failed> {
        Ok(())
    }
}
