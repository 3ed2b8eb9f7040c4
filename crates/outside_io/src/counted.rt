//! Openings and readers that count their own errors.

ghost use Rattle.std.specs.Prelude.{◌≡◌, ◌∷◌, ◌<◌, ◌≤◌, ◌≢◌, [], Err, IfErr, IfOk, IfSome, IsErrOf, IsSomeAnd, Ok, Some, length, take};
ghost use Rattle.std.specs.Io.KnownBytes.{Consumes, IsAtEnd};
ghost use Rattle.std.specs.IoError.{error_kind};
ghost use Rattle.outside_io.specs.Count.{Rose};
ghost use Rattle.outside_io.specs.Counted.{count_of, value_of};
ghost use Rattle.outside_io.specs.Files.{FaultsBy, ReadBetween};

use crate::files::FileError;
use crate::opening::Opening;
use std::io;
use std::io::{ErrorKind, Read};

/// An opening or a reader, and how often it answered with an error, up to 2^64 - 1. Want of memory
/// isn't counted.
///
/// The clauses of its calls say that `Failed` comes only where the count rises. That only these calls
/// raise it, each at an error of this very value, holds since none but this module has its fields.
#[derive(Drop)]
pub struct Counted<T> {
    value: T,
    count: u64,
}

impl<T> Counted<T> {
    /// None of its errors was counted yet.
    pub fn of(value: T) -> Self
        ensures value { value_of result ≡ value }
        ensures none { count_of result ≡ 0 }
    {
        Counted { value, count: 0 }
    }

    // What the value answered: want of memory is told as that, and each other error is counted.
    fn answer<X>(&mut self, answered: io::Result<X>) -> Result<X, FileError>
        ensures ok { IfOk answered (λ x. result ≡ Ok x) }
        ensures memory { IfErr answered (λ e.
            error_kind e ≡ ErrorKind.OutOfMemory → result ≡ Err FileError.Memory) }
        ensures failed { IfErr answered (λ e.
            error_kind e ≢ ErrorKind.OutOfMemory → result ≡ Err FileError.Failed) }
        ensures counts { FaultsBy (count_of self.old) (count_of self.new) result }
        ensures same { value_of self.new ≡ value_of self.old }
    {
        match answered {
            Ok(x) => Ok(x),
            Err(e) if e.kind() == ErrorKind::OutOfMemory => Err(FileError::Memory),
            Err(_) => {
                self.count = self.count.saturating_add(1);
                Err(FileError::Failed)
            }
        }
    }
}

impl<O: Opening> Counted<O> {
    /// Opens the named file, once. No error of its reader was counted yet.
    ///
    /// # Errors
    ///
    /// `Failed` where it can't be opened, which is counted, and `Memory` where no memory is found.
    pub fn open(&mut self, name: &str) -> Result<Counted<O::Reader>, FileError>
        ensures opened { ReadBetween (O.opened (value_of self.old)) (O.opened (value_of self.new))
            (name.now ∷ []) }
        ensures keeps { O.holds (value_of self.new) ≡ O.holds (value_of self.old) }
        ensures content { IfOk result (λ reader. IfSome (O.holds (value_of self.old)) (λ of.
            IsSomeAnd (of name.now) (λ bytes. O.Reader.remaining (value_of reader) ≡ Some bytes))) }
        ensures none { IfOk result (λ reader. count_of reader ≡ 0) }
        ensures counts { FaultsBy (count_of self.old) (count_of self.new) result }
        ensures no_limit { IsErrOf result FileError.TooLong → ⊥ }
    {
        let opened = self.value.open(name);
        match self.answer(opened) {
            Ok(reader) => Ok(Counted::of(reader)),
            Err(e) => Err(e),
        }
    }

    /// Closes a reader: what was counted of it is counted of the opening. None but an opening gives
    /// such a reader.
    pub fn close(&mut self, reader: Counted<O::Reader>)
        ensures none { count_of reader ≡ 0 → count_of self.new ≡ count_of self.old }
        ensures some { 0 < count_of reader → Rose (count_of self.old) (count_of self.new) }
        ensures same { value_of self.new ≡ value_of self.old }
    {
        self.count = self.count.saturating_add(reader.count);
    }
}

impl<T: Read> Counted<T> {
    /// Reads once into the piece, and again where a signal interrupts it. It answers how many bytes
    /// came; none only at the end, or where the piece is empty.
    ///
    /// # Errors
    ///
    /// `Failed` where a read fails, or is interrupted 2^64 - 1 times, which is counted, and `Memory`
    /// where the reader finds no memory.
    pub fn read(&mut self, piece: &mut [u8]) -> Result<usize, FileError>
        ensures within { IfOk result (λ count. count ≤ length piece.new) }
        ensures bytes { IfOk result (λ count.
            Consumes (T.remaining (value_of self.old)) (T.remaining (value_of self.new))
            (take count piece.new)) }
        ensures end { IfOk result (λ count.
            count ≡ 0 → 0 < length piece.old → IsAtEnd (T.remaining (value_of self.new))) }
        ensures counts { FaultsBy (count_of self.old) (count_of self.new) result }
        ensures no_limit { IsErrOf result FileError.TooLong → ⊥ }
    {
        for _ in 0..u64::MAX {
            match self.value.read(piece) {
                Err(e) if e.kind() == ErrorKind::Interrupted => {}
                answered => return self.answer(answered),
            }
        }
        self.answer(Err(io::Error::from(ErrorKind::Interrupted)))
    }
}
