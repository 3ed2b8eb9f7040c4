//! Files by name.

ghost use Rattle.std.specs.Prelude.{◌≡◌, IfSome};
ghost use Rattle.std.specs.Option.{option_map};
ghost use Rattle.outside_io.specs.Files.{FilesSeen, ReadsFile};

use std::alloc::{AllocError, AllocFailed, Global};
use thiserror::Error;

/// Why a read gave no bytes.
///
/// `Failed`: the outside refused it, and the count of faults rose. `TooLong`: the file has more
/// bytes than the limit. `Memory`: no memory was found.
#[derive(Clone, Copy, Debug, PartialEq, Eq, Error)]
pub enum FileError {
    #[error("the file can't be read")]
    Failed,
    #[error("the file is too long")]
    TooLong,
    #[error("no memory was found")]
    Memory,
}

impl From<AllocError> for FileError {
    ghost use Rattle.std.specs.Prelude.{◌≡◌};
    ghost use Rattle.outside_io.specs.declared.files.FileError.TheVariants.{Memory};

    ghost from_gives = { λ _ e. e ≡ Memory };

    fn from(_e: AllocError) -> FileError {
        FileError::Memory
    }
}

impl<T: Drop> From<AllocFailed<T>> for FileError {
    ghost use Rattle.std.specs.Prelude.{◌≡◌};
    ghost use Rattle.outside_io.specs.declared.files.FileError.TheVariants.{Memory};

    ghost from_gives = { λ _ e. e ≡ Memory };

    fn from(_e: AllocFailed<T>) -> FileError {
        FileError::Memory
    }
}

/// Files by their names.
pub trait Files {
    /// What they tell: what each name holds, which names were read, in order, and the name of the last
    /// failed read, where these are told, and how often a read has failed, up to 2^64 - 1.
    ghost seen: { Self → FilesSeen };

    /// The bytes of the named file, at most `limit` of them.
    ///
    /// `TooLong` comes exactly where the file has more than `limit` bytes. `Failed` comes only where
    /// the count of faults rose in this call, and then this name is the last failed one; every other
    /// answer leaves the count and the last failed name as they were. `Memory` comes where no memory
    /// is found, and may stand in place of each other answer. Whatever it answers, each name holds
    /// what it held. The name is read once, and no other; where `Memory` comes, it may not have been
    /// read.
    fn read(&mut self, alloc: Global, name: &str, limit: u32) -> Result<Vec<u8>, FileError>
        ensures { ReadsFile (seen self.old) (seen self.new) result limit name.now };
}

/// Files that say which read failed last.
pub trait NamesFailed: Files {
    /// The name of the last failed read, lent, if there was one.
    fn last_failed(&self) -> Option<&str>
        ensures { IfSome (Self.seen self.now).last_failed (λ told.
            option_map (λ name. name.now) result ≡ told) };
}
