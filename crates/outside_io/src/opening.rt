//! Files that are opened by their names, and then read.

ghost use Rattle.std.specs.Prelude.{◌≡◌, ◌∷◌, ℕ, [], List, Option, None, Some, IfOk, IfSome, IsSomeAnd};
ghost use Rattle.ffm_model.specs.Reading.{Contents};
ghost use Rattle.outside_io.specs.Files.{ReadBetween, ReadsFile};

use crate::counted::Counted;
use crate::files::{FileError, Files, NamesFailed};
use crate::front::whole_of;
use std::alloc::Global;
use std::io;
use std::io::Read;

/// What opens files by their names.
pub trait Opening {
    /// An opened file, before anything of it was read.
    type Reader: Read + Drop;

    /// What each name holds, where it is told.
    ghost holds: { Self → Option Contents };

    /// The names that were opened, in order, where they are told.
    ghost opened: { Self → Option (List (List ℕ)) };

    /// Opens the named file. Its reader gives what the name holds, where both are told.
    ///
    /// Whatever it answers, each name holds what it held, and this name was opened once.
    fn open(&mut self, name: &str) -> io::Result<Self::Reader>
        ensures opened { ReadBetween (opened self.old) (opened self.new) (name.now ∷ []) }
        ensures keeps { holds self.new ≡ holds self.old }
        ensures content { IfOk result (λ reader. IfSome (holds self.old) (λ of.
            IsSomeAnd (of name.now) (λ bytes. Self.Reader.remaining reader ≡ Some bytes))) };
}

/// Files that are opened for each read, once, and read up to the limit.
///
/// They tell what the opening tells: what each name holds, and which names were opened; and the name of
/// the last failed read.
#[derive(Drop)]
pub struct OpenedFiles<O> {
    opening: Counted<O>,
    last_failed: Option<String>,
}

impl<O: Opening> OpenedFiles<O> {
    ghost use Rattle.outside_io.specs.Opening.{faults_of, last_failed_of, opening_of, seen_but_failed};

    /// The files of this opening, none of which failed yet.
    pub fn of(opening: O) -> Self
        ensures opening { opening_of result ≡ opening }
        ensures no_fault { faults_of result ≡ 0 }
        ensures no_name { last_failed_of result ≡ None }
    {
        OpenedFiles {
            opening: Counted::of(opening),
            last_failed: None,
        }
    }

    // The bytes of the named file. The name of the last failed read stays.
    fn content(&mut self, alloc: Global, name: &str, limit: u32) -> Result<Vec<u8>, FileError>
        ensures read { ReadsFile (seen_but_failed O.holds O.opened self.old)
            (seen_but_failed O.holds O.opened self.new) result limit name.now }
        ensures unnamed { last_failed_of self.new ≡ last_failed_of self.old }
    {
        let mut reader = self.opening.open(name)?;
        let read = whole_of(alloc, &mut reader, limit);
        self.opening.close(reader);
        read
    }
}

impl<O: Opening> Files for OpenedFiles<O> {
    ghost use Rattle.outside_io.specs.Opening.{seen_through};

    ghost seen = { seen_through O.holds O.opened };

    fn read(&mut self, alloc: Global, name: &str, limit: u32) -> Result<Vec<u8>, FileError> {
        let kept = String::from_str(alloc, name)?;
        let read = self.content(alloc, name, limit);
        if let Err(FileError::Failed) = read {
            self.last_failed = Some(kept);
        }
        read
    }
}

impl<O: Opening> NamesFailed for OpenedFiles<O> {
    fn last_failed(&self) -> Option<&str> {
        self.last_failed.as_ref().map(|name| name.as_str())
    }
}
