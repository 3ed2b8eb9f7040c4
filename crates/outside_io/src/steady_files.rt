//! Files in memory, none of whose reads fails.

ghost use Rattle.std.specs.Prelude.{◌≡◌, ℕ, ◌<◌, List, [], IfOk, IsErrOf, length, map, string_bytes};
ghost use Rattle.std.specs.Option.{unwrap_or};

use crate::files::{FileError, Files};
use crate::memory_files::{MemoryFiles, keep};
use std::alloc::Global;

/// Files in memory that hold something under every name, so that no read fails.
///
/// It tells what each name holds, the names that were read, and that no read failed; its count of
/// faults is 0.
#[derive(Drop)]
pub struct SteadyFiles {
    files: MemoryFiles,
}

impl SteadyFiles {
    ghost use Rattle.outside_io.specs.MemoryFiles.{held_by, reads_of as reads_before};
    ghost use Rattle.outside_io.specs.SteadyFiles.{content_of, reads_of};

    /// Every name holds what it holds in `files`, and no byte where it isn't held there. The calls
    /// that are listed there to fail don't fail here. The names that were read there stand before
    /// those that are read here. It takes no memory.
    pub fn new(files: MemoryFiles) -> Self
        ensures held { (name : List ℕ)
            → content_of result name ≡ unwrap_or (held_by files name) [] }
        ensures reads { reads_of result ≡ reads_before files }
    {
        SteadyFiles { files }
    }

    /// The names that were read, in order, lent. A call that found no memory to keep its name read
    /// nothing.
    pub fn reads(&self) -> &[String]
        ensures { map string_bytes result.now ≡ reads_of self.now }
    {
        self.files.reads()
    }
}

impl Files for SteadyFiles {
    ghost use Rattle.outside_io.specs.Files.{ReadsFile};
    ghost use Rattle.outside_io.specs.SteadyFiles.{content_of, seen_of};

    ghost seen = { seen_of };

    /// `Failed` never comes. Want of memory alone may stand in place of each other answer.
    fn read(&mut self, alloc: Global, name: &str, limit: u32) -> Result<Vec<u8>, FileError>
        ensures reads { ReadsFile (seen_of self.old) (seen_of self.new) result limit name.now }
        ensures content { IfOk result (λ bytes. bytes.items ≡ content_of self.old name.now) }
        ensures too_long { IsErrOf result FileError.TooLong →
            limit < length (content_of self.old name.now) }
        ensures never_fails { IsErrOf result FileError.Failed → ⊥ }
        ensures keeps { content_of self.new ≡ content_of self.old }
    {
        keep(&mut self.files.reads, alloc, name)?;
        match self.files.content(name) {
            Some(bytes) if bytes.len() <= limit as usize => Ok(bytes.to_vec(alloc)?),
            Some(_) => Err(FileError::TooLong),
            None => Ok(Vec::new(alloc)),
        }
    }
}
