//! Files in memory, some of whose reads fail.

ghost use Rattle.std.specs.Prelude.{◌≡◌, ◌≢◌, ◌⊎◌, ℕ, ◌<◌, ◌≤◌, List, [], ◌∷◌, ◌++◌, Some, None, IfOk, OnOk, OnErr, IsSomeAnd, IsErrOf, vec_len, length, map, string_bytes};
ghost use Rattle.std.specs.Option.{option_map};
ghost use Rattle.outside_io.specs.Count.{one_more};

use crate::files::{FileError, Files, NamesFailed};
use crate::listed::is_listed;
use ffm_model::{List, Memory};
use std::alloc::Global;
use std::collections::BTreeMap;

/// Files in memory. A read fails where its call is listed, or where nothing is held under the name.
///
/// It tells what each name holds, the names that were read, and the name of the last failed read.
#[derive(Drop)]
pub struct MemoryFiles {
    files: BTreeMap<String, Vec<u8>>,
    failing: List<u32>,
    calls: u64,
    pub(crate) reads: Vec<String>,
    faults: u64,
    last_failed: Option<String>,
}

impl MemoryFiles {
    ghost use Rattle.outside_io.specs.MemoryFiles.{held_by, calls_of, reads_of, failing_of, faults_of, last_failed_of, SameCalls};

    /// No file is held, no read was made, and no call is listed. It takes no memory.
    pub fn new(alloc: Global) -> Self
        ensures empty { (name : List ℕ) → held_by result name ≡ None }
        ensures no_call { calls_of result ≡ 0 }
        ensures no_read { reads_of result ≡ [] }
        ensures none_listed { failing_of result ≡ [] }
        ensures no_fault { faults_of result ≡ 0 }
        ensures no_name { last_failed_of result ≡ None }
    {
        MemoryFiles {
            files: BTreeMap::new(alloc),
            failing: List::of(Vec::new(alloc)),
            calls: 0,
            reads: Vec::new(alloc),
            faults: 0,
            last_failed: None,
        }
    }

    /// From now on the name holds these bytes, in place of what it held.
    ///
    /// `Memory` comes where no memory is found, and then the names hold what they did.
    pub fn add(&mut self, alloc: Global, name: &str, bytes: &[u8]) -> Result<(), Memory>
        ensures held { OnOk result (held_by self.new name.now ≡ Some bytes.now) }
        ensures others { (other : List ℕ) → other ≢ name.now →
            held_by self.new other ≡ held_by self.old other }
        ensures unchanged { OnErr result (held_by self.new ≡ held_by self.old) }
        ensures same_calls { SameCalls self.old self.new }
    {
        let name = String::from_str(alloc, name)?;
        let bytes = bytes.to_vec(alloc)?;
        self.files.insert(name, bytes)?;
        Ok(())
    }

    /// From now on the reads with these numbers fail, in place of those listed before. The first
    /// read since `new` has the number 1.
    pub fn fail_at(&mut self, calls: List<u32>)
        ensures listed { failing_of self.new ≡ calls }
        ensures keeps { held_by self.new ≡ held_by self.old }
        ensures calls { calls_of self.new ≡ calls_of self.old }
        ensures reads { reads_of self.new ≡ reads_of self.old }
        ensures faults { faults_of self.new ≡ faults_of self.old }
        ensures unnamed { last_failed_of self.new ≡ last_failed_of self.old }
    {
        self.failing = calls;
    }

    /// The names that were read since `new`, in order, lent. A call that found no memory to keep its
    /// name read nothing.
    pub fn reads(&self) -> &[String]
        ensures { map string_bytes result.now ≡ reads_of self.now }
    {
        self.reads.as_slice()
    }

    /// What the name holds, lent.
    pub(crate) fn content(&self, name: &str) -> Option<&[u8]>
        ensures { option_map (λ bytes. bytes.now) result ≡ held_by self.now name.now }
    {
        self.files.get(name).map(|bytes| bytes.as_slice())
    }
}

/// Keeps one more name after those before.
pub(crate) fn keep(names: &mut Vec<String>, alloc: Global, name: &str) -> Result<(), FileError>
    ensures kept { OnOk result
        (map string_bytes names.new.items ≡ map string_bytes names.old.items ++ name.now ∷ []) }
    ensures not_kept { OnErr result
        (map string_bytes names.new.items ≡ map string_bytes names.old.items) }
    ensures memory { OnErr result (IsErrOf result FileError.Memory) }
{
    let name = String::from_str(alloc, name)?;
    names.push(name)?;
    Ok(())
}

impl MemoryFiles {
    ghost use Rattle.outside_io.specs.MemoryFiles.{held_by, calls_of, reads_of, failing_of, faults_of, last_failed_of};

    // A failed read of this name. Its name is kept first, since that takes memory.
    fn fail(&mut self, alloc: Global, name: &str) -> FileError
        ensures kind { result ≡ FileError.Failed ⊎ result ≡ FileError.Memory }
        ensures keeps { held_by self.new ≡ held_by self.old }
        ensures calls { calls_of self.new ≡ calls_of self.old }
        ensures reads { reads_of self.new ≡ reads_of self.old }
        ensures same_listed { failing_of self.new ≡ failing_of self.old }
        ensures later { faults_of self.old ≤ faults_of self.new }
        ensures failed { result ≡ FileError.Failed →
            faults_of self.new ≡ one_more (faults_of self.old) }
        ensures not_failed { result ≡ FileError.Memory → faults_of self.new ≡ faults_of self.old }
        ensures named { result ≡ FileError.Failed → last_failed_of self.new ≡ Some name.now }
        ensures unnamed { result ≡ FileError.Memory →
            last_failed_of self.new ≡ last_failed_of self.old }
    {
        match String::from_str(alloc, name) {
            Ok(name) => {
                self.last_failed = Some(name);
                self.faults = self.faults.saturating_add(1);
                FileError::Failed
            }
            Err(_) => FileError::Memory,
        }
    }
}

impl Files for MemoryFiles {
    ghost use Rattle.outside_io.specs.MemoryFiles.{calls_of, failing_of, faults_of, seen_of, Fails};
    ghost use Rattle.outside_io.specs.Files.{ReadsFile};

    ghost seen = { seen_of };

    /// Want of memory alone may stand in place of each other answer.
    fn read(&mut self, alloc: Global, name: &str, limit: u32) -> Result<Vec<u8>, FileError>
        ensures reads { ReadsFile (seen_of self.old) (seen_of self.new) result limit name.now }

        // Exactly the listed calls fail, and those of a name that isn't held.
        ensures fails { Fails self.old name.now →
            (IsErrOf result FileError.Failed) ⊎ (IsErrOf result FileError.Memory) }
        ensures only_these_fail { IsErrOf result FileError.Failed → Fails self.old name.now }
        ensures calls { calls_of self.new ≡ one_more (calls_of self.old) }
        ensures same_listed { failing_of self.new ≡ failing_of self.old }

        // A failed read is counted once.
        ensures counted { IsErrOf result FileError.Failed →
            faults_of self.new ≡ one_more (faults_of self.old) }
    {
        self.calls = self.calls.saturating_add(1);
        keep(&mut self.reads, alloc, name)?;
        if is_listed(&self.failing, self.calls) {
            return Err(self.fail(alloc, name));
        }
        match self.content(name) {
            Some(bytes) if bytes.len() <= limit as usize => Ok(bytes.to_vec(alloc)?),
            Some(_) => Err(FileError::TooLong),
            None => Err(self.fail(alloc, name)),
        }
    }
}

impl NamesFailed for MemoryFiles {
    fn last_failed(&self) -> Option<&str> {
        self.last_failed.as_ref().map(|name| name.as_str())
    }
}
