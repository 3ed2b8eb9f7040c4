//! Files of which what was read is kept.

ghost use Rattle.std.specs.Prelude.{◌≡◌, [], List, IfSome, OnErr, OnOk, true};
ghost use Rattle.std.specs.List.{list_all};
ghost use Rattle.file_places.specs.Kept.{is_held};

use ffm_model::{MAX_FILE_BYTES, Memory};
use outside_io::{FileError, Files, NamesFailed};
use std::alloc::Global;

/// A file as it was read.
#[derive(Drop)]
pub struct KeptFile {
    pub name: String,
    pub bytes: Vec<u8>,
}

/// Files that keep what is read of them up to the limit of a system file.
pub trait KeepsFiles: NamesFailed {
    ghost use Rattle.std.specs.Prelude.{List};
    ghost use Rattle.file_places.specs.declared.kept.KeptFile.{KeptFile as KeptSeen};

    /// What was read, in order.
    ghost kept: { Self → List KeptSeen };

    /// What was read, in order, lent. Where it is told what names hold, they hold it.
    fn kept(&self) -> &[KeptFile]
        ensures kept { result.now ≡ kept self.now }
        ensures held { IfSome (Self.seen self.now).held (λ of.
            list_all (is_held of) result.now ≡ true) };
}

/// Files with what was read of them. They tell what those files tell.
#[derive(Drop)]
pub struct KeptFiles<F> {
    files: F,
    kept: Vec<KeptFile>,
}

impl<F: Files> KeptFiles<F> {
    ghost use Rattle.file_places.specs.KeptSeen.{KeepsOne, kept_by, seen_through};

    /// These files, of which nothing was read yet.
    pub fn of(alloc: Global, files: F) -> Self
        ensures empty { kept_by result ≡ [] }
        ensures seen { seen_through F.seen result ≡ F.seen files }
    {
        KeptFiles {
            files,
            kept: Vec::new(alloc),
        }
    }

    // Keeps what was read of a file.
    #[tactic(auto, using(crate::proofs::KeptLemmas::kept_one))]
    fn keep(&mut self, alloc: Global, name: &str, bytes: &[u8]) -> Result<(), Memory>
        ensures kept { OnOk result
            (KeepsOne (kept_by self.old) (kept_by self.new) name.now bytes.now) }
        ensures unchanged { OnErr result (kept_by self.new ≡ kept_by self.old) }
        ensures files { self.new.files ≡ self.old.files }
    {
        let kept = KeptFile {
            name: String::from_str(alloc, name)?,
            bytes: Vec::from_slice(alloc, bytes)?,
        };
        self.kept.push(kept)?;
        Ok(())
    }
}

impl<F: Files> Files for KeptFiles<F> {
    ghost use Rattle.file_places.specs.KeptSeen.{seen_through};

    ghost seen = { seen_through F.seen };

    #[tactic(auto, using(crate::proofs::KeptLemmas::same_kept, crate::proofs::KeptLemmas::lost, crate::proofs::KeptLemmas::one_kept))]
    fn read(&mut self, alloc: Global, name: &str, limit: u32) -> Result<Vec<u8>, FileError> {
        let bytes = self.files.read(alloc, name, limit)?;
        if limit > MAX_FILE_BYTES {
            return Ok(bytes);
        }
        match self.keep(alloc, name, &bytes) {
            Ok(()) => Ok(bytes),
            Err(Memory) => Err(FileError::Memory),
        }
    }
}

impl<F: NamesFailed> KeepsFiles for KeptFiles<F> {
    ghost use Rattle.file_places.specs.KeptSeen.{kept_by};

    ghost kept = { kept_by };

    fn kept(&self) -> &[KeptFile] {
        self.kept.as_slice()
    }
}

impl<F: NamesFailed> NamesFailed for KeptFiles<F> {
    fn last_failed(&self) -> Option<&str> {
        self.files.last_failed()
    }
}
