//! Why a file is refused, and where.
ghost use Rattle.std.specs.Prelude.{◌≡◌};

use crate::key::Key;
use crate::list::List;
use crate::machine::Memory;
use std::alloc::{AllocError, AllocFailed};
use thiserror::Error;

/// The file that a place is in.
#[derive(Clone, Copy, Debug, PartialEq, Eq)]
pub enum Root {
    System,
    Scenario,
    Trace,
}

/// One step of a path: an attribute, or an item of a list, counted from 0.
#[derive(Clone, Copy, Debug, PartialEq, Eq)]
pub enum PathStep {
    Key(Key),
    Index(u32),
}

/// A place in a file.
#[derive(Debug, Drop)]
pub struct Place {
    pub root: Root,
    pub steps: List<PathStep>,
}

/// Why a file is refused. The codes are the constants of this crate.
#[derive(Debug, Drop)]
pub struct Refusal {
    pub code: u8,
    pub place: Place,
    /// The IDs of a dependency circle; empty for every other code.
    pub cycle: List<u32>,
}

/// Why a part of a file is refused, with the place below that part's root.
#[derive(Debug, Drop)]
pub struct PartRefusal {
    pub code: u8,
    pub steps: List<PathStep>,
}

/// Why a file wasn't read.
#[derive(Debug, Drop, Error)]
pub enum ReadError {
    #[error("the file is refused")]
    Refused(Refusal),
    #[error("no memory was found")]
    Memory,
}

/// Why a system file, or a file that it names, wasn't read.
#[derive(Debug, Drop, Error)]
pub enum PartsError {
    #[error("a file is refused")]
    Refused(Refusal),
    #[error("a file can't be read")]
    ReadFault,
    #[error("no memory was found")]
    Memory,
}

impl From<AllocError> for Memory {
    ghost from_gives = { λ _ e. e ≡ record {} };

    fn from(_e: AllocError) -> Memory {
        Memory
    }
}

impl<T: Drop> From<AllocFailed<T>> for Memory {
    ghost from_gives = { λ _ e. e ≡ record {} };

    fn from(_e: AllocFailed<T>) -> Memory {
        Memory
    }
}

impl From<AllocError> for ReadError {
    ghost use Rattle.ffm_model.specs.declared.place.ReadError.TheVariants as read_error;

    ghost from_gives = { λ _ e. e ≡ read_error.Memory };

    fn from(_e: AllocError) -> ReadError {
        ReadError::Memory
    }
}

impl<T: Drop> From<AllocFailed<T>> for ReadError {
    ghost use Rattle.ffm_model.specs.declared.place.ReadError.TheVariants as read_error;

    ghost from_gives = { λ _ e. e ≡ read_error.Memory };

    fn from(_e: AllocFailed<T>) -> ReadError {
        ReadError::Memory
    }
}

impl From<Memory> for ReadError {
    ghost use Rattle.ffm_model.specs.declared.place.ReadError.TheVariants as read_error;

    ghost from_gives = { λ _ e. e ≡ read_error.Memory };

    fn from(_e: Memory) -> ReadError {
        ReadError::Memory
    }
}

impl From<ReadError> for PartsError {
    ghost use Rattle.ffm_model.specs.Reading.{parts_error_of};

    ghost from_gives = { λ r e. e ≡ parts_error_of r };

    fn from(e: ReadError) -> PartsError {
        match e {
            ReadError::Refused(refusal) => PartsError::Refused(refusal),
            ReadError::Memory => PartsError::Memory,
        }
    }
}

impl From<AllocError> for PartsError {
    ghost use Rattle.ffm_model.specs.declared.place.PartsError.TheVariants as parts_error;

    ghost from_gives = { λ _ e. e ≡ parts_error.Memory };

    fn from(_e: AllocError) -> PartsError {
        PartsError::Memory
    }
}

impl<T: Drop> From<AllocFailed<T>> for PartsError {
    ghost use Rattle.ffm_model.specs.declared.place.PartsError.TheVariants as parts_error;

    ghost from_gives = { λ _ e. e ≡ parts_error.Memory };

    fn from(_e: AllocFailed<T>) -> PartsError {
        PartsError::Memory
    }
}

impl From<Memory> for PartsError {
    ghost use Rattle.ffm_model.specs.declared.place.PartsError.TheVariants as parts_error;

    ghost from_gives = { λ _ e. e ≡ parts_error.Memory };

    fn from(_e: Memory) -> PartsError {
        PartsError::Memory
    }
}
