//! Why a part of a file isn't read, and where it stands.
ghost use Rattle.std.specs.Prelude.{◌≡◌, [], ◌∷◌, Result, IfOk};
ghost use Rattle.ffm_model.specs.declared.place.PartRefusal.{PartRefusal};
ghost use Rattle.ffm_model.specs.Attributes.{within, placed};
ghost use Rattle.manifest_json.specs.Gives.{Gives, GivesRead, IsRefusal};

use ffm_model::{List, PartRefusal, PathStep, Place, ReadError, Refusal, Root};
use std::alloc::{AllocError, AllocFailed, Global};
use thiserror::Error;

/// Why a part of a tree isn't read.
#[derive(Debug, Drop, Error)]
pub enum PartError {
    /// The first refusal, with its place in the tree.
    #[error("the part is refused")]
    Refused(PartRefusal),
    /// No memory was found.
    #[error("no memory was found")]
    Memory,
}

impl From<AllocError> for PartError {
    ghost use Rattle.std.specs.Prelude.{◌≡◌};
    ghost use Rattle.manifest_json.specs.declared.error.PartError.TheVariants.{Memory};

    ghost from_gives = { λ _ e. e ≡ Memory };

    fn from(_e: AllocError) -> PartError {
        PartError::Memory
    }
}

impl<T: Drop> From<AllocFailed<T>> for PartError {
    ghost use Rattle.std.specs.Prelude.{◌≡◌};
    ghost use Rattle.manifest_json.specs.declared.error.PartError.TheVariants.{Memory};

    ghost from_gives = { λ _ e. e ≡ Memory };

    fn from(_e: AllocFailed<T>) -> PartError {
        PartError::Memory
    }
}

/// The refusal of a value itself. It takes no memory.
pub fn refused(alloc: Global, code: u8) -> PartError
    ensures { result ≡ PartError.Refused (record { code = code; steps = [] }) }
{
    PartError::Refused(PartRefusal {
        code,
        steps: List::of(Vec::new(alloc)),
    })
}

/// The refusal of a part of the value.
pub fn refused_at(alloc: Global, step: PathStep, code: u8) -> PartError
    ensures { IsRefusal result (record { code = code; steps = step ∷ [] }) }
{
    match vec![in alloc; step] {
        Ok(steps) => PartError::Refused(PartRefusal {
            code,
            steps: List::of(steps),
        }),
        Err(_) => PartError::Memory,
    }
}

/// What was read of a part, its refusal placed under the part's step.
pub fn under<T: Drop>(step: PathStep, read: Result<T, PartError>) -> Result<T, PartError>
    ensures placed { (r : Result T PartRefusal) → Gives read r → Gives result (within step r) }
    ensures same { IfOk result (λ value. read ≡ Ok value) }
{
    match read {
        Ok(value) => Ok(value),
        Err(PartError::Memory) => Err(PartError::Memory),
        Err(PartError::Refused(refusal)) => {
            let mut steps = refusal.steps.into_vec();
            steps.insert(0, step)?;
            Err(PartError::Refused(PartRefusal {
                code: refusal.code,
                steps: List::of(steps),
            }))
        }
    }
}

/// What was read of a file's part, its refusal placed after these steps of the file.
pub fn placed<T: Drop>(
    root: Root,
    front: Vec<PathStep>,
    read: Result<T, PartError>,
) -> Result<T, ReadError>
    ensures { (r : Result T PartRefusal) → Gives read r
        → GivesRead result (placed root front.items r) }
{
    match read {
        Ok(value) => Ok(value),
        Err(PartError::Memory) => Err(ReadError::Memory),
        Err(PartError::Refused(refusal)) => {
            let alloc = *front.allocator();
            let mut steps = front;
            steps.extend_from_slice(refusal.steps.as_slice())?;
            Err(ReadError::Refused(Refusal {
                code: refusal.code,
                place: Place {
                    root,
                    steps: List::of(steps),
                },
                cycle: List::of(Vec::new(alloc)),
            }))
        }
    }
}
