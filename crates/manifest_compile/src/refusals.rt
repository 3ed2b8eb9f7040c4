//! Refusals and their places.
ghost use Rattle.std.specs.Prelude.{◌≡◌, IfOk};
ghost use Rattle.ffm_model.specs.Rules.{refusal, at_item, at_part};
ghost use Rattle.manifest_compile.specs.Keeps.{IsRefused};

use ffm_model::{Key, List, PathStep, Place, ReadError, Refusal, Root};
use std::alloc::{AllocError, Global};

/// The place of an item of a manifest's list. `at` has the manifest's number and the item's.
pub fn at_item(list: Key, at: (u32, u32)) -> [PathStep; 4]
    ensures { result ≡ at_item list at.0 at.1 }
{
    [
        PathStep::Key(Key::Manifests),
        PathStep::Index(at.0),
        PathStep::Key(list),
        PathStep::Index(at.1),
    ]
}

/// The place of an attribute of an item of a manifest's list.
pub fn at_part(list: Key, part: Key, at: (u32, u32)) -> [PathStep; 5]
    ensures { result ≡ at_part list part at.0 at.1 }
{
    [
        PathStep::Key(Key::Manifests),
        PathStep::Index(at.0),
        PathStep::Key(list),
        PathStep::Index(at.1),
        PathStep::Key(part),
    ]
}

/// A place in the system file.
pub fn place_of(alloc: Global, steps: &[PathStep]) -> Result<Place, AllocError>
    ensures { IfOk result (λ place. place ≡ record { root = Root.System; steps = steps.now }) }
{
    Ok(Place {
        root: Root::System,
        steps: List::of(Vec::from_slice(alloc, steps)?),
    })
}

/// The refusal with this code at this place of the system file.
pub fn refused<T>(alloc: Global, code: u8, steps: &[PathStep]) -> Result<T, ReadError>
    ensures { IsRefused result (refusal code steps.now) }
{
    let place = place_of(alloc, steps)?;
    Err(ReadError::Refused(Refusal {
        code,
        place,
        cycle: List::of(Vec::new(alloc)),
    }))
}
