//! Items that an earlier one repeats.
ghost use Rattle.std.specs.Prelude.{◌≡◌, ℕ, map, List, Option, Some, None, IfOk};
ghost use Rattle.std.specs.Option.{option_map};
ghost use Rattle.ffm_model.specs.Layout.{Located};
ghost use Rattle.ffm_model.specs.Repeats.{first, repeated};
ghost use Rattle.region_map.specs.Seen.{seen, spot, same_name};

use crate::at::At;
use ffm_model::{IrqItem, ServiceItem};
use std::alloc::{AllocError, Global};
use std::collections::BTreeSet;

/// What has a name that others of its kind must not have.
pub trait Named {
    ghost name_of: { Self → List ℕ };

    /// The name.
    fn name(&self) -> &str
        ensures { result.now ≡ name_of self.now };
}

impl Named for ServiceItem {
    ghost name_of = { λ s. s.name };

    fn name(&self) -> &str {
        self.name.as_str()
    }
}

impl Named for IrqItem {
    ghost name_of = { λ i. i.source };

    fn name(&self) -> &str {
        self.source.as_str()
    }
}

/// The place of the first item that has an earlier one's name: its manifest's number, and its own.
/// None exactly where the names differ. Err where no memory was found.
pub fn repeated_name<'a, T: Named>(
    alloc: Global,
    items: &[At<'a, T>],
) -> Result<Option<(u32, u32)>, AllocError>
    ensures { IfOk result (λ found.
        found ≡ option_map spot (first (repeated (same_name T.name_of) (map seen items.now)))) }
{
    let mut names = BTreeSet::new(alloc);
    for at in items {
        if !names.insert(at.value.name())? {
            return Ok(Some((at.manifest, at.item)));
        }
    }
    Ok(None)
}
