//! Why a system has no layout.
ghost use Rattle.std.specs.Prelude.{◌≡◌};

use std::alloc::{AllocError, AllocFailed};
use thiserror::Error;

/// Why a system has no layout. Manifests are counted from 0, and so are the items of a manifest's
/// `mmio_regions`.
#[derive(Clone, Copy, Debug, Drop, Error)]
pub enum LayoutError {
    #[error("an MMIO item names no region")]
    Unknown {
        manifest: u32,
        item: u32,
    },
    #[error("an MMIO region shares a byte with another region")]
    Overlap {
        manifest: u32,
        item: u32,
    },
    /// The RAM of a manifest's partition, an MMIO item of a manifest, non-secure RAM where neither is
    /// told, or all regions together where `total` holds.
    #[error("a region, or all together, have too many bytes")]
    TooLarge {
        manifest: Option<u32>,
        item: Option<u32>,
        total: bool,
    },
    #[error("no memory was found")]
    Memory,
}

impl From<AllocError> for LayoutError {
    ghost use Rattle.region_map.specs.declared.error.LayoutError.TheVariants as layout_error;

    ghost from_gives = { λ _ e. e ≡ layout_error.Memory };

    fn from(_e: AllocError) -> LayoutError {
        LayoutError::Memory
    }
}

impl<T: Drop> From<AllocFailed<T>> for LayoutError {
    ghost use Rattle.region_map.specs.declared.error.LayoutError.TheVariants as layout_error;

    ghost from_gives = { λ _ e. e ≡ layout_error.Memory };

    fn from(_e: AllocFailed<T>) -> LayoutError {
        LayoutError::Memory
    }
}
