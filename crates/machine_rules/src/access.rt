//! Loads and stores.
ghost use Rattle.std.specs.Prelude.{◌≡◌};
ghost use Rattle.ffm_model.specs.Accesses.{is_access_size};

/// Whether a load or a store may have this size in bytes: 1, 2 or 4.
pub fn is_access_size(size: u32) -> bool
    ensures { result ≡ is_access_size size }
{
    matches!(size, 1 | 2 | 4)
}
