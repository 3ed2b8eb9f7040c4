//! The regions of a system, in their order and by address.
ghost use Rattle.std.specs.Prelude.{◌≡◌, position};
ghost use Rattle.ffm_model.specs.Memory.{lies_in};

use crate::list::List;
use crate::starts::{Start, last_up_to, starts_by_address};
use crate::system::Region;
use std::alloc::{AllocError, Global};
use std::marker::Model;

impl Region {
    ghost use Rattle.std.specs.Prelude.{◌≡◌};
    ghost use Rattle.ffm_model.specs.Memory.{lies_in};

    /// Whether the `len` bytes from an address on all lie in the region. No byte lies in each region.
    pub fn holds(&self, address: u32, len: usize) -> bool
        ensures { result ≡ lies_in address len self.now }
    {
        if len == 0 {
            return true;
        }
        let size = self.size as usize;
        self.base <= address && len <= size && (address - self.base) as usize <= size - len
    }
}

// The place of the first region in which the range lies whole.
fn first_with(regions: &[Region], address: u32, len: usize) -> Option<usize>
    ensures { result ≡ position (lies_in address len) regions.now }
{
    regions.iter().position(|r| r.holds(address, len))
}

/// The regions of a system. They may be kept by address too: then a look-up takes a number of steps that
/// grows with the logarithm of their number, and otherwise with their number. Contracts see the list.
#[derive(Drop)]
pub struct Regions {
    list: List<Region>,
    starts: Option<Vec<Start>>,
}

impl Model for Regions {
    ghost use Rattle.std.specs.Prelude.{List, IfSome};
    ghost use Rattle.ffm_model.specs.declared.system.Region.{Region};
    ghost use Rattle.ffm_model.specs.Ranges.{AreIndexed};

    ghost Value = { List Region };

    ghost view = { λ m. m.list };

    ghost invariant = { λ m. IfSome m.starts (λ starts. AreIndexed m.list starts.items) };
}

impl Regions {
    ghost use Rattle.std.specs.Prelude.{◌≡◌, ◌<◌, ◌^◌, true, length, position, IfOk};
    ghost use Rattle.std.specs.List.{list_any};
    ghost use Rattle.ffm_model.specs.Memory.{lies_in};
    ghost use Rattle.ffm_model.specs.Ranges.{ranges_of, share_no_byte};
    ghost use Rattle.ffm_model.specs.WellFormed.{each_pair};

    /// The regions of a list, in its order alone. It takes no memory.
    pub fn of(list: List<Region>) -> Regions
        ensures { result ≡ list }
    {
        Regions { list, starts: None }
    }

    /// The same regions, kept by address too. No two share a byte, and they are fewer than 2^31. `AllocError`
    /// where memory is wanting; then the regions are gone.
    pub fn by_address(self, alloc: Global) -> Result<Regions, AllocError>
        requires apart { each_pair share_no_byte (ranges_of self) ≡ true }
        requires few { length self < 2 ^ 31 }
        ensures { IfOk result (λ regions. regions ≡ self) }
    {
        let starts = starts_by_address(alloc, self.list.as_slice())?;
        Ok(Regions {
            list: self.list,
            starts: Some(starts),
        })
    }

    /// The list of the regions, lent.
    pub fn list(&self) -> &List<Region>
        ensures { result.now ≡ self.now }
    {
        &self.list
    }

    /// The regions, lent.
    pub fn as_slice(&self) -> &[Region]
        ensures { result.now ≡ self.now }
    {
        self.list.as_slice()
    }

    /// How many regions there are.
    pub fn len(&self) -> usize
        ensures { result ≡ length self.now }
    {
        self.list.len()
    }

    /// The place of the first region in which the `len` bytes from an address on all lie. None exactly where
    /// they lie in none. No byte lies in each region.
    pub fn place_with(&self, address: u32, len: usize) -> Option<usize>
        ensures { result ≡ position (lies_in address len) self.now }
    {
        let regions = self.list.as_slice();
        let Some(starts) = &self.starts else {
            return first_with(regions, address, len);
        };
        if len == 0 {
            return first_with(regions, address, len);
        }
        match last_up_to(starts.as_slice(), address) {
            Some(place) => {
                if regions[place].holds(address, len) {
                    Some(place)
                } else {
                    None
                }
            }
            None => None,
        }
    }

    /// Whether the `len` bytes from an address on all lie in one of the regions.
    pub fn is_inside(&self, address: u32, len: usize) -> bool
        ensures { result ≡ list_any (lies_in address len) self.now }
    {
        self.place_with(address, len).is_some()
    }
}
