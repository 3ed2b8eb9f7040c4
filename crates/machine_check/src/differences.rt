//! What differs between two memories in some ranges.
ghost use Rattle.std.specs.Prelude.{◌≡◌, ◌+◌, ◌<◌, ◌≤◌, ◌^◌, ◌∷◌, [], true};
ghost use Rattle.memory_image.specs.Differences.{lesser};
ghost use Rattle.ffm_model.specs.Reach.{covers};
ghost use Rattle.ffm_model.specs.Ranges.{ranges_of};
ghost use Rattle.memory_image.specs.Pieces.{byte_at, is_inside, regions_of};
ghost use Rattle.machine_check.specs.Auditing.{own_ram};
ghost use Rattle.machine_check.specs.Written.{taken_from, ranges_in, AreDifferences, AreInside};

use crate::written::Ranges;
use ffm_model::{ActorId, Region, System};
use memory_image::{Image, lesser, valid_buffer};

/// What differs between two memories in some ranges.
#[derive(Clone, Copy)]
pub struct Differences {
    /// The least address.
    pub lowest: Option<u32>,
    /// How many bytes.
    pub count: u32,
    /// The least address outside of an actor's own RAM.
    pub outside: Option<u32>,
}

fn covers(region: &Region, address: u32) -> bool
    ensures { result ≡ covers region.now address }
{
    region.base <= address && address - region.base < region.size
}

// Whether an address lies in the actor's own RAM: of a partition its own region, of a non-secure client the non-secure
// region. A device has none.
fn is_own_ram(system: &System, actor: ActorId, address: u32) -> bool
    ensures { result ≡ own_ram system.now actor.0 address }
{
    match system.partitions.as_slice().get(actor.0 as usize) {
        Some(partition) => match system.regions.as_slice().get(partition.ram as usize) {
            Some(region) => covers(region, address),
            None => false,
        },
        None => valid_buffer(system, actor, address, 1),
    }
}

impl Differences {
    const NONE: Differences = Differences {
        lowest: None,
        count: 0,
        outside: None,
    };

    // In one range.
    fn in_range(
        system: &System,
        actor: ActorId,
        old: &Image,
        new: &Image,
        address: u32,
        len: u32,
    ) -> Differences
        requires old { regions_of old.now ≡ ranges_of system.now.regions }
        requires new { regions_of new.now ≡ ranges_of system.now.regions }
        requires inside { is_inside address len (ranges_of system.now.regions) ≡ true }
        ensures differences { AreDifferences system.now actor.0 (byte_at old.now) (byte_at new.now)
            ((address, len) ∷ []) result }
        ensures count { result.count ≤ len }
    {
        let lowest = old.first_difference_in(new, address, len);
        let is_own = is_own_ram(system, actor, address);
        Differences {
            lowest,
            count: old.count_differences_in(new, address, len),
            // A range of a region is own RAM as a whole, or not at all.
            outside: if is_own { None } else { lowest },
        }
    }

    // In these ranges and in others.
    fn with(self, other: Differences) -> Differences
        requires { self.count + other.count < 2 ^ 32 }
        ensures lowest { result.lowest ≡ lesser self.lowest other.lowest }
        ensures count { result.count ≡ self.count + other.count }
        ensures outside { result.outside ≡ lesser self.outside other.outside }
    {
        Differences {
            lowest: lesser(self.lowest, other.lowest),
            count: self.count + other.count,
            outside: lesser(self.outside, other.outside),
        }
    }
}

/// What differs in the ranges that an entry may have changed.
pub fn differences_in(
    system: &System,
    actor: ActorId,
    old: &Image,
    new: &Image,
    written: Ranges,
) -> Differences
    requires old { regions_of old.now ≡ ranges_of system.now.regions }
    requires new { regions_of new.now ≡ ranges_of system.now.regions }
    requires inside { AreInside (ranges_of system.now.regions) written }
    ensures { AreDifferences system.now actor.0 (byte_at old.now) (byte_at new.now)
        (ranges_in written) result }
{
    let mut found = Differences::NONE;
    for k in 0..written.times {
        let address = written.first + 8 * k;
        let here = Differences::in_range(system, actor, old, new, address, written.len);
        found = here.with(found);
    }
    found
}

/// Takes the bytes of the ranges out of another memory of the same regions.
pub fn take_over(memory: &mut Image, other: &Image, written: Ranges)
    requires regions { regions_of other.now ≡ regions_of memory.old }
    requires inside { AreInside (regions_of memory.old) written }
    ensures bytes { byte_at memory.new
        ≡ taken_from (byte_at other.now) (ranges_in written) (byte_at memory.old) }
    ensures regions { regions_of memory.new ≡ regions_of memory.old }
{
    memory.keeps_its_limits();
    for k in 0..written.times {
        let address = written.first + 8 * k;
        memory.store_bytes(address, other.bytes(address, written.len as usize));
    }
}
