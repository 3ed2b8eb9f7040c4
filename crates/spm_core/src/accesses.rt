//! Loads and stores of an actor.
ghost use Rattle.std.specs.Prelude.{◌≡◌};
ghost use Rattle.ffm_model.specs.declared.machine.Outcome.TheVariants as outcome;
ghost use Rattle.ffm_model.specs.Accesses.{load, store};
ghost use Rattle.memory_image.specs.Pieces.{regions_of};
ghost use Rattle.spm_core.specs.Performed.{Loads, Stores};
ghost use Rattle.law_calls.specs.Premises.{HasRegions};

use ffm_model::{ActorId, Fault, System};
use machine_rules::is_access_size;
use memory_image::{Image, may_read, may_write};

/// The number at an address, the lowest byte first.
pub(crate) fn load(
    system: &System,
    image: &Image,
    actor: ActorId,
    address: u32,
    size: u32,
) -> Result<u32, Fault>
    requires { HasRegions system.now image.now }
    ensures { Loads system.now actor.0 address size image.now result }
{
    if !is_access_size(size) || !may_read(system, actor, address, size) {
        return Err(Fault);
    }
    Ok(image.load(address, size))
}

/// Puts the low bytes of a value at an address.
pub(crate) fn store(
    system: &System,
    image: &mut Image,
    actor: ActorId,
    address: u32,
    size: u32,
    value: u32,
) -> Result<(), Fault>
    requires { HasRegions system.now image.old }
    ensures stores { Stores system.now actor.0 address size value image.old result image.new }
    ensures regions { regions_of image.new ≡ regions_of image.old }
{
    if !is_access_size(size) || !may_write(system, actor, address, size) {
        return Err(Fault);
    }
    image.store(address, size, value);
    Ok(())
}
