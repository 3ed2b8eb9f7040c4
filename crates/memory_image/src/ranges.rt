//! Which ranges an actor may name, read and write: the memory isolation of FF-M 1.0.
ghost use Rattle.std.specs.Prelude.{◌≡◌, ◌<◌, ◌&&◌, ◌||◌, Bool, false, length};
ghost use Rattle.std.specs.List.{list_any};
ghost use Rattle.std.specs.Option.{option_map_or};
ghost use Rattle.ffm_model.specs.declared.system.Class.{Class as ClassSeen};
ghost use Rattle.ffm_model.specs.declared.system.Class.TheVariants.{Ram};
ghost use Rattle.ffm_model.specs.Actors.{kind_of, is_client};
ghost use Rattle.ffm_model.specs.Memory.{lies_in, is_ram_of, is_mmio_of, is_writable_mmio_of, valid_buffer, may_read, may_write};
ghost use Rattle.memory_image.specs.Pieces.{open_within};

use ffm_model::{ActorId, Bytes, Class, Region, System};

fn is_client(system: &System, actor: ActorId) -> bool
    ensures { result ≡ is_client (kind_of system.now actor.0) }
{
    let at = actor.0 as usize;
    system.partitions.len() <= at && at - system.partitions.len() < system.clients.len()
}

fn is_in_domain(system: &System, actor: ActorId, domain: u32) -> bool
    ensures { result ≡ is_ram_of system.now actor.0 (Ram domain) }
{
    match system.partitions.as_slice().get(actor.0 as usize) {
        Some(partition) => domain == partition.domain,
        None => false,
    }
}

fn is_ram_of(system: &System, actor: ActorId, class: Class) -> bool
    ensures { result ≡ is_ram_of system.now actor.0 class }
{
    match class {
        Class::Ram { domain } => is_in_domain(system, actor, domain),
        Class::NonSecure => is_client(system, actor),
        Class::Mmio { .. } => false,
    }
}

fn is_mmio_of(actor: ActorId, class: Class) -> bool
    ensures { result ≡ is_mmio_of actor.0 class }
{
    match class {
        Class::Mmio { owner, .. } => owner == actor.0,
        _ => false,
    }
}

fn is_writable_mmio_of(actor: ActorId, class: Class) -> bool
    ensures { result ≡ is_writable_mmio_of actor.0 class }
{
    match class {
        Class::Mmio { owner, writable } => owner == actor.0 && writable,
        _ => false,
    }
}

fn is_readable_by(system: &System, actor: ActorId, class: Class) -> bool
    ensures { result ≡ (is_ram_of system.now actor.0 class || is_mmio_of actor.0 class) }
{
    is_ram_of(system, actor, class) || is_mmio_of(actor, class)
}

fn is_writable_by(system: &System, actor: ActorId, class: Class) -> bool
    ensures { result ≡ (is_ram_of system.now actor.0 class || is_writable_mmio_of actor.0 class) }
{
    is_ram_of(system, actor, class) || is_writable_mmio_of(actor, class)
}

// The class of the region that has the whole range. At most one has it, since the range isn't empty.
fn class_of(system: &System, base: u32, len: u32) -> Option<Class>
    requires { 0 < len }
    ensures { (p : ClassSeen → Bool)
        → list_any (λ r. p r.class && lies_in base len r) system.now.regions
        ≡ option_map_or p result false }
{
    let regions = system.regions.as_slice();
    match system.regions.place_with(base, len as usize) {
        Some(place) => Some(regions[place].class),
        None => None,
    }
}

/// Whether an actor may hand a range of `len` bytes to a call of `psa/client.h` or
/// `psa/service.h`: it is empty, or lies whole in one RAM region of the actor's domain. A client's
/// domain is the non-secure region. No range that isn't empty lies in MMIO, and the device has
/// none.
pub fn valid_buffer(system: &System, actor: ActorId, base: u32, len: u32) -> bool
    ensures { result ≡ valid_buffer system.now actor.0 base len }
{
    if len == 0 {
        return true;
    }
    match class_of(system, base, len) {
        Some(class) => is_ram_of(system, actor, class),
        None => false,
    }
}

/// Whether an actor may read the range by itself: it is a valid buffer, or lies whole in one MMIO
/// region of that partition.
pub fn may_read(system: &System, actor: ActorId, base: u32, len: u32) -> bool
    ensures { result ≡ may_read system.now actor.0 base len }
{
    if len == 0 {
        return true;
    }
    match class_of(system, base, len) {
        Some(class) => is_readable_by(system, actor, class),
        None => false,
    }
}

/// Whether an actor may write the range by itself: as for reading, with the MMIO region writable.
pub fn may_write(system: &System, actor: ActorId, base: u32, len: u32) -> bool
    ensures { result ≡ may_write system.now actor.0 base len }
{
    if len == 0 {
        return true;
    }
    match class_of(system, base, len) {
        Some(class) => is_writable_by(system, actor, class),
        None => false,
    }
}

fn is_in_region(regions: &[Region], bytes: &Bytes) -> bool
    ensures { result ≡ list_any (lies_in bytes.now.address (length bytes.now.content)) regions.now }
{
    let len = bytes.content.len();
    regions.iter().any(|r| r.holds(bytes.address, len))
}

/// Whether each piece of an opening memory lies whole in one region.
pub fn open_within(regions: &[Region], opening: &[Bytes]) -> bool
    ensures { result ≡ open_within regions.now opening.now }
{
    opening.iter().all(|b| is_in_region(regions, b))
}
