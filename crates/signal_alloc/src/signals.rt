//! Signal bits: services first, then interrupts.
ghost use Rattle.std.specs.Prelude.{◌≡◌, ◌≢◌, ◌↔◌, ℕ, ◌+◌, ◌<◌, ◌≤◌, ◌^◌, IsErr, IfOk, IfErr, IsNone, IfSome};
ghost use Rattle.ffm_model.specs.declared.constants.TheConstants.{MAX_SIGNALS};
ghost use Rattle.ffm_model.specs.Compiled.{signal_at};

use ffm_model::MAX_SIGNALS;

/// The first bit that is a partition's own. Bit 3 is the doorbell's, and those below are reserved.
pub const FIRST_BIT: u32 = 4;

/// How many services and interrupts a partition has, together at most 28.
#[derive(Clone, Copy, Debug, PartialEq, Eq)]
pub struct SignalMap {
    pub services: u32,
    pub irqs: u32,
    ghost has_bits: { services + irqs ≤ MAX_SIGNALS },
}

/// The map of a partition with these numbers of services and interrupts. Err with their sum where it
/// is more than the bits.
pub fn assign(services: u32, irqs: u32) -> Result<SignalMap, u32>
    requires services { services < 2 ^ 31 }
    requires irqs { irqs < 2 ^ 31 }
    ensures refused { IsErr result ↔ (MAX_SIGNALS < services + irqs) }
    ensures sum { IfErr result (λ sum. sum ≡ services + irqs) }
    ensures map { IfOk result (λ map. (map.services ≡ services) × (map.irqs ≡ irqs)) }
{
    let sum = services + irqs;
    if sum > MAX_SIGNALS {
        return Err(sum);
    }
    Ok(SignalMap { services, irqs })
}

/// The signal of a place: the services have the first places, the interrupts the next ones.
pub fn signal_of(map: SignalMap, place: u32) -> u32
    requires { place < map.services + map.irqs }
    ensures { result ≡ signal_at place }
{
    1 << (FIRST_BIT + place)
}

/// The place of the service whose signal the word is. None exactly where it isn't the one bit of a
/// service.
pub fn service_of(map: SignalMap, signal: u32) -> Option<u32>
    ensures place { IfSome result (λ place. (place < map.services) × (signal ≡ signal_at place)) }
    ensures none { IsNone result ↔ ((place : ℕ) → place < map.services → signal ≢ signal_at place) }
    ensures round_trip { (place : ℕ) → place < map.services → signal ≡ signal_at place
        → result ≡ Some place }
{
    for place in 0..map.services {
        if signal_of(map, place) == signal {
            return Some(place);
        }
    }
    None
}
