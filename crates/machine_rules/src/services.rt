//! Services: their versions, their owners and the handles of those that are stateless.
ghost use Rattle.std.specs.Prelude.{◌≡◌};
ghost use Rattle.ffm_model.specs.Actors.{is_service_of, is_stateless, stateless_index};
ghost use Rattle.ffm_model.specs.ClientCalls.{takes_version, version_number};

use ffm_model::{
    ActorId, Handle, MAX_STATELESS, PSA_VERSION_NONE, Policy, STATELESS_BASE, Sid, System,
};

/// `psa_version` (`psa/client.h`): the version of the service with the SID, stateless or not, and `PSA_VERSION_NONE` where
/// there is none or the actor may not use it.
pub fn version(system: &System, actor: ActorId, sid: Sid) -> u32
    ensures { result ≡ version_number system.now actor.0 sid }
{
    let Some(place) = system.service_at(sid) else {
        return PSA_VERSION_NONE;
    };
    if system.budget(actor, place).is_none() {
        return PSA_VERSION_NONE;
    }
    match system.services.as_slice().get(place as usize) {
        Some(service) => service.version,
        None => PSA_VERSION_NONE,
    }
}

/// Whether the service at this place accepts a `psa_connect` with the version that is asked for: its own one by the
/// strict policy, and any up to its own by the relaxed one. False where there is no such service.
pub fn takes_version(system: &System, service: u32, asked: u32) -> bool
    ensures { result ≡ takes_version system.now service asked }
{
    match system.services.as_slice().get(service as usize) {
        Some(found) => match found.policy {
            Policy::Strict => found.version == asked,
            Policy::Relaxed => asked <= found.version,
        },
        None => false,
    }
}

/// Whether the service at this place is stateless, so that clients call it by its handle and don't connect to it (FF-M 1.1
/// Extensions). False where there is no such service.
pub fn is_stateless(system: &System, service: u32) -> bool
    ensures { result ≡ is_stateless system.now service }
{
    match system.services.as_slice().get(service as usize) {
        Some(found) => found.stateless != 0,
        None => false,
    }
}

/// The index that a stateless handle shows, from 1 to 32: what the handle is above 0x40000000. None exactly where the
/// handle isn't a stateless one.
pub fn stateless_index(handle: Handle) -> Option<u32>
    ensures { result ≡ stateless_index handle }
{
    if handle.0 > STATELESS_BASE as i32 && handle.0 <= (STATELESS_BASE + MAX_STATELESS) as i32 {
        Some(handle.0 as u32 - STATELESS_BASE)
    } else {
        None
    }
}

/// Whether the service at this place is the partition's. False where there is no such service.
pub fn is_service_of(system: &System, partition: u32, service: u32) -> bool
    ensures { result ≡ is_service_of system.now partition service }
{
    match system.services.as_slice().get(service as usize) {
        Some(service) => service.owner == partition,
        None => false,
    }
}
