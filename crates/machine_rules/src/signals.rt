//! The signals that a partition has, asserted or not.
ghost use Rattle.std.specs.Prelude.{◌≡◌, ◌==◌, ◌&&◌, filter, map, position};
ghost use Rattle.ffm_model.specs.ServiceCalls.{service_of_signal};
ghost use Rattle.ffm_model.specs.SignalCalls.{source_of_signal};
ghost use Rattle.ffm_model.specs.Signals.{assigned_to, union_of};

use ffm_model::{PSA_DOORBELL, Service, Source, System};

fn service_place(services: &[Service], partition: u32, signal: u32) -> Option<usize>
    ensures { result ≡ position (λ v. (v.owner == partition) && (v.signal == signal)) services.now }
{
    services.iter().position(|service| service.owner == partition && service.signal == signal)
}

/// The place of the partition's service that has the signal. None exactly where the word isn't one service's signal.
pub fn service_of_signal(system: &System, partition: u32, signal: u32) -> Option<u32>
    ensures { result ≡ service_of_signal system.now partition signal }
{
    match service_place(system.services.as_slice(), partition, signal) {
        Some(place) => Some(place as u32),
        None => None,
    }
}

fn source_place(sources: &[Source], partition: u32, signal: u32) -> Option<usize>
    ensures { result ≡ position (λ v. (v.owner == partition) && (v.signal == signal)) sources.now }
{
    sources.iter().position(|source| source.owner == partition && source.signal == signal)
}

/// The place of the partition's interrupt source that has the signal. None exactly where the word isn't one source's
/// signal.
pub fn source_of_signal(system: &System, partition: u32, signal: u32) -> Option<u32>
    ensures { result ≡ source_of_signal system.now partition signal }
{
    match source_place(system.sources.as_slice(), partition, signal) {
        Some(place) => Some(place as u32),
        None => None,
    }
}

// The signals of a partition's services.
fn service_signals(services: &[Service], partition: u32) -> u32
    ensures { result ≡ union_of
        (map (λ v. v.signal) (filter (λ v. v.owner == partition) services.now)) }
{
    services
        .iter()
        .filter(|v| v.owner == partition)
        .map(|v| v.signal)
        .fold(0, |word, signal| word | signal)
}

// The signals of a partition's interrupt sources.
fn source_signals(sources: &[Source], partition: u32) -> u32
    ensures { result ≡ union_of
        (map (λ v. v.signal) (filter (λ v. v.owner == partition) sources.now)) }
{
    sources
        .iter()
        .filter(|v| v.owner == partition)
        .map(|v| v.signal)
        .fold(0, |word, signal| word | signal)
}

/// The signals that a partition has at all, as one word: those of its services and interrupt sources, and
/// `PSA_DOORBELL`.
pub fn assigned_to(system: &System, partition: u32) -> u32
    ensures { result ≡ assigned_to system.now partition }
{
    let services = service_signals(system.services.as_slice(), partition);
    let sources = source_signals(system.sources.as_slice(), partition);
    PSA_DOORBELL | (services | sources)
}
