//! The signals of a partition that are asserted, out of the lists that tell of them.
ghost use Rattle.std.specs.Prelude.{◌≡◌, get_or, false, if◌then◌else◌};
ghost use Rattle.std.specs.List.{list_any};
ghost use Rattle.ffm_model.specs.Signals.{union_of};
ghost use Rattle.ffm_model.specs.State.{is_undelivered, no_flags};
ghost use Rattle.machine_rules.specs.Signals.{services_asserted, sources_asserted};

use ffm_model::{PSA_DOORBELL, PendingMessage, Service, Source, SourceFlags};

/// Whether the message is one to the service at this place, and waits for `psa_get`.
pub fn is_undelivered(message: &PendingMessage, service: usize) -> bool
    ensures { result ≡ is_undelivered service message.now }
{
    message.handle.is_none() && message.service as usize == service
}

fn is_waiting_for(messages: &[PendingMessage], service: usize) -> bool
    ensures { result ≡ list_any (is_undelivered service) messages.now }
{
    messages.iter().any(|m| is_undelivered(m, service))
}

/// The signals of a partition's services for which a message waits, as one word.
pub fn service_word(services: &[Service], messages: &[PendingMessage], partition: u32) -> u32
    ensures { result ≡ union_of (services_asserted services.now messages.now partition) }
{
    let mut word = 0;
    for (place, service) in services.iter().enumerate() {
        if service.owner == partition && is_waiting_for(messages, place) {
            word |= service.signal;
        }
    }
    word
}

/// Whether the interrupt source at this place asserts its signal. False where the flags have no such place.
pub fn is_asserted(flags: &[SourceFlags], source: usize) -> bool
    ensures { result ≡ (get_or flags.now source no_flags).asserted }
{
    match flags.get(source) {
        Some(flags) => flags.asserted,
        None => false,
    }
}

/// The asserted signals of a partition's interrupt sources, as one word.
pub fn source_word(sources: &[Source], flags: &[SourceFlags], partition: u32) -> u32
    ensures { result ≡ union_of (sources_asserted sources.now flags.now partition) }
{
    let mut word = 0;
    for (place, source) in sources.iter().enumerate() {
        if source.owner == partition && is_asserted(flags, place) {
            word |= source.signal;
        }
    }
    word
}

/// `PSA_DOORBELL` where the partition's doorbell is rung, and else 0.
pub fn doorbell_word(doorbells: &[bool], partition: u32) -> u32
    ensures { result ≡ (if get_or doorbells.now partition false then PSA_DOORBELL else 0) }
{
    match doorbells.get(partition as usize) {
        Some(true) => PSA_DOORBELL,
        _ => 0,
    }
}
