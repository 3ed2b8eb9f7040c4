//! Signals, and which actors can go on.
ghost use Rattle.std.specs.Prelude.{◌≡◌, map, true};
ghost use Rattle.std.specs.List.{list_any};
ghost use Rattle.ffm_model.specs.Signals.{assigned_to, enabled, has_signal_of, service_signals, signals_of, source_signals, union_of};
ghost use Rattle.machine_calls.specs.Machine.{spm_of_objects};
ghost use Rattle.machine_calls.specs.Signals.{asserted_by, is_met};

use crate::machine::Objects;
use ffm_model::{ActorPhase, PSA_DOORBELL, PendingMessage, Service, Source, System};
use machine_rules::{doorbell_word, source_word};

// Whether the mask has a signal of the partition's services that stand together; they are all of its services where
// services stand in the order of their partitions.
fn is_service_near(services: &[Service], partition: u32, mask: u32) -> bool
    ensures { result ≡ true
        → list_any (λ v. is_met v.owner v.signal partition mask) services.now ≡ true }
{
    let start = services.partition_point(|v| v.owner < partition);
    let mut near = services[start..]
        .iter()
        .take_while(|v| v.owner == partition);
    near.any(|v| v.signal & mask != 0)
}

// The same of its interrupt sources.
fn is_source_near(sources: &[Source], partition: u32, mask: u32) -> bool
    ensures { result ≡ true
        → list_any (λ v. is_met v.owner v.signal partition mask) sources.now ≡ true }
{
    let start = sources.partition_point(|v| v.owner < partition);
    let mut near = sources[start..].iter().take_while(|v| v.owner == partition);
    near.any(|v| v.signal & mask != 0)
}

fn is_service_met(services: &[Service], partition: u32, mask: u32) -> bool
    ensures { result ≡ list_any (λ v. is_met v.owner v.signal partition mask) services.now }
{
    services
        .iter()
        .any(|v| v.owner == partition && v.signal & mask != 0)
}

fn is_source_met(sources: &[Source], partition: u32, mask: u32) -> bool
    ensures { result ≡ list_any (λ v. is_met v.owner v.signal partition mask) sources.now }
{
    sources
        .iter()
        .any(|v| v.owner == partition && v.signal & mask != 0)
}

/// Whether the partition has a signal of the mask, asserted or not.
#[tactic(auto, using(crate::proofs::Asserted::assigned_met))]
pub(crate) fn has_signal(system: &System, partition: u32, mask: u32) -> bool
    ensures { result ≡ has_signal_of (assigned_to system.now partition) mask }
{
    let services = system.services.as_slice();
    let sources = system.sources.as_slice();
    if PSA_DOORBELL & mask != 0 {
        return true;
    }
    if is_service_near(services, partition, mask) || is_source_near(sources, partition, mask) {
        return true;
    }
    is_service_met(services, partition, mask) || is_source_met(sources, partition, mask)
}

// The signal of the partition that a message asserts; 0 where it asserts none.
fn asserted_by(services: &[Service], partition: u32, message: &PendingMessage) -> u32
    ensures { result ≡ asserted_by services.now partition message.now }
{
    if message.handle.is_some() {
        return 0;
    }
    match services.get(message.service as usize) {
        Some(service) if service.owner == partition => service.signal,
        _ => 0,
    }
}

// The signals of the partition that messages assert, which are fewer than services.
fn message_word(services: &[Service], messages: &[PendingMessage], partition: u32) -> u32
    ensures { result ≡ union_of (map (asserted_by services.now partition) messages.now) }
{
    messages
        .iter()
        .map(|message| asserted_by(services, partition, message))
        .fold(0, |word, signal| word | signal)
}

impl Objects {
    // The signals of the partition's services for which a message waits.
    #[tactic(auto, using(crate::proofs::Asserted::by_messages))]
    fn service_word(&self, system: &System, partition: u32) -> u32
        ensures { result
            ≡ union_of (service_signals system.now (spm_of_objects self.now) partition) }
    {
        let services = system.services.as_slice();
        message_word(services, self.messages.as_slice(), partition)
    }

    // The asserted signals of its interrupt sources.
    fn source_word(&self, system: &System, partition: u32) -> u32
        ensures { result
            ≡ union_of (source_signals system.now (spm_of_objects self.now) partition) }
    {
        let sources = system.sources.as_slice();
        source_word(sources, self.sources.as_slice(), partition)
    }

    /// The asserted signals of a partition.
    pub fn signals(&self, system: &System, partition: u32) -> u32
        ensures { result ≡ signals_of system.now (spm_of_objects self.now) partition }
    {
        let services = self.service_word(system, partition);
        let doorbell = doorbell_word(self.doorbells.as_slice(), partition);
        services | (doorbell | self.source_word(system, partition))
    }

    // Whether a signal of the mask is asserted. The sources are asked last, since they may be many.
    #[tactic(auto, using(crate::proofs::Asserted::asserted_met))]
    fn is_signalled(&self, system: &System, partition: u32, mask: u32) -> bool
        ensures { result ≡ has_signal_of
            (signals_of system.now (spm_of_objects self.now) partition) mask }
    {
        let services = self.service_word(system, partition);
        let doorbell = doorbell_word(self.doorbells.as_slice(), partition);
        if (services | doorbell) & mask != 0 {
            return true;
        }
        self.source_word(system, partition) & mask != 0
    }

    /// Whether an actor can go on: it runs, its answer is there, or a signal came that it waits for.
    pub fn is_enabled(&self, system: &System, actor: u32) -> bool
        ensures { result ≡ enabled system.now (spm_of_objects self.now) actor }
    {
        match self.phase(actor) {
            ActorPhase::Running | ActorPhase::Ready(_) | ActorPhase::Connected(_) => true,
            ActorPhase::Waiting { mask } => self.is_signalled(system, actor, mask),
            _ => false,
        }
    }
}
