//! Who waits for whom in a state.
ghost use Rattle.std.specs.Prelude.{◌≡◌, ◌++◌, ◌∷◌, ◌==◌, ◌&&◌, [], IfOk, OnOk, find, if◌then◌else◌};
ghost use Rattle.std.specs.List.{enumerate_from, list_any};
ghost use Rattle.ffm_model.specs.Actors.{owner_of};
ghost use Rattle.ffm_model.specs.Signals.{enabled, has_signal_of};
ghost use Rattle.ffm_model.specs.State.{flags_at};
ghost use Rattle.machine_calls.specs.Machine.{spm_of_objects};
ghost use Rattle.view_places.specs.Waits.{actors, could_give, doorbell_signal, is_awaited, is_blocked_actor, is_device, is_giver, is_gone, is_service_awaited, is_source_awaited, is_stalled, may_use, message_awaited, service_signals, signals_in, source_signals, waits_for};

use dependency_circle::Graph;
use ffm_model::{
    ActorPhase, Budget, PSA_DOORBELL, PendingMessage, Service, Source, SourceFlags, System,
};
use machine_calls::Objects;
use machine_rules::is_service_of;
use std::alloc::{AllocError, Global};

/// A signal of a partition.
#[derive(Clone, Copy)]
pub enum Signal {
    /// Of the service at a place.
    Service(usize),
    /// Of the interrupt source at a place.
    Source(usize),
    Doorbell,
}

fn is_service_in(service: &Service, partition: u32, mask: u32) -> bool
    ensures { result ≡ ((service.now.owner == partition) && has_signal_of service.now.signal mask) }
{
    service.owner == partition && service.signal & mask != 0
}

fn is_source_in(source: &Source, partition: u32, mask: u32) -> bool
    ensures { result ≡ ((source.now.owner == partition) && has_signal_of source.now.signal mask) }
{
    source.owner == partition && source.signal & mask != 0
}

fn add_services(
    signals: &mut Vec<Signal>,
    services: &[Service],
    partition: u32,
    mask: u32,
) -> Result<(), AllocError>
    ensures { OnOk result (signals.new.items
        ≡ signals.old.items ++ service_signals services.now partition mask) }
{
    for (place, service) in services.iter().enumerate() {
        if is_service_in(service, partition, mask) {
            signals.push(Signal::Service(place))?;
        }
    }
    Ok(())
}

fn add_sources(
    signals: &mut Vec<Signal>,
    sources: &[Source],
    partition: u32,
    mask: u32,
) -> Result<(), AllocError>
    ensures { OnOk result (signals.new.items
        ≡ signals.old.items ++ source_signals sources.now partition mask) }
{
    for (place, source) in sources.iter().enumerate() {
        if is_source_in(source, partition, mask) {
            signals.push(Signal::Source(place))?;
        }
    }
    Ok(())
}

fn add_doorbell(signals: &mut Vec<Signal>, mask: u32) -> Result<(), AllocError>
    ensures { OnOk result (signals.new.items ≡ signals.old.items ++ doorbell_signal mask) }
{
    if mask & PSA_DOORBELL != 0 {
        signals.push(Signal::Doorbell)?;
    }
    Ok(())
}

/// A partition's signals in a mask: its services', its interrupts', and the doorbell.
#[tactic(auto, unfolding(crate::specs::Waits::signals_in))]
pub fn signals_in(
    alloc: Global,
    system: &System,
    partition: u32,
    mask: u32,
) -> Result<Vec<Signal>, AllocError>
    ensures { IfOk result (λ signals. signals.items ≡ signals_in system.now partition mask) }
{
    let mut signals = Vec::new(alloc);
    add_services(&mut signals, system.services.as_slice(), partition, mask)?;
    add_sources(&mut signals, system.sources.as_slice(), partition, mask)?;
    add_doorbell(&mut signals, mask)?;
    Ok(signals)
}

fn is_gone(objects: &Objects, actor: u32) -> bool
    ensures { result ≡ is_gone (spm_of_objects objects.now) actor }
{
    matches!(
        objects.phase(actor),
        ActorPhase::Ended | ActorPhase::Panicked
    )
}

fn is_budget_of(budget: &Budget, actor: u32, place: usize) -> bool
    ensures { result ≡ ((budget.now.client.0 == actor) && (budget.now.service == place)) }
{
    budget.client.0 == actor && budget.service as usize == place
}

fn may_use(system: &System, actor: u32, place: usize) -> bool
    ensures { result ≡ may_use system.now actor place }
{
    let budgets = system.budgets.as_slice();
    budgets
        .iter()
        .any(|budget| is_budget_of(budget, actor, place))
}

fn is_device(system: &System, actor: u32) -> bool
    ensures { result ≡ is_device system.now actor }
{
    let counts = system.counts();
    actor >= counts.partitions && actor - counts.partitions >= counts.clients
}

/// The flags of the source at a place.
pub fn flags_at(objects: &Objects, place: usize) -> SourceFlags
    ensures { result ≡ flags_at (spm_of_objects objects.now) place }
{
    match objects.sources.as_slice().get(place) {
        Some(flags) => *flags,
        None => SourceFlags {
            enabled: false,
            pending: false,
            asserted: false,
        },
    }
}

// Whether an actor could give a partition's signal, were it not gone.
fn is_giver(system: &System, objects: &Objects, partition: u32, signal: Signal, actor: u32) -> bool
    ensures { result ≡ is_giver system.now (spm_of_objects objects.now) partition signal actor }
{
    match signal {
        Signal::Service(place) => may_use(system, actor, place),
        Signal::Source(place) => flags_at(objects, place).enabled && is_device(system, actor),
        Signal::Doorbell => actor < system.counts().partitions && actor != partition,
    }
}

/// Whether an actor that isn't gone could give a partition's signal: who may use the service, the device while
/// the source is enabled, another partition.
#[tactic(auto, unfolding(crate::specs::Waits::could_give))]
pub fn could_give(
    system: &System,
    objects: &Objects,
    partition: u32,
    signal: Signal,
    actor: u32,
) -> bool
    ensures { result ≡ could_give system.now (spm_of_objects objects.now) partition signal actor }
{
    !is_gone(objects, actor) && is_giver(system, objects, partition, signal, actor)
}

/// The partition of a service, where there is one.
pub fn owner_of(system: &System, service: u32) -> Option<u32>
    ensures { result ≡ owner_of system.now service }
{
    match system.services.as_slice().get(service as usize) {
        Some(service) => Some(service.owner),
        None => None,
    }
}

fn message_of(messages: &[PendingMessage], client: u32) -> Option<PendingMessage>
    ensures { result ≡ find (λ m. m.client.0 == client) messages.now }
{
    let mut all = messages.iter().copied();
    all.find(|m| m.client.0 == client)
}

/// The message for whose answer a blocked actor waits. It has no other.
#[tactic(auto, unfolding(crate::specs::Waits::message_awaited))]
pub fn message_awaited(objects: &Objects, client: u32) -> Option<PendingMessage>
    ensures { result ≡ message_awaited (spm_of_objects objects.now) client }
{
    message_of(objects.messages.as_slice(), client)
}

// Whether an actor could give the signal of a partition's service in a mask.
fn is_service_awaited(
    system: &System,
    objects: &Objects,
    partition: u32,
    mask: u32,
    other: u32,
) -> bool
    ensures { result ≡ list_any
        (is_service_awaited system.now (spm_of_objects objects.now) partition mask other)
        (enumerate_from 0 system.now.services) }
{
    for (place, service) in system.services.as_slice().iter().enumerate() {
        if is_service_in(service, partition, mask)
            && could_give(system, objects, partition, Signal::Service(place), other)
        {
            return true;
        }
    }
    false
}

// Whether an actor could give the signal of a partition's interrupt in a mask.
fn is_source_awaited(
    system: &System,
    objects: &Objects,
    partition: u32,
    mask: u32,
    other: u32,
) -> bool
    ensures { result ≡ list_any
        (is_source_awaited system.now (spm_of_objects objects.now) partition mask other)
        (enumerate_from 0 system.now.sources) }
{
    for (place, source) in system.sources.as_slice().iter().enumerate() {
        if is_source_in(source, partition, mask)
            && could_give(system, objects, partition, Signal::Source(place), other)
        {
            return true;
        }
    }
    false
}

// Whether an actor could give one of a partition's signals in a mask.
fn is_awaited(system: &System, objects: &Objects, partition: u32, mask: u32, other: u32) -> bool
    ensures { result ≡ is_awaited system.now (spm_of_objects objects.now) partition mask other }
{
    is_service_awaited(system, objects, partition, mask, other)
        || is_source_awaited(system, objects, partition, mask, other)
        || (mask & PSA_DOORBELL != 0
            && could_give(system, objects, partition, Signal::Doorbell, other))
}

/// Whether an actor waits for another one: a partition for who could give one of its signals, a client for the
/// partition of the service that has its message.
#[tactic(auto, unfolding(crate::specs::Waits::waits_for))]
pub fn waits_for(system: &System, objects: &Objects, actor: u32, other: u32) -> bool
    ensures { result ≡ waits_for system.now (spm_of_objects objects.now) actor other }
{
    match objects.phase(actor) {
        ActorPhase::Waiting { mask } => is_awaited(system, objects, actor, mask, other),
        ActorPhase::Blocked => match message_awaited(objects, actor) {
            Some(message) => is_service_of(system, other, message.service),
            None => false,
        },
        _ => false,
    }
}

/// Who waits for whom in a state.
#[derive(Clone, Copy)]
pub struct Waits<'a> {
    pub system: &'a System,
    pub objects: &'a Objects,
}

impl Graph for Waits<'_> {
    ghost edge = { λ g. waits_for g.system.now (spm_of_objects g.objects.now) };

    fn edge(&self, from: u32, to: u32) -> bool {
        waits_for(self.system, self.objects, from, to)
    }
}

fn is_blocked(objects: &Objects, actor: u32) -> bool
    ensures { result ≡ is_blocked_actor (spm_of_objects objects.now) actor }
{
    matches!(objects.phase(actor), ActorPhase::Blocked)
}

fn is_some_enabled(system: &System, objects: &Objects) -> bool
    ensures { result
        ≡ list_any (enabled system.now (spm_of_objects objects.now)) (actors system.now) }
{
    for actor in 0..system.actor_count() {
        if objects.is_enabled(system, actor) {
            return true;
        }
    }
    false
}

fn is_some_blocked(system: &System, objects: &Objects) -> bool
    ensures { result
        ≡ list_any (is_blocked_actor (spm_of_objects objects.now)) (actors system.now) }
{
    for actor in 0..system.actor_count() {
        if is_blocked(objects, actor) {
            return true;
        }
    }
    false
}

/// Whether no actor can go on, and some waits for an answer.
#[tactic(auto, unfolding(crate::specs::Waits::is_stalled))]
pub fn is_stalled(system: &System, objects: &Objects) -> bool
    ensures { result ≡ is_stalled system.now (spm_of_objects objects.now) }
{
    !is_some_enabled(system, objects) && is_some_blocked(system, objects)
}

/// Adds a number to a list where a test holds.
pub fn add_where(list: &mut Vec<u32>, is: bool, number: u32) -> Result<(), AllocError>
    ensures { OnOk result
        (list.new.items ≡ list.old.items ++ (if is then number ∷ [] else [])) }
{
    if is {
        list.push(number)?;
    }
    Ok(())
}
