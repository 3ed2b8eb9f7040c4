//! The signals of partitions.

ghost use Rattle.std.specs.Prelude.{◌≡◌, map, IfOk};
ghost use Rattle.std.specs.Box.{boxed_slice_items};
ghost use Rattle.ffm_model.specs.Signals.{union_of};
ghost use Rattle.spm_tables.specs.TablesView.{asserted, service_signal, source_signal};
ghost use Rattle.ffm_model.specs.State.{no_flags};
ghost use Rattle.std.specs.Prelude.{get_or, false};
ghost use Rattle.spm_tables.specs.Words.{first_flags, owner_at};

use ffm_model::{Memory, Service, Source, SourceFlags};
use std::alloc::Global;
use std::boxed::BoxedSlice;

/// Whose a signal is, and its bit.
#[derive(Clone, Copy, Debug, PartialEq, Eq)]
pub struct OwnedSignal {
    /// The place of its partition.
    pub owner: u32,
    pub signal: u32,
    /// Whether it is that of an interrupt source with a first-level handler.
    pub flih: bool,
}

pub(crate) fn service_signals(
    alloc: Global,
    services: &[Service],
) -> Result<BoxedSlice<OwnedSignal>, Memory>
    ensures { IfOk result (λ v. boxed_slice_items v ≡ map service_signal services.now) }
{
    let mut signals = Vec::new(alloc);
    for service in services {
        signals.push(OwnedSignal {
            owner: service.owner,
            signal: service.signal,
            flih: false,
        })?;
    }
    Ok(signals.into_boxed_slice())
}

pub(crate) fn source_signals(
    alloc: Global,
    sources: &[Source],
) -> Result<BoxedSlice<OwnedSignal>, Memory>
    ensures { IfOk result (λ v. boxed_slice_items v ≡ map source_signal sources.now) }
{
    let mut signals = Vec::new(alloc);
    for source in sources {
        signals.push(OwnedSignal {
            owner: source.owner,
            signal: source.signal,
            flih: source.flih,
        })?;
    }
    Ok(signals.into_boxed_slice())
}

// The flags of the sources at the start.
pub(crate) fn opening_flags(
    alloc: Global,
    sources: &[Source],
) -> Result<BoxedSlice<SourceFlags>, Memory>
    ensures { IfOk result (λ v. boxed_slice_items v ≡ map first_flags sources.now) }
{
    let mut flags = Vec::new(alloc);
    for source in sources {
        flags.push(SourceFlags {
            enabled: source.enabled,
            pending: false,
            asserted: false,
        })?;
    }
    Ok(flags.into_boxed_slice())
}

pub(crate) fn flags_at(flags: &[SourceFlags], source: usize) -> SourceFlags
    ensures { result ≡ get_or flags.now source no_flags }
{
    match flags.get(source) {
        Some(flags) => *flags,
        None => SourceFlags {
            enabled: false,
            pending: false,
            asserted: false,
        },
    }
}

fn waits_at(waiting: &[bool], service: usize) -> bool
    ensures { result ≡ get_or waiting.now service false }
{
    match waiting.get(service) {
        Some(waits) => *waits,
        None => false,
    }
}

// The signals of a partition's services for which a message waits.
pub(crate) fn service_word(services: &[OwnedSignal], waiting: &[bool], partition: u32) -> u32
    ensures { result ≡ union_of
        (asserted (λ v. get_or waiting.now v false) services.now partition) }
{
    let mut word = 0;
    for (place, service) in services.iter().enumerate() {
        if service.owner == partition && waits_at(waiting, place) {
            word |= service.signal;
        }
    }
    word
}

// The asserted signals of a partition's interrupt sources.
pub(crate) fn source_word(sources: &[OwnedSignal], flags: &[SourceFlags], partition: u32) -> u32
    ensures { result ≡ union_of
        (asserted (λ i. (get_or flags.now i no_flags).asserted) sources.now partition) }
{
    let mut word = 0;
    for (place, source) in sources.iter().enumerate() {
        if source.owner == partition && flags_at(flags, place).asserted {
            word |= source.signal;
        }
    }
    word
}

// The partition that has the signal of that place.
pub(crate) fn owner_at(signals: &[OwnedSignal], place: u32) -> Option<u32>
    ensures { result ≡ owner_at signals.now place }
{
    match signals.get(place as usize) {
        Some(signal) => Some(signal.owner),
        None => None,
    }
}
