//! The asserted signals of the partitions, beside what asserts them.

ghost use Rattle.std.specs.Prelude.{◌≡◌, ◌<◌, ◌≤◌, ◌↔◌, length, IsTrue, IfOk, get_or, slice_set, false, slice_get};
ghost use Rattle.std.specs.Option.{option_map_or};
ghost use Rattle.ffm_model.specs.State.{no_flags};
ghost use Rattle.spm_tables.specs.TablesView.{is_signal_of};
ghost use Rattle.spm_tables.specs.Words.{opening_inputs, owner_at, with_word, word_of};

use crate::signals::{
    OwnedSignal, flags_at, opening_flags, owner_at, service_signals, service_word, source_signals,
    source_word,
};
use crate::slices::put;
use ffm_model::{ActorId, Memory, SourceFlags, System};
use machine_rules::doorbell_word;
use std::alloc::Global;
use std::boxed::BoxedSlice;
use std::marker::Model;

/// What asserts signals: the services for which a message waits, the doorbells, and the interrupt sources.
#[derive(Drop)]
pub(crate) struct SignalInputs {
    services: BoxedSlice<OwnedSignal>,
    sources: BoxedSlice<OwnedSignal>,
    // by service, whether a message waits for it
    waiting: BoxedSlice<bool>,
    doorbells: BoxedSlice<bool>,
    flags: BoxedSlice<SourceFlags>,
}

impl Model for SignalInputs {
    ghost use Rattle.std.specs.Box.{boxed_slice_items};
    ghost use Rattle.spm_tables.specs.Words.{InputsView};

    ghost Value = { InputsView };

    ghost view = { λ s.
        record {
          services = boxed_slice_items s.services;
          sources = boxed_slice_items s.sources;
          waiting = boxed_slice_items s.waiting;
          doorbells = boxed_slice_items s.doorbells;
          flags = boxed_slice_items s.flags;
        } };
}

impl SignalInputs {
    fn new(alloc: Global, system: &System) -> Result<SignalInputs, Memory>
        ensures { IfOk result (λ s. s ≡ opening_inputs system.now) }
    {
        let waiting = vec![in alloc; false; system.services.as_slice().len()]?;
        let doorbells = vec![in alloc; false; system.partitions.len()]?;
        Ok(SignalInputs {
            services: service_signals(alloc, system.services.as_slice())?,
            sources: source_signals(alloc, system.sources.as_slice())?,
            waiting: waiting.into_boxed_slice(),
            doorbells: doorbells.into_boxed_slice(),
            flags: opening_flags(alloc, system.sources.as_slice())?,
        })
    }

    /// Whether the system has a service at that place.
    pub(crate) fn has_service(&self, service: u32) -> bool
        ensures { IsTrue result ↔ (service < length self.now.services) }
    {
        (service as usize) < self.services.as_slice().len()
    }

    /// Whether the service at that place is the partition's.
    pub(crate) fn is_signal_of(&self, partition: ActorId, service: u32) -> bool
        ensures { result ≡ is_signal_of self.now.services partition.0 service }
    {
        match self.services.as_slice().get(service as usize) {
            Some(signal) => signal.owner == partition.0,
            None => false,
        }
    }

    /// Whether a message waits for the service; false where there is no such service.
    fn waits(&self, service: u32) -> bool
        ensures { result ≡ get_or self.now.waiting service false }
    {
        match self.waiting.as_slice().get(service as usize) {
            Some(waits) => *waits,
            None => false,
        }
    }

    /// Whether the doorbell of the partition rang; false where there is no such partition.
    pub(crate) fn doorbell(&self, partition: ActorId) -> bool
        ensures { result ≡ get_or self.now.doorbells partition.0 false }
    {
        match self.doorbells.as_slice().get(partition.0 as usize) {
            Some(set) => *set,
            None => false,
        }
    }

    /// The flags of an interrupt source; all false where there is no such source.
    pub(crate) fn source_flags(&self, source: u32) -> SourceFlags
        ensures { result ≡ get_or self.now.flags source no_flags }
    {
        flags_at(self.flags.as_slice(), source as usize)
    }

    /// Whether an interrupt source has a first-level handler; false where there is no such source.
    pub(crate) fn has_flih(&self, source: u32) -> bool
        ensures { result ≡ option_map_or (λ x. x.flih) (slice_get self.now.sources source) false }
    {
        match self.sources.as_slice().get(source as usize) {
            Some(signal) => signal.flih,
            None => false,
        }
    }

    // The signals that are asserted for a partition.
    fn word(&self, partition: u32) -> u32
        ensures { result ≡ word_of self.now partition }
    {
        let services = service_word(self.services.as_slice(), self.waiting.as_slice(), partition);
        let doorbell = doorbell_word(self.doorbells.as_slice(), partition);
        let sources = source_word(self.sources.as_slice(), self.flags.as_slice(), partition);
        services | (doorbell | sources)
    }

    fn service_owner(&self, service: u32) -> Option<u32>
        ensures { result ≡ owner_at self.now.services service }
    {
        owner_at(self.services.as_slice(), service)
    }

    fn source_owner(&self, source: u32) -> Option<u32>
        ensures { result ≡ owner_at self.now.sources source }
    {
        owner_at(self.sources.as_slice(), source)
    }

    fn set_waiting(&mut self, service: u32, waits: bool)
        ensures { self.new
            ≡ record self.old { waiting = slice_set self.old.waiting service waits } }
    {
        put(self.waiting.as_mut_slice(), service, waits);
    }

    fn set_doorbell(&mut self, partition: ActorId, set: bool)
        ensures { self.new
            ≡ record self.old { doorbells = slice_set self.old.doorbells partition.0 set } }
    {
        put(self.doorbells.as_mut_slice(), partition.0, set);
    }

    fn set_flags(&mut self, source: u32, flags: SourceFlags)
        ensures { self.new ≡ record self.old { flags = slice_set self.old.flags source flags } }
    {
        put(self.flags.as_mut_slice(), source, flags);
    }
}

/// What asserts signals, and of each partition the signals that are asserted.
///
/// Contracts see what asserts them.
#[derive(Drop)]
pub(crate) struct SignalBoard {
    inputs: SignalInputs,
    // by partition
    words: BoxedSlice<u32>,
}

impl Model for SignalBoard {
    ghost use Rattle.std.specs.Box.{boxed_slice_items};
    ghost use Rattle.spm_tables.specs.Words.{InputsView, KeepsWords};

    ghost Value = { InputsView };

    ghost view = { λ b. b.inputs };

    ghost invariant = { λ b. KeepsWords b.inputs (boxed_slice_items b.words) };
}

// Makes the word of a partition anew, if one is meant and there.
fn refresh(words: &mut [u32], partition: Option<u32>, inputs: &SignalInputs)
    ensures { words.new ≡ with_word partition (word_of inputs.now) words.old }
{
    if let Some(partition) = partition {
        put(words, partition, inputs.word(partition));
    }
}

impl SignalBoard {
    /// The board of a system at its start: no signal is asserted. `Memory` where memory is wanting.
    pub(crate) fn new(alloc: Global, system: &System) -> Result<SignalBoard, Memory>
        ensures { IfOk result (λ b. b ≡ opening_inputs system.now) }
    {
        let inputs = SignalInputs::new(alloc, system)?;
        let words = vec![in alloc; 0; system.partitions.len()]?;
        Ok(SignalBoard {
            inputs,
            words: words.into_boxed_slice(),
        })
    }

    /// What asserts signals, lent to be read.
    pub(crate) fn inputs(&self) -> &SignalInputs
        ensures { result.now ≡ self.now }
    {
        &self.inputs
    }

    /// The asserted signals of a partition, in constant time; none where there is no such partition.
    pub(crate) fn word(&self, partition: u32) -> u32
        ensures there { partition < length self.now.doorbells
            → result ≡ word_of self.now partition }
        ensures none { length self.now.doorbells ≤ partition → result ≡ 0 }
    {
        match self.words.as_slice().get(partition as usize) {
            Some(word) => *word,
            None => 0,
        }
    }

    /// Says whether a message waits for the service. Nothing changes where there is no such service.
    pub(crate) fn set_waiting(&mut self, service: u32, waits: bool)
        ensures { self.new
            ≡ record self.old { waiting = slice_set self.old.waiting service waits } }
    {
        if self.inputs.waits(service) == waits {
            return;
        }
        self.inputs.set_waiting(service, waits);
        let owner = self.inputs.service_owner(service);
        refresh(self.words.as_mut_slice(), owner, &self.inputs);
    }

    /// Sets or clears the doorbell of a partition. Nothing changes where there is no such partition.
    pub(crate) fn set_doorbell(&mut self, partition: ActorId, set: bool)
        ensures { self.new
            ≡ record self.old { doorbells = slice_set self.old.doorbells partition.0 set } }
    {
        self.inputs.set_doorbell(partition, set);
        refresh(self.words.as_mut_slice(), Some(partition.0), &self.inputs);
    }

    /// Sets the flags of an interrupt source. Nothing changes where there is no such source.
    pub(crate) fn set_flags(&mut self, source: u32, flags: SourceFlags)
        ensures { self.new ≡ record self.old { flags = slice_set self.old.flags source flags } }
    {
        self.inputs.set_flags(source, flags);
        let owner = self.inputs.source_owner(source);
        refresh(self.words.as_mut_slice(), owner, &self.inputs);
    }
}
