//! Doorbells and interrupts.
ghost use Rattle.std.specs.Prelude.{◌≡◌, Ok, false, get_or, slice_set};
ghost use Rattle.ffm_model.specs.SignalCalls.{psa_notify, psa_clear, psa_eoi, psa_irq_enable, psa_irq_disable, psa_reset_signal, with_doorbell, with_flags, fire, raise};
ghost use Rattle.ffm_model.specs.State.{flags_at};
ghost use Rattle.machine_calls.specs.Machine.{spm_of_objects, Moves};

use crate::machine::Objects;
use ffm_model::{ActorId, Outcome, SourceFlags, System};
use machine_rules::{forwarded, source_of_signal};

fn put_doorbell(doorbells: &mut [bool], partition: usize, set: bool)
    ensures { doorbells.new ≡ slice_set doorbells.old partition set }
{
    if partition < doorbells.len() {
        doorbells[partition] = set;
    }
}

fn put_flags(sources: &mut [SourceFlags], source: usize, flags: SourceFlags)
    ensures { sources.new ≡ slice_set sources.old source flags }
{
    if source < sources.len() {
        sources[source] = flags;
    }
}

impl Objects {
    fn is_rung(&self, partition: u32) -> bool
        ensures { result ≡ get_or self.now.doorbells.items partition false }
    {
        match self.doorbells.as_slice().get(partition as usize) {
            Some(set) => *set,
            None => false,
        }
    }

    fn set_doorbell(&mut self, partition: usize, set: bool)
        ensures state { spm_of_objects self.new
            ≡ with_doorbell (spm_of_objects self.old) partition set }
        ensures messages { self.new.messages ≡ self.old.messages }
        ensures made { self.new.connections_made ≡ self.old.connections_made }
    {
        put_doorbell(self.doorbells.as_mut_slice(), partition, set);
    }

    fn flags(&self, source: u32) -> SourceFlags
        ensures { result ≡ flags_at (spm_of_objects self.now) source }
    {
        match self.sources.as_slice().get(source as usize) {
            Some(flags) => *flags,
            None => SourceFlags {
                enabled: false,
                pending: false,
                asserted: false,
            },
        }
    }

    fn set_flags(&mut self, source: u32, flags: SourceFlags)
        ensures state { spm_of_objects self.new
            ≡ with_flags (spm_of_objects self.old) source flags }
        ensures messages { self.new.messages ≡ self.old.messages }
        ensures made { self.new.connections_made ≡ self.old.connections_made }
    {
        put_flags(self.sources.as_mut_slice(), source as usize, flags);
    }

    /// `psa_notify` (`psa/service.h`). None where no partition has the ID.
    pub fn notify(&mut self, system: &System, partition: i32) -> Option<Outcome>
        ensures moves { Moves (psa_notify system.now (spm_of_objects self.old) partition) self.old
            (Ok result) self.new }
        ensures messages { self.new.messages ≡ self.old.messages }
        ensures made { self.new.connections_made ≡ self.old.connections_made }
    {
        let id = usize::try_from(partition).ok()?;
        if id == 0 || id > system.partitions.len() {
            return None;
        }
        self.set_doorbell(id - 1, true);
        Some(Outcome::Done)
    }

    /// `psa_clear` (`psa/service.h`). None where the actor's doorbell isn't set.
    pub fn clear(&mut self, actor: ActorId) -> Option<Outcome>
        ensures moves { Moves (psa_clear (spm_of_objects self.old) actor.0) self.old
            (Ok result) self.new }
        ensures messages { self.new.messages ≡ self.old.messages }
        ensures made { self.new.connections_made ≡ self.old.connections_made }
    {
        if !self.is_rung(actor.0) {
            return None;
        }
        self.set_doorbell(actor.0 as usize, false);
        Some(Outcome::Done)
    }

    /// `psa_eoi` (`psa/service.h`). None where it isn't the asserted signal of an interrupt source of the actor, or the source has
    /// a first-level handler.
    pub fn eoi(&mut self, system: &System, actor: ActorId, signal: u32) -> Option<Outcome>
        ensures moves { Moves (psa_eoi system.now (spm_of_objects self.old) actor.0 signal) self.old
            (Ok result) self.new }
        ensures messages { self.new.messages ≡ self.old.messages }
        ensures made { self.new.connections_made ≡ self.old.connections_made }
    {
        let source = source_of_signal(system, actor.0, signal)?;
        let flags = self.flags(source);
        if !flags.asserted || system.has_flih(source) {
            return None;
        }
        let ended = SourceFlags {
            asserted: false,
            ..flags
        };
        self.set_flags(source, forwarded(system.has_flih(source), ended));
        Some(Outcome::Done)
    }

    /// An interrupt of the device. None where no source has the number, or the source has a first-level handler.
    pub fn raise(&mut self, system: &System, source: u32) -> Option<Outcome>
        ensures moves { Moves (raise system.now (spm_of_objects self.old) source) self.old
            (Ok result) self.new }
        ensures messages { self.new.messages ≡ self.old.messages }
        ensures made { self.new.connections_made ≡ self.old.connections_made }
    {
        if source as usize >= system.sources.len() || system.has_flih(source) {
            return None;
        }
        let raised = SourceFlags {
            pending: true,
            ..self.flags(source)
        };
        self.set_flags(source, forwarded(system.has_flih(source), raised));
        Some(Outcome::Done)
    }

    /// `psa_irq_enable` (`psa/service.h`). None where it isn't the signal of an interrupt source of the actor.
    pub fn irq_enable(&mut self, system: &System, actor: ActorId, signal: u32) -> Option<Outcome>
        ensures moves { Moves (psa_irq_enable system.now (spm_of_objects self.old) actor.0 signal)
            self.old (Ok result) self.new }
        ensures messages { self.new.messages ≡ self.old.messages }
        ensures made { self.new.connections_made ≡ self.old.connections_made }
    {
        let source = source_of_signal(system, actor.0, signal)?;
        let enabled = SourceFlags {
            enabled: true,
            ..self.flags(source)
        };
        self.set_flags(source, forwarded(system.has_flih(source), enabled));
        Some(Outcome::Done)
    }

    /// `psa_irq_disable` (`psa/service.h`). None where it isn't the signal of an interrupt source of the actor.
    pub fn irq_disable(&mut self, system: &System, actor: ActorId, signal: u32) -> Option<Outcome>
        ensures moves { Moves (psa_irq_disable system.now (spm_of_objects self.old) actor.0 signal)
            self.old (Ok result) self.new }
        ensures messages { self.new.messages ≡ self.old.messages }
        ensures made { self.new.connections_made ≡ self.old.connections_made }
    {
        let source = source_of_signal(system, actor.0, signal)?;
        let flags = self.flags(source);
        let disabled = SourceFlags {
            enabled: false,
            ..flags
        };
        self.set_flags(source, disabled);
        Some(Outcome::Number(if flags.enabled { 1 } else { 0 }))
    }

    /// `psa_reset_signal` (`psa/service.h`). None where it isn't the asserted signal of an interrupt source of the actor with FLIH.
    pub fn reset_signal(&mut self, system: &System, actor: ActorId, signal: u32) -> Option<Outcome>
        ensures moves { Moves (psa_reset_signal system.now (spm_of_objects self.old) actor.0 signal)
            self.old (Ok result) self.new }
        ensures messages { self.new.messages ≡ self.old.messages }
        ensures made { self.new.connections_made ≡ self.old.connections_made }
    {
        let source = source_of_signal(system, actor.0, signal)?;
        let flags = self.flags(source);
        if !flags.asserted || !system.has_flih(source) {
            return None;
        }
        let reset = SourceFlags {
            asserted: false,
            ..flags
        };
        self.set_flags(source, reset);
        Some(Outcome::Done)
    }

    /// An interrupt of the device with its handler's answer. None where no source with FLIH has the number, or the answer is above 1.
    pub fn fire(&mut self, system: &System, source: u32, answer: u32) -> Option<Outcome>
        ensures moves { Moves (fire system.now (spm_of_objects self.old) source answer) self.old
            (Ok result) self.new }
        ensures messages { self.new.messages ≡ self.old.messages }
        ensures made { self.new.connections_made ≡ self.old.connections_made }
    {
        if source as usize >= system.sources.len() || !system.has_flih(source) || answer > 1 {
            return None;
        }
        if answer == 1 {
            let fired = SourceFlags {
                pending: true,
                ..self.flags(source)
            };
            self.set_flags(source, forwarded(true, fired));
        }
        Some(Outcome::Done)
    }
}
