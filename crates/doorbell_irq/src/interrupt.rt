//! The interrupt sources: what the device raises, and what a partition enables, disables and ends. A source's number is its place
//! in the system's list, counted from 0, and a signal is the source's bit.
ghost use Rattle.std.specs.Prelude.{◌≡◌, ◌≤◌, ◌<◌, true, length, slice_set, None, Some, if◌then◌else◌};
ghost use Rattle.ffm_model.specs.declared.machine.Outcome.TheVariants as outcome;
ghost use Rattle.ffm_model.specs.declared.system.System.{System as SystemSeen};
ghost use Rattle.ffm_model.specs.ClientCalls.{move};
ghost use Rattle.ffm_model.specs.SignalCalls.{forwarded, psa_eoi, psa_irq_disable, psa_irq_enable, psa_reset_signal, with_forwarded, fire, interrupted, raise};
ghost use Rattle.law_calls.specs.Named.{KeepsNames};
ghost use Rattle.law_calls.specs.Premises.{KeepsVectors, KeepsFit};
ghost use Rattle.spm_tables.specs.Answers.{Answers};
ghost use Rattle.spm_tables.specs.TablesView.{MadeFor, handling, shape_of, spm_of};

use ffm_model::{ActorId, Fault, SourceFlags, System};
use machine_rules::{forwarded, source_of_signal};
use spm_tables::Tables;

// Sets the flags of a source, and then forwards its interrupts.
fn put_forwarded(tables: &mut Tables, source: u32, flags: SourceFlags)
    ensures answer { (s : SystemSeen) → MadeFor tables.old s
        → spm_of tables.new ≡ with_forwarded s (spm_of tables.old) source flags }
    ensures after { tables.new ≡ record tables.old {
      flags = slice_set tables.old.flags source
          (forwarded (handling tables.old source) flags);
    } }
    ensures shape { shape_of tables.new ≡ shape_of tables.old }
    ensures names { (s : SystemSeen) → MadeFor tables.old s → KeepsNames s tables.old tables.new }
    ensures fits { KeepsFit tables.old tables.new }
    ensures within { KeepsVectors tables.old tables.new }
    ensures takes { tables.new.messages.takes ≡ tables.old.messages.takes }
{
    let flih = tables.has_flih(source);
    tables.set_source_flags(source, forwarded(flih, flags));
}

/// The device raises the interrupt of a source: it is pending, and where the source is enabled and its signal clear, the signal is
/// asserted in its place. A source with a first-level handler has no such event; there it does what `fire` does with the answer 1.
pub fn raise(tables: &mut Tables, source: u32)
    requires exists { source < length tables.old.sources }
    ensures answer { (s : SystemSeen) → MadeFor tables.old s
        → raise s (spm_of tables.old) source
        ≡ (if handling tables.old source
        then None else Some (move outcome.Done (spm_of tables.new))) }
    ensures interrupted { (s : SystemSeen) → MadeFor tables.old s
        → spm_of tables.new ≡ interrupted s (spm_of tables.old) source }
    ensures shape { shape_of tables.new ≡ shape_of tables.old }
    ensures names { (s : SystemSeen) → MadeFor tables.old s → KeepsNames s tables.old tables.new }
    ensures fits { KeepsFit tables.old tables.new }
    ensures within { KeepsVectors tables.old tables.new }
    ensures takes { tables.new.messages.takes ≡ tables.old.messages.takes }
{
    let pending = SourceFlags {
        pending: true,
        ..tables.source_flags(source)
    };
    put_forwarded(tables, source, pending);
}

/// The device raises the interrupt of a source with a first-level handler, which answers 1 where the partition is to be told, else
/// 0. With 1 it is pending, and where the source is enabled, its signal is asserted in its place, also if it was asserted already.
/// With 0 nothing changes.
pub fn fire(tables: &mut Tables, source: u32, answer: u32)
    requires exists { source < length tables.old.sources }
    requires flih { handling tables.old source ≡ true }
    requires answer { answer ≤ 1 }
    ensures answer { (s : SystemSeen) → MadeFor tables.old s
        → fire s (spm_of tables.old) source answer ≡ Some (move outcome.Done (spm_of tables.new)) }
    ensures shape { shape_of tables.new ≡ shape_of tables.old }
    ensures names { (s : SystemSeen) → MadeFor tables.old s → KeepsNames s tables.old tables.new }
    ensures fits { KeepsFit tables.old tables.new }
    ensures within { KeepsVectors tables.old tables.new }
    ensures takes { tables.new.messages.takes ≡ tables.old.messages.takes }
{
    if answer == 1 {
        raise(tables, source);
    }
}

/// `psa_eoi` (`psa/service.h`): clears the signal of one of the caller's interrupt sources with a second-level
/// handler, and asserts it at once where another interrupt is pending and the source is enabled. Fault exactly
/// where it isn't the signal of such a source or isn't asserted, and then nothing changed.
pub fn eoi(system: &System, tables: &mut Tables, actor: ActorId, signal: u32) -> Result<(), Fault>
    requires made { MadeFor tables.old system.now }
    ensures answer { Answers (λ _. outcome.Done)
        (psa_eoi system.now (spm_of tables.old) actor.0 signal) tables.old result tables.new }
    ensures shape { shape_of tables.new ≡ shape_of tables.old }
    ensures names { (s : SystemSeen) → MadeFor tables.old s → KeepsNames s tables.old tables.new }
    ensures fits { KeepsFit tables.old tables.new }
    ensures within { KeepsVectors tables.old tables.new }
    ensures takes { tables.new.messages.takes ≡ tables.old.messages.takes }
{
    let source = source_of_signal(system, actor.0, signal).ok_or(Fault)?;
    let flags = tables.source_flags(source);
    if !flags.asserted || system.has_flih(source) {
        return Err(Fault);
    }
    let ended = SourceFlags {
        asserted: false,
        ..flags
    };
    put_forwarded(tables, source, ended);
    Ok(())
}

/// `psa_reset_signal` (`psa/service.h`): clears the signal of one of the caller's interrupt sources with a
/// first-level handler, and forwards nothing. Fault exactly where it isn't the signal of such a source or isn't asserted, and then
/// nothing changed.
pub fn reset(system: &System, tables: &mut Tables, actor: ActorId, signal: u32) -> Result<(), Fault>
    requires made { MadeFor tables.old system.now }
    ensures answer { Answers (λ _. outcome.Done)
        (psa_reset_signal system.now (spm_of tables.old) actor.0 signal)
        tables.old result tables.new }
    ensures shape { shape_of tables.new ≡ shape_of tables.old }
    ensures names { (s : SystemSeen) → MadeFor tables.old s → KeepsNames s tables.old tables.new }
    ensures fits { KeepsFit tables.old tables.new }
    ensures within { KeepsVectors tables.old tables.new }
    ensures takes { tables.new.messages.takes ≡ tables.old.messages.takes }
{
    let source = source_of_signal(system, actor.0, signal).ok_or(Fault)?;
    let flags = tables.source_flags(source);
    if !flags.asserted || !system.has_flih(source) {
        return Err(Fault);
    }
    let reset = SourceFlags {
        asserted: false,
        ..flags
    };
    tables.set_source_flags(source, reset);
    Ok(())
}

/// `psa_irq_enable` (`psa/service.h`): enables one of the caller's interrupt sources; where its interrupt is pending, the signal is
/// asserted in its place, with a second-level handler only if it is clear. Fault exactly where the signal isn't that of one of the
/// caller's sources, and then nothing changed.
pub fn enable(
    system: &System,
    tables: &mut Tables,
    actor: ActorId,
    signal: u32,
) -> Result<(), Fault>
    requires made { MadeFor tables.old system.now }
    ensures answer { Answers (λ _. outcome.Done)
        (psa_irq_enable system.now (spm_of tables.old) actor.0 signal)
        tables.old result tables.new }
    ensures shape { shape_of tables.new ≡ shape_of tables.old }
    ensures names { (s : SystemSeen) → MadeFor tables.old s → KeepsNames s tables.old tables.new }
    ensures fits { KeepsFit tables.old tables.new }
    ensures within { KeepsVectors tables.old tables.new }
    ensures takes { tables.new.messages.takes ≡ tables.old.messages.takes }
{
    let source = source_of_signal(system, actor.0, signal).ok_or(Fault)?;
    let enabled = SourceFlags {
        enabled: true,
        ..tables.source_flags(source)
    };
    put_forwarded(tables, source, enabled);
    Ok(())
}

/// `psa_irq_disable` (`psa/service.h`): disables one of the caller's interrupt sources, and answers 1 where it was
/// enabled, else 0. A signal that is asserted stays so, and an interrupt that is pending too. Fault exactly where the signal isn't
/// that of one of the caller's sources, and then nothing changed.
pub fn disable(
    system: &System,
    tables: &mut Tables,
    actor: ActorId,
    signal: u32,
) -> Result<u32, Fault>
    requires made { MadeFor tables.old system.now }
    ensures answer { Answers (λ was. outcome.Number was)
        (psa_irq_disable system.now (spm_of tables.old) actor.0 signal)
        tables.old result tables.new }
    ensures shape { shape_of tables.new ≡ shape_of tables.old }
    ensures names { (s : SystemSeen) → MadeFor tables.old s → KeepsNames s tables.old tables.new }
    ensures fits { KeepsFit tables.old tables.new }
    ensures within { KeepsVectors tables.old tables.new }
    ensures takes { tables.new.messages.takes ≡ tables.old.messages.takes }
{
    let source = source_of_signal(system, actor.0, signal).ok_or(Fault)?;
    let flags = tables.source_flags(source);
    let disabled = SourceFlags {
        enabled: false,
        ..flags
    };
    tables.set_source_flags(source, disabled);
    Ok(u32::from(flags.enabled))
}
