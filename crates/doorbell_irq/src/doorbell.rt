//! The doorbells of partitions.
ghost use Rattle.std.specs.Prelude.{◌≡◌, pos, length, int_le, true, ◌&&◌, if◌then◌else◌, Some, None};
ghost use Rattle.ffm_model.specs.declared.machine.Outcome.TheVariants as outcome;
ghost use Rattle.ffm_model.specs.declared.system.System.{System as SystemSeen};
ghost use Rattle.ffm_model.specs.SignalCalls.{place_of_id, psa_clear, psa_notify};
ghost use Rattle.law_calls.specs.Named.{KeepsNames};
ghost use Rattle.law_calls.specs.Premises.{KeepsVectors, KeepsFit};
ghost use Rattle.spm_tables.specs.Answers.{Answers};
ghost use Rattle.spm_tables.specs.TablesView.{MadeFor, shape_of, spm_of};

use ffm_model::{ActorId, Fault, System};
use spm_tables::Tables;

// The place of the partition with an ID, which is its place plus one; None where no partition has it.
fn place_of_id(system: &System, id: i32) -> Option<ActorId>
    ensures { result ≡ (if int_le (pos 1) id && int_le id (pos (length system.now.partitions))
        then Some (record { 0 = place_of_id id }) else None) }
{
    if id < 1 {
        return None;
    }
    let place = id as u32 - 1;
    if (place as usize) < system.partitions.len() {
        Some(ActorId(place))
    } else {
        None
    }
}

/// `psa_notify` (`psa/service.h`): asserts the doorbell of the partition with this ID, which is its place
/// plus one. Fault exactly where no partition has the ID, and then nothing changed.
pub fn notify(system: &System, tables: &mut Tables, partition: i32) -> Result<(), Fault>
    requires made { MadeFor tables.old system.now }
    ensures answer { Answers (λ _. outcome.Done)
        (psa_notify system.now (spm_of tables.old) partition) tables.old result tables.new }
    ensures shape { shape_of tables.new ≡ shape_of tables.old }
    ensures names { (s : SystemSeen) → MadeFor tables.old s → KeepsNames s tables.old tables.new }
    ensures fits { KeepsFit tables.old tables.new }
    ensures within { KeepsVectors tables.old tables.new }
    ensures takes { tables.new.messages.takes ≡ tables.old.messages.takes }
{
    let notified = place_of_id(system, partition).ok_or(Fault)?;
    tables.set_doorbell(notified, true);
    Ok(())
}

/// `psa_clear` (`psa/service.h`): clears the caller's doorbell. Fault exactly where it isn't asserted,
/// and then nothing changed.
pub fn clear(tables: &mut Tables, actor: ActorId) -> Result<(), Fault>
    ensures answer { Answers (λ _. outcome.Done) (psa_clear (spm_of tables.old) actor.0)
        tables.old result tables.new }
    ensures shape { shape_of tables.new ≡ shape_of tables.old }
    ensures names { (s : SystemSeen) → MadeFor tables.old s → KeepsNames s tables.old tables.new }
    ensures fits { KeepsFit tables.old tables.new }
    ensures within { KeepsVectors tables.old tables.new }
    ensures takes { tables.new.messages.takes ≡ tables.old.messages.takes }
{
    if !tables.doorbell(actor) {
        return Err(Fault);
    }
    tables.set_doorbell(actor, false);
    Ok(())
}
