//! Waiting for signals.

ghost use Rattle.std.specs.Prelude.{◌≡◌};
ghost use Rattle.ffm_model.specs.ServiceCalls.{psa_wait};
ghost use Rattle.law_counting.specs.Objects.{ObjectsFit};
ghost use Rattle.ffm_model.specs.State.{phase_of};
ghost use Rattle.law_calls.specs.Named.{KeepsNames};
ghost use Rattle.law_calls.specs.Premises.{KeepsVectors};
ghost use Rattle.spm_tables.specs.Answers.{Answers};
ghost use Rattle.spm_tables.specs.TablesView.{MadeFor, shape_of, spm_of};

use ffm_model::{ActorId, ActorPhase, Fault, Outcome, PSA_BLOCK, System};
use machine_rules::assigned_to;
use spm_tables::Tables;

/// `psa_wait`: which signals of the mask are asserted, if the time-out doesn't say to block; else the partition waits for one of
/// them. `Fault` exactly where the mask has no signal of the partition; then nothing changed.
pub fn wait(
    system: &System,
    tables: &mut Tables,
    actor: ActorId,
    mask: u32,
    timeout: u32,
) -> Result<Outcome, Fault>
    requires made { MadeFor tables.old system.now }
    ensures answer { Answers (λ o. o) (psa_wait system.now (spm_of tables.old) actor.0 mask timeout)
        tables.old result tables.new }
    ensures shape { shape_of tables.new ≡ shape_of tables.old }
    ensures names { KeepsNames system.now tables.old tables.new }
    ensures fits { phase_of (spm_of tables.old) actor.0 ≡ ActorPhase.Running
        → ObjectsFit system.now (spm_of tables.old)
        → ObjectsFit system.now (spm_of tables.new) }
    ensures within { KeepsVectors tables.old tables.new }
    ensures takes { tables.new.messages.takes ≡ tables.old.messages.takes }
{
    if assigned_to(system, actor.0) & mask == 0 {
        return Err(Fault);
    }
    if timeout < PSA_BLOCK {
        return Ok(Outcome::Signals(tables.signals(actor) & mask));
    }
    tables.set_phase(actor, ActorPhase::Waiting { mask });
    Ok(Outcome::Blocked)
}
