//! `psa_connect`.
ghost use Rattle.std.specs.Prelude.{◌≡◌, ◌+◌, ◌≤◌};
ghost use Rattle.ffm_model.specs.State.{phase_of};
ghost use Rattle.ffm_model.specs.ClientCalls.{is_service_panicked, psa_connect};
ghost use Rattle.law_counting.specs.Objects.{ObjectsFit};
ghost use Rattle.spm_tables.specs.TablesView.{shape_of, spm_of};
ghost use Rattle.spm_tables.specs.Answers.{Answers};
ghost use Rattle.law_calls.specs.Named.{KeepsNames};
ghost use Rattle.law_calls.specs.Premises.{LeavesTakes, Premises, KeepsVectors};

use crate::sending::send;
use ffm_model::{
    ActorId, ActorPhase, Fault, Outcome, PSA_ERROR_CONNECTION_BUSY, PSA_ERROR_CONNECTION_REFUSED,
    PSA_IPC_CONNECT, Sid, System,
};
use machine_rules::{NO_VECTORS, is_stateless, takes_version};
use spm_tables::Tables;

pub(crate) fn is_service_panicked(system: &System, tables: &Tables, place: u32) -> bool
    ensures { result ≡ is_service_panicked system.now (spm_of tables.now) place }
{
    match system.services.as_slice().get(place as usize) {
        Some(service) => matches!(tables.phase(ActorId(service.owner)), ActorPhase::Panicked),
        None => false,
    }
}

/// `psa_connect` (`psa/client.h`): opens a connection to the service with the SID, and the actor is Blocked until the
/// service answers. Where the service's partition panicked it answers `PSA_ERROR_CONNECTION_REFUSED` at once, and else
/// `PSA_ERROR_CONNECTION_BUSY` where the actor has all the connections to the service that the system declares.
///
/// A fault where no service has the SID, it is stateless, the actor may not use it or it doesn't take the version; nothing
/// changes then.
///
/// The system is the one that the tables were made for, connections and messages fit it as in every state of a run, the
/// actor runs, and connections and messages can each be made 256 times more.
pub fn connect(
    system: &System,
    tables: &mut Tables,
    actor: ActorId,
    sid: Sid,
    version: u32,
) -> Result<Outcome, Fault>
    requires premises { Premises system.now tables.old }
    requires takes { LeavesTakes tables.old }
    requires running { phase_of (spm_of tables.old) actor.0 ≡ ActorPhase.Running }
    ensures answer { Answers (λ o. o)
        (psa_connect system.now (spm_of tables.old) actor.0 sid version)
        tables.old result tables.new }
    ensures shape { shape_of tables.new ≡ shape_of tables.old }
    ensures names { KeepsNames system.now tables.old tables.new }
    ensures fits { ObjectsFit system.now (spm_of tables.new) }
    ensures takes { tables.new.messages.takes ≤ tables.old.messages.takes + 1 }
    ensures within { KeepsVectors tables.old tables.new }
{
    let Some(place) = system.service_at(sid) else {
        return Err(Fault);
    };
    let Some(budget) = system.budget(actor, place) else {
        return Err(Fault);
    };
    if is_stateless(system, place) || !takes_version(system, place, version) {
        return Err(Fault);
    }
    if is_service_panicked(system, tables, place) {
        return Ok(Outcome::Value(PSA_ERROR_CONNECTION_REFUSED));
    }
    if tables.connections().in_use(actor, place) == budget {
        return Ok(Outcome::Value(PSA_ERROR_CONNECTION_BUSY));
    }
    tables.law();
    let slot = tables.start(actor, place);
    send(tables, slot, PSA_IPC_CONNECT, NO_VECTORS);
    Ok(Outcome::Blocked)
}
