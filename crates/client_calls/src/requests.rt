//! `psa_call`.
ghost use Rattle.std.specs.Prelude.{◌≡◌, ◌+◌, ◌≤◌, List};
ghost use Rattle.ffm_model.specs.declared.machine.Handle.{Handle as HandleSeen};
ghost use Rattle.ffm_model.specs.State.{phase_of};
ghost use Rattle.ffm_model.specs.ClientCalls.{connection_called, psa_call, service_called};
ghost use Rattle.law_counting.specs.Objects.{ObjectsFit};
ghost use Rattle.memory_image.specs.Pieces.{byte_at};
ghost use Rattle.spm_tables.specs.TablesView.{shape_of, spm_of};
ghost use Rattle.spm_tables.specs.Answers.{Answers, state_with};
ghost use Rattle.law_calls.specs.Named.{KeepsNames};
ghost use Rattle.law_calls.specs.Premises.{AreLeft, PremisesWithImage, VectorsLie};

use crate::connecting::is_service_panicked;
use crate::sending::{send, send_request};
use ffm_model::{
    ActorId, ActorPhase, ConnPhase, Fault, Handle, Outcome, PSA_ERROR_COMMUNICATION_FAILURE,
    PSA_IPC_CALL, System,
};
use machine_rules::{is_dead, refuses_requests, stateless_index};
use memory_image::Image;
use message_vectors::snapshot;
use spm_tables::Tables;

// A call on a connection.
fn call_connection(
    system: &System,
    tables: &mut Tables,
    image: &Image,
    actor: ActorId,
    handle: Handle,
    kind: i32,
    in_vec: u32,
    in_len: u32,
    out_vec: u32,
    out_len: u32,
) -> Result<Outcome, Fault>
    requires premises { PremisesWithImage system.now tables.old image.now }
    requires takes { AreLeft tables.old.messages.takes }
    requires running { phase_of (spm_of tables.old) actor.0 ≡ ActorPhase.Running }
    ensures answer { (given : List HandleSeen)
        → Answers (λ o. o) (connection_called system.now
        (state_with tables.old given (byte_at image.now)) actor.0 handle kind in_vec
        in_len out_vec out_len) tables.old result tables.new }
    ensures shape { shape_of tables.new ≡ shape_of tables.old }
    ensures names { KeepsNames system.now tables.old tables.new }
    ensures takes { tables.new.messages.takes ≤ tables.old.messages.takes + 1 }
{
    let Some(slot) = tables.connections().find(actor, handle) else {
        return Err(Fault);
    };
    let Some(vectors) = snapshot(system, image, actor, in_vec, in_len, out_vec, out_len) else {
        return Err(Fault);
    };
    let phase = tables.connections().connection(slot).phase;
    if refuses_requests(phase) || kind < PSA_IPC_CALL {
        return Err(Fault);
    }
    if is_dead(phase) {
        return Ok(Outcome::Value(PSA_ERROR_COMMUNICATION_FAILURE));
    }
    tables.law();
    tables.set_connection_phase(slot, ConnPhase::Busy);
    send(tables, slot, kind, vectors);
    Ok(Outcome::Blocked)
}

// A call by a stateless handle that shows this index.
fn call_service(
    system: &System,
    tables: &mut Tables,
    image: &Image,
    actor: ActorId,
    index: u32,
    kind: i32,
    in_vec: u32,
    in_len: u32,
    out_vec: u32,
    out_len: u32,
) -> Result<Outcome, Fault>
    requires premises { PremisesWithImage system.now tables.old image.now }
    requires takes { AreLeft tables.old.messages.takes }
    requires running { phase_of (spm_of tables.old) actor.0 ≡ ActorPhase.Running }
    ensures answer { (given : List HandleSeen)
        → Answers (λ o. o) (service_called system.now
        (state_with tables.old given (byte_at image.now)) actor.0 index kind in_vec
        in_len out_vec out_len) tables.old result tables.new }
    ensures shape { shape_of tables.new ≡ shape_of tables.old }
    ensures names { KeepsNames system.now tables.old tables.new }
    ensures takes { tables.new.messages.takes ≤ tables.old.messages.takes + 1 }
{
    let Some(service) = system.stateless_at(index) else {
        return Err(Fault);
    };
    let Some(vectors) = snapshot(system, image, actor, in_vec, in_len, out_vec, out_len) else {
        return Err(Fault);
    };
    if system.budget(actor, service).is_none() || kind < PSA_IPC_CALL {
        return Err(Fault);
    }
    if is_service_panicked(system, tables, service) {
        return Ok(Outcome::Value(PSA_ERROR_COMMUNICATION_FAILURE));
    }
    send_request(tables, actor, service, kind, vectors);
    Ok(Outcome::Blocked)
}

/// `psa_call` (`psa/client.h`): sends a request of that kind, and the actor is Blocked until the service answers. With a handle
/// from 0x40000001 to 0x40000020 the request is of no connection, and goes to the stateless service whose index that shows; with
/// any other it goes to the service of the actor's connection with that handle. Where the connection is Dead, or the stateless
/// service's partition panicked, it answers `PSA_ERROR_COMMUNICATION_FAILURE` at once. The descriptors of the vectors, `in_len`
/// at `in_vec` and `out_len` at `out_vec`, are read here and never again.
///
/// A fault where the actor has no connection with the handle, or that is Busy or Error; where no stateless service has the index,
/// or the actor may not use it; and with either handle where the kind is negative, there are more than four vectors, or the
/// descriptors or a vector is no valid buffer of the actor. Nothing changes then.
///
/// The system is the one that the tables were made for, connections and messages fit it as in every state of a run, the
/// image has its regions, the actor runs, and messages can be made 256 times more.
pub fn invoke(
    system: &System,
    tables: &mut Tables,
    image: &Image,
    actor: ActorId,
    handle: Handle,
    kind: i32,
    in_vec: u32,
    in_len: u32,
    out_vec: u32,
    out_len: u32,
) -> Result<Outcome, Fault>
    requires premises { PremisesWithImage system.now tables.old image.now }
    requires takes { AreLeft tables.old.messages.takes }
    requires running { phase_of (spm_of tables.old) actor.0 ≡ ActorPhase.Running }
    ensures answer { (given : List HandleSeen)
        → Answers (λ o. o) (psa_call system.now (state_with tables.old given (byte_at image.now))
        actor.0 handle kind in_vec in_len out_vec out_len) tables.old result tables.new }
    ensures shape { shape_of tables.new ≡ shape_of tables.old }
    ensures names { KeepsNames system.now tables.old tables.new }
    ensures takes { tables.new.messages.takes ≤ tables.old.messages.takes + 1 }
    ensures fits { ObjectsFit system.now (spm_of tables.new) }
    ensures vectors { VectorsLie tables.old image.now → VectorsLie tables.new image.now }
{
    match stateless_index(handle) {
        Some(index) => call_service(
            system, tables, image, actor, index, kind, in_vec, in_len, out_vec, out_len,
        ),
        None => call_connection(
            system, tables, image, actor, handle, kind, in_vec, in_len, out_vec, out_len,
        ),
    }
}
