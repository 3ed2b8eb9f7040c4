//! `psa_close`.
ghost use Rattle.std.specs.Prelude.{◌≡◌, ◌+◌, ◌≤◌};
ghost use Rattle.ffm_model.specs.declared.system.System.{System as SystemSeen};
ghost use Rattle.ffm_model.specs.State.{phase_of};
ghost use Rattle.ffm_model.specs.ClientCalls.{psa_close};
ghost use Rattle.spm_tables.specs.TablesView.{MadeFor, shape_of, spm_of};
ghost use Rattle.spm_tables.specs.Answers.{Answers};
ghost use Rattle.law_calls.specs.Named.{KeepsNames};
ghost use Rattle.law_calls.specs.Premises.{AreLeft, Premises, KeepsVectors, KeepsFit};

use crate::sending::send;
use ffm_model::{
    ActorId, ActorPhase, ConnPhase, Fault, Handle, Outcome, PSA_IPC_DISCONNECT, PSA_NULL_HANDLE,
};
use machine_rules::NO_VECTORS;
use spm_tables::Tables;

/// `psa_close` (`psa/client.h`): closes the connection, and the actor is Blocked until the service answers. A Dead
/// connection is gone at once. `PSA_NULL_HANDLE` closes nothing.
///
/// A fault where the handle isn't `PSA_NULL_HANDLE` and the actor has no connection with it, as with each stateless handle, or
/// the connection is Busy; nothing changes then.
///
/// Connections and messages fit the tables' system as in every state of a run, the actor runs, and messages can be made 256
/// times more.
pub fn close(tables: &mut Tables, actor: ActorId, handle: Handle) -> Result<Outcome, Fault>
    requires running { phase_of (spm_of tables.old) actor.0 ≡ ActorPhase.Running }
    requires premises { (s : SystemSeen) × Premises s tables.old }
    requires takes { AreLeft tables.old.messages.takes }
    ensures answer { Answers (λ o. o) (psa_close (spm_of tables.old) actor.0 handle)
        tables.old result tables.new }
    ensures shape { shape_of tables.new ≡ shape_of tables.old }
    ensures names { (s : SystemSeen) → MadeFor tables.old s → KeepsNames s tables.old tables.new }
    ensures fits { KeepsFit tables.old tables.new }
    ensures takes { tables.new.messages.takes ≤ tables.old.messages.takes + 1 }
    ensures within { KeepsVectors tables.old tables.new }
{
    if handle.0 == PSA_NULL_HANDLE {
        return Ok(Outcome::Done);
    }
    let Some(slot) = tables.connections().find(actor, handle) else {
        return Err(Fault);
    };
    match tables.connections().connection(slot).phase {
        ConnPhase::Busy => Err(Fault),
        ConnPhase::Dead => {
            tables.free(slot);
            Ok(Outcome::Done)
        }
        _ => {
            tables.law();
            tables.set_connection_phase(slot, ConnPhase::Closing);
            send(tables, slot, PSA_IPC_DISCONNECT, NO_VECTORS);
            Ok(Outcome::Blocked)
        }
    }
}
