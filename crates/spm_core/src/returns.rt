//! The returns of calls that waited.
ghost use Rattle.std.specs.Prelude.{◌≡◌, true, count_by, IsSomeAnd};
ghost use Rattle.ffm_model.specs.declared.machine.Call.TheVariants as call;
ghost use Rattle.ffm_model.specs.Memory.{ByteMap};
ghost use Rattle.ffm_model.specs.State.{phase_of};
ghost use Rattle.ffm_model.specs.Signals.{may_resume};
ghost use Rattle.law_counting.specs.Objects.{accepted_as};
ghost use Rattle.handle_table.specs.declared.handles.Family.TheVariants as family;
ghost use Rattle.handle_table.specs.Handles.{IsNameable};
ghost use Rattle.object_pools.specs.Pool.{IsKept, item_at};
ghost use Rattle.law_calls.specs.Named.{KeepsNames};
ghost use Rattle.law_calls.specs.Premises.{Premises};
ghost use Rattle.spm_tables.specs.TablesView.{spm_of, shape_of};
ghost use Rattle.spm_core.specs.Performed.{IsReturned, ShowsName};

use ffm_model::{ActorId, ActorPhase, Outcome, System};
use object_pools::Slot;
use spm_tables::Tables;

// The slot of the accepted connection that a client is still to be told of.
pub(crate) fn accepted(tables: &Tables, actor: ActorId, serial: u32) -> Slot
    requires { count_by (accepted_as actor.0 serial) (spm_of tables.now).connections ≡ 1 }
    ensures live { IsSomeAnd (item_at tables.now.connections result) (λ c. c.serial ≡ serial) }
    ensures nameable { IsNameable family.Connection result }
    ensures kept { IsKept 256 tables.now.connections }
{
    tables.law();
    match tables.connections().first_of(actor, serial) {
        Some(slot) => slot,
        None => unreachable!(),
    }
}

/// The outcome of an actor's call that waited, where that is there; the actor runs on.
pub(crate) fn resume(system: &System, tables: &mut Tables, actor: ActorId) -> Outcome
    requires premises { Premises system.now tables.old }
    requires due { may_resume (phase_of (spm_of tables.old) actor.0) ≡ true }
    ensures returned { IsReturned system.now actor.0 tables.old result tables.new }
    ensures shown { (m : ByteMap) → ShowsName system.now actor.0 call.Resume tables.old m result }
    ensures shape { shape_of tables.new ≡ shape_of tables.old }
    ensures names { KeepsNames system.now tables.old tables.new }
{
    let phase = tables.phase(actor);
    tables.set_phase(actor, ActorPhase::Running);
    match phase {
        ActorPhase::Ready(outcome) => outcome,
        ActorPhase::Waiting { mask } => Outcome::Signals(tables.signals(actor) & mask),
        ActorPhase::Connected(serial) => {
            let slot = accepted(tables, actor, serial);
            Outcome::Value(tables.tell(slot).0)
        }
        _ => unreachable!(),
    }
}
