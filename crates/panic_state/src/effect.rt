//! The panic of a partition.

ghost use Rattle.std.specs.Prelude.{◌≡◌, ◌<◌, ◌≤◌, ◌+◌, length};
ghost use Rattle.ffm_model.specs.declared.objects.ActorPhase.TheVariants as phase;
ghost use Rattle.ffm_model.specs.State.{with_phase};
ghost use Rattle.ffm_model.specs.Panic.{panic_effect};
ghost use Rattle.law_counting.specs.Objects.{ObjectsFit};
ghost use Rattle.spm_tables.specs.TablesView.{spm_of, shape_of, MadeFor};
ghost use Rattle.law_calls.specs.Named.{KeepsNames};
ghost use Rattle.law_calls.specs.Premises.{AreLeft, KeepsVectors};
ghost use Rattle.panic_state.specs.Losses.{as_client};

use crate::client::leave_services;
use crate::services::{drop_messages, lose_services};
use ffm_model::{ActorId, ActorPhase, System};
use spm_tables::Tables;

// The partition is Panicked, and its services are gone.
fn end_services(system: &System, tables: &mut Tables, partition: ActorId)
    ensures { tables.new ≡ as_client system.now partition.0 tables.old }
{
    tables.set_phase(partition, ActorPhase::Panicked);
    lose_services(system, tables, partition);
    drop_messages(system, tables, partition);
}

/// A partition panics, and stays so.
///
/// Of the connections to its services, those that are Opening or Closing are freed and all others are Dead, and
/// their clients are answered where they wait. All messages to its services are gone, and the clients of those that are of no
/// connection are answered. Then each connection of its own, in the order of their making, is freed where it is Dead, and else is
/// Closing, with a disconnection for which nobody waits.
///
/// The partition awaits no answer itself: its connections have to fit it as one that runs. The disconnections take at most
/// 256 messages in.
///
/// The body passes through the state in the middle, the services gone and the partition still there as a client, of which
/// `panics_fit_midway` of law_manager speaks. No clause says so.
pub fn panic(system: &System, tables: &mut Tables, partition: ActorId)
    requires made { MadeFor tables.old system.now }
    requires partition { partition.0 < length system.now.partitions }
    requires fits { ObjectsFit system.now
        (with_phase (spm_of tables.old) partition.0 phase.Running) }
    requires takes { AreLeft tables.old.messages.takes }
    ensures state { spm_of tables.new ≡ panic_effect system.now (spm_of tables.old) partition.0 }
    ensures names { KeepsNames system.now tables.old tables.new }
    ensures fits { ObjectsFit system.now (spm_of tables.new) }
    ensures within { KeepsVectors tables.old tables.new }
    ensures shape { shape_of tables.new ≡ shape_of tables.old }
    ensures message_takes { tables.new.messages.takes ≤ tables.old.messages.takes + 256 }
    ensures connection_takes { tables.new.connections.takes ≡ tables.old.connections.takes }
{
    end_services(system, tables, partition);
    leave_services(tables, partition);
}
