//! The services of a partition that panicked.

ghost use Rattle.std.specs.Prelude.{◌≡◌, is_some, Some};
ghost use Rattle.ffm_model.specs.Panic.{client_answered, lost};
ghost use Rattle.object_pools.specs.Pool.{item_at};
ghost use Rattle.panic_state.specs.Losses.{caller_answered, with_dropped, with_lost, without_services, without_messages};

use crate::places::{connection_at, message_at};
use ffm_model::{
    ActorId, ActorPhase, ConnPhase, OpenConnection, Outcome, PSA_ERROR_COMMUNICATION_FAILURE,
    PSA_ERROR_CONNECTION_REFUSED, System,
};
use machine_rules::is_service_of;
use object_pools::Held;
use spm_tables::{QueuedMessage, Tables};

// Answers the client of a lost connection, where it waits.
fn answer_client(tables: &mut Tables, connection: &OpenConnection)
    ensures { tables.new ≡ record tables.old {
      phases = client_answered
          connection.now.phase tables.old.phases connection.now.client.0;
    } }
{
    let client = connection.client;
    match connection.phase {
        ConnPhase::Opening => {
            let refused = Outcome::Value(PSA_ERROR_CONNECTION_REFUSED);
            tables.set_phase(client, ActorPhase::Ready(refused));
        }
        ConnPhase::Busy => {
            let failed = Outcome::Value(PSA_ERROR_COMMUNICATION_FAILURE);
            tables.set_phase(client, ActorPhase::Ready(failed));
        }
        ConnPhase::Closing => {
            if matches!(tables.phase(client), ActorPhase::Blocked) {
                tables.set_phase(client, ActorPhase::Ready(Outcome::Done));
            }
        }
        ConnPhase::Idle | ConnPhase::Error | ConnPhase::Dead => {}
    }
}

// The service of a connection is gone: its client is answered, and it is freed where it was opening or closing, and else Dead.
// Whether it is still there.
fn lose(tables: &mut Tables, held: Held<OpenConnection>) -> bool
    requires { item_at tables.old.connections held.slot ≡ Some held.item }
    ensures after { tables.new ≡ with_lost tables.old held }
    ensures kept { result ≡ is_some (lost held.item.phase) }
{
    answer_client(tables, &held.item);
    match held.item.phase {
        ConnPhase::Opening | ConnPhase::Closing => {
            tables.free(held.slot);
            false
        }
        ConnPhase::Idle | ConnPhase::Busy | ConnPhase::Error | ConnPhase::Dead => {
            tables.set_connection_phase(held.slot, ConnPhase::Dead);
            true
        }
    }
}

// The connections to the partition's services are lost, in the order of their making.
pub(crate) fn lose_services(system: &System, tables: &mut Tables, partition: ActorId)
    ensures { tables.new ≡ without_services system.now partition.0 tables.old }
{
    let mut place = 0;
    while place < tables.connections().live() {
        let held = connection_at(tables, place);
        if !is_service_of(system, partition.0, held.item.service) || lose(tables, held) {
            place += 1;
        }
    }
}

// Answers the client of a lost message that is of no connection; that of any other is answered as its connection is lost.
fn answer_caller(tables: &mut Tables, message: &QueuedMessage)
    ensures { tables.new
        ≡ record tables.old { phases = caller_answered message.now tables.old.phases } }
{
    if message.serial.is_none() {
        let failed = Outcome::Value(PSA_ERROR_COMMUNICATION_FAILURE);
        tables.set_phase(message.client, ActorPhase::Ready(failed));
    }
}

// The service of a message is gone, and so is the message.
fn drop_message(tables: &mut Tables, held: Held<QueuedMessage>)
    requires { item_at tables.old.messages held.slot ≡ Some held.item }
    ensures { tables.new ≡ with_dropped tables.old held }
{
    answer_caller(tables, &held.item);
    tables.drop_message(held.slot);
}

// The messages to the partition's services are gone, and the clients of those that are of no connection are answered, in the order of their making.
pub(crate) fn drop_messages(system: &System, tables: &mut Tables, partition: ActorId)
    ensures { tables.new ≡ without_messages system.now partition.0 tables.old }
{
    let mut place = 0;
    while place < tables.messages().live() {
        let held = message_at(tables, place);
        if is_service_of(system, partition.0, held.item.service) {
            drop_message(tables, held);
        } else {
            place += 1;
        }
    }
}
