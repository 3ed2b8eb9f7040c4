//! The panic of a partition.
ghost use Rattle.std.specs.Prelude.{◌≡◌, ◌++◌, [], ℕ, IfOk, IfSome, All, filter, not, slice_set};
ghost use Rattle.ffm_model.specs.declared.constants.TheConstants.{PSA_ERROR_COMMUNICATION_FAILURE};
ghost use Rattle.ffm_model.specs.declared.machine.Outcome.TheVariants as outcome;
ghost use Rattle.ffm_model.specs.declared.objects.ActorPhase.TheVariants as phase;
ghost use Rattle.std.specs.Prelude as prelude;
ghost use Rattle.std.specs.List.{cons_option, filter_map};
ghost use Rattle.ffm_model.specs.Actors.{is_service_of};
ghost use Rattle.ffm_model.specs.Memory.{no_vectors};
ghost use Rattle.ffm_model.specs.Panic.{callers_answered, client_answered, clients_answered, without_service, without_client, disconnection, panic_effect};
ghost use Rattle.machine_calls.specs.Leaving.{left_of, disconnection_left, Leaves};
ghost use Rattle.machine_rules.specs.Vectors.{AreWithin};
ghost use Rattle.machine_calls.specs.Machine.{spm_of_objects, MessagesFit};

use crate::machine::Objects;
use ffm_model::{
    ActorId, ActorPhase, ConnPhase, Memory, OpenConnection, Outcome,
    PSA_ERROR_COMMUNICATION_FAILURE, PSA_ERROR_CONNECTION_REFUSED, PSA_IPC_DISCONNECT,
    PendingMessage, System,
};
use machine_rules::{NO_VECTORS, is_service_of};

// Answers the client of a lost connection, where it waits.
fn answer_client(phase: ConnPhase, phases: &mut [ActorPhase], client: u32)
    ensures { phases.new ≡ client_answered phase phases.old client }
{
    let at = client as usize;
    if at >= phases.len() {
        return;
    }
    match phase {
        ConnPhase::Opening => {
            phases[at] = ActorPhase::Ready(Outcome::Value(PSA_ERROR_CONNECTION_REFUSED));
        }
        ConnPhase::Busy => {
            phases[at] = ActorPhase::Ready(Outcome::Value(PSA_ERROR_COMMUNICATION_FAILURE));
        }
        ConnPhase::Closing => {
            if matches!(phases[at], ActorPhase::Blocked) {
                phases[at] = ActorPhase::Ready(Outcome::Done);
            }
        }
        ConnPhase::Idle | ConnPhase::Error | ConnPhase::Dead => {}
    }
}

// Answers the clients of the partition's services, where they wait.
fn answer_clients(
    system: &System,
    partition: u32,
    connections: &[OpenConnection],
    phases: &mut [ActorPhase],
)
    ensures { phases.new ≡ clients_answered system.now partition connections.now phases.old }
{
    for connection in connections {
        if is_service_of(system, partition, connection.service) {
            answer_client(connection.phase, phases, connection.client.0);
        }
    }
}

// Answers the clients of requests by stateless handles to the partition's services.
fn answer_callers(
    system: &System,
    partition: u32,
    messages: &[PendingMessage],
    phases: &mut [ActorPhase],
)
    ensures { phases.new ≡ callers_answered system.now partition messages.now phases.old }
{
    for message in messages {
        if message.connection.is_none() && is_service_of(system, partition, message.service) {
            put_answer(phases, message.client.0);
        }
    }
}

// The client of a lost request is told.
fn put_answer(phases: &mut [ActorPhase], client: u32)
    ensures { phases.new ≡ slice_set phases.old client
        (phase.Ready (outcome.Value PSA_ERROR_COMMUNICATION_FAILURE)) }
{
    let at = client as usize;
    if at < phases.len() {
        phases[at] = ActorPhase::Ready(Outcome::Value(PSA_ERROR_COMMUNICATION_FAILURE));
    }
}

fn without_service(
    system: &System,
    partition: u32,
    connection: OpenConnection,
) -> Option<OpenConnection>
    ensures { result ≡ without_service system.now partition connection }
{
    if !is_service_of(system, partition, connection.service) {
        return Some(connection);
    }
    match connection.phase {
        ConnPhase::Opening | ConnPhase::Closing => None,
        ConnPhase::Idle | ConnPhase::Busy | ConnPhase::Error | ConnPhase::Dead => {
            Some(OpenConnection {
                phase: ConnPhase::Dead,
                ..connection
            })
        }
    }
}

fn without_client(partition: u32, connection: OpenConnection) -> Option<OpenConnection>
    ensures { result ≡ without_client partition connection }
{
    if connection.client.0 != partition {
        return Some(connection);
    }
    if matches!(connection.phase, ConnPhase::Dead) {
        return None;
    }
    Some(OpenConnection {
        phase: ConnPhase::Closing,
        ..connection
    })
}

fn disconnection(partition: u32, connection: OpenConnection) -> Option<PendingMessage>
    ensures exact { result ≡ disconnection partition connection }
    ensures empty { IfSome result (λ m. m.vectors ≡ no_vectors) }
{
    if connection.client.0 != partition || matches!(connection.phase, ConnPhase::Dead) {
        return None;
    }
    Some(PendingMessage {
        service: connection.service,
        client: connection.client,
        connection: Some(connection.serial),
        kind: PSA_IPC_DISCONNECT,
        vectors: NO_VECTORS,
        handle: None,
    })
}

// What is left of a connection.
fn left_of(system: &System, partition: u32, connection: OpenConnection) -> Option<OpenConnection>
    ensures { result ≡ left_of system.now partition connection }
{
    let kept = without_service(system, partition, connection)?;
    without_client(partition, kept)
}

// The message that closes a connection of the partition's own, where one is left to close.
fn disconnection_left(
    system: &System,
    partition: u32,
    connection: OpenConnection,
) -> Option<PendingMessage>
    ensures exact { result ≡ disconnection_left system.now partition connection }
    ensures empty { IfSome result (λ m. m.vectors ≡ no_vectors) }
{
    let kept = without_service(system, partition, connection)?;
    disconnection(partition, kept)
}

// Whether the connection stays, as what is left of it.
fn stays(system: &System, partition: u32, connection: &mut OpenConnection) -> bool
    ensures { Leaves (left_of system.now partition connection.old) result connection.new }
{
    match left_of(system, partition, *connection) {
        Some(kept) => {
            *connection = kept;
            true
        }
        None => false,
    }
}

fn lose_connections(system: &System, partition: u32, connections: &mut Vec<OpenConnection>)
    ensures { connections.new.items
        ≡ filter_map (left_of system.now partition) connections.old.items }
{
    connections.retain_mut(|c| stays(system, partition, c));
}

// The messages to the partition's services are gone.
fn drop_messages(system: &System, partition: u32, messages: &mut Vec<PendingMessage>)
    ensures { messages.new.items
        ≡ filter (λ m. not (is_service_of system.now partition m.service)) messages.old.items }
{
    messages.retain(|m| !is_service_of(system, partition, m.service));
}

// The disconnection of a connection goes last.
fn send_disconnection(
    system: &System,
    partition: u32,
    connection: OpenConnection,
    messages: &mut Vec<PendingMessage>,
) -> Result<(), Memory>
    ensures sent { IfOk result (λ u.
        messages.new.items ≡ messages.old.items
        ++ cons_option (disconnection_left system.now partition connection) []) }
    ensures fits { (regions : prelude.List (ℕ × ℕ))
        → All (λ m. AreWithin regions m.vectors) messages.old.items
        → All (λ m. AreWithin regions m.vectors) messages.new.items }
{
    if let Some(message) = disconnection_left(system, partition, connection) {
        messages.push(message)?;
    }
    Ok(())
}

// The disconnections of the partition's own connections go last.
fn send_disconnections(
    system: &System,
    partition: u32,
    connections: &[OpenConnection],
    messages: &mut Vec<PendingMessage>,
) -> Result<(), Memory>
    ensures sent { IfOk result (λ u.
        messages.new.items ≡ messages.old.items
        ++ filter_map (disconnection_left system.now partition) connections.now) }
    ensures fits { (regions : prelude.List (ℕ × ℕ))
        → All (λ m. AreWithin regions m.vectors) messages.old.items
        → All (λ m. AreWithin regions m.vectors) messages.new.items }
{
    for connection in connections {
        send_disconnection(system, partition, *connection, messages)?;
    }
    Ok(())
}

impl Objects {
    /// A partition panics. Of the connections to its services, those that are Opening or Closing are freed and all others are
    /// Dead, and their clients are answered where they wait. All messages to its services are gone. Then each connection of
    /// its own is freed where it is Dead, and else is Closing, with a disconnection for which nobody waits.
    pub fn panic(&mut self, system: &System, partition: ActorId) -> Result<(), Memory>
        ensures state { IfOk result (λ u.
            spm_of_objects self.new
            ≡ panic_effect system.now (spm_of_objects self.old) partition.0) }
        ensures made { self.new.connections_made ≡ self.old.connections_made }
        ensures fits { (regions : prelude.List (ℕ × ℕ)) → MessagesFit regions self.old
            → MessagesFit regions self.new }
    {
        let at = partition.0;
        self.set_phase(at, ActorPhase::Panicked);
        let connections = self.connections.as_slice();
        answer_clients(system, at, connections, self.phases.as_mut_slice());
        answer_callers(
            system,
            at,
            self.messages.as_slice(),
            self.phases.as_mut_slice(),
        );
        drop_messages(system, at, &mut self.messages);
        send_disconnections(system, at, connections, &mut self.messages)?;
        lose_connections(system, at, &mut self.connections);
        Ok(())
    }
}
