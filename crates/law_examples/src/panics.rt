//! Partitions that panic.
ghost use Rattle.std.specs.Prelude.{◌≡◌, ◌∷◌, true, false, Some, [], pos, take};
ghost use Rattle.ffm_model.specs.declared.constants.TheConstants.{PSA_ERROR_COMMUNICATION_FAILURE, PSA_ERROR_PROGRAMMER_ERROR, PSA_IPC_CALL, PSA_IPC_DISCONNECT};
ghost use Rattle.ffm_model.specs.declared.machine.Call.TheVariants.{Version, Invoke, Get, Stop, Resume};
ghost use Rattle.ffm_model.specs.declared.machine.Outcome.TheVariants.{Value, Number, Got, Blocked, Done, Panicked};
ghost use Rattle.ffm_model.specs.declared.machine.Verdict.TheVariants.{Quiet};
ghost use Rattle.ffm_model.specs.Verdicts.{verdict_of};
ghost use Rattle.ffm_model.specs.Names.{names};
ghost use Rattle.law_examples.specs.Writing.{clients_left, entry, handle, message, refuses_next, sid, zeros};
ghost use Rattle.law_examples.specs.Systems.{client, other_client, vault_system, two_clients_system, server, dependent, bystander, dependent_and_client_system};
ghost use Rattle.law_examples.specs.Panics.{service_lost, service_lost_at_the_close, programmer_error_answered, disconnections};

/// Each client that waits for a panicked service is answered: a connection that was opening is refused,
/// one that was closing is gone, and one that was open is lost.
pub fn clients_of_a_panicked_service()
    ensures run { verdict_of two_clients_system zeros 4096 service_lost ≡ Some Quiet }
    ensures named { names two_clients_system zeros service_lost ≡ true }
    ensures opening_is_refused { refuses_next two_clients_system zeros (take 8 service_lost)
        (entry other_client Resume (Value PSA_ERROR_COMMUNICATION_FAILURE)) ≡ true }
    ensures open_is_lost { refuses_next two_clients_system zeros (take 9 service_lost)
        (entry client (Invoke (handle 1024) PSA_IPC_CALL 0 0 0 0) Blocked) ≡ true }
    ensures lost_one_stays { clients_left two_clients_system zeros (take 10 service_lost)
        ≡ Some (client ∷ []) }
    ensures none_left { clients_left two_clients_system zeros service_lost ≡ Some [] }
    ensures closing_run { verdict_of vault_system zeros 4096
        service_lost_at_the_close ≡ Some Quiet }
    ensures closing_named { names vault_system zeros service_lost_at_the_close ≡ true }
    ensures closing_is_gone { clients_left vault_system zeros
        (take 8 service_lost_at_the_close) ≡ Some [] }
{}

/// A partition whose request is answered with PSA_ERROR_PROGRAMMER_ERROR panics in that very event. Its
/// three connections are closed, and the connection of another client stays.
pub fn programmer_error_answered_to_a_partition()
    ensures run { verdict_of dependent_and_client_system
        zeros 4096 programmer_error_answered ≡ Some Quiet }
    ensures named { names dependent_and_client_system zeros programmer_error_answered ≡ true }
    ensures no_return { refuses_next dependent_and_client_system zeros
        (take 30 programmer_error_answered)
        (entry dependent Resume (Value PSA_ERROR_PROGRAMMER_ERROR)) ≡ true }
    ensures no_further_call { refuses_next dependent_and_client_system zeros
        (take 30 programmer_error_answered)
        (entry dependent (Version (sid 0x40)) (Number 1)) ≡ true }
    ensures no_further_stop { refuses_next dependent_and_client_system zeros
        (take 30 programmer_error_answered) (entry dependent (Stop false) Done) ≡ true }
    ensures disconnections_count { clients_left dependent_and_client_system zeros
        (take 41 programmer_error_answered)
        ≡ Some (bystander ∷ dependent ∷ []) }
    ensures another_stays { clients_left dependent_and_client_system zeros programmer_error_answered
        ≡ Some (bystander ∷ []) }
{}

/// The connections of a panicked partition are closed in the order of their making.
pub fn disconnections_in_order()
    ensures run { verdict_of dependent_and_client_system zeros 4096 disconnections ≡ Some Quiet }
    ensures named { names dependent_and_client_system zeros disconnections ≡ true }
    ensures oldest_first { refuses_next dependent_and_client_system zeros (take 18 disconnections)
        (entry server (Get 0x10 0x30000000)
        (Got (message PSA_IPC_DISCONNECT 3584 (pos 2) 0xb [] []))) ≡ true }
    ensures none_dropped { refuses_next dependent_and_client_system zeros (take 19 disconnections)
        (entry server (Get 0x10 0x30000000) Panicked) ≡ true }
{}
