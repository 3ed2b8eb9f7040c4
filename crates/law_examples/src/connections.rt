//! Connections: budgets, handles and versions.
ghost use Rattle.std.specs.Prelude.{◌≡◌, ◌∷◌, true, Some, [], take};
ghost use Rattle.ffm_model.specs.declared.constants.TheConstants.{PSA_ERROR_COMMUNICATION_FAILURE, PSA_ERROR_CONNECTION_BUSY, PSA_ERROR_CONNECTION_REFUSED, PSA_ERROR_PROGRAMMER_ERROR, PSA_IPC_CALL};
ghost use Rattle.ffm_model.specs.declared.machine.Call.TheVariants.{Version, Connect, Invoke, Close, Resume};
ghost use Rattle.ffm_model.specs.declared.machine.Outcome.TheVariants.{Value, Number, Blocked};
ghost use Rattle.ffm_model.specs.declared.machine.Verdict.TheVariants.{Quiet, Stalled};
ghost use Rattle.ffm_model.specs.Verdicts.{verdict_of};
ghost use Rattle.ffm_model.specs.Names.{names};
ghost use Rattle.law_examples.specs.Writing.{clients_left, entry, handle, refuses_next, sid, takes_next, zeros};
ghost use Rattle.law_examples.specs.Systems.{client, other_client, vault_system, two_connections_system, two_clients_system, policies_system, dependent, dependent_system};
ghost use Rattle.law_examples.specs.Connections.{two_connections, closed_handle, closed_handle_of_a_partition, handle_of_another_client, turned_away, versions_told, versions_asked};

/// A client is answered PSA_ERROR_CONNECTION_BUSY at once exactly where its connections to the service
/// are as many as its budget.
pub fn budget_of_two_connections()
    ensures run { verdict_of two_connections_system zeros 4096 two_connections ≡ Some Quiet }
    ensures named { names two_connections_system zeros two_connections ≡ true }
    ensures not_busy_below_the_budget { refuses_next two_connections_system zeros
        (take 7 two_connections)
        (entry client (Connect (sid 0x40) 1) (Value PSA_ERROR_CONNECTION_BUSY)) ≡ true }
    ensures busy_at_the_budget { refuses_next two_connections_system zeros (take 13 two_connections)
        (entry client (Connect (sid 0x40) 1) Blocked) ≡ true }
    ensures not_busy_after_the_close { refuses_next two_connections_system zeros
        (take 20 two_connections)
        (entry client (Connect (sid 0x40) 1) (Value PSA_ERROR_CONNECTION_BUSY)) ≡ true }
    ensures two_left { clients_left two_connections_system zeros two_connections
        ≡ Some (client ∷ client ∷ []) }
{}

/// A client that calls on a closed handle is answered PSA_ERROR_PROGRAMMER_ERROR, and its other
/// connection stays.
pub fn closed_handle_used_again()
    ensures run { verdict_of two_connections_system zeros 4096 closed_handle ≡ Some Quiet }
    ensures named { names two_connections_system zeros closed_handle ≡ true }
    ensures not_accepted { refuses_next two_connections_system zeros (take 20 closed_handle)
        (entry client (Invoke (handle 1024) PSA_IPC_CALL 0 0 0 0) Blocked) ≡ true }
    ensures not_another_answer { refuses_next two_connections_system zeros
        (take 20 closed_handle) (entry client (Invoke (handle 1024) PSA_IPC_CALL 0 0 0 0)
        (Value PSA_ERROR_COMMUNICATION_FAILURE)) ≡ true }
    ensures open_one_stays { clients_left two_connections_system zeros (take 21 closed_handle)
        ≡ Some (client ∷ []) }
{}

/// A partition that calls on a closed handle panics.
pub fn closed_handle_of_a_partition()
    ensures run { verdict_of dependent_system zeros 4096 closed_handle_of_a_partition ≡ Some Quiet }
    ensures named { names dependent_system zeros closed_handle_of_a_partition ≡ true }
    ensures not_accepted { refuses_next dependent_system zeros
        (take 13 closed_handle_of_a_partition)
        (entry dependent (Invoke (handle 1024) PSA_IPC_CALL 0 0 0 0) Blocked) ≡ true }
    ensures not_answered { refuses_next dependent_system zeros
        (take 13 closed_handle_of_a_partition) (entry dependent
        (Invoke (handle 1024) PSA_IPC_CALL 0 0 0 0) (Value PSA_ERROR_PROGRAMMER_ERROR)) ≡ true }
{}

/// A handle serves the client that was told it, and nobody else.
pub fn handle_of_another_client()
    ensures run { verdict_of two_clients_system zeros 4096 handle_of_another_client ≡ Some Quiet }
    ensures named { names two_clients_system zeros handle_of_another_client ≡ true }
    ensures no_call_on_it { refuses_next two_clients_system zeros (take 6 handle_of_another_client)
        (entry other_client (Invoke (handle 1024) PSA_IPC_CALL 0 0 0 0) Blocked) ≡ true }
    ensures no_close_of_it { refuses_next two_clients_system zeros (take 7 handle_of_another_client)
        (entry other_client (Close (handle 1024)) Blocked) ≡ true }
    ensures its_own_may_call { takes_next two_clients_system zeros (take 6 handle_of_another_client)
        (entry client (Invoke (handle 1024) PSA_IPC_CALL 0 0 0 0) Blocked) ≡ true }
{}

/// A connection that the service doesn't take is gone, and counts no longer against the budget.
pub fn turned_away_by_the_service()
    ensures run { verdict_of vault_system zeros 4096 turned_away ≡ Some Quiet }
    ensures named { names vault_system zeros turned_away ≡ true }
    ensures answer_of_the_service { refuses_next vault_system zeros (take 5 turned_away)
        (entry client Resume (Value PSA_ERROR_CONNECTION_REFUSED)) ≡ true }
    ensures gone { clients_left vault_system zeros (take 6 turned_away) ≡ Some [] }
    ensures budget_free_again { refuses_next vault_system zeros (take 7 turned_away)
        (entry client (Connect (sid 0x40) 1) (Value PSA_ERROR_CONNECTION_BUSY)) ≡ true }
{}

/// `psa_version` tells a client nothing of a service that isn't there or that it may not use.
pub fn versions_of_services()
    ensures run { verdict_of vault_system zeros 4096 versions_told ≡ Some Quiet }
    ensures named { names vault_system zeros versions_told ≡ true }
    ensures own_is_told { refuses_next vault_system zeros (take 1 versions_told)
        (entry client (Version (sid 0x40)) (Number 0)) ≡ true }
    ensures admin_is_not_told { refuses_next vault_system zeros (take 3 versions_told)
        (entry client (Version (sid 0x41)) (Number 2)) ≡ true }
{}

/// A STRICT service takes its own version alone, a RELAXED one each version up to its own. The client
/// that nobody answers leaves the run stalled.
pub fn version_policies()
    ensures run { verdict_of policies_system zeros 4096 versions_asked ≡ Some Stalled }
    ensures named { names policies_system zeros versions_asked ≡ true }
    ensures strict_is_equal { refuses_next policies_system zeros (take 1 versions_asked)
        (entry client (Connect (sid 0x50) 1) Blocked) ≡ true }
    ensures relaxed_is_not_at_least { refuses_next policies_system zeros (take 2 versions_asked)
        (entry client (Connect (sid 0x51) 3) Blocked) ≡ true }
    ensures relaxed_is_at_most { refuses_next policies_system zeros (take 3 versions_asked)
        (entry client (Connect (sid 0x51) 1) (Value PSA_ERROR_CONNECTION_REFUSED)) ≡ true }
{}
