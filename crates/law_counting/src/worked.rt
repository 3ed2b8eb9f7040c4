//! A worked state, and states that no run has.
ghost use Rattle.std.specs.Prelude.{◌≡◌, true, false, [], ◌∷◌, Some, map, count_by, length, pos};
ghost use Rattle.std.specs.Option.{option_map};
ghost use Rattle.ffm_model.specs.declared.objects.ConnPhase.TheVariants.{Idle, Opening};
ghost use Rattle.ffm_model.specs.Names.{capacity, named_after};
ghost use Rattle.ffm_model.specs.Records.{ends_blocked};
ghost use Rattle.ffm_model.specs.State.{in_use};
ghost use Rattle.law_counting.specs.Objects.{ObjectsFit, allowed, awaited_of, objects_with, wrongly_shown};
ghost use Rattle.law_counting.specs.Pending.{answers_to};
ghost use Rattle.law_counting.specs.Takes.{owned};
ghost use Rattle.law_counting.specs.Worked.{behind, beyond_the_budget, client, message_left_over, one_number_twice, second_connection, vault, vault_system, waits_for_nothing, zeros};

/// A client with a budget of two has one connection and asks for the other. What the laws count is
/// computed here.
pub fn second_connection_asked()
    ensures connections { behind (λ b. map (λ c. c.phase) b.connections)
        ≡ Some (Idle ∷ Opening ∷ []) }
    ensures as_many_as_declared { behind (λ b. length b.connections)
        ≡ Some (capacity vault_system) }
    ensures budget_in_use { behind (λ b. in_use b client 0) ≡ Some (allowed vault_system client 0) }
    ensures numbers_rise { behind (λ b. map (λ c. c.serial) b.connections) ≡ Some (0 ∷ 1 ∷ []) }
    ensures message_of_the_second { behind (λ b. map (λ m. m.connection) b.messages)
        ≡ Some (Some 1 ∷ []) }
    ensures one_answer_awaited { behind (λ b. count_by (awaited_of client) b.connections) ≡ Some 1 }
    ensures shown_rightly { behind (λ b. count_by (wrongly_shown b.phases) b.connections) ≡ Some 0 }
    ensures handle_of_the_first { behind (λ b. objects_with b (record { 0 = pos 1024 })) ≡ Some 1 }
    ensures messages_made { option_map (λ w. length w.names.past_messages)
        (named_after vault_system zeros second_connection) ≡ Some 2 }
    ensures connections_owned { behind (λ b. owned b) ≡ Some 2 }
    ensures client_waits { ends_blocked (answers_to client second_connection) ≡ true }
    ensures vault_does_not { ends_blocked (answers_to vault second_connection) ≡ false }
{}

/// The laws refuse a client that waits for nothing, a message whose connection has its answer, two
/// connections with one serial number, and a connection that no budget allows.
pub fn misfits()
    ensures waits_for_nothing { ObjectsFit vault_system waits_for_nothing → ⊥ }
    ensures message_left_over { ObjectsFit vault_system message_left_over → ⊥ }
    ensures one_number_twice { ObjectsFit vault_system one_number_twice → ⊥ }
    ensures beyond_the_budget { ObjectsFit vault_system beyond_the_budget → ⊥ }
{}
