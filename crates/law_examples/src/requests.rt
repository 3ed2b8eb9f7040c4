//! Requests: what is read and written, and what a connection keeps.
ghost use Rattle.std.specs.Prelude.{◌≡◌, ◌∷◌, true, false, Some, [], pos, take};
ghost use Rattle.ffm_model.specs.declared.constants.TheConstants.{PSA_ERROR_PROGRAMMER_ERROR, PSA_IPC_CALL, PSA_IPC_DISCONNECT, PSA_SUCCESS};
ghost use Rattle.ffm_model.specs.declared.machine.Call.TheVariants.{Connect, Invoke, Close, Get, Read, Write, Reply, Load, Resume};
ghost use Rattle.ffm_model.specs.declared.machine.Outcome.TheVariants.{Value, Number, Got, Blocked, Done};
ghost use Rattle.ffm_model.specs.declared.machine.Verdict.TheVariants.{Quiet};
ghost use Rattle.ffm_model.specs.Verdicts.{verdict_of};
ghost use Rattle.ffm_model.specs.Names.{names};
ghost use Rattle.ffm_model.specs.Signed.{minus};
ghost use Rattle.law_examples.specs.Writing.{clients_left, entry, may_read_after, may_write_after, handle, message, refuses_next, sid, status, takes_next, with_entry, zeros};
ghost use Rattle.law_examples.specs.Systems.{vault, client, vault_system, two_clients_system};
ghost use Rattle.law_examples.specs.Requests.{request_memory, one_descriptor, one_request, rhandle_set, write_past_the_end, moved_in_pieces, request_failed, descriptor_changed};

/// A client connects, calls with an input vector of five bytes and an output vector of eight, and
/// closes. A service that reads past the input is given no byte more, and the client finds as many
/// bytes as were written. A message is answered by its own handle alone; a connection may get any
/// handle that is fresh, but only one is its name.
pub fn one_request_served()
    ensures run { verdict_of vault_system request_memory 4096 one_request ≡ Some Quiet }
    ensures named { names vault_system request_memory one_request ≡ true }
    ensures answered_by_its_handle { refuses_next vault_system request_memory (take 4 one_request)
        (entry vault (Reply (handle 1537) (status PSA_SUCCESS)) Done) ≡ true }
    ensures no_byte_past_the_input { refuses_next vault_system request_memory (take 11 one_request)
        (entry vault (Read (handle 2560) 0 0x30000100 3) (Number 3)) ≡ true }
    ensures length_written { refuses_next vault_system request_memory (take 23 one_request)
        (entry client (Load 0x2000000c 4) (Number 8)) ≡ true }
    ensures fresh_handle_lawful { takes_next vault_system request_memory (take 5 one_request)
        (entry client Resume (Value (pos 1025))) ≡ true }
    ensures given_handle_refused { refuses_next vault_system request_memory (take 5 one_request)
        (entry client Resume (Value (pos 1536))) ≡ true }
    ensures fresh_handle_no_name { names vault_system request_memory
        (with_entry 6 (entry client Resume (Value (pos 1025))) (take 6 one_request)) ≡ false }
{}

/// An rhandle belongs to its connection, so that the messages after the one at which it was set carry
/// it too.
pub fn rhandle_of_a_connection()
    ensures run { verdict_of vault_system request_memory 4096 rhandle_set ≡ Some Quiet }
    ensures named { names vault_system request_memory rhandle_set ≡ true }
    ensures kept_for_the_request { refuses_next vault_system request_memory (take 10 rhandle_set)
        (entry vault (Get 0x10 0x30000000)
        (Got (message PSA_IPC_CALL 2560 (minus 1) 0 (5 ∷ []) (8 ∷ [])))) ≡ true }
    ensures kept_for_the_disconnection { refuses_next vault_system request_memory
        (take 20 rhandle_set) (entry vault (Get 0x10 0x30000000)
        (Got (message PSA_IPC_DISCONNECT 3584 (minus 1) 0 [] []))) ≡ true }
{}

/// Input is read and skipped from where the last read or skip ended, and output goes after what was
/// written.
pub fn bytes_moved_in_order()
    ensures run { verdict_of vault_system request_memory 4096 moved_in_pieces ≡ Some Quiet }
    ensures named { names vault_system request_memory moved_in_pieces ≡ true }
    ensures read_on { refuses_next vault_system request_memory (take 13 moved_in_pieces)
        (entry vault (Load 0x30000100 2) (Number 25960)) ≡ true }
    ensures rest_is_one_byte { refuses_next vault_system request_memory (take 12 moved_in_pieces)
        (entry vault (Read (handle 2560) 0 0x30000101 4) (Number 4)) ≡ true }
    ensures written_on { refuses_next vault_system request_memory (take 19 moved_in_pieces)
        (entry client (Load 0x20000030 2) (Number 111)) ≡ true }
{}

/// A write of more bytes than the output vector has left panics the partition. Its client is told that
/// the connection is lost, and a new one is refused.
pub fn written_past_the_end()
    ensures run { verdict_of vault_system request_memory 4096 write_past_the_end ≡ Some Quiet }
    ensures named { names vault_system request_memory write_past_the_end ≡ true }
    ensures not_cut_off { refuses_next vault_system request_memory (take 11 write_past_the_end)
        (entry vault (Write (handle 2560) 0 0x30000100 1) Done) ≡ true }
    ensures client_is_told { refuses_next vault_system request_memory (take 12 write_past_the_end)
        (entry client Resume (Value PSA_SUCCESS)) ≡ true }
    ensures no_service_left { refuses_next vault_system request_memory (take 15 write_past_the_end)
        (entry client (Connect (sid 0x40) 1) Blocked) ≡ true }
    ensures nothing_left { clients_left vault_system request_memory write_past_the_end ≡ Some [] }
{}

/// Descriptors of vectors are read once, at `psa_call`: another client that changes one afterwards
/// doesn't move the output.
pub fn descriptor_changed_after_the_call()
    ensures run { verdict_of two_clients_system request_memory
        4096 descriptor_changed ≡ Some Quiet }
    ensures named { names two_clients_system request_memory descriptor_changed ≡ true }
    ensures read_once { refuses_next two_clients_system request_memory (take 17 descriptor_changed)
        (entry client (Load 0x20000030 4) (Number 0)) ≡ true }
    ensures no_byte_elsewhere { refuses_next two_clients_system request_memory
        (take 17 descriptor_changed) (entry client (Load 0x20000040 4) (Number 2560)) ≡ true }
{}

/// A client whose request is answered with PSA_ERROR_PROGRAMMER_ERROR is told so, and so at each further
/// request on that connection, which it may close.
pub fn request_answered_with_programmer_error()
    ensures run { verdict_of vault_system zeros 4096 request_failed ≡ Some Quiet }
    ensures named { names vault_system zeros request_failed ≡ true }
    ensures no_further_request { refuses_next vault_system zeros (take 13 request_failed)
        (entry client (Invoke (handle 1024) PSA_IPC_CALL 0 0 0 0) Blocked) ≡ true }
    ensures may_be_closed { refuses_next vault_system zeros (take 14 request_failed)
        (entry client (Close (handle 1024)) Done) ≡ true }
{}

/// A partition reaches the input vectors, the output vectors and the length words of a request from
/// `psa_get` to its reply. Input is only read, and output only written.
pub fn reach_of_a_partition()
    ensures own_memory { may_write_after vault_system request_memory
        (take 0 one_request) vault 0x300003ff ≡ Some true }
    ensures nothing_above_it { may_write_after vault_system request_memory
        (take 0 one_request) vault 0x30000400 ≡ Some false }
    ensures not_before_the_get { may_read_after vault_system request_memory
        (take 9 one_request) vault 0x20000020 ≡ Some false }
    ensures first_input_byte { may_read_after vault_system request_memory
        (take 10 one_request) vault 0x20000020 ≡ Some true }
    ensures last_input_byte { may_read_after vault_system request_memory
        (take 10 one_request) vault 0x20000024 ≡ Some true }
    ensures behind_the_input { may_read_after vault_system request_memory
        (take 10 one_request) vault 0x20000025 ≡ Some false }
    ensures input_not_written { may_write_after vault_system request_memory
        (take 10 one_request) vault 0x20000020 ≡ Some false }
    ensures last_output_byte { may_write_after vault_system request_memory
        (take 10 one_request) vault 0x20000037 ≡ Some true }
    ensures behind_the_output { may_write_after vault_system request_memory
        (take 10 one_request) vault 0x20000038 ≡ Some false }
    ensures output_not_read { may_read_after vault_system request_memory
        (take 10 one_request) vault 0x20000030 ≡ Some false }
    ensures length_word { may_write_after vault_system request_memory
        (take 10 one_request) vault 0x2000000c ≡ Some true }
    ensures base_word_not_written { may_write_after vault_system request_memory
        (take 10 one_request) vault 0x20000008 ≡ Some false }
    ensures not_after_the_reply { may_write_after vault_system request_memory
        (take 15 one_request) vault 0x20000030 ≡ Some false }
    ensures not_after_its_panic { may_write_after vault_system request_memory
        (take 12 write_past_the_end) vault 0x20000030 ≡ Some false }
{}

/// A request has at most four vectors, each of which lies whole in the RAM of its client, or is empty.
pub fn vectors_of_a_request()
    ensures five_vectors { takes_next vault_system zeros (take 6 one_request)
        (entry client (Invoke (handle 1024) PSA_IPC_CALL 0x20000000
        3 0x20000100 2) (Value PSA_ERROR_PROGRAMMER_ERROR)) ≡ true }
    ensures five_vectors_refused { refuses_next vault_system zeros (take 6 one_request) (entry
        client (Invoke (handle 1024) PSA_IPC_CALL 0x20000000 3 0x20000100 2) Blocked) ≡ true }
    ensures four_inputs { takes_next vault_system zeros (take 6 one_request) (entry client
        (Invoke (handle 1024) PSA_IPC_CALL 0x20000000 4 0x20000100 0) Blocked) ≡ true }
    ensures four_outputs { takes_next vault_system zeros (take 6 one_request) (entry client
        (Invoke (handle 1024) PSA_IPC_CALL 0x20000000 0 0x20000100 4) Blocked) ≡ true }
    ensures empty_vector { takes_next vault_system (one_descriptor 0 0) (take 6 one_request)
        (entry client (Invoke (handle 1024) PSA_IPC_CALL 0x20000000 1 0 0) Blocked) ≡ true }
    ensures last_bytes { takes_next vault_system (one_descriptor 0x2000fff8 8) (take 6 one_request)
        (entry client (Invoke (handle 1024) PSA_IPC_CALL 0x20000000 1 0 0) Blocked) ≡ true }
    ensures past_the_end { refuses_next vault_system (one_descriptor 0x2000fff9 8)
        (take 6 one_request)
        (entry client (Invoke (handle 1024) PSA_IPC_CALL 0x20000000 1 0 0) Blocked) ≡ true }
    ensures past_the_last_address { refuses_next vault_system (one_descriptor 0xfffffff0 32)
        (take 6 one_request)
        (entry client (Invoke (handle 1024) PSA_IPC_CALL 0x20000000 1 0 0) Blocked) ≡ true }
    ensures no_descriptor_room { refuses_next vault_system zeros (take 6 one_request)
        (entry client (Invoke (handle 1024) PSA_IPC_CALL 0x2000fffc 1 0 0) Blocked) ≡ true }
{}
