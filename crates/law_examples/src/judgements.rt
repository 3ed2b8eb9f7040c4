//! How traces are judged, and how runs end.
ghost use Rattle.std.specs.Prelude.{◌≡◌, Some, None, [], pos, take};
ghost use Rattle.ffm_model.specs.declared.constants.TheConstants.{PSA_SUCCESS};
ghost use Rattle.ffm_model.specs.declared.machine.Call.TheVariants.{Reply, Resume};
ghost use Rattle.ffm_model.specs.declared.machine.Outcome.TheVariants.{Value, Done};
ghost use Rattle.ffm_model.specs.declared.machine.Verdict.TheVariants.{Quiet, Stalled, Full};
ghost use Rattle.ffm_model.specs.Verdicts.{judged, verdict_of};
ghost use Rattle.ffm_model.specs.Verdicts.Judgement.{Legal, IllegalAt};
ghost use Rattle.law_examples.specs.Writing.{entry, handle, status, with_entry, zeros};
ghost use Rattle.law_examples.specs.Systems.{vault, client, vault_system, policies_system};
ghost use Rattle.law_examples.specs.Requests.{request_memory, one_request};
ghost use Rattle.law_examples.specs.Connections.{versions_asked};

/// A trace is judged by its first entry that is no step, that is past the limit, or, where none is, by its
/// verdict. At the return of `psa_connect` each handle that wasn't given before is lawful, so a changed
/// one counts where a later call uses the old one.
pub fn first_wrong_entry()
    ensures whole { judged vault_system request_memory 4096 one_request Quiet ≡ Legal }
    ensures up_to_the_limit { judged vault_system request_memory 8
        (take 8 one_request) Full ≡ Legal }
    ensures message_unknown { judged vault_system request_memory 8 (with_entry 5
        (entry vault (Reply (handle 1537) (status PSA_SUCCESS)) Done)
        (take 8 one_request)) Full ≡ IllegalAt 5 }
    ensures connection_unknown { judged vault_system request_memory 8
        (with_entry 6 (entry client Resume (Value (pos 1025)))
        (take 8 one_request)) Full ≡ IllegalAt 8 }
    ensures past_the_limit { judged vault_system request_memory 8
        (take 9 one_request) Full ≡ IllegalAt 9 }
    ensures wrong_verdict { judged vault_system request_memory
        4096 one_request Stalled ≡ IllegalAt 26 }
    ensures blocked_is_not_quiet { judged policies_system zeros
        4096 versions_asked Quiet ≡ IllegalAt 5 }
{}

/// A run whose actors can go on has no verdict below the limit, and is full at the limit.
pub fn runs_without_end()
    ensures nothing_done { verdict_of vault_system zeros 4096 [] ≡ None }
    ensures halfway { verdict_of vault_system request_memory 4096 (take 8 one_request) ≡ None }
    ensures at_the_limit { verdict_of vault_system request_memory 8
        (take 8 one_request) ≡ Some Full }
    ensures ended_at_the_limit { verdict_of vault_system
        request_memory 25 one_request ≡ Some Quiet }
{}
