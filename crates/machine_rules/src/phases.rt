//! What a connection does.
ghost use Rattle.std.specs.Prelude.{◌≡◌};
ghost use Rattle.ffm_model.specs.ClientCalls.{is_busy, refuses_requests};
ghost use Rattle.ffm_model.specs.Panic.{is_dead};

use ffm_model::ConnPhase;

/// Whether `psa_call` may not be made on a connection in this phase: a request is on its way, or one was answered with
/// `PSA_ERROR_PROGRAMMER_ERROR`.
pub fn refuses_requests(phase: ConnPhase) -> bool
    ensures { result ≡ refuses_requests phase }
{
    matches!(phase, ConnPhase::Busy | ConnPhase::Error)
}

/// Whether the partition of a connection's service panicked.
pub fn is_dead(phase: ConnPhase) -> bool
    ensures { result ≡ is_dead phase }
{
    matches!(phase, ConnPhase::Dead)
}

/// Whether a request is on its way on a connection, so that `psa_close` may not be made.
pub fn is_busy(phase: ConnPhase) -> bool
    ensures { result ≡ is_busy phase }
{
    matches!(phase, ConnPhase::Busy)
}
