//! What a partition may answer to a message, and what that means for the client.
ghost use Rattle.std.specs.Prelude.{◌≡◌};
ghost use Rattle.ffm_model.specs.ServiceCalls.{is_connect_status, owes_panic};

use crate::actors::is_partition;
use ffm_model::{
    PSA_ERROR_CONNECTION_BUSY, PSA_ERROR_CONNECTION_REFUSED, PSA_ERROR_PROGRAMMER_ERROR,
    PSA_IPC_CALL, PSA_SUCCESS, PendingMessage, System,
};

/// Whether the status is one that a service may answer to `psa_connect`: `PSA_SUCCESS`, `PSA_ERROR_CONNECTION_REFUSED` or
/// `PSA_ERROR_CONNECTION_BUSY` (`psa/service.h`, psa_reply).
pub fn is_connect_status(status: i32) -> bool
    ensures { result ≡ is_connect_status status }
{
    status == PSA_SUCCESS
        || status == PSA_ERROR_CONNECTION_REFUSED
        || status == PSA_ERROR_CONNECTION_BUSY
}

/// Whether the client of a message panics in the same event as this status is answered: a partition whose request was
/// answered with `PSA_ERROR_PROGRAMMER_ERROR` does.
pub fn owes_panic(system: &System, message: PendingMessage, status: i32) -> bool
    ensures { result ≡ owes_panic system.now message status }
{
    message.kind >= PSA_IPC_CALL
        && status == PSA_ERROR_PROGRAMMER_ERROR
        && is_partition(system, message.client.0)
}
