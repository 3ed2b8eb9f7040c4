//! Who has which calls, and what a non-secure client is answered at a PROGRAMMER ERROR.
ghost use Rattle.std.specs.Prelude.{◌≡◌};
ghost use Rattle.ffm_model.specs.Calls.{client_has, has_call, refusal_of};

use crate::constants::{PSA_ERROR_CONNECTION_REFUSED, PSA_ERROR_PROGRAMMER_ERROR};
use crate::machine::{Call, Outcome};
use crate::system::ActorKind;

/// Whether actors of that kind have the call: partitions have all but `raise` and `fire`, clients the calls of
/// `psa/client.h`, loads, stores and `stop`, the device `raise`, `fire` and `stop`.
pub fn has_call(kind: ActorKind, call: Call) -> bool
    ensures { result ≡ has_call kind call }
{
    match kind {
        ActorKind::Partition => !matches!(call, Call::Raise { .. } | Call::Fire { .. }),
        ActorKind::Client => is_for_clients(call),
        ActorKind::Device => matches!(
            call,
            Call::Raise { .. } | Call::Fire { .. } | Call::Stop { .. } | Call::Resume
        ),
    }
}

fn is_for_clients(call: Call) -> bool
    ensures { result ≡ client_has call }
{
    matches!(
        call,
        Call::FrameworkVersion
            | Call::Version { .. }
            | Call::Connect { .. }
            | Call::Invoke { .. }
            | Call::Close { .. }
            | Call::Load { .. }
            | Call::Store { .. }
            | Call::Stop { .. }
            | Call::Resume
    )
}

/// What a non-secure client is answered at a PROGRAMMER ERROR (FF-M 1.0, PROGRAMMER ERROR).
pub fn refusal_of(call: Call) -> Outcome
    ensures { result ≡ refusal_of call }
{
    match call {
        Call::Connect { .. } => Outcome::Value(PSA_ERROR_CONNECTION_REFUSED),
        Call::Close { .. } => Outcome::Done,
        _ => Outcome::Value(PSA_ERROR_PROGRAMMER_ERROR),
    }
}
