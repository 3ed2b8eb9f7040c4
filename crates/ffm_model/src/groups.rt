//! Which calls belong together.
ghost use Rattle.std.specs.Prelude.{◌≡◌};
ghost use Rattle.ffm_model.specs.Groups.{group_of};

use crate::machine::Call;

/// Calls that belong together.
#[derive(Clone, Copy, Debug, PartialEq, Eq)]
pub enum Group {
    /// Those of `psa/client.h`.
    Client,
    /// Those of `psa/service.h` that wait for messages, take and answer them.
    Service,
    /// Those of `psa/service.h` that move bytes of a request.
    Transfer,
    /// Doorbells and interrupts.
    Signal,
    /// Loads and stores.
    Memory,
    /// An actor's own end, and the return of a call that waited.
    Actor,
}

/// The group of a call.
pub fn group_of(call: Call) -> Group
    ensures { result ≡ group_of call }
{
    match call {
        Call::FrameworkVersion
        | Call::Version { .. }
        | Call::Connect { .. }
        | Call::Invoke { .. }
        | Call::Close { .. } => Group::Client,
        Call::Wait { .. } | Call::Get { .. } | Call::SetRhandle { .. } | Call::Reply { .. } => {
            Group::Service
        }
        Call::Read { .. } | Call::Skip { .. } | Call::Write { .. } => Group::Transfer,
        Call::Notify { .. }
        | Call::Clear
        | Call::Eoi { .. }
        | Call::IrqEnable { .. }
        | Call::IrqDisable { .. }
        | Call::ResetSignal { .. }
        | Call::Raise { .. }
        | Call::Fire { .. } => Group::Signal,
        Call::Load { .. } | Call::Store { .. } => Group::Memory,
        Call::Panic | Call::Stop { .. } | Call::Resume => Group::Actor,
    }
}
