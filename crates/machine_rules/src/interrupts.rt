//! The flags of interrupt sources.
ghost use Rattle.std.specs.Prelude.{◌≡◌};
ghost use Rattle.ffm_model.specs.SignalCalls.{forwarded};

use ffm_model::SourceFlags;

/// The flags of a source after it was raised or enabled: an enabled source that is pending asserts its signal, with
/// second-level handling as soon as that is clear, and with first-level handling (`flih`) in any case. Else they stay.
pub fn forwarded(flih: bool, flags: SourceFlags) -> SourceFlags
    ensures { result ≡ forwarded flih flags }
{
    if flags.enabled && flags.pending && (flih || !flags.asserted) {
        SourceFlags {
            pending: false,
            asserted: true,
            ..flags
        }
    } else {
        flags
    }
}
