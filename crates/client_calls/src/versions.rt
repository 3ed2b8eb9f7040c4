//! The version of the framework.
ghost use Rattle.std.specs.Prelude.{◌≡◌};

use ffm_model::PSA_FRAMEWORK_VERSION;

/// `psa_framework_version` (`psa/client.h`): the version of the framework.
pub fn framework_version() -> u32
    ensures { result ≡ PSA_FRAMEWORK_VERSION }
{
    PSA_FRAMEWORK_VERSION
}
