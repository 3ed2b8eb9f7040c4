//! Calls that are told by their numbers.

ghost use Rattle.std.specs.Prelude.{◌↔◌, IsTrue, Contains};

use ffm_model::List;

/// Whether the list names the call with this number.
pub fn is_listed(calls: &List<u32>, number: u64) -> bool
    ensures { IsTrue result ↔ Contains calls.now number }
{
    calls
        .as_slice()
        .iter()
        .any(|call| u64::from(*call) == number)
}
