//! The scripts of a client's threads as one script.
ghost use Rattle.std.specs.Prelude.{◌≡◌, ◌≤◌, ◌<◌, IfOk, length};
ghost use Rattle.std.specs.List.{AllByRecursion, flat_map};

use ffm_model::{List, Memory, Script};
use std::alloc::Global;

/// One script with the parts of these scripts, in order. The instructions are moved and not copied.
/// Err where no memory was found.
pub fn join(alloc: Global, scripts: List<Script>) -> Result<Script, Memory>
    requires some { 0 < length scripts }
    requires few { length scripts ≤ 8 }
    requires plain { AllByRecursion (λ s. length s ≡ 1) scripts }
    ensures { IfOk result (λ joined. joined ≡ flat_map (λ parts. parts) scripts) }
{
    let mut joined = Vec::new(alloc);
    for script in scripts.into_vec() {
        let Script { parts } = script;
        joined.append(&mut parts.into_vec())?;
    }
    Ok(Script {
        parts: List::of(joined),
    })
}
