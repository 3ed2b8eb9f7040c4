//! The conditions of an access to memory.
ghost use Rattle.std.specs.Prelude.{◌≡◌, IfOk, map};
ghost use Rattle.view_places.specs.Conditions.{memory_conditions, size_condition, told};

use crate::condition::{Condition, marked};
use ffm_model::{ActorId, Call, System};
use machine_rules::is_access_size;
use memory_image::{may_read, may_write};
use std::alloc::{AllocError, Global};

fn of_size(size: u32) -> Condition
    ensures { told result ≡ size_condition size }
{
    marked("the size isn't 1, 2 or 4", !is_access_size(size))
}

/// Those of a load or a store.
pub fn memory_conditions(
    alloc: Global,
    system: &System,
    actor: ActorId,
    call: Call,
) -> Result<Vec<Condition>, AllocError>
    ensures { IfOk result (λ conditions.
        map told conditions.items ≡ memory_conditions system.now actor.0 call) }
{
    match call {
        Call::Load { address, size } => {
            let is_wrong = !may_read(system, actor, address, size);
            let range = marked("the caller may not read the range", is_wrong);
            Ok(Vec::from_array(alloc, [of_size(size), range])?)
        }
        Call::Store { address, size, .. } => {
            let is_wrong = !may_write(system, actor, address, size);
            let range = marked("the caller may not write the range", is_wrong);
            Ok(Vec::from_array(alloc, [of_size(size), range])?)
        }
        _ => Ok(Vec::new(alloc)),
    }
}
