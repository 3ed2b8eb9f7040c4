//! Numbers that pass a test.
ghost use Rattle.std.specs.Prelude.{◌≡◌, ◌++◌, ◌∷◌, [], OnOk, if◌then◌else◌};

use std::alloc::AllocError;

/// Adds a number to a list where a test holds.
pub fn add_where(list: &mut Vec<u32>, is: bool, number: u32) -> Result<(), AllocError>
    ensures { OnOk result
        (list.new.items ≡ list.old.items ++ (if is then number ∷ [] else [])) }
{
    if is {
        list.push(number)?;
    }
    Ok(())
}
