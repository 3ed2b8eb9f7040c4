//! The script of the device.
ghost use Rattle.std.specs.Prelude.{◌≡◌, IfOk, map};
ghost use Rattle.script_asm.specs.Device.{device_script, raise};

use ffm_model::{CallName, Instruction, List, Memory, Operand, RaiseItem, Script};
use std::alloc::{AllocError, Global};

fn raise(item: RaiseItem) -> Instruction
    ensures { result ≡ raise item }
{
    let mut operands = [Operand::Number(0); 6];
    operands[0] = Operand::Number(item.source);
    let name = match item.result {
        Some(answer) => {
            operands[1] = Operand::Number(answer);
            CallName::Fire
        }
        None => CallName::Raise,
    };
    Instruction::Make { name, operands }
}

fn instructions_of(alloc: Global, raises: &[RaiseItem]) -> Result<Vec<Instruction>, AllocError>
    ensures { IfOk result (λ v. v.items ≡ map raise raises.now) }
{
    raises.iter().map(|item| raise(*item)).collect(alloc)
}

/// The script of the device: for each of these items in order it raises an interrupt of the source at
/// that place, or fires it with the answer of its first-level handler, and it ends after the last
/// one. Err where no memory was found.
#[tactic(auto, unfolding(crate::specs::Device::device_script))]
pub fn device_script(alloc: Global, raises: &List<RaiseItem>) -> Result<Script, Memory>
    ensures { IfOk result (λ s. s ≡ device_script raises.now) }
{
    let instructions = instructions_of(alloc, raises.as_slice())?;
    Script::plain(alloc, instructions)
}
