//! Local lines.
ghost use Rattle.std.specs.Prelude.{◌≡◌, ◌<◌, ℕ, IfNone, IfSome, None, Some};
ghost use Rattle.ffm_model.specs.ScriptRuns.{line_effect, place_after, point};
ghost use Rattle.ffm_model.specs.Scripts.{FitsIn};

use crate::calls::{changed, meets, put, value_of};
use ffm_model::Instruction;

/// As many local lines may run between two events.
pub const MOST_LINES: u32 = 100000;

/// Runs a local line that stands at a place, and says where it leads. None where the line makes a
/// call, maps or unmaps.
pub fn line_effect(registers: &mut [u32; 16], place: usize, line: &Instruction) -> Option<usize>
    requires room { place < usize.MAX }
    requires fits { (count : ℕ) × FitsIn count line.now }
    ensures local { IfSome result (λ to.
        line_effect (point registers.old place) line.now ≡ Some (point registers.new to)) }
    ensures call { IfNone result (line_effect (point registers.old place) line.now ≡ None) }
    ensures kept { IfNone result (registers.new ≡ registers.old) }
{
    match line {
        Instruction::Change {
            operation,
            register,
            operand,
        } => {
            let value = value_of(registers, *operand);
            let old = registers.get(*register as usize).copied().unwrap_or(0);
            put(registers, *register, changed(*operation, old, value));
            Some(place + 1)
        }
        Instruction::Jump { target } => Some(*target as usize),
        Instruction::JumpIf {
            comparison,
            register,
            operand,
            target,
        } => {
            let value = value_of(registers, *operand);
            let old = registers.get(*register as usize).copied().unwrap_or(0);
            if meets(*comparison, old, value) {
                Some(*target as usize)
            } else {
                Some(place + 1)
            }
        }
        Instruction::Make { .. } | Instruction::Map { .. } => None,
    }
}

/// The place after the line at a place; after the last line it stays.
pub fn place_after(script: &[Instruction], place: usize) -> usize
    ensures { result ≡ place_after script.now place }
{
    if place < script.len() {
        place + 1
    } else {
        place
    }
}
