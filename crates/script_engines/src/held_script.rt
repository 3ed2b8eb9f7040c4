//! The script of a partition that holds messages: up to its next call, and behind it.
ghost use Rattle.std.specs.Prelude.{◌≡◌, IfNone, IfSome, None, Some, slice_get};
ghost use Rattle.ffm_model.specs.HeldPlans.{held_arrived, held_after, held_call, held_step};
ghost use Rattle.ffm_model.specs.ScriptRuns.{local_step, point};
ghost use Rattle.ffm_model.specs.Scripts.{IsPart};
ghost use Rattle.script_engines.specs.Holdings.{holding};

use crate::calls::call_of;
use crate::held_lines::{map_call, map_effect, note_held, unless_refused};
use crate::lines::{MOST_LINES, place_after};
use crate::script::run_lines;
use ffm_model::{Call, Instruction, Outcome};
use mm_iovec::Held;

// Does the line at a place where it maps or unmaps and makes no call, and says where it leads.
#[tactic(auto, unfolding(ffm_model::specs::HeldPlans::held_step, ffm_model::specs::ScriptRuns::local_step))]
fn map_step(
    held: &mut Held,
    registers: &mut [u32; 16],
    script: &[Instruction],
    place: usize,
) -> Option<usize>
    ensures leads { IfSome result (λ to.
        held_step held.old.holder script.now (holding registers.old place held.old.table)
        ≡ Some (holding registers.new to held.new.table)) }
    ensures makes { local_step script.now (point registers.old place) ≡ None
        → IfNone result
        (held_step held.old.holder script.now (holding registers.old place held.old.table) ≡ None) }
    ensures kept { IfNone result (registers.new ≡ registers.old) }
    ensures held { IfNone result (held.new ≡ held.old) }
    ensures holder { held.new.holder ≡ held.old.holder }
{
    match script.get(place) {
        Some(Instruction::Map { name, operands }) => {
            map_effect(held, registers, place, *name, operands)
        }
        _ => None,
    }
}

/// Does the lines of a partition's script from a place on, up to its next call, and says where that is
/// made. At most `MOST_LINES` run.
pub fn held_arrive(
    held: &mut Held,
    registers: &mut [u32; 16],
    script: &[Instruction],
    place: usize,
) -> usize
    requires { IsPart script.now }
    ensures arrived { holding registers.new result held.new.table
        ≡ held_arrived held.old.holder script.now (holding registers.old place held.old.table) }
    ensures holder { held.new.holder ≡ held.old.holder }
{
    let mut place = place;
    let mut left = MOST_LINES;
    loop {
        let (at, more) = run_lines(script, registers, place, left);
        if more == 0 {
            return at;
        }
        let Some(to) = map_step(held, registers, script, at) else {
            return at;
        };
        place = to;
        left = more - 1;
    }
}

/// The line at a place. None after the last one.
#[tactic(auto, using(std::proofs::lemmas::Option::slice_get_cases))]
pub fn line_at(script: &[Instruction], place: usize) -> Option<Instruction>
    ensures { result ≡ slice_get script.now place }
{
    script.get(place).copied()
}

/// The call that a partition's script makes at a place: Panic where its line breaks a rule about vectors.
/// Nothing changes.
#[tactic(auto, unfolding(ffm_model::specs::HeldPlans::held_call))]
pub fn held_call(
    held: &mut Held,
    registers: &[u32; 16],
    script: &[Instruction],
    place: usize,
) -> Call
    ensures call { result ≡ held_call held.old.holder script.now
        (holding registers.now place held.old.table) }
    ensures held { held.new ≡ held.old }
{
    match script.get(place) {
        Some(Instruction::Map { name, operands }) => map_call(held, registers, *name, operands),
        Some(Instruction::Make { name, operands }) => {
            unless_refused(held, call_of(*name, registers, operands))
        }
        Some(_) => Call::Stop { spent: true },
        None => Call::Stop { spent: false },
    }
}

/// Goes on after the call that a partition's script makes at a place, by its outcome, and says where; the
/// messages that it holds go on with it. Give it the outcome by which the call returns, and not `Blocked`.
pub fn held_go_on(
    held: &mut Held,
    registers: &mut [u32; 16],
    script: &[Instruction],
    place: usize,
    outcome: &Outcome,
) -> usize
    ensures gone { holding registers.new result held.new.table
        ≡ held_after held.old.holder script.now outcome.now
        (holding registers.old place held.old.table) }
    ensures holder { held.new.holder ≡ held.old.holder }
{
    let line = line_at(script, place);
    let call = held_call(held, registers, script, place);
    held.noted(line, call, *outcome);
    note_held(registers, line, call, outcome);
    place_after(script, place)
}
