//! One script that holds no messages: up to its next call, and behind it.
ghost use Rattle.std.specs.Prelude.{◌≡◌, ◌≤◌, ◌<◌, ℕ, IfNone, IfSome, List, None, Some};
ghost use Rattle.ffm_model.specs.Held.{HeldMessage, Holder};
ghost use Rattle.ffm_model.specs.HeldPlans.{held_steps};
ghost use Rattle.ffm_model.specs.ScriptRuns.{arrived, behind, call_at, local_step, local_steps, point};
ghost use Rattle.ffm_model.specs.Scripts.{IsPart};
ghost use Rattle.script_engines.specs.Holdings.{holding};

use crate::calls::{call_of, note};
use crate::lines::{MOST_LINES, line_effect, place_after};
use ffm_model::{Call, Instruction, Outcome};

// Runs the line at a place where it is local, and says where it leads.
#[tactic(auto, unfolding(ffm_model::specs::ScriptRuns::local_step))]
fn local_step(script: &[Instruction], registers: &mut [u32; 16], place: usize) -> Option<usize>
    requires { IsPart script.now }
    ensures local { IfSome result (λ to.
        local_step script.now (point registers.old place) ≡ Some (point registers.new to)) }
    ensures call { IfNone result (local_step script.now (point registers.old place) ≡ None) }
    ensures kept { IfNone result (registers.new ≡ registers.old) }
{
    if place >= script.len() {
        return None;
    }
    line_effect(registers, place, &script[place])
}

/// Runs local lines up to the first other line, and at most `left`: the place there, and how many more
/// may run. In the script of a partition that holds messages they do the same.
pub fn run_lines(
    script: &[Instruction],
    registers: &mut [u32; 16],
    place: usize,
    left: u32,
) -> (usize, u32)
    requires { IsPart script.now }
    ensures point { point registers.new result.0
        ≡ local_steps script.now left (point registers.old place) }
    ensures left { result.1 ≤ left }
    ensures ended { 0 < result.1 → local_step script.now (point registers.new result.0) ≡ None }
    ensures held { (p : Holder) (t : List HeldMessage)
        → held_steps p script.now result.1 (holding registers.new result.0 t)
        ≡ held_steps p script.now left (holding registers.old place t) }
{
    let mut place = place;
    let mut left = left;
    while left > 0 {
        let Some(to) = local_step(script, registers, place) else {
            return (place, left);
        };
        place = to;
        left -= 1;
    }
    (place, left)
}

/// Runs a script's local lines from a place on, up to its next call, and says where that is made. At most
/// `MOST_LINES` run; where that many do, the place is the next line's, and the call there is the script's end.
#[tactic(auto, unfolding(ffm_model::specs::ScriptRuns::arrived))]
pub fn arrive(script: &[Instruction], registers: &mut [u32; 16], place: usize) -> usize
    requires { IsPart script.now }
    ensures { point registers.new result ≡ arrived script.now (point registers.old place) }
{
    let (place, _) = run_lines(script, registers, place, MOST_LINES);
    place
}

/// The call that a script makes at a place; after its last line, and where its local lines are spent, the
/// script ends.
#[tactic(auto, unfolding(ffm_model::specs::ScriptRuns::call_at))]
pub fn call_at(script: &[Instruction], registers: &[u32; 16], place: usize) -> Call
    ensures { result ≡ call_at script.now (point registers.now place) }
{
    match script.get(place) {
        Some(Instruction::Make { name, operands }) => call_of(*name, registers, operands),
        Some(Instruction::Map { .. }) => Call::Stop { spent: false },
        Some(_) => Call::Stop { spent: true },
        None => Call::Stop { spent: false },
    }
}

/// Goes on after the call that a script makes at a place, by its outcome, and says where. Give it the
/// outcome by which the call returns, and not `Blocked`.
pub fn go_on(
    script: &[Instruction],
    registers: &mut [u32; 16],
    place: usize,
    outcome: &Outcome,
) -> usize
    ensures { point registers.new result
        ≡ behind script.now outcome.now (point registers.old place) }
{
    note(registers, outcome);
    place_after(script, place)
}
