//! Which line of a script an instruction is.
ghost use Rattle.std.specs.Prelude.{◌≡◌, ◌<◌, ◌^◌, IfSome, length, option_map};
ghost use Rattle.script_asm.specs.Views.{line_view, lines_view};
ghost use Rattle.sfn_calls.specs.Partitions.{is_sfn};
ghost use Rattle.view_scripts.specs.ScriptLines.{is_order, line_from, lines_at};

use ffm_model::{Name, Scenario, System};
use script_asm::Line;

fn is_order(line: &Line<'_>) -> bool
    ensures { result ≡ is_order (line_view line.now) }
{
    matches!(line, Line::Order(_))
}

/// The number, from 0, of the line that is the instruction at a place.
pub(crate) fn line_of_place(lines: &[Line<'_>], place: u32) -> Option<usize>
    ensures line { result ≡ line_from 0 place (lines_view lines.now) }
    ensures within { IfSome result (λ number. number < length lines.now) }
{
    let mut left = place;
    for (number, line) in lines.iter().enumerate() {
        if !is_order(line) {
            continue;
        }
        if left == 0 {
            return Some(number);
        }
        left -= 1;
    }
    None
}

// Whether the actor is a partition of the SFN model.
fn is_sfn(system: &System, actor: u32) -> bool
    ensures { result ≡ is_sfn system.now actor }
{
    match system.partitions.as_slice().get(actor as usize) {
        Some(partition) => partition.sfn,
        None => false,
    }
}

/// The lines behind a part of an actor's script; none for the functions of an SFN partition.
pub(crate) fn lines_at<'a>(
    system: &System,
    scenario: &'a Scenario,
    actor: u32,
    part: usize,
) -> Option<&'a [Name]>
    ensures lines { option_map (λ lines. lines.now) result
        ≡ lines_at system.now scenario.now actor part }
    ensures few { IfSome result (λ lines. length lines.now < 2 ^ 31) }
{
    if is_sfn(system, actor) {
        return None;
    }
    let scripts = scenario.lines.as_slice().get(actor as usize)?;
    let lines = scripts.as_slice().get(part)?;
    Some(lines.as_slice())
}
