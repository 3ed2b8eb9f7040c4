//! Scripts: all lines together.
ghost use Rattle.std.specs.Prelude.{◌≡◌, ◌<◌, ◌^◌, ◌++◌, [], IfOk, IfSome, OnOk, length, option_map, sum_by};
ghost use Rattle.ffm_model.specs.declared.codes.TheConstants.{SCRIPT_SYNTAX};
ghost use Rattle.ffm_model.specs.Reading.{Reads};
ghost use Rattle.script_asm.specs.Lines.{assembled, assembled_lines, line_place, made_of, script_read, width};
ghost use Rattle.ffm_model.specs.Scripts.{FitsIn, IsPart};
ghost use Rattle.script_asm.specs.Made.{Gives, listed};
ghost use Rattle.script_asm.specs.Views.{line_view, lines_view};

use crate::instructions::instruction_of;
use crate::labels::{LabelledLines, labelled_lines};
use crate::lines::Line;
use ffm_model::{
    ActorKind, Instruction, Key, Lines, List, Name, PathStep, Place, ReadError, Refusal, Root,
    SCRIPT_SYNTAX, Script,
};
use std::alloc::{AllocError, AllocFailed, Global};

/// Why lines make no instructions.
#[derive(Drop)]
pub enum LineError {
    /// The place of the first wrong line.
    Wrong(u32),
    /// No memory was found.
    Memory,
}

impl From<AllocError> for LineError {
    ghost use Rattle.script_asm.specs.declared.scripts.LineError.TheVariants.{Memory};

    ghost from_gives = { λ _ e. e ≡ Memory };

    fn from(_error: AllocError) -> LineError {
        LineError::Memory
    }
}

impl<T: Drop> From<AllocFailed<T>> for LineError {
    ghost use Rattle.script_asm.specs.declared.scripts.LineError.TheVariants.{Memory};

    ghost from_gives = { λ _ e. e ≡ Memory };

    fn from(_error: AllocFailed<T>) -> LineError {
        LineError::Memory
    }
}

// What a line adds to the instructions; None where it is wrong.
#[tactic(auto, unfolding(crate::specs::Lines::made_of))]
fn made_of(
    kind: ActorKind,
    lines: &LabelledLines<'_>,
    at: usize,
    line: &Line<'_>,
) -> Option<Option<Instruction>>
    ensures gives { option_map listed result
        ≡ made_of kind (lines_view lines.now.lines.items) at (line_view line.now) }
    ensures fits { IfSome result (λ made.
        IfSome made (FitsIn (sum_by width (lines_view lines.now.lines.items)))) }
{
    match line {
        Line::Passed => Some(None),
        Line::Label(name) => {
            if lines.is_labelled_before(name, at) {
                return None;
            }
            Some(None)
        }
        Line::Order(words) => {
            let instruction = instruction_of(kind, lines, words.as_slice())?;
            Some(Some(instruction))
        }
    }
}

fn add(instructions: &mut Vec<Instruction>, made: Option<Instruction>) -> Result<(), AllocError>
    ensures { OnOk result (instructions.new.items ≡ instructions.old.items ++ listed made) }
{
    if let Some(instruction) = made {
        instructions.push(instruction)?;
    }
    Ok(())
}

// The instructions of the lines, or the first wrong one.
fn instructions_of(
    alloc: Global,
    kind: ActorKind,
    lines: &LabelledLines<'_>,
) -> Result<Vec<Instruction>, LineError>
    requires { length lines.now.lines.items < 2 ^ 31 }
    ensures gives { Gives (λ v. v.items) result
        (assembled_lines kind (lines_view lines.now.lines.items)) }
    ensures part { IfOk result (λ v. IsPart v.items) }
{
    let mut instructions = Vec::new(alloc);
    for (i, line) in lines.lines.iter().enumerate() {
        let Some(made) = made_of(kind, lines, i, line) else {
            return Err(LineError::Wrong(i as u32));
        };
        add(&mut instructions, made)?;
    }
    Ok(instructions)
}

#[tactic(auto, unfolding(crate::specs::Lines::assembled))]
fn assembled(alloc: Global, kind: ActorKind, texts: &[Name]) -> Result<Vec<Instruction>, LineError>
    requires { length texts.now < 2 ^ 31 }
    ensures gives { Gives (λ v. v.items) result (assembled kind texts.now) }
    ensures part { IfOk result (λ v. IsPart v.items) }
{
    let lines = labelled_lines(alloc, texts)?;
    instructions_of(alloc, kind, &lines)
}

/// The refusal of a line of the script with this number, both counted from 0: its place is
/// `/scripts/NUMBER/lines/LINE`, and its code SCRIPT_SYNTAX. Err where no memory was found.
pub fn line_refusal(alloc: Global, number: u32, line: u32) -> Result<Refusal, AllocError>
    ensures { IfOk result (λ r.
        r ≡ record { code = SCRIPT_SYNTAX; place = line_place number line; cycle = [] }) }
{
    let steps = vec![in alloc;
        PathStep::Key(Key::Scripts),
        PathStep::Index(number),
        PathStep::Key(Key::Lines),
        PathStep::Index(line),
    ]?;
    Ok(Refusal {
        code: SCRIPT_SYNTAX,
        place: Place {
            root: Root::Scenario,
            steps: List::of(steps),
        },
        cycle: List::of(Vec::new(alloc)),
    })
}

/// The script of these lines, for an actor of this kind. `number` is the script's place in the
/// scenario file, from 0.
///
/// The first line that is no line of such a script is refused at its place, with the code
/// SCRIPT_SYNTAX: a first word that begins no line, a call that this kind of actor doesn't have, in
/// any but a partition's script `map_in`, `unmap_in`, `map_out` and `unmap_out`, operands of a wrong
/// number or form, a label that stands before it too, and a jump to a label that isn't there. Memory
/// where no memory was found.
pub fn assemble(
    alloc: Global,
    lines: &Lines,
    kind: ActorKind,
    number: u32,
) -> Result<Script, ReadError>
    ensures read { Reads (λ s. s) result (script_read kind number lines.now) }
{
    match assembled(alloc, kind, lines.as_slice()) {
        Ok(instructions) => Ok(Script::plain(alloc, instructions)?),
        Err(LineError::Wrong(line)) => Err(ReadError::Refused(line_refusal(alloc, number, line)?)),
        Err(LineError::Memory) => Err(ReadError::Memory),
    }
}
