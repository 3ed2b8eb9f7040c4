//! The instructions of a function.
ghost use Rattle.std.specs.Prelude.{◌≡◌, ◌≤◌, ◌<◌, ◌+◌, ◌^◌, ◌++◌, ℕ, IfOk, IfSome, OnOk, length, map, option_map, sum_by};
ghost use Rattle.std.specs.List.{list_all};
ghost use Rattle.ffm_model.specs.SfnScripts.{IsFunction, IsFunctionLine, is_function_call};
ghost use Rattle.script_asm.specs.Lines.{width};
ghost use Rattle.script_asm.specs.Made.{Gives, listed};
ghost use Rattle.script_asm.specs.Views.{line_view, lines_view};
ghost use Rattle.sfn_calls.specs.FunctionLines.{function_instruction, instructions_of, is_function_instruction, is_function_operand, made_of, return_of};

use ffm_model::{ActorKind, CallName, Instruction, Operand, SfnInstruction};
use script_asm::{LabelledLines, Line, LineError, instruction_of, one_word, operand_of};
use std::alloc::{AllocError, Global};

fn is_function_operand(operand: Operand) -> bool
    ensures { result ≡ is_function_operand operand }
{
    match operand {
        Operand::Register(register) => register < 14,
        Operand::Number(_) => true,
    }
}

fn are_function_operands(operands: &[Operand]) -> bool
    ensures { result ≡ list_all is_function_operand operands.now }
{
    operands.iter().all(|operand| is_function_operand(*operand))
}

fn is_function_call(name: CallName) -> bool
    ensures { result ≡ is_function_call name }
{
    match name {
        CallName::Wait
        | CallName::Get
        | CallName::Reply
        | CallName::Stop
        | CallName::Clear
        | CallName::Eoi
        | CallName::IrqEnable
        | CallName::IrqDisable
        | CallName::ResetSignal
        | CallName::Raise
        | CallName::Fire => false,
        _ => true,
    }
}

// Whether a function may have the instruction of a line of partitions.
fn is_function_instruction(instruction: Instruction) -> bool
    ensures { result ≡ is_function_instruction instruction }
{
    match instruction {
        Instruction::Change {
            register,
            operand,
            ..
        } => register < 14 && is_function_operand(operand),
        Instruction::Jump { .. } => true,
        Instruction::JumpIf {
            register,
            operand,
            ..
        } => register < 14 && is_function_operand(operand),
        Instruction::Make { name, operands } => {
            is_function_call(name) && are_function_operands(&operands)
        }
        Instruction::Map { .. } => false,
    }
}

// The return of a value; None where the words after `return` are wrong.
fn return_of(words: &[&[u8]]) -> Option<SfnInstruction>
    ensures gives { result ≡ return_of (map (λ w. w.now) words.now) }
    ensures fits { (count : ℕ) → IfSome result (IsFunctionLine count) }
{
    let operand = operand_of(one_word(words)?)?;
    if is_function_operand(operand) {
        Some(SfnInstruction::Return { operand })
    } else {
        None
    }
}

// The instruction of these words in a function of these lines; None where they are wrong.
#[tactic(auto, unfolding(crate::specs::FunctionLines::function_instruction))]
fn function_instruction(lines: &LabelledLines<'_>, words: &[&[u8]]) -> Option<SfnInstruction>
    ensures gives { result ≡ function_instruction (lines_view lines.now.lines.items)
        (map (λ w. w.now) words.now) }
    ensures fits { IfSome result
        (IsFunctionLine (sum_by width (lines_view lines.now.lines.items))) }
{
    let (first, rest) = words.split_first()?;
    if *first == b"return".as_slice() {
        return return_of(rest);
    }
    let instruction = instruction_of(ActorKind::Partition, lines, words)?;
    if is_function_instruction(instruction) {
        Some(SfnInstruction::Plain(instruction))
    } else {
        None
    }
}

// What a line adds to the instructions; None where it is wrong.
#[tactic(auto, unfolding(crate::specs::FunctionLines::made_of))]
fn made_of(lines: &LabelledLines<'_>, at: usize, line: &Line<'_>) -> Option<Option<SfnInstruction>>
    ensures gives { option_map listed result
        ≡ made_of (lines_view lines.now.lines.items) at (line_view line.now) }
    ensures fits { IfSome result (λ made.
        IfSome made (IsFunctionLine (sum_by width (lines_view lines.now.lines.items)))) }
{
    match line {
        Line::Passed => Some(None),
        Line::Label(name) => {
            if lines.is_labelled_before(name, at) {
                return None;
            }
            Some(None)
        }
        Line::Order(words) => {
            let instruction = function_instruction(lines, words.as_slice())?;
            Some(Some(instruction))
        }
    }
}

fn add(
    instructions: &mut Vec<SfnInstruction>,
    made: Option<SfnInstruction>,
) -> Result<(), AllocError>
    ensures { OnOk result (instructions.new.items ≡ instructions.old.items ++ listed made) }
{
    if let Some(instruction) = made {
        instructions.push(instruction)?;
    }
    Ok(())
}

/// The instructions of a function of these lines, the first of which has this place in its script;
/// or the first wrong one.
pub fn instructions_of(
    alloc: Global,
    lines: &LabelledLines<'_>,
    first: u32,
) -> Result<Vec<SfnInstruction>, LineError>
    requires { first + length lines.now.lines.items < 2 ^ 32 }
    ensures gives { Gives (λ v. v.items) result
        (instructions_of first (lines_view lines.now.lines.items)) }
    ensures function { IfOk result (λ v. IsFunction v.items) }
    ensures short { IfOk result (λ v. length v.items ≤ length lines.now.lines.items) }
{
    let mut instructions = Vec::new(alloc);
    for (i, line) in lines.lines.iter().enumerate() {
        let Some(made) = made_of(lines, i, line) else {
            return Err(LineError::Wrong(first + i as u32));
        };
        add(&mut instructions, made)?;
    }
    Ok(instructions)
}
