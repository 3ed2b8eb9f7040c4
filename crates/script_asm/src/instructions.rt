//! The instruction of a line's words.
ghost use Rattle.std.specs.Prelude.{◌≡◌, ◌≤◌, ℕ, IfSome, length, map, option_map, sum_by};
ghost use Rattle.std.specs.List.{AllByRecursion};
ghost use Rattle.script_asm.specs.Lines.{change_of, filled, has_line, instruction_of, jump_if_of, jump_of, make_of, map_of, may_map, one_word, operands_of, three_words, two_words, width};
ghost use Rattle.ffm_model.specs.Scripts.{FitsIn, IsOperand};
ghost use Rattle.script_asm.specs.Views.{lines_view};

use crate::first_words::{Head, head_of};
use crate::labels::LabelledLines;
use crate::words::{operand_of, register_of};
use ffm_model::{ActorKind, CallName, Comparison, Instruction, MapName, Operand, Operation};

#[tactic(auto, unfolding(crate::specs::Lines::operands_of))]
fn operands_of<const N: usize>(words: &[&[u8]]) -> Option<[Operand; N]>
    requires { length words.now ≤ N }
    ensures gives { result ≡ option_map (filled N) (operands_of (map (λ w. w.now) words.now)) }
    ensures each { IfSome result (AllByRecursion IsOperand) }
{
    let mut operands = [Operand::Number(0); N];
    for (i, word) in words.iter().enumerate() {
        operands[i] = operand_of(word)?;
    }
    Some(operands)
}

// Whether a script of this kind may have the call's line.
#[tactic(auto, unfolding(crate::specs::Lines::has_line))]
fn has_line(kind: ActorKind, name: CallName) -> bool
    ensures { result ≡ has_line kind name }
{
    match kind {
        ActorKind::Partition => !matches!(name, CallName::Raise | CallName::Fire),
        ActorKind::Client => matches!(
            name,
            CallName::FrameworkVersion
                | CallName::Version
                | CallName::Connect
                | CallName::Invoke
                | CallName::Close
                | CallName::Load
                | CallName::Store
                | CallName::Stop
        ),
        ActorKind::Device => true,
    }
}

// Whether a script of this kind may map vectors.
fn may_map(kind: ActorKind) -> bool
    ensures { result ≡ may_map kind }
{
    matches!(kind, ActorKind::Partition)
}

/// The word of a list of just one.
pub fn one_word<'a>(words: &[&'a [u8]]) -> Option<&'a [u8]>
    ensures { option_map (λ w. w.now) result ≡ one_word (map (λ w. w.now) words.now) }
{
    let (word, rest) = words.split_first()?;
    if rest.is_empty() { Some(*word) } else { None }
}

/// The words of a list of just two.
pub fn two_words<'a>(words: &[&'a [u8]]) -> Option<(&'a [u8], &'a [u8])>
    ensures { option_map (λ w. (w.0.now, w.1.now)) result ≡ two_words (map (λ w. w.now) words.now) }
{
    let (word, rest) = words.split_first()?;
    let last = one_word(rest)?;
    Some((*word, last))
}

fn three_words<'a>(words: &[&'a [u8]]) -> Option<(&'a [u8], (&'a [u8], &'a [u8]))>
    ensures { option_map (λ w. (w.0.now, (w.1.0.now, w.1.1.now))) result
        ≡ three_words (map (λ w. w.now) words.now) }
{
    let (word, rest) = words.split_first()?;
    let others = two_words(rest)?;
    Some((*word, others))
}

fn change_of(operation: Operation, words: &[&[u8]]) -> Option<Instruction>
    ensures gives { result ≡ change_of operation (map (λ w. w.now) words.now) }
    ensures fits { (count : ℕ) → IfSome result (FitsIn count) }
{
    let (register, operand) = two_words(words)?;
    let register = register_of(register)?;
    let operand = operand_of(operand)?;
    Some(Instruction::Change {
        operation,
        register,
        operand,
    })
}

fn jump_of(lines: &LabelledLines<'_>, words: &[&[u8]]) -> Option<Instruction>
    ensures gives { result ≡ jump_of (lines_view lines.now.lines.items)
        (map (λ w. w.now) words.now) }
    ensures fits { IfSome result (FitsIn (sum_by width (lines_view lines.now.lines.items))) }
{
    let label = one_word(words)?;
    let target = lines.place_of(label)?;
    Some(Instruction::Jump { target })
}

fn jump_if_of(
    comparison: Comparison,
    lines: &LabelledLines<'_>,
    words: &[&[u8]],
) -> Option<Instruction>
    ensures gives { result ≡ jump_if_of comparison (lines_view lines.now.lines.items)
        (map (λ w. w.now) words.now) }
    ensures fits { IfSome result (FitsIn (sum_by width (lines_view lines.now.lines.items))) }
{
    let (register, (operand, label)) = three_words(words)?;
    let register = register_of(register)?;
    let operand = operand_of(operand)?;
    let target = lines.place_of(label)?;
    Some(Instruction::JumpIf {
        comparison,
        register,
        operand,
        target,
    })
}

fn make_of(kind: ActorKind, name: CallName, count: usize, words: &[&[u8]]) -> Option<Instruction>
    requires { count ≤ 6 }
    ensures gives { result ≡ make_of kind name count (map (λ w. w.now) words.now) }
    ensures fits { (count : ℕ) → IfSome result (FitsIn count) }
{
    if !has_line(kind, name) || words.len() != count {
        return None;
    }
    let operands = operands_of(words)?;
    Some(Instruction::Make { name, operands })
}

fn map_of(kind: ActorKind, name: MapName, count: usize, words: &[&[u8]]) -> Option<Instruction>
    requires { count ≤ 3 }
    ensures gives { result ≡ map_of kind name count (map (λ w. w.now) words.now) }
    ensures fits { (count : ℕ) → IfSome result (FitsIn count) }
{
    if !may_map(kind) || words.len() != count {
        return None;
    }
    let operands = operands_of(words)?;
    Some(Instruction::Map { name, operands })
}

/// The instruction of these words in a script of these lines; None where they are wrong.
#[tactic(auto, unfolding(crate::specs::Lines::instruction_of))]
pub fn instruction_of(
    kind: ActorKind,
    lines: &LabelledLines<'_>,
    words: &[&[u8]],
) -> Option<Instruction>
    ensures gives { result ≡ instruction_of kind (lines_view lines.now.lines.items)
        (map (λ w. w.now) words.now) }
    ensures fits { IfSome result (FitsIn (sum_by width (lines_view lines.now.lines.items))) }
{
    let (first, words) = words.split_first()?;
    match head_of(first)? {
        Head::Change(operation) => change_of(operation, words),
        Head::Jump => jump_of(lines, words),
        Head::JumpIf(comparison) => jump_if_of(comparison, lines, words),
        Head::Make(name, count) => make_of(kind, name, count, words),
        Head::Map(name, count) => map_of(kind, name, count, words),
    }
}
