//! The lines of a partition's script, which may map the vectors of the messages that it holds.
ghost use Rattle.std.specs.Prelude.{◌≡◌, ◌<◌, ℕ, IfNone, IfSome, None, Some, if◌then◌else◌, true};
ghost use Rattle.ffm_model.specs.declared.script.Instruction.TheVariants as instruction;
ghost use Rattle.ffm_model.specs.Held.{Holder, is_refused};
ghost use Rattle.ffm_model.specs.HeldPlans.{Holding, call_made, handle_operand, led_to, line_step, number_operand, registers_noted};
ghost use Rattle.mm_iovec.specs.Lines.{can_do, engine_line, maps_in, table_of};
ghost use Rattle.script_engines.specs.Holdings.{holding, with_window};

use crate::calls::{note, put, value_of};
use ffm_model::{Call, Handle, Instruction, MapName, Operand, Outcome};
use mm_iovec::{Held, MmLine, MmStep};

fn number_operand(registers: &[u32; 16], operands: &[Operand; 3], i: usize) -> u32
    requires { i < 3 }
    ensures { result ≡ number_operand registers.now operands.now i }
{
    value_of(registers, operands[i])
}

fn handle_operand(registers: &[u32; 16], operands: &[Operand; 3], i: usize) -> Handle
    requires { i < 3 }
    ensures { result ≡ handle_operand registers.now operands.now i }
{
    Handle(number_operand(registers, operands, i).cast_signed())
}

// A line that maps or unmaps, at the values of its operands.
fn mm_line(name: MapName, registers: &[u32; 16], operands: &[Operand; 3]) -> MmLine
    ensures { (p : Holder) (x : Holding) → x.at.registers ≡ registers.now
        → engine_line p x result ≡ line_step p x (instruction.Map name operands.now) }
{
    let handle = handle_operand(registers, operands, 0);
    let index = number_operand(registers, operands, 1);
    match name {
        MapName::MapIn => MmLine::MapIn { handle, index },
        MapName::UnmapIn => MmLine::UnmapIn { handle, index },
        MapName::MapOut => MmLine::MapOut { handle, index },
        MapName::UnmapOut => MmLine::UnmapOut {
            handle,
            index,
            len: number_operand(registers, operands, 2),
        },
    }
}

// ---- lines without a call

// Does a line about a vector, which stands at a place, and says where it leads. None where it makes a
// call or breaks a rule.
fn mm_effect(
    held: &mut Held,
    registers: &mut [u32; 16],
    place: usize,
    line: MmLine,
) -> Option<usize>
    requires { place < usize.MAX }
    ensures leads { IfSome result (λ to.
        led_to (engine_line held.old.holder (holding registers.old place held.old.table) line)
        ≡ Some (holding registers.new to held.new.table)) }
    ensures makes { IfNone result (led_to
        (engine_line held.old.holder (holding registers.old place held.old.table) line) ≡ None) }
    ensures kept { IfNone result (registers.new ≡ registers.old) }
    ensures held { IfNone result (held.new ≡ held.old) }
    ensures holder { held.new.holder ≡ held.old.holder }
{
    match held.act(line) {
        MmStep::Local { r0: Some(window) } => {
            put(registers, 0, window);
            Some(place + 1)
        }
        MmStep::Local { r0: None } => Some(place + 1),
        MmStep::Calls(_) | MmStep::Fault => None,
    }
}

/// Does a line that maps or unmaps, which stands at a place, and says where it leads. None where it makes
/// a call, or may not be done; nothing changes then.
pub fn map_effect(
    held: &mut Held,
    registers: &mut [u32; 16],
    place: usize,
    name: MapName,
    operands: &[Operand; 3],
) -> Option<usize>
    requires { place < usize.MAX }
    ensures leads { IfSome result (λ to.
        led_to (line_step held.old.holder (holding registers.old place held.old.table)
        (instruction.Map name operands.now))
        ≡ Some (holding registers.new to held.new.table)) }
    ensures makes { IfNone result (led_to (line_step held.old.holder
        (holding registers.old place held.old.table) (instruction.Map name operands.now)) ≡ None) }
    ensures kept { IfNone result (registers.new ≡ registers.old) }
    ensures held { IfNone result (held.new ≡ held.old) }
    ensures holder { held.new.holder ≡ held.old.holder }
{
    let line = mm_line(name, registers, operands);
    mm_effect(held, registers, place, line)
}

// ---- lines with a call

// The call of a line about a vector, which is done: Panic where it may not be, and the end of the
// script where it makes no call.
fn call_by_act(held: &mut Held, line: MmLine) -> Call
    ensures call { (x : Holding) → x.table ≡ held.old.table
        → result ≡ call_made (engine_line held.old.holder x line) }
    ensures table { held.new
        ≡ record held.old { table = table_of held.old.holder held.old.table line } }
{
    match held.act(line) {
        MmStep::Calls(call) => call,
        MmStep::Local { .. } => Call::Stop { spent: true },
        MmStep::Fault => Call::Panic,
    }
}

// The call of a line that maps or unmaps without one, once no line may run any more: the end of the
// script, or Panic where the line may not be done.
fn end_unless_fault(held: &Held, line: MmLine) -> Call
    ensures { result ≡ (if can_do held.now.holder held.now.table line
        then Call.Stop true else Call.Panic) }
{
    if held.allows(line) {
        Call::Stop { spent: true }
    } else {
        Call::Panic
    }
}

// The call of a line about a vector. The table stays as it is.
fn mm_call(held: &mut Held, line: MmLine) -> Call
    ensures call { (x : Holding) → x.table ≡ held.old.table
        → result ≡ call_made (engine_line held.old.holder x line) }
    ensures held { held.new ≡ held.old }
{
    match line {
        MmLine::UnmapIn { .. } | MmLine::MapOut { .. } => end_unless_fault(held, line),
        _ => call_by_act(held, line),
    }
}

// Whether a call names a vector that is or was mapped.
fn is_refused(held: &Held, call: Call) -> bool
    ensures { result ≡ is_refused held.now.table call }
{
    match call {
        Call::Read {
            handle,
            index,
            buffer,
            len,
        } => !held.allows(MmLine::Read {
            handle,
            index,
            buffer,
            len,
        }),
        Call::Skip { handle, index, len } => !held.allows(MmLine::Skip { handle, index, len }),
        Call::Write {
            handle,
            index,
            buffer,
            len,
        } => !held.allows(MmLine::Write {
            handle,
            index,
            buffer,
            len,
        }),
        _ => false,
    }
}

/// The call of a line that maps or unmaps. Panic where the line may not be done; one that would lead on
/// ends the script, since its local lines are spent. Nothing changes.
pub fn map_call(
    held: &mut Held,
    registers: &[u32; 16],
    name: MapName,
    operands: &[Operand; 3],
) -> Call
    ensures call { (place : ℕ)
        → result ≡ call_made (line_step held.old.holder (holding registers.now place held.old.table)
        (instruction.Map name operands.now)) }
    ensures held { held.new ≡ held.old }
{
    let line = mm_line(name, registers, operands);
    mm_call(held, line)
}

/// A call of another line. Panic where it names a vector that is or was mapped.
pub fn unless_refused(held: &Held, call: Call) -> Call
    ensures { result ≡ (if is_refused held.now.table call then Call.Panic else call) }
{
    if is_refused(held, call) {
        Call::Panic
    } else {
        call
    }
}

// ---- after a call

fn maps_in(line: Option<Instruction>) -> bool
    ensures { result ≡ maps_in line }
{
    matches!(
        line,
        Some(Instruction::Map {
            name: MapName::MapIn,
            ..
        })
    )
}

fn put_window(registers: &mut [u32; 16], call: Call)
    ensures { registers.new ≡ with_window call registers.old }
{
    match call {
        Call::Read { buffer, .. } => put(registers, 0, buffer),
        _ => {}
    }
}

/// Puts the outcome of a call into the registers, with the line that made the call: after a line that
/// maps an input, r0 is the window.
pub fn note_held(
    registers: &mut [u32; 16],
    line: Option<Instruction>,
    call: Call,
    outcome: &Outcome,
)
    ensures { registers.new ≡ registers_noted line call outcome.now registers.old }
{
    note(registers, outcome);
    if maps_in(line) {
        put_window(registers, call);
    }
}
