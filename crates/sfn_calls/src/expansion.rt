//! The loop of an SFN partition, as an ordinary script.
ghost use Rattle.std.specs.Prelude.{◌≡◌, ◌+◌, ◌^◌, ◌<◌, ◌≤◌, ◌&&◌, ◌==◌, ◌∷◌, ◌++◌, [], List, length, position, IfOk, OnOk};
ghost use Rattle.std.specs.List.{AllByRecursion};
ghost use Rattle.std.specs.Option.{option_to_list};
ghost use Rattle.ffm_model.specs.ServiceCalls.{service_of_signal};
ghost use Rattle.ffm_model.specs.declared.constants.TheConstants.{PSA_BLOCK};
ghost use Rattle.ffm_model.specs.Functions.{SfnService, signals_in};
ghost use Rattle.ffm_model.specs.PartitionRam.{ram_base};
ghost use Rattle.ffm_model.specs.SfnRuns.{lines_for, sfn_partition, sfn_service_at, sfn_services_from};
ghost use Rattle.sfn_calls.specs.Loop.{call_line, dispatch_code, expanded, function_code, line_code, moved, place_in, reply_code, service_code, services_code, width};

use ffm_model::{
    CallName, Comparison, Instruction, Memory, Operand, Operation, PSA_BLOCK, Script, Service,
    SfnFunction, SfnInstruction, SfnScript, System,
};
use std::alloc::{AllocError, Global};

fn call_line(name: CallName, first: Operand, second: Operand) -> Instruction
    ensures { result ≡ call_line name first second }
{
    let zero = Operand::Number(0);
    Instruction::Make {
        name,
        operands: [first, second, zero, zero, zero, zero],
    }
}

fn width(line: &SfnInstruction) -> u32
    ensures width { result ≡ width line.now }
    ensures few { result ≤ 2 }
{
    match line {
        SfnInstruction::Plain(_) => 1,
        SfnInstruction::Return { .. } => 2,
    }
}

// How far after the function's first instruction a place of the function lies.
fn place_in(lines: &[SfnInstruction], t: u32) -> u32
    requires { length lines.now ≤ 4096 }
    ensures place { result ≡ place_in lines.now t }
    ensures few { result ≤ 8192 }
{
    let mut place = 0;
    for (i, line) in lines.iter().enumerate() {
        if i >= t as usize {
            return place;
        }
        place += width(line);
    }
    place
}

// A line of a function whose targets lie after a place of the loop.
fn moved(lines: &[SfnInstruction], from: u32, line: Instruction) -> Instruction
    requires short { length lines.now ≤ 4096 }
    requires room { from < 2 ^ 31 }
    ensures { result ≡ moved (λ t. from + place_in lines.now t) line }
{
    match line {
        Instruction::Change { .. } => line,
        Instruction::Jump { target } => Instruction::Jump {
            target: from + place_in(lines, target),
        },
        Instruction::JumpIf {
            comparison,
            register,
            operand,
            target,
        } => Instruction::JumpIf {
            comparison,
            register,
            operand,
            target: from + place_in(lines, target),
        },
        Instruction::Make { .. } | Instruction::Map { .. } => line,
    }
}

// The reply of a return, and the jump back to psa_wait.
fn push_reply(code: &mut Vec<Instruction>, value: Operand) -> Result<(), Memory>
    ensures { OnOk result (code.new.items ≡ code.old.items ++ reply_code value) }
{
    code.push(call_line(CallName::Reply, Operand::Register(14), value))?;
    code.push(Instruction::Jump { target: 0 })?;
    Ok(())
}

fn push_line(
    code: &mut Vec<Instruction>,
    lines: &[SfnInstruction],
    from: u32,
    line: &SfnInstruction,
) -> Result<(), Memory>
    requires short { length lines.now ≤ 4096 }
    requires room { from < 2 ^ 31 }
    ensures { OnOk result
        (code.new.items ≡ code.old.items ++ line_code (λ t. from + place_in lines.now t) line.now) }
{
    match line {
        SfnInstruction::Plain(plain) => {
            code.push(moved(lines, from, *plain))?;
            Ok(())
        }
        SfnInstruction::Return { operand } => push_reply(code, *operand),
    }
}

// The lines of a function, and after the last one its return of 0.
fn push_function(
    code: &mut Vec<Instruction>,
    lines: &[SfnInstruction],
    from: u32,
) -> Result<(), Memory>
    requires short { length lines.now ≤ 4096 }
    requires room { from < 2 ^ 31 }
    ensures { OnOk result (code.new.items ≡ code.old.items ++ function_code lines.now from) }
{
    for line in lines {
        push_line(code, lines, from, line)?;
    }
    push_reply(code, Operand::Number(0))
}

// The test of a service's signal, psa_get, and the handle kept in r14.
fn push_dispatch(
    code: &mut Vec<Instruction>,
    signal: u32,
    base: u32,
    behind: u32,
) -> Result<(), Memory>
    ensures { OnOk result (code.new.items ≡ code.old.items ++ dispatch_code signal base behind) }
{
    code.push(Instruction::Change {
        operation: Operation::Set,
        register: 15,
        operand: Operand::Register(0),
    })?;
    code.push(Instruction::Change {
        operation: Operation::And,
        register: 15,
        operand: Operand::Number(signal),
    })?;
    code.push(Instruction::JumpIf {
        comparison: Comparison::Equal,
        register: 15,
        operand: Operand::Number(0),
        target: behind,
    })?;
    code.push(call_line(
        CallName::Get,
        Operand::Number(signal),
        Operand::Number(base),
    ))?;
    code.push(Instruction::Change {
        operation: Operation::Set,
        register: 14,
        operand: Operand::Register(2),
    })?;
    Ok(())
}

// The code of a service.
#[tactic(auto, unfolding(crate::specs::Loop::service_code, crate::specs::Loop::service_size))]
fn push_service_code(
    code: &mut Vec<Instruction>,
    signal: u32,
    base: u32,
    lines: &[SfnInstruction],
) -> Result<(), Memory>
    requires short { length lines.now ≤ 4096 }
    requires room { length code.old.items < 2 ^ 30 }
    ensures code { OnOk result (code.new.items ≡ code.old.items
        ++ service_code base (length code.old.items)
        (record { signal = signal; lines = lines.now })) }
{
    let at = code.len() as u32;
    let size = 7 + place_in(lines, lines.len() as u32);
    push_dispatch(code, signal, base, at + size)?;
    push_function(code, lines, at + 5)
}

// The signal of a bit.
fn signal_of(bit: u32) -> u32
    requires { bit < 32 }
    ensures { result ≡ 2 ^ bit }
{
    1 << bit
}

fn place_of(services: &[Service], partition: u32, signal: u32) -> Option<usize>
    ensures { result ≡ position (λ v. (v.owner == partition) && (v.signal == signal)) services.now }
{
    services
        .iter()
        .position(|v| v.owner == partition && v.signal == signal)
}

// The place of the partition's service that has the signal.
fn service_of_signal(system: &System, partition: u32, signal: u32) -> Option<usize>
    ensures { result ≡ service_of_signal system.now partition signal }
{
    place_of(system.services.as_slice(), partition, signal)
}

// The function of a service; a service without one returns 0 at once.
fn lines_for<'a>(functions: &'a [SfnFunction], service: usize) -> &'a [SfnInstruction]
    ensures { result.now ≡ lines_for functions.now service }
{
    for function in functions {
        if function.service as usize == service {
            return function.instructions.as_slice();
        }
    }
    &[]
}

// Where a partition's RAM begins.
fn ram_base(system: &System, partition: u32) -> u32
    ensures { result ≡ ram_base system.now partition }
{
    let Some(owner) = system.partitions.as_slice().get(partition as usize) else {
        return 0;
    };
    let Some(region) = system.regions.as_slice().get(owner.ram as usize) else {
        return 0;
    };
    region.base
}

// The code of the service with a signal bit, where there is one.
fn push_service(
    code: &mut Vec<Instruction>,
    system: &System,
    partition: u32,
    functions: &[SfnFunction],
    base: u32,
    bit: u32,
) -> Result<(), Memory>
    requires short { AllByRecursion (λ f. length f.instructions ≤ 4096) functions.now }
    requires room { length code.old.items < 2 ^ 30 }
    requires bit { bit < 32 }
    ensures code { OnOk result (code.new.items ≡ code.old.items
        ++ services_code base (length code.old.items)
        (option_to_list (sfn_service_at system.now partition functions.now bit))) }
    ensures few { OnOk result (length code.new.items ≤ length code.old.items + 8199) }
{
    let signal = signal_of(bit);
    match service_of_signal(system, partition, signal) {
        Some(service) => push_service_code(code, signal, base, lines_for(functions, service)),
        None => Ok(()),
    }
}

// Signals, and that of the service with a signal bit, where there is one.
fn with_signal(
    system: &System,
    partition: u32,
    functions: &[SfnFunction],
    signals: u32,
    bit: u32,
) -> u32
    requires { bit < 32 }
    ensures { (vs : List SfnService) → signals ≡ signals_in vs
        → result ≡ signals_in
        (vs ++ option_to_list (sfn_service_at system.now partition functions.now bit)) }
{
    let signal = signal_of(bit);
    match service_of_signal(system, partition, signal) {
        Some(_) => signals | signal,
        None => signals,
    }
}

// The signals of all services.
fn signals_of(system: &System, partition: u32, functions: &[SfnFunction]) -> u32
    ensures { result ≡ signals_in (sfn_services_from system.now partition functions.now 4 28) }
{
    let mut signals = 0;
    for bit in 4..32 {
        signals = with_signal(system, partition, functions, signals, bit);
    }
    signals
}

/// The functions of an SFN partition as an ordinary script: a loop that waits for its services'
/// signals, tests them from the lowest up, gets the message at the start of the partition's RAM, runs
/// the function of the service, and replies with what it returned. `partition` is its place in the
/// system. Err where no memory was found.
pub fn expand(
    alloc: Global,
    script: &SfnScript,
    system: &System,
    partition: u32,
) -> Result<Script, Memory>
    ensures { IfOk result (λ s. s ≡ expanded (sfn_partition system.now partition script.now) ∷ []) }
{
    let functions = script.functions.as_slice();
    let base = ram_base(system, partition);
    let mask = signals_of(system, partition, functions);
    let mut code = Vec::new(alloc);
    code.push(call_line(
        CallName::Wait,
        Operand::Number(mask),
        Operand::Number(PSA_BLOCK),
    ))?;
    for bit in 4..32 {
        push_service(&mut code, system, partition, functions, base, bit)?;
    }
    Script::plain(alloc, code)
}
