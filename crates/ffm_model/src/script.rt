//! Scripts: the small programs of partitions and clients.

use crate::list::List;
use crate::machine::Memory;
use std::alloc::Global;
use std::marker::Model;

/// A register, or a number that stands for itself.
#[derive(Clone, Copy)]
pub enum Operand {
    Register(u32),
    Number(u32),
}

/// What a local line does to a register.
#[derive(Clone, Copy, Debug, PartialEq, Eq)]
pub enum Operation {
    Set,
    Add,
    Sub,
    And,
    Or,
    Xor,
}

/// What a conditional jump tests.
#[derive(Clone, Copy, Debug, PartialEq, Eq)]
pub enum Comparison {
    Equal,
    Different,
    Less,
}

/// The call of a line; a script never resumes by itself.
#[derive(Clone, Copy, Debug, PartialEq, Eq)]
pub enum CallName {
    FrameworkVersion,
    Version,
    Connect,
    Invoke,
    Close,
    Wait,
    Get,
    SetRhandle,
    Read,
    Skip,
    Write,
    Reply,
    Notify,
    Clear,
    Eoi,
    IrqEnable,
    IrqDisable,
    ResetSignal,
    Panic,
    Load,
    Store,
    Raise,
    Fire,
    Stop,
}

/// What a line does with a vector of a message that its partition got and hasn't answered.
#[derive(Clone, Copy, Debug, PartialEq, Eq)]
pub enum MapName {
    MapIn,
    UnmapIn,
    MapOut,
    UnmapOut,
}

/// One instruction. A target is the place of an instruction of the same part, or their number.
#[derive(Clone, Copy)]
pub enum Instruction {
    Change {
        operation: Operation,
        register: u32,
        operand: Operand,
    },
    Jump {
        target: u32,
    },
    JumpIf {
        comparison: Comparison,
        register: u32,
        operand: Operand,
        target: u32,
    },
    /// Operands stand in the order of the call's fields, and unused ones are 0.
    Make {
        name: CallName,
        operands: [Operand; 6],
    },
    /// Operands are the message's handle, the vector's index, and for `UnmapOut` a length; an unused
    /// one is 0.
    Map {
        name: MapName,
        operands: [Operand; 3],
    },
}

/// The instructions of one context. Contracts see it as the list of them.
#[derive(Drop)]
pub struct Part {
    pub instructions: List<Instruction>,
}

impl Model for Part {
    ghost use Rattle.std.specs.Prelude.{List};
    ghost use Rattle.ffm_model.specs.declared.script.Instruction.{Instruction};

    ghost Value = { List Instruction };

    ghost view = { λ p. p.instructions };
}

/// A script of 1 to 8 parts, one for each context of its actor. Registers are below 16, and targets
/// are places in their part or its end. Contracts see it as the list of its parts.
#[derive(Drop)]
pub struct Script {
    pub parts: List<Part>,
}

impl Model for Script {
    ghost use Rattle.std.specs.Prelude.{List};
    ghost use Rattle.ffm_model.specs.declared.script.Instruction.{Instruction};
    ghost use Rattle.ffm_model.specs.Scripts.{IsScript};

    ghost Value = { List (List Instruction) };

    ghost view = { λ s. s.parts };

    ghost invariant = { λ s. IsScript s.parts };
}

impl Script {
    ghost use Rattle.std.specs.Prelude.{◌≡◌, [], ◌∷◌, IfOk};
    ghost use Rattle.ffm_model.specs.Scripts.{IsPart};
    ghost use Rattle.ffm_model.specs.ScriptRuns.{only_part};

    /// The script of one part with these instructions. Err where no memory was found.
    pub fn plain(alloc: Global, instructions: Vec<Instruction>) -> Result<Script, Memory>
        requires { IsPart instructions.items }
        ensures { IfOk result (λ s. s ≡ instructions.items ∷ []) }
    {
        let mut parts = Vec::new(alloc);
        parts.push(Part {
            instructions: List::of(instructions),
        })?;
        Ok(Script {
            parts: List::of(parts),
        })
    }

    /// The instructions of its first part, lent. A script of one context has no other.
    pub fn instructions(&self) -> &[Instruction]
        ensures part { result.now ≡ only_part self.now }
        ensures fits { IsPart result.now }
    {
        let parts = self.parts.as_slice();
        let part = &parts[0];
        part.instructions.as_slice()
    }
}

/// A line of a function: an instruction, or the return of a value to the function's caller.
#[derive(Clone, Copy)]
pub enum SfnInstruction {
    Plain(Instruction),
    Return { operand: Operand },
}

/// The function of a service, by the service's place in the system. A target is the place of an
/// instruction of the same function, or their number.
#[derive(Drop)]
pub struct SfnFunction {
    pub service: u32,
    pub instructions: List<SfnInstruction>,
}

/// The functions of a partition, in the order of their heads, of which no two have one service. A
/// function has at most 4,096 instructions. Its registers are below 14, its targets are places in it
/// or its end, and it makes no call that belongs to the loop of its partition. Contracts see a
/// script as the list of its functions.
#[derive(Drop)]
pub struct SfnScript {
    pub functions: List<SfnFunction>,
}

impl Model for SfnScript {
    ghost use Rattle.std.specs.Prelude.{List};
    ghost use Rattle.ffm_model.specs.declared.script.SfnFunction.{SfnFunction};
    ghost use Rattle.ffm_model.specs.SfnScripts.{IsSfnScript};

    ghost Value = { List SfnFunction };

    ghost view = { λ s. s.functions };

    ghost invariant = { λ s. IsSfnScript s.functions };
}
