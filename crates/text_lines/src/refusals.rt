//! The line that refuses a file.

ghost use Rattle.std.specs.Prelude.{◌≡◌, ◌++◌, map, OnOk, IfOk};
ghost use Rattle.std.specs.List.{flat_map};
ghost use Rattle.text_lines.specs.Refusals.{name_in, code_name, root_text, step_text, path_text, id_text, cycle_text, refusal_line, wrong_line};

use crate::words::{append, append_number};
use ffm_model::{
    BAD_VALUE, BUDGET_WITHOUT_PERMISSION, DEPENDENCY_CYCLE, DUPLICATE_IRQ_SOURCE,
    DUPLICATE_PARTITION, DUPLICATE_SERVICE, DUPLICATE_SID, DUPLICATE_STATELESS_INDEX,
    FILE_TOO_LONG, JSON, List, MEMORY_TOO_LARGE, MISSING_ATTRIBUTE, PathStep, Place,
    REGION_OVERLAP, REGION_UNKNOWN, Refusal, Root, SCRIPT_SYNTAX, SELF_DEPENDENCY,
    TOO_MANY_CONNECTIONS, TOO_MANY_PARTITIONS, TOO_MANY_SIGNALS, TOO_MANY_STATELESS, TRACE_SYNTAX,
    UNKNOWN_ACTOR, UNKNOWN_DEPENDENCY, WRONG_TYPE,
};
use std::alloc::{AllocError, Global};

// A code of refusals and its name.
#[derive(Clone, Copy)]
struct NamedCode {
    code: u8,
    name: &'static str,
}

const CODE_NAMES: [NamedCode; 24] = [
    NamedCode {
        code: JSON,
        name: "Json",
    },
    NamedCode {
        code: MISSING_ATTRIBUTE,
        name: "MissingAttribute",
    },
    NamedCode {
        code: WRONG_TYPE,
        name: "WrongType",
    },
    NamedCode {
        code: BAD_VALUE,
        name: "BadValue",
    },
    NamedCode {
        code: DUPLICATE_PARTITION,
        name: "DuplicatePartition",
    },
    NamedCode {
        code: DUPLICATE_SERVICE,
        name: "DuplicateService",
    },
    NamedCode {
        code: DUPLICATE_SID,
        name: "DuplicateSid",
    },
    NamedCode {
        code: UNKNOWN_DEPENDENCY,
        name: "UnknownDependency",
    },
    NamedCode {
        code: SELF_DEPENDENCY,
        name: "SelfDependency",
    },
    NamedCode {
        code: DEPENDENCY_CYCLE,
        name: "DependencyCycle",
    },
    NamedCode {
        code: TOO_MANY_SIGNALS,
        name: "TooManySignals",
    },
    NamedCode {
        code: REGION_UNKNOWN,
        name: "RegionUnknown",
    },
    NamedCode {
        code: REGION_OVERLAP,
        name: "RegionOverlap",
    },
    NamedCode {
        code: TOO_MANY_PARTITIONS,
        name: "TooManyPartitions",
    },
    NamedCode {
        code: TOO_MANY_CONNECTIONS,
        name: "TooManyConnections",
    },
    NamedCode {
        code: BUDGET_WITHOUT_PERMISSION,
        name: "BudgetWithoutPermission",
    },
    NamedCode {
        code: DUPLICATE_IRQ_SOURCE,
        name: "DuplicateIrqSource",
    },
    NamedCode {
        code: MEMORY_TOO_LARGE,
        name: "MemoryTooLarge",
    },
    NamedCode {
        code: SCRIPT_SYNTAX,
        name: "ScriptSyntax",
    },
    NamedCode {
        code: UNKNOWN_ACTOR,
        name: "UnknownActor",
    },
    NamedCode {
        code: DUPLICATE_STATELESS_INDEX,
        name: "DuplicateStatelessIndex",
    },
    NamedCode {
        code: TOO_MANY_STATELESS,
        name: "TooManyStateless",
    },
    NamedCode {
        code: FILE_TOO_LONG,
        name: "FileTooLong",
    },
    NamedCode {
        code: TRACE_SYNTAX,
        name: "TraceSyntax",
    },
];

fn name_in(names: &[NamedCode], code: u8) -> &'static str
    ensures { result.now ≡ name_in (map (λ c. (c.code, c.name.now)) names.now) code }
{
    for named in names {
        if named.code == code {
            return named.name;
        }
    }
    ""
}

fn code_name(code: u8) -> &'static str
    ensures { result.now ≡ code_name code }
{
    name_in(&CODE_NAMES, code)
}

fn root_text(root: Root) -> &'static str
    ensures { result.now ≡ root_text root }
{
    match root {
        Root::System => "system",
        Root::Scenario => "scenario",
        Root::Trace => "trace",
    }
}

fn append_step(line: &mut Vec<u8>, step: PathStep) -> Result<(), AllocError>
    ensures { OnOk result (line.new.items ≡ line.old.items ++ step_text step) }
{
    append(line, "/")?;
    match step {
        PathStep::Key(key) => append(line, key.text()),
        PathStep::Index(index) => append_number(line, index),
    }
}

fn append_steps(line: &mut Vec<u8>, steps: &[PathStep]) -> Result<(), AllocError>
    ensures { OnOk result (line.new.items ≡ line.old.items ++ flat_map step_text steps.now) }
{
    for step in steps {
        append_step(line, *step)?;
    }
    Ok(())
}

fn append_path(line: &mut Vec<u8>, steps: &[PathStep]) -> Result<(), AllocError>
    ensures { OnOk result (line.new.items ≡ line.old.items ++ path_text steps.now) }
{
    if steps.is_empty() {
        return Ok(());
    }
    append(line, " ")?;
    append_steps(line, steps)
}

fn append_ids(line: &mut Vec<u8>, ids: &[u32]) -> Result<(), AllocError>
    ensures { OnOk result (line.new.items ≡ line.old.items ++ flat_map id_text ids.now) }
{
    for id in ids {
        append(line, " ")?;
        append_number(line, *id)?;
    }
    Ok(())
}

fn append_cycle(line: &mut Vec<u8>, code: u8, ids: &[u32]) -> Result<(), AllocError>
    ensures { OnOk result (line.new.items ≡ line.old.items ++ cycle_text code ids.now) }
{
    if code != DEPENDENCY_CYCLE {
        return Ok(());
    }
    append(line, " cycle")?;
    append_ids(line, ids)
}

/// The line that says why a file is refused, and where.
#[tactic(auto, unfolding(crate::specs::Refusals::refusal_line))]
pub fn refusal_line(alloc: Global, refusal: &Refusal) -> Result<Vec<u8>, AllocError>
    ensures { IfOk result (λ line. line.items ≡ refusal_line refusal.now) }
{
    let mut line = Vec::new(alloc);
    append(&mut line, "refused ")?;
    append_number(&mut line, u32::from(refusal.code))?;
    append(&mut line, " ")?;
    append(&mut line, code_name(refusal.code))?;
    append(&mut line, " ")?;
    append(&mut line, root_text(refusal.place.root))?;
    append_path(&mut line, refusal.place.steps.as_slice())?;
    append_cycle(&mut line, refusal.code, refusal.cycle.as_slice())?;
    append(&mut line, "\n")?;
    Ok(line)
}

/// The refusal of a trace's line, counted from 1. Its place is that number. The only error is want of memory.
pub fn wrong_line(alloc: Global, line: u32) -> Result<Refusal, AllocError>
    ensures { IfOk result (λ refusal. refusal ≡ wrong_line line) }
{
    let mut steps = Vec::new(alloc);
    steps.push(PathStep::Index(line))?;
    Ok(Refusal {
        code: TRACE_SYNTAX,
        place: Place {
            root: Root::Trace,
            steps: List::of(steps),
        },
        cycle: List::of(Vec::new(alloc)),
    })
}
