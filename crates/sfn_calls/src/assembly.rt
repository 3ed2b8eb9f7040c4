//! The functions of an SFN partition, from the lines of its script.
ghost use Rattle.std.specs.Prelude.{◌≡◌, ◌≤◌, ◌<◌, ◌+◌, ◌^◌, ◌==◌, ◌&&◌, ◌++◌, [], IfOk, IfSome, false, length, position};
ghost use Rattle.std.specs.List.{list_any};
ghost use Rattle.std.specs.Str.{bytes_eq};
ghost use Rattle.ffm_model.specs.declared.constants.TheConstants.{MAX_SCRIPT_LINES};
ghost use Rattle.ffm_model.specs.Reading.{Reads};
ghost use Rattle.ffm_model.specs.SfnScripts.{IsFunction, IsSfnScript};
ghost use Rattle.script_asm.specs.Lines.{lines_of};
ghost use Rattle.script_asm.specs.Made.{Gives};
ghost use Rattle.script_asm.specs.Views.{lines_view};
ghost use Rattle.sfn_calls.specs.FunctionLines.{function_of, functions_below, functions_of, functions_read, has_function, limited, own_service, service_of_head};
ghost use Rattle.sfn_calls.specs.SectionViews.{section_view};
ghost use Rattle.sfn_calls.specs.Sections.{sections};

use crate::functions::instructions_of;
use crate::sections::{Section, section_at, used_before};
use ffm_model::{
    Lines, List, MAX_SCRIPT_LINES, Name, ReadError, Service, SfnFunction, SfnScript, System,
};
use script_asm::{Line, LineError, labelled_lines, line_refusal, lines_of};
use std::alloc::{AllocError, AllocFailed, Global};

fn place_of(services: &[Service], partition: u32, name: &[u8]) -> Option<usize>
    ensures { result ≡ position
        (λ v. (v.owner == partition) && bytes_eq v.name name.now) services.now }
{
    services.iter().position(|v| v.owner == partition && v.name.as_str().as_bytes() == name)
}

// The place of the partition's own service of this name.
fn own_service(system: &System, partition: u32, name: &[u8]) -> Option<u32>
    ensures { result ≡ own_service system.now partition name.now }
{
    match place_of(system.services.as_slice(), partition, name) {
        Some(place) => Some(place as u32),
        None => None,
    }
}

fn has_function(functions: &[SfnFunction], service: u32) -> bool
    ensures { result ≡ has_function functions.now service }
{
    functions.iter().any(|f| f.service == service)
}

// The service of a head; None where it is no own service, or has a function above.
#[tactic(auto, unfolding(crate::specs::FunctionLines::service_of_head))]
fn service_of_head(
    system: &System,
    partition: u32,
    above: &[SfnFunction],
    name: &[u8],
) -> Option<u32>
    ensures gives { result ≡ service_of_head system.now partition above.now name.now }
    ensures fresh { IfSome result (λ service. has_function above.now service ≡ false) }
{
    let service = own_service(system, partition, name)?;
    if has_function(above, service) {
        None
    } else {
        Some(service)
    }
}

// The function of a section, below these.
#[tactic(auto, unfolding(crate::specs::FunctionLines::function_of))]
fn function_of(
    alloc: Global,
    system: &System,
    partition: u32,
    above: &[SfnFunction],
    section: &Section<'_>,
) -> Result<SfnFunction, LineError>
    requires { section.now.line + length section.now.texts.now < 2 ^ 31 }
    ensures gives { Gives (λ f. f) result
        (function_of system.now partition above.now (section_view section.now)) }
    ensures fresh { IfOk result (λ f. has_function above.now f.service ≡ false) }
    ensures function { IfOk result (λ f. IsFunction f.instructions) }
    ensures short { IfOk result (λ f. length f.instructions ≤ length section.now.texts.now) }
{
    let Some(service) = service_of_head(system, partition, above, section.name) else {
        return Err(LineError::Wrong(section.line));
    };
    let lines = labelled_lines(alloc, section.texts)?;
    let instructions = instructions_of(alloc, &lines, section.line + 1)?;
    Ok(SfnFunction {
        service,
        instructions: List::of(instructions),
    })
}

// The functions of all sections.
fn functions_of_sections<'a>(
    alloc: Global,
    system: &System,
    partition: u32,
    texts: &'a [Name],
    lines: &[Line<'a>],
) -> Result<Vec<SfnFunction>, LineError>
    requires lines { lines_view lines.now ≡ lines_of texts.now }
    requires few { length lines.now < 2 ^ 31 }
    ensures gives { Gives (λ v. v.items) result
        (functions_below system.now partition [] (sections 0 (lines_view lines.now))) }
    ensures kept { IfOk result (λ v. length lines.now ≤ MAX_SCRIPT_LINES → IsSfnScript v.items) }
{
    let mut functions = Vec::new(alloc);
    for at in 0..lines.len() {
        let Some(section) = section_at(texts, lines, at) else {
            continue;
        };
        let function = function_of(alloc, system, partition, functions.as_slice(), &section)?;
        functions.push(function)?;
    }
    Ok(functions)
}

#[tactic(auto, unfolding(crate::specs::FunctionLines::functions_of))]
fn functions_of(
    alloc: Global,
    texts: &[Name],
    system: &System,
    partition: u32,
) -> Result<Vec<SfnFunction>, LineError>
    requires { length texts.now < 2 ^ 31 }
    ensures gives { Gives (λ v. v.items) result
        (functions_of system.now partition (lines_of texts.now)) }
    ensures kept { IfOk result (λ v. length texts.now ≤ MAX_SCRIPT_LINES → IsSfnScript v.items) }
{
    let lines = lines_of(alloc, texts)?;
    if let Some(line) = used_before(lines.as_slice()) {
        return Err(LineError::Wrong(line as u32));
    }
    functions_of_sections(alloc, system, partition, texts, lines.as_slice())
}

// The functions of no more lines than a script may have.
fn limited(
    alloc: Global,
    texts: &[Name],
    system: &System,
    partition: u32,
) -> Result<Vec<SfnFunction>, LineError>
    requires { length texts.now < 2 ^ 31 }
    ensures gives { Gives (λ v. v.items) result
        (limited (length texts.now) (functions_of system.now partition (lines_of texts.now))) }
    ensures kept { IfOk result (λ v. IsSfnScript v.items) }
{
    match functions_of(alloc, texts, system, partition) {
        Ok(functions) => {
            if texts.len() <= MAX_SCRIPT_LINES as usize {
                Ok(functions)
            } else {
                Err(LineError::Wrong(MAX_SCRIPT_LINES))
            }
        }
        Err(LineError::Wrong(line)) => Err(LineError::Wrong(line.min(MAX_SCRIPT_LINES))),
        Err(LineError::Memory) => Err(LineError::Memory),
    }
}

/// The functions of these lines, for a partition of the system whose model is SFN. `partition` is its
/// place in the system, and `number` that of the script in the scenario file, from 0.
///
/// A head, the line `sfn NAME`, begins the function of the partition's own service of that name, and
/// ends the function above. Below it stand lines of partitions' scripts and `return V`; labels belong
/// to their function. A service without a head has no function.
///
/// The first wrong line is refused at its place, with the code SCRIPT_SYNTAX: before the first head
/// any line but a blank one or a comment, a head that names no own service or one that has a function
/// above, what is wrong in a partition's script, a register or operand `r14` or `r15`, and the calls
/// `wait`, `get`, `reply`, `clear`, `eoi`, `irq_enable`, `irq_disable`, `reset_signal` and `end`, the
/// lines `map_in`, `unmap_in`, `map_out` and `unmap_out`, and the line at place 4,096, since a script
/// has at most so many lines. A scenario file never has more: its reader refuses them.
/// Memory where no memory was found.
pub fn assemble_sfn(
    alloc: Global,
    lines: &Lines,
    system: &System,
    partition: u32,
    number: u32,
) -> Result<SfnScript, ReadError>
    ensures read { Reads (λ s. s) result (functions_read system.now partition number lines.now) }
{
    match limited(alloc, lines.as_slice(), system, partition) {
        Ok(functions) => Ok(SfnScript {
            functions: List::of(functions),
        }),
        Err(LineError::Wrong(line)) => Err(ReadError::Refused(line_refusal(alloc, number, line)?)),
        Err(LineError::Memory) => Err(ReadError::Memory),
    }
}
