//! What a command and its files ask to be done.

ghost use Rattle.std.specs.Prelude.{◌≡◌, ◌≤◌, ℕ, [], None, Ok, Some, IsOkAnd, false, true, IfOk, length};
ghost use Rattle.outside_io.specs.Files.{Asks, part_as};
ghost use Rattle.ffm_model.specs.Reading.{Reads, file_at};
ghost use Rattle.ffm_model.specs.Scenarios.{IsScenarioOf};
ghost use Rattle.command_words.specs.Words.{has_threads, make, order};
ghost use Rattle.work_orders.specs.Work.{system_in, system_at, scenario_at, scenario_for, run_in, list_in, run_at, trace_in, judge_in, judge_at, make_of, work_of};
ghost use Rattle.work_orders.specs.View.{work, IsWork, inspection_asked, inspection_of, threads_of};

use crate::limits::MAX_TRACE_BYTES;
use actor_programs::{Program, programs_of};
use command_words::{Command, Inspection};
use ffm_model::{
    BAD_VALUE, FILE_TOO_LONG, Key, List, MAX_FILE_BYTES, PartsError, PathStep, Place, ReadError,
    Refusal, Root, Scenario, System,
};
use manifest_compile::compile;
use outside_io::{FileError, Files};
use std::alloc::Global;
use system_json::{read_scenario, read_system};

/// The runs of a scenario's programs, one for each actor, over a system: one with a thread for each
/// actor, or without threads as many as the scenario's restarts allow.
#[derive(Drop)]
pub struct RunWork {
    pub threads: bool,
    pub system: System,
    pub scenario: Scenario,
    pub programs: List<Program>,
}

/// A trace's text, for a scenario over a system, and how it is to be judged.
#[derive(Drop)]
pub struct TraceWork {
    pub inspection: Inspection,
    pub system: System,
    pub scenario: Scenario,
    pub trace: Vec<u8>,
}

/// What is to be done.
#[derive(Drop)]
pub enum Work {
    /// To list a system.
    Listing(System),
    Run(RunWork),
    /// To judge a trace.
    Judge(TraceWork),
    /// To run a generated system, with so many requests of each client.
    Make(u32),
}

// The refusal, with this code, of what stands at these steps of a file.
fn refusal(alloc: Global, code: u8, root: Root, steps: Vec<PathStep>) -> Refusal
    ensures { result ≡
        record { code = code; place = record { root = root; steps = steps.items }; cycle = [] } }
{
    Refusal {
        code,
        place: Place {
            root,
            steps: List::of(steps),
        },
        cycle: List::of(Vec::new(alloc)),
    }
}

// The bytes of a file.
fn bytes_of<F: Files>(
    alloc: Global,
    files: &mut F,
    root: Root,
    limit: u32,
    name: &str,
) -> Result<Vec<u8>, PartsError>
    ensures asks { Asks (F.seen files.old) (F.seen files.new)
        (part_as (λ bytes. bytes.items) result) (λ of.
        file_at of (record { root = root; steps = [] }) limit name.now) }
    ensures short { IfOk result (λ bytes. length bytes.items ≤ limit) }
{
    match files.read(alloc, name, limit) {
        Ok(bytes) => Ok(bytes),
        Err(FileError::TooLong) => {
            let too_long = refusal(alloc, FILE_TOO_LONG, root, Vec::new(alloc));
            Err(PartsError::Refused(too_long))
        }
        Err(FileError::Failed) => Err(PartsError::ReadFault),
        Err(FileError::Memory) => Err(PartsError::Memory),
    }
}

/// The system of a system file's bytes.
pub fn system_in<F: Files>(alloc: Global, files: &mut F, bytes: &[u8]) -> Result<System, PartsError>
    ensures { Asks (F.seen files.old) (F.seen files.new) (part_as (λ s. s) result)
        (λ of. system_in of bytes.now) }
{
    let parts = read_system(alloc, bytes, files)?;
    Ok(compile(alloc, &parts)?)
}

// The system of a system file.
fn system_at<F: Files>(alloc: Global, files: &mut F, name: &str) -> Result<System, PartsError>
    ensures { Asks (F.seen files.old) (F.seen files.new) (part_as (λ s. s) result)
        (λ of. system_at of name.now) }
{
    let bytes = bytes_of(alloc, files, Root::System, MAX_FILE_BYTES, name)?;
    system_in(alloc, files, &bytes)
}

// The scenario of a scenario file.
fn scenario_at<F: Files>(
    alloc: Global,
    files: &mut F,
    system: &System,
    name: &str,
) -> Result<Scenario, PartsError>
    ensures asks { Asks (F.seen files.old) (F.seen files.new) (part_as (λ c. c) result)
        (λ of. scenario_at of system.now name.now) }
    ensures kept { IfOk result (IsScenarioOf system.now) }
{
    let bytes = bytes_of(alloc, files, Root::Scenario, MAX_FILE_BYTES, name)?;
    Ok(read_scenario(alloc, &bytes, system)?)
}

// The scenario, for one run alone or for as many as it allows.
fn scenario_for(alloc: Global, single: bool, scenario: Scenario) -> Result<Scenario, ReadError>
    ensures reads { Reads (λ c. c) result (scenario_for single scenario) }
    ensures same { IfOk result (λ c. c ≡ scenario) }
    ensures restarts { single ≡ true → IfOk result (λ c. c.restarts ≡ 0) }
{
    if single && scenario.restarts > 0 {
        let steps = vec![in alloc; PathStep::Key(Key::Restarts)]?;
        let restarts = refusal(alloc, BAD_VALUE, Root::Scenario, steps);
        return Err(ReadError::Refused(restarts));
    }
    Ok(scenario)
}

// The scenario's runs of a system.
fn run_in<F: Files>(
    alloc: Global,
    files: &mut F,
    threads: bool,
    system: System,
    name: &str,
) -> Result<Work, PartsError>
    ensures asks { Asks (F.seen files.old) (F.seen files.new) (part_as work result)
        (λ of. run_in of threads system name.now) }
    ensures kept { IfOk result IsWork }
    ensures threads { IfOk result (λ work. threads_of work ≡ threads) }
    ensures inspection { IfOk result (λ work. inspection_of work ≡ None) }
{
    let scenario = scenario_at(alloc, files, &system, name)?;
    let programs = programs_of(alloc, &system, &scenario)?;
    let scenario = scenario_for(alloc, threads, scenario)?;
    Ok(Work::Run(RunWork {
        threads,
        system,
        scenario,
        programs,
    }))
}

// The listing of a system, from its file.
fn list_in<F: Files>(alloc: Global, files: &mut F, name: &str) -> Result<Work, PartsError>
    ensures asks { Asks (F.seen files.old) (F.seen files.new) (part_as work result)
        (λ of. list_in of name.now) }
    ensures kept { IfOk result IsWork }
    ensures threads { IfOk result (λ work. threads_of work ≡ false) }
    ensures inspection { IfOk result (λ work. inspection_of work ≡ None) }
{
    let system = system_at(alloc, files, name)?;
    Ok(Work::Listing(system))
}

// The scenario's runs of a system, from their files.
fn run_at<F: Files>(
    alloc: Global,
    files: &mut F,
    threads: bool,
    system: &str,
    scenario: &str,
) -> Result<Work, PartsError>
    ensures asks { Asks (F.seen files.old) (F.seen files.new) (part_as work result)
        (λ of. run_at of threads system.now scenario.now) }
    ensures kept { IfOk result IsWork }
    ensures threads { IfOk result (λ work. threads_of work ≡ threads) }
    ensures inspection { IfOk result (λ work. inspection_of work ≡ None) }
{
    let system = system_at(alloc, files, system)?;
    run_in(alloc, files, threads, system, scenario)
}

// A trace for a scenario over a system, from its file.
fn trace_in<F: Files>(
    alloc: Global,
    files: &mut F,
    inspection: Inspection,
    system: System,
    scenario: Scenario,
    name: &str,
) -> Result<Work, PartsError>
    requires { IsScenarioOf system scenario }
    ensures asks { Asks (F.seen files.old) (F.seen files.new) (part_as work result)
        (λ of. trace_in of inspection system scenario name.now) }
    ensures kept { IfOk result IsWork }
    ensures threads { IfOk result (λ work. threads_of work ≡ false) }
    ensures inspection { IfOk result (λ work. inspection_of work ≡ Some inspection) }
{
    let trace = bytes_of(alloc, files, Root::Trace, MAX_TRACE_BYTES, name)?;
    Ok(Work::Judge(TraceWork {
        inspection,
        system,
        scenario,
        trace,
    }))
}

// A trace for a system, which is of one run, from the files of the scenario and the trace. The
// programs are read and not used.
fn judge_in<F: Files>(
    alloc: Global,
    files: &mut F,
    inspection: Inspection,
    system: System,
    scenario: &str,
    trace: &str,
) -> Result<Work, PartsError>
    ensures asks { Asks (F.seen files.old) (F.seen files.new) (part_as work result)
        (λ of. judge_in of inspection system scenario.now trace.now) }
    ensures kept { IfOk result IsWork }
    ensures threads { IfOk result (λ work. threads_of work ≡ false) }
    ensures inspection { IfOk result (λ work. inspection_of work ≡ Some inspection) }
{
    let scenario = scenario_at(alloc, files, &system, scenario)?;
    let _programs = programs_of(alloc, &system, &scenario)?;
    let scenario = scenario_for(alloc, true, scenario)?;
    trace_in(alloc, files, inspection, system, scenario, trace)
}

// A trace for a scenario over a system, from their files.
fn judge_at<F: Files>(
    alloc: Global,
    files: &mut F,
    inspection: Inspection,
    system: &str,
    scenario: &str,
    trace: &str,
) -> Result<Work, PartsError>
    ensures asks { Asks (F.seen files.old) (F.seen files.new) (part_as work result)
        (λ of. judge_at of inspection system.now scenario.now trace.now) }
    ensures kept { IfOk result IsWork }
    ensures threads { IfOk result (λ work. threads_of work ≡ false) }
    ensures inspection { IfOk result (λ work. inspection_of work ≡ Some inspection) }
{
    let system = system_at(alloc, files, system)?;
    judge_in(alloc, files, inspection, system, scenario, trace)
}

/// The work of a command.
pub fn work_of<F: Files>(
    alloc: Global,
    command: Command<'_>,
    files: &mut F,
) -> Result<Work, PartsError>
    ensures asks { Asks (F.seen files.old) (F.seen files.new) (part_as work result)
        (λ of. work_of of (order command.entry)) }
    ensures kept { IfOk result IsWork }
    ensures threads { IfOk result (λ work. threads_of work ≡ has_threads (order command.entry)) }
    ensures inspection { IfOk result (λ work.
        inspection_of work ≡ inspection_asked (order command.entry)) }

    // A generated run asks for no file.
    ensures made { (rounds : ℕ) → order command.entry ≡ make rounds →
        IsOkAnd result (λ w. work w ≡ make_of rounds) }
{
    match command {
        Command::Compile { system } => list_in(alloc, files, system),
        Command::Run {
            threads,
            system,
            scenario,
        } => run_at(alloc, files, threads, system, scenario),
        Command::Judge {
            inspection,
            system,
            scenario,
            trace,
        } => judge_at(alloc, files, inspection, system, scenario, trace),
        Command::Make { rounds } => Ok(Work::Make(rounds)),
    }
}
