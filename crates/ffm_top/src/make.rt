//! Runs a generated system, and sums the run up.

ghost use Rattle.std.specs.Prelude.{◌≡◌, ◌<◌, ◌≤◌, ◌*◌, Ok, IfOk, IfSome, length, slice_get, take};
ghost use Rattle.ffm_model.specs.Scenarios.{scenario_in, IsScenarioOf};
ghost use Rattle.ffm_model.specs.Systems.{stopped};
ghost use Rattle.system_texts.specs.Texts.{system_text, scenario_text};
ghost use Rattle.outside_io.specs.MemoryFiles.{held_by};
ghost use Rattle.ffm_top.specs.Makes.{IsGenerated, IsMade, moved_by, bytes_moved, summary_line, MadeDue};
ghost use Rattle.ffm_top.specs.Report.{text_of, status_of};
ghost use Rattle.work_orders.specs.View.{IsRun};
ghost use Rattle.work_orders.specs.Work.{system_in};

use crate::report::Report;
use actor_programs::programs_of;
use ffm_model::{Call, Entry, Memory, Outcome, PartsError, Scenario, System, Verdict};
use outside_io::MemoryFiles;
use scenario_runs::{Ran, run_once};
use spm_core::Spm;
use std::alloc::{AllocError, Global};
use system_json::read_scenario;
use system_texts::{scenario_text, system_text};
use trace_print::verdict_word;
use work_orders::{RunWork, system_in};

// The generated system, of which no file is read.
fn system_of(alloc: Global, nothing: &mut MemoryFiles) -> Result<System, PartsError>
    ensures { IfOk result (λ s. (system_in (held_by nothing.old) system_text).gives ≡ Ok s) }
{
    let text = system_text(alloc)?;
    system_in(alloc, nothing, text.as_slice())
}

// The generated scenario, with so many requests of each client.
fn scenario_of(alloc: Global, rounds: u32, system: &System) -> Result<Scenario, PartsError>
    ensures given { IfOk result (λ c.
        stopped (scenario_in system.now (scenario_text rounds)) ≡ Ok c) }
    ensures kept { IfOk result (IsScenarioOf system.now) }
{
    let text = scenario_text(alloc, rounds)?;
    Ok(read_scenario(alloc, text.as_slice(), system)?)
}

// What the generated texts stand for, with so many requests of each client.
#[tactic(auto, using(crate::proofs::Makes::is_generated))]
fn generated(alloc: Global, rounds: u32) -> Result<RunWork, PartsError>
    ensures generated { IfOk result (λ work.
        IsGenerated rounds work.system work.scenario work.programs) }
    ensures kept { IfOk result IsRun }
{
    let mut nothing = MemoryFiles::new(alloc);
    let system = system_of(alloc, &mut nothing)?;
    let scenario = scenario_of(alloc, rounds, &system)?;
    let programs = programs_of(alloc, &system, &scenario)?;
    Ok(RunWork {
        threads: false,
        system,
        scenario,
        programs,
    })
}

// How many bytes an event moved.
fn moved_by(entry: Entry) -> u32
    ensures { result ≡ moved_by entry.call entry.outcome }
{
    match (entry.call, entry.outcome) {
        (Call::Read { .. }, Outcome::Number(count)) => count,
        (Call::Write { len, .. }, Outcome::Done) => len,
        _ => 0,
    }
}

// How many bytes the event at a place moved, counted from 0.
fn moved_at(spm: &Spm, place: u32) -> u32
    requires { place < length spm.now.history }
    ensures { IfSome (slice_get spm.now.history place) (λ e. result ≡ moved_by e.call e.outcome) }
{
    let _length = spm.length();
    moved_by(spm.entry(place + 1))
}

// How many bytes the events of a run moved.
fn bytes_moved(spm: &Spm) -> u64
    ensures { result ≡ bytes_moved spm.now.history }
{
    let mut moved = 0;
    for place in 0..spm.length() {
        moved += u64::from(moved_at(spm, place));
    }
    moved
}

// The line that sums a run up.
#[tactic(auto, unfolding(crate::specs::Makes::summary_line))]
fn summary_line(
    alloc: Global,
    rounds: u32,
    count: u32,
    moved: u64,
    verdict: Verdict,
) -> Result<Vec<u8>, AllocError>
    ensures { IfOk result (λ line. line.items ≡ summary_line rounds count moved verdict) }
{
    let word = verdict_word(verdict);
    let line = format!(in alloc; "make {rounds} entries {count} bytes {moved} {word}\n")?;
    Ok(line.into_bytes())
}

// The run of what the generated texts stand for.
#[tactic(auto, using(crate::proofs::Makes::is_made))]
fn made(alloc: Global, rounds: u32) -> Result<Ran, PartsError>
    ensures { IfOk result (λ ran. IsMade rounds ran.spm.history ran.verdict) }
{
    let RunWork {
        system,
        scenario,
        programs,
        ..
    } = generated(alloc, rounds)?;
    Ok(run_once(alloc, system, &scenario, programs)?)
}

// The report of a run of the generated system.
#[tactic(auto, unfolding(crate::specs::Report::text_of), using(crate::proofs::Makes::made_due))]
fn summed_up(alloc: Global, rounds: u32, ran: &Ran) -> Result<Report, AllocError>
    requires { IsMade rounds ran.now.spm.history ran.now.verdict }
    ensures { IfOk result (λ report. MadeDue rounds (text_of report) (status_of report)) }
{
    let count = ran.spm.length();
    let line = summary_line(alloc, rounds, count, bytes_moved(&ran.spm), ran.verdict)?;
    Ok(Report::Text(line))
}

/// The report of a generated system's run, with so many requests of each client. Memory where no
/// memory was found.
pub fn make(alloc: Global, rounds: u32) -> Result<Report, Memory>
    ensures { IfOk result (λ report. MadeDue rounds (text_of report) (status_of report)) }
{
    let Ok(ran) = made(alloc, rounds) else {
        return Err(Memory);
    };
    Ok(summed_up(alloc, rounds, &ran)?)
}
