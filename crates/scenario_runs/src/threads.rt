//! Runs with a thread for each actor.
//!
//! The actors share one manager by turns. A crew is one actor's worker. Each crew is driven by a
//! thread of its own; those for which no thread can be started are driven together by the caller.
ghost use Rattle.std.specs.Thread.{IsSync};
ghost use Rattle.std.specs.Prelude.{◌≡◌, ◌≤◌, ◌<◌, [], ◌∷◌, ◌++◌, Bool, IfOk, false, true, length, map, vec_capacity};
ghost use Rattle.std.specs.List.{AllByRecursion};
ghost use Rattle.ffm_model.specs.Actors.{actor_count};
ghost use Rattle.ffm_model.specs.Memory.{opening_memory};
ghost use Rattle.ffm_model.specs.Scenarios.{IsScenarioOf};
ghost use Rattle.actor_programs.specs.Programs.{ArePrograms};
ghost use Rattle.actor_programs.specs.declared.program.Program.TheVariants.{Plain};
ghost use Rattle.partition_sim.specs.Driving.{HaveContexts};
ghost use Rattle.spm_lock.specs.Passes.{IsOwn, record_of};
ghost use Rattle.scenario_runs.specs.Restarting.{AreRuns, finished};
ghost use Rattle.scenario_runs.specs.Runs.{RanBy};
ghost use Rattle.scenario_runs.specs.Threads.{AllFresh, AllFinished, AreNewCrews, AreDoneBy, AreSeats, AreUnused, CrewedBy, IsDoneBy, IsNewCrew, IsSeat, IsStart, IsTrip, Crew as Workers, SameWorkers, StartsFrom, crews_in, left_of, waiting};

use crate::restarting::{Runs, alone};
use crate::scheduled::Ran;
use crate::starts::Starts;
use actor_programs::{Program, scripts_of};
use ffm_model::{ActorId, Gate, List, Memory, Scenario, Script, System};
use memory_image::opening_image;
use partition_sim::{Runner, Worker, drive, scripts_that_map_nothing};
use spm_core::Spm;
use spm_lock::{Pass, Shared};
use std::alloc::Global;
use std::snapshot::Snapshot;
use std::sync::Wait;
use std::sync::atomic::{AtomicBool, Ordering};
use std::thread;
use std::thread::{Promise, PromisedHandle, Threads};
use std::vec::IntoIter;

type Crew = List<Worker<Pass>>;

/// What an actor begins with: its script, and a runner for it.
#[derive(Drop)]
pub struct Start {
    runner: Runner,
    script: Script,
}

/// What a thread is to give back of a crew of this manager.
#[derive(Drop)]
pub struct Trip {
    shared: Snapshot<Shared>,
    crew: Snapshot<Crew>,
}

impl Promise<(bool, Crew)> for Trip {
    ghost use Rattle.scenario_runs.specs.Threads.{IsTrip};

    ghost kept_by = { λ p r. IsTrip p.shared.value p.crew.value r.0 r.1 };
}

/// How far a crew is.
#[derive(Drop)]
pub enum Progress {
    /// A thread drives it.
    Started(PromisedHandle<(bool, Crew), Trip>),
    /// It was driven, and this is its actor's pass.
    Driven(Pass),
    /// It waits for the caller.
    Waiting,
}

/// A crew as it was handed in, and how far it is.
#[derive(Drop)]
pub struct Seat {
    crew: Snapshot<Crew>,
    progress: Progress,
}

// What each actor begins with, by its script.
fn starts_of(alloc: Global, system: &System, scripts: List<Script>) -> Result<List<Start>, Memory>
    requires count { length scripts ≡ actor_count system.now }
    requires contexts { HaveContexts system.now scripts }
    ensures { IfOk result (λ starts. StartsFrom system.now 0 scripts starts) }
{
    let mut starts = Vec::new(alloc);
    let mut left = scripts.into_vec().into_iter();
    for a in 0..system.actor_count() {
        let script = left.next().unwrap();
        let runner = Runner::new(system, ActorId(a), script.parts.len() as u32);
        starts.push(Start { runner, script })?;
    }
    Ok(List::of(starts))
}

// The crew of one actor.
fn crew_of(alloc: Global, shared: &Shared, pass: Pass, start: Start) -> Result<Crew, Memory>
    requires own { IsOwn shared.now pass }
    requires new { record_of pass ≡ [] }
    requires start { IsStart start }
    ensures { IfOk result (λ crew. CrewedBy shared.now (pass ∷ []) (start ∷ []) (crew ∷ [])) }
{
    let mut crew = Vec::with_capacity(alloc, 1)?;
    crew.push_reserved(Worker::new(pass, start.runner, start.script));
    Ok(List::of(crew))
}

// The crews, one for each actor.
fn crews_of(
    alloc: Global,
    shared: &Shared,
    passes: List<Pass>,
    starts: List<Start>,
) -> Result<Vec<Crew>, Memory>
    requires count { length passes ≡ length starts }
    requires passes { AreUnused shared.now passes }
    requires starts { AllByRecursion IsStart starts }
    ensures { IfOk result (λ crews. CrewedBy shared.now passes starts crews.items) }
{
    let mut crews = Vec::with_capacity(alloc, passes.len())?;
    let mut left = starts.into_vec().into_iter();
    for pass in passes.into_vec() {
        let start = left.next().unwrap();
        crews.push_reserved(crew_of(alloc, shared, pass, start)?);
    }
    Ok(crews)
}

// So many flags, none of them set.
fn flags_of(alloc: Global, count: usize) -> Result<Vec<AtomicBool>, Memory>
    ensures { IfOk result (λ flags. length flags.items ≡ count) }
{
    let mut flags = Vec::with_capacity(alloc, count)?;
    for _ in 0..count {
        flags.push_reserved(AtomicBool::new(false));
    }
    Ok(flags)
}

// Drives the crew, unless the flag is set.
fn travel<R: Wait, G: Gate>(
    rt: &R,
    shared: &Shared,
    gate: &G,
    flag: &AtomicBool,
    crew: Crew,
) -> (bool, Crew)
    requires { AllFresh shared.now crew }
    ensures { IsTrip shared.now crew result.0 result.1 }
{
    if flag.load(Ordering::SeqCst) {
        return (false, crew);
    }
    let mut crew = crew;
    drive(rt, shared, &mut crew, gate);
    (true, crew)
}

// Drives the crew, where that wasn't done yet.
fn driven<R: Wait, G: Gate>(rt: &R, shared: &Shared, gate: &G, drove: bool, crew: Crew) -> Crew
    requires finished { drove ≡ true → AllFinished shared.now crew }
    requires fresh { drove ≡ false → AllFresh shared.now crew }
    ensures same { SameWorkers crew result }
    ensures finished { AllFinished shared.now result }
{
    if drove {
        return crew;
    }
    let mut crew = crew;
    drive(rt, shared, &mut crew, gate);
    crew
}

// The crew's worker.
fn worker_of(crew: Crew) -> Worker<Pass>
    requires { length crew ≡ 1 }
    ensures { crew ≡ result ∷ [] }
{
    crew.into_vec().into_iter().next().unwrap()
}

// The place of a crew that came back, whose worker joins those that wait where it wasn't driven.
fn seat_of(
    shared: &Shared,
    undriven: &mut Vec<Worker<Pass>>,
    crew: Snapshot<Crew>,
    trip: (bool, Crew),
) -> Seat
    requires new { IsNewCrew shared.now crew.value }
    requires trip { IsTrip shared.now crew.value trip.0 trip.1 }
    requires room { length undriven.old.items < vec_capacity undriven.old }
    ensures seat { IsSeat shared.now result }
    ensures crew { result.crew.value ≡ crew.value }
    ensures undriven { undriven.new.items
        ≡ undriven.old.items ++ left_of result.crew.value result.progress }
    ensures capacity { vec_capacity undriven.new ≡ vec_capacity undriven.old }
{
    let (drove, back) = trip;
    if drove {
        return Seat {
            crew,
            progress: Progress::Driven(worker_of(back).pass),
        };
    }
    undriven.push_reserved(worker_of(back));
    Seat {
        crew,
        progress: Progress::Waiting,
    }
}

// The actor of a crew.
fn actor_of(crew: &Crew) -> ActorId
    requires { length crew.now ≡ 1 }
{
    crew.as_slice()[0].pass.actor()
}

// The place of a crew for which no thread was started: its closure finds the flag set.
fn turned_back<F: FnOnce() -> (bool, Crew)>(
    shared: &Shared,
    flag: &AtomicBool,
    undriven: &mut Vec<Worker<Pass>>,
    crew: Snapshot<Crew>,
    trip: F,
) -> Seat
    requires new { IsNewCrew shared.now crew.value }
    requires may { F.pre trip }
    requires trip { (r : (Bool × Workers)) → F.post trip r → IsTrip shared.now crew.value r.0 r.1 }
    requires room { length undriven.old.items < vec_capacity undriven.old }
    ensures seat { IsSeat shared.now result }
    ensures crew { result.crew.value ≡ crew.value }
    ensures undriven { undriven.new.items
        ≡ undriven.old.items ++ left_of result.crew.value result.progress }
    ensures capacity { vec_capacity undriven.new ≡ vec_capacity undriven.old }
{
    flag.store(true, Ordering::SeqCst);
    seat_of(shared, undriven, crew, trip())
}

// The pass of a crew, when it is driven. Those that waited are driven by now, and come in order.
fn pass_of<R: Threads + Wait, G: Gate>(
    rt: &R,
    shared: &Shared,
    gate: &G,
    seat: Seat,
    workers: &mut IntoIter<Worker<Pass>>,
) -> Pass
    requires seat { IsSeat shared.now seat }
    requires next { (rest : Workers)
        × SameWorkers (left_of seat.crew.value seat.progress ++ rest) workers.old.rest.items }
    requires finished { AllFinished shared.now workers.old.rest.items }
    ensures pass { IsDoneBy shared.now seat.crew.value result }
    ensures left { (rest : Workers)
        → SameWorkers (left_of seat.crew.value seat.progress ++ rest) workers.old.rest.items
        → SameWorkers rest workers.new.rest.items }
    ensures finished { AllFinished shared.now workers.new.rest.items }
{
    let Seat { crew: _, progress } = seat;
    match progress {
        Progress::Started(handle) => {
            let (drove, crew) = handle.join(rt);
            worker_of(driven(rt, shared, gate, drove, crew)).pass
        }
        Progress::Driven(pass) => pass,
        Progress::Waiting => workers.next().unwrap().pass,
    }
}

// The passes of all crews, in order, when each is driven.
fn gather<R: Threads + Wait, G: Gate>(
    rt: &R,
    shared: &Shared,
    gate: &G,
    seats: Vec<Seat>,
    undriven: Vec<Worker<Pass>>,
    room: Vec<Pass>,
) -> List<Pass>
    requires seats { AreSeats shared.now seats.items }
    requires undriven { undriven.items ≡ waiting seats.items }
    requires fresh { AllFresh shared.now undriven.items }
    requires room { length seats.items ≤ vec_capacity room }
    requires none { room.items ≡ [] }
    ensures { AreDoneBy shared.now (crews_in seats.items) result }
{
    let mut passes = room;
    let mut workers = driven(rt, shared, gate, false, List::of(undriven))
        .into_vec()
        .into_iter();
    for seat in seats {
        passes.push_reserved(pass_of(rt, shared, gate, seat, &mut workers));
    }
    List::of(passes)
}

// Each crew is driven by a thread of its own, or where none may or can be started by the caller. All
// memory is taken before the first thread is started.
fn drive_crews<R: Threads + Wait + Sync, G: Gate + Sync, S: Starts>(
    rt: &R,
    alloc: Global,
    shared: &Shared,
    gate: &G,
    starts: &S,
    crews: Vec<Crew>,
) -> Result<List<Pass>, Memory>
    requires { AreNewCrews shared.now crews.items }
    ensures { IfOk result (AreDoneBy shared.now crews.items) }
{
    let count = crews.len();
    let flags = flags_of(alloc, count)?;
    let flags = flags.as_slice();
    let mut seats = Vec::with_capacity(alloc, count)?;
    let mut undriven = Vec::with_capacity(alloc, count)?;
    let room = Vec::with_capacity(alloc, count)?;
    Ok(thread::scope(
        thread::scope_env(),
        rt,
        move |scope| -> List<Pass>
            requires sync { IsSync R.row × IsSync G.row }
            requires new { AreNewCrews shared.now crews.items }
            requires flags { length crews.items ≤ length flags.now }
            requires room { (length crews.items ≤ vec_capacity seats)
                × (length crews.items ≤ vec_capacity undriven)
                × (length crews.items ≤ vec_capacity room) }
            requires none { (seats.items ≡ []) × (undriven.items ≡ []) × (room.items ≡ []) }
            ensures { AreDoneBy shared.entry.now crews.items result }
        {
            for crew in crews {
                let flag = &flags[seats.len()];
                let before = Snapshot::of(&crew);
                let trip = Trip {
                    shared: Snapshot::of(shared),
                    crew: Snapshot::of(&crew),
                };
                let may_start = starts.may_start(actor_of(&crew));
                let travels = move || -> (bool, Crew)
                    requires { AllFresh shared.now crew }
                    ensures { IsTrip shared.entry.now crew result.0 result.1 }
                { travel(rt, shared, gate, flag, crew) };
                let seat = if may_start {
                    match scope.spawn_with(trip, travels) {
                        Ok(handle) => Seat {
                            crew: before,
                            progress: Progress::Started(handle),
                        },
                        Err(refused) => {
                            turned_back(shared, flag, &mut undriven, before, refused.value)
                        }
                    }
                } else {
                    drop(trip);
                    turned_back(shared, flag, &mut undriven, before, travels)
                };
                seats.push_reserved(seat);
            }
            gather(rt, shared, gate, seats, undriven, room)
        },
    ))
}

// The run of scripts, one for each actor, over a system, each in a thread of its own.
fn run_scripts<R: Threads + Wait + Sync, G: Gate + Sync, S: Starts>(
    rt: &R,
    alloc: Global,
    gate: &G,
    starts: &S,
    system: System,
    scenario: &Scenario,
    scripts: List<Script>,
) -> Result<Ran, Memory>
    requires scenario { IsScenarioOf system scenario.now }
    requires scripts { length scripts ≡ actor_count system }
    requires contexts { HaveContexts system scripts }
    ensures system { IfOk result (λ ran. ran.spm.opening.system ≡ system) }
    ensures ran { IfOk result (λ ran.
        RanBy system (opening_memory scenario.now.memory) scenario.now (map Plain scripts)
        true ran.spm.history ran.verdict) }
{
    let image = opening_image(alloc, &system, scenario)?;
    let begins = starts_of(alloc, &system, scripts)?;
    let spm = Spm::new(alloc, system, image, scenario.limit)?;
    let (shared, passes) = Shared::new(alloc, spm)?;
    let crews = crews_of(alloc, &shared, passes, begins)?;
    let passes = drive_crews(rt, alloc, &shared, gate, starts, crews)?;
    let spm = shared.finish(passes);
    let _length = spm.length();
    match spm.verdict() {
        Some(verdict) => Ok(Ran { spm, verdict }),
        None => unreachable!(),
    }
}

/// The run of programs, one for each actor, over a system, each in a thread of its own; where none may
/// or can be started, the caller drives what is left. The schedule isn't used, and no run follows,
/// whatever restarts the scenario has.
///
/// Memory where no memory was found; no thread was started then.
pub fn run_in_threads<R: Threads + Wait + Sync, G: Gate + Sync, S: Starts>(
    rt: &R,
    alloc: Global,
    gate: &G,
    starts: &S,
    system: System,
    scenario: &Scenario,
    programs: List<Program>,
) -> Result<Runs, Memory>
    requires scenario { IsScenarioOf system scenario.now }
    requires programs { length programs ≡ actor_count system }
    requires fit { ArePrograms system programs }
    ensures system { IfOk result (λ runs. runs.system ≡ system) }
    ensures ran { IfOk result (λ runs.
        AreRuns system scenario.now programs true 0 (map finished runs.traces.items)) }
{
    scripts_that_map_nothing();
    let scripts = scripts_of(alloc, &system, programs)?;
    let ran = run_scripts(rt, alloc, gate, starts, system, scenario, scripts)?;
    Ok(alone(alloc, ran)?)
}
