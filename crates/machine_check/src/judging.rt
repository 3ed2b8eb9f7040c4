//! Whole traces.
ghost use Rattle.std.specs.Prelude.{◌≡◌, ◌<◌, ◌≤◌, ◌+◌, ◌^◌, [], IfOk, length, map, replicate, false};
ghost use Rattle.std.specs.Prelude as prelude;
ghost use Rattle.ffm_model.specs.declared.machine.Handle.{Handle as HandleSeen};
ghost use Rattle.ffm_model.specs.State.{opening_spm};
ghost use Rattle.ffm_model.specs.Verdicts.{Judgement, judged, some_enabled, some_blocked, verdict_at};
ghost use Rattle.ffm_model.specs.Ranges.{ranges_of};
ghost use Rattle.memory_image.specs.Pieces.{byte_at, regions_of};
ghost use Rattle.machine_check.specs.Answers.{judgement};
ghost use Rattle.machine_check.specs.Checking.{Accepts, ChecksTo, Follows, Starts};
ghost use Rattle.machine_check.specs.Performed.{Knows};
ghost use Rattle.machine_check.specs.Reaching.{IsReached};
ghost use Rattle.machine_calls.specs.Machine.{spm_of_objects, IsMachineOf};

use crate::step::step;
use ffm_model::{ActorPhase, Entry, Memory, Source, SourceFlags, System, Trace, Verdict};
use machine_calls::{Machine, Objects};
use memory_image::Image;
use std::alloc::Global;
use std::collections::BTreeSet;

/// How a trace is judged.
#[derive(Clone, Copy, Debug, PartialEq, Eq)]
pub enum Checked {
    /// Its entries are a run of the machine, at most as many as the limit, and its verdict is that run's.
    Legal,
    /// The first place, counted from 1, at which it isn't: an entry that is no step after those before it or exceeds the
    /// limit, or, one after all entries, the verdict.
    IllegalAt(u32),
}

// So many copies of one value.
fn filled<T: Copy>(alloc: Global, value: T, count: usize) -> Result<Vec<T>, Memory>
    ensures { IfOk result (λ v. v.items ≡ replicate count value) }
{
    let mut items = Vec::new(alloc);
    items.resize(count, value)?;
    Ok(items)
}

// The flags of the sources at the start.
fn opening_flags(alloc: Global, sources: &[Source]) -> Result<Vec<SourceFlags>, Memory>
    ensures { IfOk result (λ v.
        v.items ≡ map (λ x. record { enabled = x.enabled; pending = false; asserted = false })
        sources.now) }
{
    let mut flags = Vec::new(alloc);
    for source in sources {
        flags.push(SourceFlags {
            enabled: source.enabled,
            pending: false,
            asserted: false,
        })?;
    }
    Ok(flags)
}

// The state that a run begins with.
fn opening(alloc: Global, system: &System) -> Result<Objects, Memory>
    ensures { IfOk result (λ o. spm_of_objects o ≡ opening_spm system.now) }
{
    let actors = system.actor_count() as usize;
    Ok(Objects {
        connections: Vec::new(alloc),
        connections_made: 0,
        messages: Vec::new(alloc),
        phases: filled(alloc, ActorPhase::Running, actors)?,
        doorbells: filled(alloc, false, system.partitions.len())?,
        sources: opening_flags(alloc, system.sources.as_slice())?,
    })
}

/// Some actor may go on.
pub fn is_some_enabled(objects: &Objects, system: &System) -> bool
    ensures { result ≡ some_enabled system.now (spm_of_objects objects.now) }
{
    (0..system.actor_count()).any(|actor| objects.is_enabled(system, actor))
}

/// Some actor waits for an answer.
pub fn is_some_blocked(objects: &Objects, system: &System) -> bool
    ensures { result ≡ some_blocked system.now (spm_of_objects objects.now) }
{
    (0..system.actor_count()).any(|actor| matches!(objects.phase(actor), ActorPhase::Blocked))
}

/// A trace as far as it was checked: the state of the machine after its first entries.
#[derive(Drop)]
pub struct Checker {
    /// Connections, messages, what each actor does, doorbells, interrupts and memory.
    pub machine: Machine,
    /// The handles that its entries gave.
    pub(crate) given: BTreeSet<i32>,
    /// How many entries were accepted.
    pub count: u32,
}

impl Checker {
    /// Before the first entry, with this memory, which has the system's regions. `Memory` where memory is
    /// wanting.
    pub fn new(alloc: Global, system: &System, memory: &Image) -> Result<Checker, Memory>
        requires { regions_of memory.now ≡ ranges_of system.now.regions }
        ensures starts { IfOk result (λ c. Starts system.now (byte_at memory.now) c) }
    {
        let machine = Machine {
            objects: opening(alloc, system)?,
            memory: memory.copy_of(alloc)?,
        };
        Ok(Checker {
            machine,
            given: BTreeSet::new(alloc),
            count: 0,
        })
    }

    /// Whether the entry is the next one of a run of at most so many. Where it isn't, the machine is of no
    /// more use. `Memory` where memory is wanting.
    pub fn accept(&mut self, system: &System, limit: u32, entry: &Entry) -> Result<bool, Memory>
        requires kept { IsMachineOf system.now self.old.machine }
        requires made { self.old.machine.objects.connections_made ≤ self.old.count }
        requires few { self.old.count < 2 ^ 31 }
        ensures accepts { (all : prelude.List HandleSeen) → Knows self.old.given all
            → Accepts system.now limit self.old all entry.now result self.new }
        ensures count { self.new.count ≤ self.old.count + 1 }
    {
        if self.count >= limit {
            return Ok(false);
        }
        let is_step = step(&mut self.machine, system, &mut self.given, entry)?;
        if !is_step {
            return Ok(false);
        }
        self.count += 1;
        Ok(true)
    }

    /// The verdict of a run that ends here and may have at most so many entries. None where it isn't ended: an
    /// actor can go on, and the entries are not as many as the limit.
    pub fn verdict(&self, system: &System, limit: u32) -> Option<Verdict>
        ensures { result ≡ verdict_at system.now limit self.now.count
            (spm_of_objects self.now.machine.objects) }
    {
        let objects = &self.machine.objects;
        if is_some_enabled(objects, system) {
            if self.count == limit {
                Some(Verdict::Full)
            } else {
                None
            }
        } else if is_some_blocked(objects, system) {
            Some(Verdict::Stalled)
        } else {
            Some(Verdict::Quiet)
        }
    }

    /// Judges by the verdict, after all entries.
    pub fn finish(&self, system: &System, limit: u32, verdict: Verdict) -> Checked
        requires { self.now.count < 2 ^ 31 }
        ensures { (j : Judgement) → ChecksTo system.now limit verdict j self.now []
            → judgement result ≡ j }
    {
        match self.verdict(system, limit) {
            Some(found) if found == verdict => Checked::Legal,
            _ => Checked::IllegalAt(self.count + 1),
        }
    }
}

// Entries that were followed.
#[derive(Drop)]
enum Followed {
    // All are steps within the limit.
    All(Checker),
    // So many are, and the next one is no step or is above the limit.
    Part(u32),
}

// Follows entries from the start, as far as they are steps of the machine and at most so many.
fn follow(
    alloc: Global,
    system: &System,
    memory: &Image,
    limit: u32,
    entries: &[Entry],
) -> Result<Followed, Memory>
    requires regions { regions_of memory.now ≡ ranges_of system.now.regions }
    requires few { length entries.now < 2 ^ 31 }
    ensures { IfOk result (λ f. Follows system.now (byte_at memory.now) limit entries.now f) }
{
    let mut checker = Checker::new(alloc, system, memory)?;
    for entry in entries {
        if !checker.accept(system, limit, entry)? {
            return Ok(Followed::Part(checker.count));
        }
    }
    Ok(Followed::All(checker))
}

/// The state after the first entries of a trace, from this memory: after as many as are steps of the
/// machine one after the other, and at most as many as the limit.
///
/// It needs memory for the state, for one copy of the image and for the handles that the entries give, and
/// answers `Memory` where that is wanting. The memory has the system's regions, and the entries are fewer
/// than 2^31. Where one of them is no step, those before it are followed twice.
pub fn reached(
    alloc: Global,
    system: &System,
    memory: &Image,
    limit: u32,
    entries: &[Entry],
) -> Result<Checker, Memory>
    requires regions { regions_of memory.now ≡ ranges_of system.now.regions }
    requires few { length entries.now < 2 ^ 31 }
    ensures { IfOk result (λ c. IsReached system.now (byte_at memory.now) limit entries.now c) }
{
    let count = match follow(alloc, system, memory, limit, entries)? {
        Followed::All(checker) => return Ok(checker),
        Followed::Part(count) => count as usize,
    };
    // An entry that is no step may have changed the machine.
    match follow(alloc, system, memory, limit, &entries[..count])? {
        Followed::All(checker) => Ok(checker),
        Followed::Part(_) => unreachable!(),
    }
}

/// Judges whether a trace is a run of the machine, of at most so many entries, from this memory.
///
/// It needs memory for the state, for one copy of the image and for the handles that the trace gives.
/// The memory has the system's regions, and the trace has fewer than 2^31 entries.
pub fn check(
    alloc: Global,
    system: &System,
    memory: &Image,
    limit: u32,
    trace: &Trace,
) -> Result<Checked, Memory>
    requires regions { regions_of memory.now ≡ ranges_of system.now.regions }
    requires few { length trace.now.entries < 2 ^ 31 }
    ensures { IfOk result (λ c.
        judgement c
        ≡ judged system.now (byte_at memory.now) limit trace.now.entries trace.now.verdict) }
{
    match follow(alloc, system, memory, limit, trace.entries.as_slice())? {
        Followed::All(checker) => Ok(checker.finish(system, limit, trace.verdict)),
        Followed::Part(count) => Ok(Checked::IllegalAt(count + 1)),
    }
}
