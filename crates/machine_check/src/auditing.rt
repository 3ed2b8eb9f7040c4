//! Which bytes each entry of a trace changed.
ghost use Rattle.std.specs.Prelude.{◌≡◌, ◌<◌, ◌≤◌, ◌+◌, ◌++◌, ◌^◌, [], ℕ, false, length, IfOk};
ghost use Rattle.std.specs.Prelude as prelude;
ghost use Rattle.std.specs.List.{cons_option};
ghost use Rattle.memory_image.specs.Differences.{any_covers};
ghost use Rattle.ffm_model.specs.declared.machine.Handle.{Handle as HandleSeen};
ghost use Rattle.ffm_model.specs.Ranges.{ranges_of};
ghost use Rattle.memory_image.specs.Pieces.{byte_at, regions_of};
ghost use Rattle.machine_calls.specs.Machine.{IsMachineOf};
ghost use Rattle.machine_check.specs.Auditing.{IsAudit};
ghost use Rattle.machine_check.specs.Audited.{change_of, Audits, Begins, IsReady, Tells};
ghost use Rattle.machine_check.specs.Performed.{Knows};
ghost use Rattle.machine_check.specs.Written.{ranges_in, AreInside};

use crate::differences::{Differences, differences_in, take_over};
use crate::judging::{Checked, Checker};
use crate::written::{Ranges, written};
use ffm_model::{ActorId, Entry, List, Memory, System, Trace};
use memory_image::Image;
use std::alloc::Global;

/// What an entry changed: the bytes that differ after it from those before it.
#[derive(Clone, Copy, Debug, PartialEq, Eq)]
pub struct Change {
    /// The place of the entry, counted from 1.
    pub place: u32,
    /// The least address of a byte that it changed.
    pub lowest: u32,
    /// How many bytes it changed.
    pub count: u32,
    /// The least address that it changed outside of its actor's own RAM, where there is one. A
    /// partition's own RAM is its own region, and a non-secure client's the non-secure region.
    pub outside: Option<u32>,
}

/// The changes of a trace's legal entries in their order, one for each that changed a byte, and how
/// the trace is judged. The entries before the first illegal place are legal, or all.
#[derive(Debug, Drop)]
pub struct AuditReport {
    pub changes: List<Change>,
    pub result: Checked,
}

/// A trace as far as it was audited.
#[derive(Drop)]
struct Auditor {
    checker: Checker,
    /// The memory as it was before an entry, until the entry's change is told.
    before: Image,
    changes: Vec<Change>,
}

// The change of the entry at a place, where a byte differs.
fn change_of(place: u32, found: Differences) -> Option<Change>
    ensures { result ≡ change_of place found }
{
    let lowest = found.lowest?;
    Some(Change {
        place,
        lowest,
        count: found.count,
        outside: found.outside,
    })
}

// Adds a change, where there is one.
fn push_change(changes: &mut Vec<Change>, change: Option<Change>) -> Result<(), Memory>
    ensures { IfOk result (λ u. changes.new.items ≡ changes.old.items ++ cons_option change []) }
{
    if let Some(change) = change {
        changes.push(change)?;
    }
    Ok(())
}

impl Auditor {
    // Before the first entry.
    fn new(alloc: Global, system: &System, memory: &Image) -> Result<Auditor, Memory>
        requires { regions_of memory.now ≡ ranges_of system.now.regions }
        ensures { IfOk result (λ a. Begins system.now (byte_at memory.now) a) }
    {
        Ok(Auditor {
            checker: Checker::new(alloc, system, memory)?,
            before: memory.copy_of(alloc)?,
            changes: Vec::new(alloc),
        })
    }

    // Tells what the last entry changed, which is no byte outside of some ranges, and brings the memory
    // before it up to date.
    fn tell(&mut self, system: &System, actor: ActorId, written: Ranges) -> Result<(), Memory>
        requires kept { IsMachineOf system.now self.old.checker.machine }
        requires regions { regions_of self.old.before ≡ ranges_of system.now.regions }
        requires inside { AreInside (ranges_of system.now.regions) written }
        requires stays { (x : ℕ) → any_covers (ranges_in written) x ≡ false
            → byte_at self.old.checker.machine.memory x ≡ byte_at self.old.before x }
        ensures checker { self.new.checker ≡ self.old.checker }
        ensures tells { IfOk result (λ u. Tells system.now actor.0 self.old self.new) }
    {
        let memory = &self.checker.machine.memory;
        let found = differences_in(system, actor, &self.before, memory, written);
        take_over(&mut self.before, memory, written);
        push_change(&mut self.changes, change_of(self.checker.count, found))
    }

    // Whether the entry is the next one of a run of at most so many. Where it is, what it changed is told.
    fn accept(&mut self, system: &System, limit: u32, entry: &Entry) -> Result<bool, Memory>
        requires ready { IsReady system.now self.old }
        requires few { self.old.checker.count < 2 ^ 31 }
        ensures audits { (all : prelude.List HandleSeen) → Knows self.old.checker.given all
            → Audits system.now limit self.old all entry.now result self.new }
        ensures count { self.new.checker.count ≤ self.old.checker.count + 1 }
    {
        let written = written(&self.checker.machine, system, entry);
        if !self.checker.accept(system, limit, entry)? {
            return Ok(false);
        }
        self.tell(system, entry.actor, written)?;
        Ok(true)
    }

    // The report of all that was told.
    fn report(self, judged: Checked) -> AuditReport
        ensures changes { result.changes ≡ self.changes.items }
        ensures result { result.result ≡ judged }
    {
        AuditReport {
            changes: List::of(self.changes),
            result: judged,
        }
    }
}

/// Says of each legal entry of a trace which bytes it changed, and judges the trace as `check` does.
///
/// It needs memory for the state, for two copies of the image, for the handles that the trace gives and
/// for the changes. The memory has the system's regions, and the trace has fewer than 2^31 entries.
pub fn audit(
    alloc: Global,
    system: &System,
    memory: &Image,
    limit: u32,
    trace: &Trace,
) -> Result<AuditReport, Memory>
    requires regions { regions_of memory.now ≡ ranges_of system.now.regions }
    requires few { length trace.now.entries < 2 ^ 31 }
    ensures { IfOk result (λ report.
        IsAudit system.now (byte_at memory.now) limit trace.now.entries trace.now.verdict report) }
{
    let mut auditor = Auditor::new(alloc, system, memory)?;
    for entry in trace.entries.as_slice() {
        if !auditor.accept(system, limit, entry)? {
            let place = auditor.checker.count + 1;
            return Ok(auditor.report(Checked::IllegalAt(place)));
        }
    }
    let judged = auditor.checker.finish(system, limit, trace.verdict);
    Ok(auditor.report(judged))
}
