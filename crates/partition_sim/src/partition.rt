//! The runner of a partition's script.
ghost use Rattle.std.specs.Prelude.{◌≡◌, if◌then◌else◌};
ghost use Rattle.ffm_model.specs.Scripts.{IsPart};

use ffm_model::{Call, Instruction, Outcome, System};
use mm_iovec::Held;
use script_engines::{held_arrive, held_call, is_blocked, line_at, note_held, place_after};
use std::marker::Model;

// The call that is due: the return of a call that waits for it, else that of the script.
fn call_due(waiting: bool, call: Call) -> Call
    ensures { result ≡ (if waiting then Call.Resume else call) }
{
    if waiting { Call::Resume } else { call }
}

/// Runs the script of a partition, which may map the vectors of the messages that it holds: sixteen
/// registers, a place in the script, and those messages.
///
/// Ask `next` for the partition's call, give its outcome to `after`, and so on. Where `next` is asked
/// at least once before each `after`, with the same script, each call is the one that the script
/// makes after the outcomes so far.
#[derive(Drop)]
pub struct PartitionRunner {
    held: Held,
    registers: [u32; 16],
    place: usize,
    // The last outcome is Blocked.
    waiting: bool,
    // The script stands at its next call.
    ready: bool,
    // That call, the line that makes it, and where the script goes on after it.
    call: Call,
    line: Option<Instruction>,
    after: usize,
}

impl Model for PartitionRunner {
    ghost use Rattle.partition_sim.specs.Partitions.{PartitionStanding};
    ghost use Rattle.script_engines.specs.Holdings.{holding};

    ghost Value = { PartitionStanding };

    ghost view = { λ r.
        record {
          holder = r.held.holder;
          at = holding r.registers r.place r.held.table;
          waiting = r.waiting;
          ready = r.ready;
          line = r.line;
          call = r.call;
          after = r.after;
        } };
}

impl PartitionRunner {
    ghost use Rattle.std.specs.Prelude.{◌<◌, ◌∷◌, ◌++◌, [], List, length};
    ghost use Rattle.ffm_model.specs.declared.machine.Outcome.{Outcome};
    ghost use Rattle.ffm_model.specs.declared.script.Instruction.{Instruction};
    ghost use Rattle.ffm_model.specs.Held.{Holder, holder_of};
    ghost use Rattle.ffm_model.specs.HeldPlans.{held_plan};
    ghost use Rattle.partition_sim.specs.Partitions.{AskedHeld, FollowsHeld};

    /// A runner at the start of a script, for a partition of the system. It has seen no outcome.
    pub fn new(system: &System, partition: u32) -> PartitionRunner
        requires { partition < length system.now.partitions }
        ensures { (script : List Instruction)
            → FollowsHeld (holder_of system.now partition) script [] result }
    {
        PartitionRunner {
            held: Held::new(system, partition),
            registers: [0; 16],
            place: 0,
            waiting: false,
            ready: false,
            call: Call::Resume,
            line: None,
            after: 0,
        }
    }

    // Does lines up to the next call, unless the script stands there.
    fn settle(&mut self, script: &[Instruction])
        requires { IsPart script.now }
        ensures { (p : Holder) (outcomes : List Outcome)
            → FollowsHeld p script.now outcomes self.old
            → AskedHeld p script.now outcomes self.new }
    {
        if self.ready {
            return;
        }
        let place = held_arrive(&mut self.held, &mut self.registers, script, self.place);
        self.place = place;
        self.line = line_at(script, place);
        self.call = held_call(&mut self.held, &self.registers, script, place);
        self.after = place_after(script, place);
        self.ready = true;
    }

    /// The call that the partition makes next. Asked again before `after`, it is the same call.
    pub fn next(&mut self, script: &[Instruction]) -> Call
        requires { IsPart script.now }
        ensures call { (p : Holder) (outcomes : List Outcome)
            → FollowsHeld p script.now outcomes self.old
            → result ≡ held_plan p script.now outcomes }
        ensures asked { (p : Holder) (outcomes : List Outcome)
            → FollowsHeld p script.now outcomes self.old
            → AskedHeld p script.now outcomes self.new }
        ensures again { (p : Holder) (outcomes : List Outcome)
            → FollowsHeld p script.now outcomes self.old
            → FollowsHeld p script.now outcomes self.new }
    {
        self.settle(script);
        call_due(self.waiting, self.call)
    }

    /// Takes the outcome of the call that was asked for.
    pub fn after(&mut self, outcome: &Outcome)
        ensures { (p : Holder) (script : List Instruction) (outcomes : List Outcome)
            → AskedHeld p script outcomes self.old
            → FollowsHeld p script (outcomes ++ outcome.now ∷ []) self.new }
    {
        if is_blocked(outcome) {
            self.waiting = true;
            return;
        }
        self.held.noted(self.line, self.call, *outcome);
        note_held(&mut self.registers, self.line, self.call, outcome);
        self.place = self.after;
        self.ready = false;
        self.waiting = false;
    }
}
