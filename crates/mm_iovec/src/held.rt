//! The table of the messages that a partition holds.

use crate::holder::Holder;
use crate::item::HeldItem;
use crate::line::{MmLine, MmStep};
use crate::steps;
use crate::table::{self, Messages};
use arrayvec::ArrayVec;
use ffm_model::{Call, Handle, Instruction, Message, Outcome, System};
use std::marker::Model;

/// The messages that a partition got and hasn't answered, each with what has become of its vectors: at
/// most 304 messages, with four input and four output vectors each. No method takes memory.
///
/// Contracts see the partition for which it was made, as far as messages and windows rest on it, and the
/// list of the messages, the older ones first.
#[derive(Drop)]
pub struct Held {
    holder: Holder,
    messages: Messages,
}

impl Model for Held {
    ghost use Rattle.mm_iovec.specs.HeldView.{HeldView};

    ghost Value = { HeldView };

    ghost use Rattle.std.specs.Prelude.{map};
    ghost use Rattle.mm_iovec.specs.HeldView.{HasWindows};
    ghost use Rattle.mm_iovec.specs.Items.{message_of};

    ghost view = { λ h. record { holder = h.holder; table = map message_of h.messages.items } };

    ghost invariant = { λ h. HasWindows h.holder (map message_of h.messages.items) };
}

impl Held {
    ghost use Rattle.std.specs.Prelude.{◌≡◌, ◌<◌, ◌↔◌, ℕ, [], false, length, map, true};
    ghost use Rattle.ffm_model.specs.declared.machine.Call.TheVariants as call;
    ghost use Rattle.ffm_model.specs.declared.machine.Outcome.TheVariants as outcome;
    ghost use Rattle.ffm_model.specs.Held.{holder_of, table_after, without};
    ghost use Rattle.ffm_model.specs.HeldPlans.{Holding, table_noted};
    ghost use Rattle.mm_iovec.specs.HeldView.{can_hold};
    ghost use Rattle.mm_iovec.specs.Items.{message_of};
    ghost use Rattle.mm_iovec.specs.Lines.{can_do, engine_line, engine_step, step_of, table_of};

    /// A partition of a system, which holds no message. It has to be one of the system's.
    pub fn new(system: &System, partition: u32) -> Held
        requires { partition < length system.now.partitions }
        ensures { result ≡ record { holder = holder_of system.now partition; table = [] } }
    {
        Held {
            holder: Holder::of(system, partition),
            messages: ArrayVec::new(),
        }
    }

    /// The messages that are held, the older ones first.
    pub fn messages(&self) -> &[HeldItem]
        ensures { map message_of result.now ≡ self.now.table }
    {
        self.messages.as_slice()
    }

    /// Holds these messages, the older ones first, in place of its own, and says whether it can: at most
    /// 304, and where the heap is too small for windows none that has an output vector mapped. Else
    /// nothing changes.
    pub fn hold(&mut self, messages: &[HeldItem]) -> bool
        ensures can { result ≡ can_hold self.old.holder (map message_of messages.now) }
        ensures held { result ≡ true
            → self.new ≡ record self.old { table = map message_of messages.now } }
        ensures kept { result ≡ false → self.new ≡ self.old }
    {
        if !table::can_hold(&self.holder, messages) {
            return false;
        }
        table::replace(&mut self.messages, messages);
        true
    }

    /// Takes in a message that `psa_get` got by a signal, its vectors fresh, where the signal is a
    /// service's of the partition and fewer than 304 messages are held; else nothing changes.
    pub fn got(&mut self, signal: u32, message: Message)
        ensures { (msg : ℕ)
            → self.new ≡ record self.old {
              table = table_after self.old.holder
                  (call.Get signal msg) (outcome.Got message) self.old.table;
            } }
    {
        steps::got(&self.holder, &mut self.messages, signal, message);
    }

    /// Leaves out the message of a handle, which was answered. Nothing changes where none has it.
    pub fn answered(&mut self, handle: Handle)
        ensures { self.new ≡ record self.old { table = without handle self.old.table } }
    {
        table::take_out(&mut self.messages, handle);
    }

    /// Whether a line may be done: where not, `act` answers `Fault`.
    pub fn allows(&self, line: MmLine) -> bool
        ensures { result ≡ can_do self.now.holder self.now.table line }
    {
        steps::can_do(&self.holder, self.messages.as_slice(), line)
    }

    /// Does a line. `Fault` comes exactly where the line may not be done, and changes nothing. A line
    /// that makes a call changes nothing either, so that it makes the same call where it is asked for
    /// again: `noted` takes the call's outcome. A line without a call changes the table at once.
    pub fn act(&mut self, line: MmLine) -> MmStep
        ensures fault { (result ≡ MmStep.Fault)
            ↔ (can_do self.old.holder self.old.table line ≡ false) }
        ensures step { result ≡ step_of self.old.holder self.old.table line }
        ensures table { self.new
            ≡ record self.old { table = table_of self.old.holder self.old.table line } }

        // It is what the engine of a script does with the line.
        ensures engine { (x : Holding) → x.table ≡ self.old.table
            → engine_step x result self.new.table ≡ engine_line self.old.holder x line }
    {
        if !self.allows(line) {
            return MmStep::Fault;
        }
        let step = steps::step_done(&self.holder, self.messages.as_slice(), line);
        steps::change(&mut self.messages, line);
        step
    }

    /// Takes the outcome of a call that the script made, with the instruction that made it: a vector
    /// that was read for `MapIn` is mapped, one that was written for `UnmapOut` is unmapped, one that any
    /// other `psa_read`, `psa_skip` or `psa_write` named is used where it was fresh; a message that was
    /// got is taken in, and one that was answered is left out. Give it the outcome by which the call
    /// returns, and not `Blocked`.
    pub fn noted(&mut self, instruction: Option<Instruction>, call: Call, outcome: Outcome)
        ensures { self.new ≡ record self.old
            { table = table_noted self.old.holder instruction call outcome self.old.table } }
    {
        match call {
            Call::Read { handle, index, .. } => {
                steps::note_read(&mut self.messages, instruction, handle, index);
            }
            Call::Skip { handle, index, .. } => {
                table::touch_input(&mut self.messages, handle, index);
            }
            Call::Write { handle, index, .. } => {
                steps::note_write(&mut self.messages, instruction, handle, index);
            }
            Call::Get { signal, .. } => {
                steps::note_get(&self.holder, &mut self.messages, signal, outcome);
            }
            Call::Reply { handle, .. } => {
                steps::note_reply(&mut self.messages, handle, outcome);
            }
            _ => {}
        }
    }
}
