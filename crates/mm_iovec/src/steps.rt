//! What lines and calls do, by the parts of a table.
ghost use Rattle.std.specs.Prelude.{◌≡◌, ℕ, map, true};
ghost use Rattle.ffm_model.specs.declared.machine.Call.TheVariants as call;
ghost use Rattle.ffm_model.specs.declared.machine.Outcome.TheVariants as outcome;
ghost use Rattle.ffm_model.specs.declared.machine.Status.{Status};
ghost use Rattle.ffm_model.specs.Held.{Holder as HolderView, table_after};
ghost use Rattle.mm_iovec.specs.HeldView.{HasWindows};
ghost use Rattle.mm_iovec.specs.Items.{message_of};
ghost use Rattle.mm_iovec.specs.Lines.{can_do, maps_in, step_done, table_done, table_read, table_written, unmaps_out};

use crate::holder::Holder;
use crate::item::HeldItem;
use crate::line::{MmLine, MmStep};
use crate::table::{self, Messages};
use crate::vector::VectorState;
use ffm_model::{Call, Handle, Instruction, MapName, Message, Outcome};

// ---- lines

/// Whether a line may be done.
pub(crate) fn can_do(holder: &Holder, items: &[HeldItem], line: MmLine) -> bool
    ensures { result ≡ can_do holder.now (map message_of items.now) line }
{
    match line {
        MmLine::MapIn { handle, index } => table::can_map_in(holder, items, handle, index),
        MmLine::UnmapIn { handle, index } => table::can_unmap_in(items, handle, index),
        MmLine::MapOut { handle, index } => table::can_map_out(holder, items, handle, index),
        MmLine::UnmapOut { handle, index, len } => {
            table::can_unmap_out(items, handle, index, len)
        }
        MmLine::Read { handle, index, .. } | MmLine::Skip { handle, index, .. } => {
            !table::is_input_refused(items, handle, index)
        }
        MmLine::Write { handle, index, .. } => !table::is_output_refused(items, handle, index),
    }
}

fn read(handle: Handle, index: u32, buffer: u32, len: u32) -> MmStep
    ensures { result ≡ MmStep.Calls (call.Read handle index buffer len) }
{
    MmStep::Calls(Call::Read {
        handle,
        index,
        buffer,
        len,
    })
}

fn write(handle: Handle, index: u32, buffer: u32, len: u32) -> MmStep
    ensures { result ≡ MmStep.Calls (call.Write handle index buffer len) }
{
    MmStep::Calls(Call::Write {
        handle,
        index,
        buffer,
        len,
    })
}

/// What a line does that may be done.
pub(crate) fn step_done(holder: &Holder, items: &[HeldItem], line: MmLine) -> MmStep
    requires windows { HasWindows holder.now (map message_of items.now) }
    requires can { can_do holder.now (map message_of items.now) line ≡ true }
    ensures { result ≡ step_done holder.now (map message_of items.now) line }
{
    match line {
        MmLine::MapIn { handle, index } => {
            let size = table::input_size(items, handle, index);
            read(handle, index, holder.input_window(index), size)
        }
        MmLine::UnmapIn { .. } => MmStep::Local { r0: None },
        MmLine::MapOut { index, .. } => MmStep::Local {
            r0: Some(holder.output_window(index)),
        },
        MmLine::UnmapOut { handle, index, len } => {
            write(handle, index, holder.output_window(index), len)
        }
        MmLine::Read {
            handle,
            index,
            buffer,
            len,
        } => read(handle, index, buffer, len),
        MmLine::Skip { handle, index, len } => MmStep::Calls(Call::Skip { handle, index, len }),
        MmLine::Write {
            handle,
            index,
            buffer,
            len,
        } => write(handle, index, buffer, len),
    }
}

/// Changes the table as a line does that may be done. One with a call changes nothing.
pub(crate) fn change(messages: &mut Messages, line: MmLine)
    ensures { map message_of messages.new.items
        ≡ table_done line (map message_of messages.old.items) }
{
    match line {
        MmLine::UnmapIn { handle, index } => {
            table::set_input(messages, handle, index, VectorState::Unmapped);
        }
        MmLine::MapOut { handle, index } => {
            table::set_output(messages, handle, index, VectorState::Mapped);
        }
        _ => {}
    }
}

// ---- after calls

fn maps_in(instruction: Option<Instruction>) -> bool
    ensures { result ≡ maps_in instruction }
{
    matches!(
        instruction,
        Some(Instruction::Map {
            name: MapName::MapIn,
            ..
        })
    )
}

fn unmaps_out(instruction: Option<Instruction>) -> bool
    ensures { result ≡ unmaps_out instruction }
{
    matches!(
        instruction,
        Some(Instruction::Map {
            name: MapName::UnmapOut,
            ..
        })
    )
}

/// After `psa_read` of an input vector.
pub(crate) fn note_read(
    messages: &mut Messages,
    instruction: Option<Instruction>,
    handle: Handle,
    index: u32,
)
    ensures { map message_of messages.new.items
        ≡ table_read instruction handle index (map message_of messages.old.items) }
{
    if maps_in(instruction) {
        table::set_input(messages, handle, index, VectorState::Mapped);
    } else {
        table::touch_input(messages, handle, index);
    }
}

/// After `psa_write` to an output vector.
pub(crate) fn note_write(
    messages: &mut Messages,
    instruction: Option<Instruction>,
    handle: Handle,
    index: u32,
)
    ensures { map message_of messages.new.items
        ≡ table_written instruction handle index (map message_of messages.old.items) }
{
    if unmaps_out(instruction) {
        table::set_output(messages, handle, index, VectorState::Unmapped);
    } else {
        table::touch_output(messages, handle, index);
    }
}

/// A message was got by a signal.
pub(crate) fn got(holder: &Holder, messages: &mut Messages, signal: u32, message: Message)
    ensures { map message_of messages.new.items
        ≡ table_after holder.now (call.Get signal 0) (outcome.Got message)
        (map message_of messages.old.items) }
{
    if let Some(service) = holder.service(signal) {
        table::take_in(messages, service, message);
    }
}

/// After `psa_get` with a signal.
pub(crate) fn note_get(holder: &Holder, messages: &mut Messages, signal: u32, outcome: Outcome)
    ensures { (msg : ℕ)
        → map message_of messages.new.items
        ≡ table_after holder.now (call.Get signal msg) outcome
        (map message_of messages.old.items) }
{
    if let Outcome::Got(message) = outcome {
        got(holder, messages, signal, message);
    }
}

/// After `psa_reply` to a message.
pub(crate) fn note_reply(messages: &mut Messages, handle: Handle, outcome: Outcome)
    ensures { (p : HolderView) (status : Status)
        → map message_of messages.new.items
        ≡ table_after p (call.Reply handle status) outcome (map message_of messages.old.items) }
{
    if let Outcome::Done = outcome {
        table::take_out(messages, handle);
    }
}
