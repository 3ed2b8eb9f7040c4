//! The calls of an actor that runs, by the crate that makes them.
ghost use Rattle.std.specs.Prelude.{◌≡◌, IfOk, List};
ghost use Rattle.ffm_model.specs.declared.groups.Group.TheVariants as group;
ghost use Rattle.ffm_model.specs.declared.scenario.Bytes.{Bytes as BytesSeen};
ghost use Rattle.ffm_model.specs.declared.machine.Call.TheVariants as call;
ghost use Rattle.ffm_model.specs.declared.objects.ActorPhase.{ActorPhase as PhaseSeen};
ghost use Rattle.ffm_model.specs.Groups.{group_of};
ghost use Rattle.ffm_model.specs.State.{phase_of};
ghost use Rattle.memory_image.specs.Pieces.{byte_at, regions_of};
ghost use Rattle.law_calls.specs.Named.{KeepsNames};
ghost use Rattle.law_calls.specs.Premises.{AreLeft, LeavesTakes, PremisesWithImage, PremisesWithMemory, TransferPremises, HasRegions};
ghost use Rattle.spm_tables.specs.TablesView.{TablesView, spm_of, shape_of, MadeFor};
ghost use Rattle.spm_core.specs.Performed.{Attempts, ShowsName};

use crate::accesses::{load, store};
use crate::interrupts::{fire_interrupt, raise_interrupt};
use client_calls::{close, connect, framework_version, invoke, version};
use doorbell_irq::{clear, disable, enable, eoi, notify, reset};
use ffm_model::{ActorId, Call, Fault, Handle, Outcome, Status, System};
use memory_image::Image;
use panic_state::panic;
use service_calls::{get, read, reply, set_rhandle, skip, wait, write};
use spm_tables::Tables;

/// Makes a call of `psa/client.h`.
pub(crate) fn client_call(
    system: &System,
    tables: &mut Tables,
    image: &Image,
    actor: ActorId,
    call: Call,
) -> Result<Outcome, Fault>
    requires group { group_of call ≡ group.Client }
    requires premises { PremisesWithImage system.now tables.old image.now }
    requires takes { LeavesTakes tables.old }
    requires running { phase_of (spm_of tables.old) actor.0 ≡ PhaseSeen.Running }
    ensures attempts { Attempts system.now actor.0 call tables.old image.now
        result tables.new image.now }
    ensures shown { IfOk result (ShowsName system.now actor.0 call tables.old (byte_at image.now)) }
    ensures shape { shape_of tables.new ≡ shape_of tables.old }
    ensures names { KeepsNames system.now tables.old tables.new }
{
    match call {
        Call::FrameworkVersion => Ok(Outcome::Number(framework_version())),
        Call::Version { sid } => Ok(Outcome::Number(version(system, actor, sid))),
        Call::Connect { sid, version } => connect(system, tables, actor, sid, version),
        Call::Invoke {
            handle,
            kind,
            in_vec,
            in_len,
            out_vec,
            out_len,
        } => invoke(
            system, tables, image, actor, handle, kind, in_vec, in_len, out_vec, out_len,
        ),
        Call::Close { handle } => close(tables, actor, handle),
        _ => unreachable!(),
    }
}

/// Makes a call of `psa/service.h` that waits for messages, takes or answers them. A partition whose
/// request is answered with PROGRAMMER ERROR panics here.
pub(crate) fn service_call(
    system: &System,
    tables: &mut Tables,
    image: &mut Image,
    actor: ActorId,
    call: Call,
) -> Result<Outcome, Fault>
    requires group { group_of call ≡ group.Service }
    requires premises { PremisesWithMemory system.now tables.old image.old }
    requires takes { AreLeft tables.old.messages.takes }
    ensures attempts { Attempts system.now actor.0 call tables.old image.old
        result tables.new image.new }
    ensures shown { IfOk result (ShowsName system.now actor.0 call tables.old (byte_at image.old)) }
    ensures regions { regions_of image.new ≡ regions_of image.old }
    ensures shape { shape_of tables.new ≡ shape_of tables.old }
    ensures names { KeepsNames system.now tables.old tables.new }
{
    match call {
        Call::Wait { mask, timeout } => wait(system, tables, actor, mask, timeout),
        Call::Get { signal, msg } => {
            let message = get(system, tables, image, actor, signal, msg)?;
            Ok(Outcome::Got(message))
        }
        Call::SetRhandle { handle, rhandle } => {
            set_rhandle(tables, actor, handle, rhandle)?;
            Ok(Outcome::Done)
        }
        Call::Reply { handle, status } => answer(system, tables, image, actor, handle, status),
        _ => unreachable!(),
    }
}

/// Moves bytes of a request.
pub(crate) fn transfer(
    system: &System,
    tables: &mut Tables,
    image: &mut Image,
    actor: ActorId,
    call: Call,
) -> Result<Outcome, Fault>
    requires group { group_of call ≡ group.Transfer }
    requires premises { TransferPremises system.now tables.old image.old }
    ensures attempts { Attempts system.now actor.0 call tables.old image.old
        result tables.new image.new }
    ensures regions { regions_of image.new ≡ regions_of image.old }
    ensures shape { shape_of tables.new ≡ shape_of tables.old }
    ensures names { KeepsNames system.now tables.old tables.new }
{
    match call {
        Call::Read {
            handle,
            index,
            buffer,
            len,
        } => {
            let count = read(system, tables, image, actor, handle, index, buffer, len)?;
            Ok(Outcome::Number(count))
        }
        Call::Skip { handle, index, len } => {
            let count = skip(tables, actor, handle, index, len)?;
            Ok(Outcome::Number(count))
        }
        Call::Write {
            handle,
            index,
            buffer,
            len,
        } => {
            write(system, tables, image, actor, handle, index, buffer, len)?;
            Ok(Outcome::Done)
        }
        _ => unreachable!(),
    }
}

// Answers a message, with the panic that the answer may owe.
fn answer(
    system: &System,
    tables: &mut Tables,
    image: &mut Image,
    actor: ActorId,
    handle: Handle,
    status: Status,
) -> Result<Outcome, Fault>
    requires premises { PremisesWithMemory system.now tables.old image.old }
    requires takes { AreLeft tables.old.messages.takes }
    ensures attempts { Attempts system.now actor.0 (call.Reply handle status) tables.old image.old
        result tables.new image.new }
    ensures regions { regions_of image.new ≡ regions_of image.old }
    ensures shape { shape_of tables.new ≡ shape_of tables.old }
    ensures names { KeepsNames system.now tables.old tables.new }
{
    if let Some(client) = reply(system, tables, image, actor, handle, status)? {
        panic(system, tables, client);
    }
    Ok(Outcome::Done)
}

/// Rings or clears a doorbell; raises, ends, enables or disables an interrupt.
pub(crate) fn signal_call(
    system: &System,
    tables: &mut Tables,
    actor: ActorId,
    call: Call,
) -> Result<Outcome, Fault>
    requires group { group_of call ≡ group.Signal }
    requires made { MadeFor tables.old system.now }
    ensures attempts { (bytes : List BytesSeen)
        → Attempts system.now actor.0 call tables.old bytes result tables.new bytes }
    ensures shape { shape_of tables.new ≡ shape_of tables.old }
    ensures names { KeepsNames system.now tables.old tables.new }
{
    match call {
        Call::Notify { partition } => notify(system, tables, partition)?,
        Call::Clear => clear(tables, actor)?,
        Call::Eoi { signal } => eoi(system, tables, actor, signal)?,
        Call::IrqEnable { signal } => enable(system, tables, actor, signal)?,
        Call::IrqDisable { signal } => {
            let was_enabled = disable(system, tables, actor, signal)?;
            return Ok(Outcome::Number(was_enabled));
        }
        Call::ResetSignal { signal } => reset(system, tables, actor, signal)?,
        Call::Raise { source } => raise_interrupt(system, tables, source)?,
        Call::Fire { source, result } => fire_interrupt(system, tables, source, result)?,
        _ => unreachable!(),
    }
    Ok(Outcome::Done)
}

/// Loads or stores.
pub(crate) fn memory_call(
    system: &System,
    image: &mut Image,
    actor: ActorId,
    call: Call,
) -> Result<Outcome, Fault>
    requires group { group_of call ≡ group.Memory }
    requires regions { HasRegions system.now image.old }
    ensures attempts { (d : TablesView)
        → Attempts system.now actor.0 call d image.old result d image.new }
    ensures regions { regions_of image.new ≡ regions_of image.old }
{
    match call {
        Call::Load { address, size } => {
            let number = load(system, image, actor, address, size)?;
            Ok(Outcome::Number(number))
        }
        Call::Store {
            address,
            size,
            value,
        } => {
            store(system, image, actor, address, size, value)?;
            Ok(Outcome::Done)
        }
        _ => unreachable!(),
    }
}
