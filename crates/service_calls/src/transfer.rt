//! Bytes of a request's vectors.

ghost use Rattle.std.specs.Prelude.{◌≡◌, ◌<◌, ℕ, true, List, All, IsSome, IfSome, OnSome, option_and_then};
ghost use Rattle.ffm_model.specs.declared.machine.Handle.{Handle as HandleSeen};
ghost use Rattle.ffm_model.specs.declared.machine.Outcome.TheVariants.{Number, Done};
ghost use Rattle.ffm_model.specs.declared.system.System.{System as SystemSeen};
ghost use Rattle.ffm_model.specs.ServiceCalls.{psa_read, psa_skip, psa_write, request_held};
ghost use Rattle.law_counting.specs.Objects.{ObjectsFit};
ghost use Rattle.ffm_model.specs.State.{with_vectors};
ghost use Rattle.handle_table.specs.declared.handles.Family.TheVariants as family;
ghost use Rattle.handle_table.specs.Handles.{handle_at};
ghost use Rattle.memory_image.specs.Pieces.{byte_at, regions_of};
ghost use Rattle.machine_rules.specs.Vectors.{AreMovedWithin, AreWithin};
ghost use Rattle.object_pools.specs.Pool.{item_at};
ghost use Rattle.service_calls.specs.Answers.{AnswersOver};
ghost use Rattle.law_calls.specs.Named.{KeepsNames};
ghost use Rattle.law_calls.specs.Premises.{TransferPremises, KeepsVectors, VectorsLie};
ghost use Rattle.spm_tables.specs.Answers.{Answers, state_with};
ghost use Rattle.spm_tables.specs.TablesView.{MadeFor, message_at, shape_of, spm_of};

use ffm_model::{ActorId, Fault, Handle, PSA_IPC_CALL, PSA_MAX_IOVEC, System, Vectors};
use memory_image::{Image, valid_buffer};
use object_pools::Slot;
use spm_tables::Tables;

// The request that the partition holds by the handle, where the index is a vector's.
fn request(tables: &Tables, actor: ActorId, handle: Handle, index: u32) -> Option<Slot>
    ensures request { (s : SystemSeen) → MadeFor tables.now s
        → option_and_then (message_at tables.now) result
        ≡ request_held s (spm_of tables.now) actor.0 handle index }
    ensures live { IfSome result (λ slot. IsSome (item_at tables.now.messages slot)) }
    ensures index { OnSome result (index < PSA_MAX_IOVEC) }
{
    let Some(slot) = tables.find_message(actor, handle) else {
        return None;
    };
    if tables.queued(slot).kind >= PSA_IPC_CALL && index < PSA_MAX_IOVEC {
        Some(slot)
    } else {
        None
    }
}

// Says how far the vectors of a request were moved.
fn set_vectors(tables: &mut Tables, slot: Slot, vectors: Vectors)
    requires { IsSome (item_at tables.old.messages slot) }
    ensures state { IfSome (item_at tables.old.messages slot) (λ m.
        m.delivered ≡ true
        → spm_of tables.new
        ≡ with_vectors (spm_of tables.old) (handle_at family.Message slot) vectors) }
    ensures moved { AreMovedWithin vectors
        → All (λ m. AreMovedWithin m.vectors) (spm_of tables.old).messages
        → All (λ m. AreMovedWithin m.vectors) (spm_of tables.new).messages }
    ensures within { (regions : List (ℕ × ℕ)) → AreWithin regions vectors
        → All (λ m. AreWithin regions m.vectors) (spm_of tables.old).messages
        → All (λ m. AreWithin regions m.vectors) (spm_of tables.new).messages }
    ensures shape { shape_of tables.new ≡ shape_of tables.old }
    ensures takes { tables.new.messages.takes ≡ tables.old.messages.takes }
    ensures names { (s : SystemSeen) → KeepsNames s tables.old tables.new }
{
    tables.law();
    tables.set_vectors(slot, vectors);
}

/// `psa_skip`: passes over the next bytes of input vector `index` of a request, no more than `len` and than it has left, and answers
/// how many. `Fault` exactly where the handle isn't that of a request that the partition holds, or the index is 4 or more; then nothing changed.
pub fn skip(
    tables: &mut Tables,
    actor: ActorId,
    handle: Handle,
    index: u32,
    len: u32,
) -> Result<u32, Fault>
    requires moved { All (λ m. AreMovedWithin m.vectors) (spm_of tables.old).messages }
    ensures answer { (s : SystemSeen) → MadeFor tables.old s
        → Answers Number (psa_skip s (spm_of tables.old) actor.0 handle index len)
        tables.old result tables.new }
    ensures moved { All (λ m. AreMovedWithin m.vectors) (spm_of tables.new).messages }
    ensures within { KeepsVectors tables.old tables.new }
    ensures shape { shape_of tables.new ≡ shape_of tables.old }
    ensures takes { tables.new.messages.takes ≡ tables.old.messages.takes }
    ensures names { (s : SystemSeen) → MadeFor tables.old s → KeepsNames s tables.old tables.new }
    ensures fits { (s : SystemSeen) → MadeFor tables.old s → ObjectsFit s (spm_of tables.old)
        → ObjectsFit s (spm_of tables.new) }
{
    let Some(slot) = request(tables, actor, handle, index) else {
        return Err(Fault);
    };
    let mut vectors = tables.queued(slot).vectors;
    let count = message_vectors::skip(&mut vectors, index, len);
    set_vectors(tables, slot, vectors);
    Ok(count)
}

/// `psa_read`: copies the next bytes of input vector `index` of a request to the buffer, no more than `len` and than it has left, and
/// answers how many. `Fault` exactly where the handle isn't that of a request that the partition holds, the index is 4 or more, or the
/// `len` bytes at the buffer aren't a valid buffer of the partition; then nothing changed.
pub fn read(
    system: &System,
    tables: &mut Tables,
    image: &mut Image,
    actor: ActorId,
    handle: Handle,
    index: u32,
    buffer: u32,
    len: u32,
) -> Result<u32, Fault>
    requires premises { TransferPremises system.now tables.old image.old }
    ensures answer { (given : List HandleSeen)
        → AnswersOver Number (psa_read system.now (state_with tables.old given (byte_at image.old))
        actor.0 handle index buffer len) given tables.old image.old result tables.new image.new }
    ensures shape { shape_of tables.new ≡ shape_of tables.old }
    ensures regions { regions_of image.new ≡ regions_of image.old }
    ensures vectors { VectorsLie tables.new image.new }
    ensures takes { tables.new.messages.takes ≡ tables.old.messages.takes }
    ensures names { KeepsNames system.now tables.old tables.new }
    ensures fits { ObjectsFit system.now (spm_of tables.old)
        → ObjectsFit system.now (spm_of tables.new) }
{
    let Some(slot) = request(tables, actor, handle, index) else {
        return Err(Fault);
    };
    if !valid_buffer(system, actor, buffer, len) {
        return Err(Fault);
    }
    let mut vectors = tables.queued(slot).vectors;
    let count = message_vectors::read(image, &mut vectors, index, buffer, len);
    set_vectors(tables, slot, vectors);
    Ok(count)
}

/// `psa_write`: copies the `len` bytes at the buffer to output vector `index` of a request, after those that were written. `Fault`
/// exactly where the handle isn't that of a request that the partition holds, the index is 4 or more, the `len` bytes at the buffer
/// aren't a valid buffer of the partition, or they are more than the vector has left; then nothing changed.
pub fn write(
    system: &System,
    tables: &mut Tables,
    image: &mut Image,
    actor: ActorId,
    handle: Handle,
    index: u32,
    buffer: u32,
    len: u32,
) -> Result<(), Fault>
    requires premises { TransferPremises system.now tables.old image.old }
    ensures answer { (given : List HandleSeen)
        → AnswersOver (λ u. Done) (psa_write system.now
        (state_with tables.old given (byte_at image.old)) actor.0 handle index buffer len)
        given tables.old image.old result tables.new image.new }
    ensures shape { shape_of tables.new ≡ shape_of tables.old }
    ensures regions { regions_of image.new ≡ regions_of image.old }
    ensures vectors { VectorsLie tables.new image.new }
    ensures takes { tables.new.messages.takes ≡ tables.old.messages.takes }
    ensures names { KeepsNames system.now tables.old tables.new }
    ensures fits { ObjectsFit system.now (spm_of tables.old)
        → ObjectsFit system.now (spm_of tables.new) }
{
    let Some(slot) = request(tables, actor, handle, index) else {
        return Err(Fault);
    };
    if !valid_buffer(system, actor, buffer, len) {
        return Err(Fault);
    }
    let mut vectors = tables.queued(slot).vectors;
    message_vectors::write(image, &mut vectors, index, buffer, len)?;
    set_vectors(tables, slot, vectors);
    Ok(())
}
