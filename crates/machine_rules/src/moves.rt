//! Bytes moved from and to a request's vectors.
ghost use Rattle.std.specs.Prelude.{◌≡◌, ℕ, ◌+◌, ◌*◌, ◌<◌, length, nat_le, min, true, false, is_ok, List, take, OnOk, OnErr};
ghost use Rattle.ffm_model.specs.Memory.{copy_bytes, lengths_written};
ghost use Rattle.ffm_model.specs.Reach.{span_has, length_word_has};
ghost use Rattle.ffm_model.specs.ServiceCalls.{rest_of, input_of, output_of, with_input_moved, with_output_moved};
ghost use Rattle.memory_image.specs.Pieces.{byte_at, regions_of, is_inside};
ghost use Rattle.memory_image.specs.Differences.{range_covers};
ghost use Rattle.machine_rules.specs.Vectors.{AreMovedWithin, AreWithin};

use ffm_model::{Fault, PSA_MAX_IOVEC, Span, Vectors};
use memory_image::Image;

/// `psa_skip` (`psa/service.h`): passes over bytes of input vector `index`, which is below four.
/// Answers their number, the lesser of `len` and what is left of the vector. No more was moved of any
/// vector than it has, before the call and after it; where the vectors meet the condition on vectors,
/// they do so afterwards.
pub fn skip(vectors: &mut Vectors, index: u32, len: u32) -> u32
    requires index { index < PSA_MAX_IOVEC }
    requires moved { AreMovedWithin vectors.old }
    ensures number { result ≡ min len (rest_of (input_of vectors.old index)) }
    ensures vectors { vectors.new ≡ with_input_moved vectors.old index result }
    ensures moved { AreMovedWithin vectors.new }
    ensures within { (regions : List (ℕ × ℕ)) → AreWithin regions vectors.old
        → AreWithin regions vectors.new }
{
    let span = &mut vectors.input[index as usize];
    let count = len.min(span.len - span.moved);
    span.moved += count;
    count
}

// The address of a vector's next byte. After its last one there may be no address.
fn next_byte(image: &Image, span: &Span) -> u32
    requires inside { is_inside span.now.base span.now.len (regions_of image.now) ≡ true }
    requires left { span.now.moved < span.now.len }
    ensures { result ≡ span.now.base + span.now.moved }
{
    image.keeps_its_limits();
    span.base + span.moved
}

/// `psa_read` (`psa/service.h`): copies the next bytes of input vector `index`, which is below four,
/// to the buffer, as if all were read before the first one is written. Answers their number, the
/// lesser of `len` and what is left of the vector. All `len` bytes of the buffer lie in one region,
/// and the vectors meet the condition on vectors, before the call and after it.
pub fn read(image: &mut Image, vectors: &mut Vectors, index: u32, buffer: u32, len: u32) -> u32
    requires index { index < PSA_MAX_IOVEC }
    requires within { AreWithin (regions_of image.old) vectors.old }
    requires buffer { is_inside buffer len (regions_of image.old) ≡ true }
    ensures number { result ≡ min len (rest_of (input_of vectors.old index)) }
    ensures vectors { vectors.new ≡ with_input_moved vectors.old index result }
    ensures bytes { let v = input_of vectors.old index in
        byte_at image.new ≡ copy_bytes (byte_at image.old) (v.base + v.moved) buffer result }
    ensures changed { (x : ℕ) → range_covers (buffer, len) x ≡ false
        → byte_at image.new x ≡ byte_at image.old x }
    ensures regions { regions_of image.new ≡ regions_of image.old }
    ensures within { AreWithin (regions_of image.new) vectors.new }
{
    let span = vectors.input[index as usize];
    let count = skip(vectors, index, len);
    if count > 0 {
        let from = next_byte(image, &span);
        image.copy(from, buffer, count);
    }
    count
}

// Passes over bytes of an output vector. Fault exactly where they are more than what is left of it.
fn advance(vectors: &mut Vectors, index: u32, len: u32) -> Result<(), Fault>
    requires index { index < PSA_MAX_IOVEC }
    requires moved { AreMovedWithin vectors.old }
    ensures exact { is_ok result ≡ nat_le len (rest_of (output_of vectors.old index)) }
    ensures vectors { OnOk result (vectors.new ≡ with_output_moved vectors.old index len) }
    ensures fault { OnErr result (vectors.new ≡ vectors.old) }
    ensures within { (regions : List (ℕ × ℕ)) → AreWithin regions vectors.old
        → AreWithin regions vectors.new }
{
    let span = &mut vectors.output[index as usize];
    if len > span.len - span.moved {
        return Err(Fault);
    }
    span.moved += len;
    Ok(())
}

/// `psa_write` (`psa/service.h`): copies the `len` bytes of the buffer to output vector `index`, which
/// is below four, after what was written of it, as if all were read before the first one is
/// written. All `len` bytes of the buffer lie in one region, and the vectors meet the condition on
/// vectors, before the call and after it. Fault exactly where the bytes are more than what is left of
/// the vector, and then memory and vectors are as before.
pub fn write(
    image: &mut Image,
    vectors: &mut Vectors,
    index: u32,
    buffer: u32,
    len: u32,
) -> Result<(), Fault>
    requires index { index < PSA_MAX_IOVEC }
    requires within { AreWithin (regions_of image.old) vectors.old }
    requires buffer { is_inside buffer len (regions_of image.old) ≡ true }
    ensures exact { is_ok result ≡ nat_le len (rest_of (output_of vectors.old index)) }
    ensures vectors { OnOk result (vectors.new ≡ with_output_moved vectors.old index len) }
    ensures bytes { OnOk result (let v = output_of vectors.old index in
        byte_at image.new ≡ copy_bytes (byte_at image.old) buffer (v.base + v.moved) len) }
    ensures fault { OnErr result ((vectors.new ≡ vectors.old) × (image.new ≡ image.old)) }
    ensures changed { (x : ℕ) → span_has x (output_of vectors.old index) ≡ false
        → byte_at image.new x ≡ byte_at image.old x }
    ensures regions { regions_of image.new ≡ regions_of image.old }
    ensures within { AreWithin (regions_of image.new) vectors.new }
{
    let span = vectors.output[index as usize];
    advance(vectors, index, len)?;
    if len > 0 {
        let to = next_byte(image, &span);
        image.copy(buffer, to, len);
    }
    Ok(())
}

fn put_lengths(image: &mut Image, at: u32, spans: &[Span])
    requires { (k : ℕ) → k < length spans.now
        → is_inside (at + 8 * k) 8 (regions_of image.old) ≡ true }
    ensures bytes { byte_at image.new ≡ lengths_written (byte_at image.old) at spans.now }
    ensures regions { regions_of image.new ≡ regions_of image.old }
{
    image.keeps_its_limits();
    for (k, span) in spans.iter().enumerate() {
        image.store(at + 8 * k as u32 + 4, 4, span.moved);
    }
}

/// What `psa_reply` (`psa/service.h`) tells the client: how many bytes were written of each given
/// output vector. The number goes into the length word of the vector's descriptor, in order, and no
/// other byte changes. The vectors meet the condition on vectors.
pub fn finish(image: &mut Image, vectors: &Vectors)
    requires { AreWithin (regions_of image.old) vectors.now }
    ensures bytes { byte_at image.new ≡ lengths_written (byte_at image.old) vectors.now.out_vec
        (take vectors.now.out_len vectors.now.output) }
    ensures changed { (x : ℕ) → length_word_has x vectors.now.out_vec vectors.now.out_len ≡ false
        → byte_at image.new x ≡ byte_at image.old x }
    ensures regions { regions_of image.new ≡ regions_of image.old }
{
    let given = &vectors.output[..vectors.out_len as usize];
    put_lengths(image, vectors.out_vec, given);
}
