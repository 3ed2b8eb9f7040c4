//! The vectors of `psa_call`, read once.
ghost use Rattle.std.specs.Prelude.{◌≡◌, ◌+◌, ◌*◌, ◌≤◌, nat_le, true, IfSome};
ghost use Rattle.std.specs.List.{list_all};
ghost use Rattle.ffm_model.specs.Memory.{valid_buffer, span_at, vectors_read, vectors_of};
ghost use Rattle.ffm_model.specs.Ranges.{ranges_of};
ghost use Rattle.memory_image.specs.Pieces.{byte_at, regions_of, is_inside};
ghost use Rattle.machine_rules.specs.Vectors.{AreWithin};

use ffm_model::{ActorId, PSA_MAX_IOVEC, Span, System, Vectors};
use memory_image::{Image, valid_buffer};

const NO_SPAN: Span = Span {
    base: 0,
    len: 0,
    moved: 0,
};

/// The vectors of a connection and of a disconnection: four empty ones each way, none of them given.
pub const NO_VECTORS: Vectors = Vectors {
    input: [NO_SPAN; 4],
    output: [NO_SPAN; 4],
    out_vec: 0,
    out_len: 0,
};

// A descriptor: a base, then a length.
fn span_at(image: &Image, at: u32) -> Span
    requires { is_inside at 8 (regions_of image.now) ≡ true }
    ensures { result ≡ span_at (byte_at image.now) at }
{
    image.keeps_its_limits();
    Span {
        base: image.load(at, 4),
        len: image.load(at + 4, 4),
        moved: 0,
    }
}

// Four vectors, of which the first ones are read from descriptors one after the other.
fn vectors_read(image: &Image, at: u32, count: u32) -> [Span; 4]
    requires few { count ≤ PSA_MAX_IOVEC }
    requires inside { is_inside at (8 * count) (regions_of image.now) ≡ true }
    ensures { result ≡ vectors_read (byte_at image.now) at count }
{
    image.keeps_its_limits();
    let mut spans = [NO_SPAN; 4];
    for k in 0..count {
        spans[k as usize] = span_at(image, at + 8 * k);
    }
    spans
}

/// Whether `psa_call` may be handed so many input and output vectors: four in all.
pub fn are_few(in_len: u32, out_len: u32) -> bool
    ensures { result ≡ nat_le (in_len + out_len) PSA_MAX_IOVEC }
{
    in_len <= PSA_MAX_IOVEC && out_len <= PSA_MAX_IOVEC - in_len
}

fn are_valid(system: &System, actor: ActorId, spans: &[Span]) -> bool
    ensures { result ≡ list_all (λ v. valid_buffer system.now actor.0 v.base v.len) spans.now }
{
    spans
        .iter()
        .all(|v| valid_buffer(system, actor, v.base, v.len))
}

/// The vectors that an actor hands to `psa_call` (`psa/client.h`), with their descriptors read from
/// memory: `in_len` of them at `in_vec`, and `out_len` at `out_vec`, each a base and then a length. A
/// vector that isn't given has length 0. None exactly where there are more than four, or the
/// descriptors or a vector is no valid buffer of the actor. The image has the system's regions.
pub fn snapshot(
    system: &System,
    image: &Image,
    actor: ActorId,
    in_vec: u32,
    in_len: u32,
    out_vec: u32,
    out_len: u32,
) -> Option<Vectors>
    requires { regions_of image.now ≡ ranges_of system.now.regions }
    ensures exact { result ≡ vectors_of system.now (byte_at image.now) actor.0 in_vec
        in_len out_vec out_len }
    ensures within { IfSome result (λ vectors. AreWithin (regions_of image.now) vectors) }
{
    if !are_few(in_len, out_len) {
        return None;
    }
    if !valid_buffer(system, actor, in_vec, 8 * in_len) {
        return None;
    }
    if !valid_buffer(system, actor, out_vec, 8 * out_len) {
        return None;
    }
    let input = vectors_read(image, in_vec, in_len);
    let output = vectors_read(image, out_vec, out_len);
    if are_valid(system, actor, &input) && are_valid(system, actor, &output) {
        Some(Vectors {
            input,
            output,
            out_vec,
            out_len,
        })
    } else {
        None
    }
}
