//! What a partition is told of a message by `psa_get`, as words.
ghost use Rattle.std.specs.Prelude.{◌≡◌, ◌++◌, length};
ghost use Rattle.ffm_model.specs.ServiceCalls.{message_words, sizes_of};

use ffm_model::{Message, Span};

/// How many bytes a `psa_msg_t` (`psa/service.h`) takes.
pub const MESSAGE_SIZE: u32 = 48;

/// How many bytes each of four vectors has, moved or not.
pub fn sizes_of(vectors: [Span; 4]) -> [u32; 4]
    ensures { result ≡ sizes_of vectors }
{
    [
        vectors[0].len,
        vectors[1].len,
        vectors[2].len,
        vectors[3].len,
    ]
}

// Three times four words, one after the other.
fn joined(head: [u32; 4], input: [u32; 4], output: [u32; 4]) -> [u32; 12]
    ensures { result ≡ head ++ (input ++ output) }
{
    [
        head[0], head[1], head[2], head[3], input[0], input[1], input[2], input[3], output[0],
        output[1], output[2], output[3],
    ]
}

/// The twelve words of a `psa_msg_t` (`psa/service.h`), in the order in which they lie in memory: the kind, the handle,
/// the client ID, the rhandle, and the sizes in bytes of the four input and the four output vectors.
pub fn words_of(message: Message) -> [u32; 12]
    ensures words { result ≡ message_words message }
    ensures count { length result ≡ 12 }
{
    let head = [
        message.kind.cast_unsigned(),
        message.handle.0.cast_unsigned(),
        message.client_id.cast_unsigned(),
        message.rhandle,
    ];
    joined(head, message.in_size, message.out_size)
}
