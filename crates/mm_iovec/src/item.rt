//! A message that is held.
ghost use Rattle.std.specs.Prelude.{◌≡◌, map};
ghost use Rattle.ffm_model.specs.Held.{HeldMessage, fresh_vector, is_mapped, touched, vector_at, with_input, with_output};
ghost use Rattle.mm_iovec.specs.HeldView.{is_output_unmapped};
ghost use Rattle.mm_iovec.specs.Items.{message_of, state_of, vector_of};

use crate::vector::{HeldVector, VectorState, set_state, touch, vector_at};
use ffm_model::{Handle, Message};

/// A message that a partition got and hasn't answered.
#[derive(Clone, Copy)]
pub struct HeldItem {
    /// The handle by which `psa_get` gave it.
    pub handle: Handle,
    /// Its type: 0 or more for a request, less for a connection or its end.
    pub kind: i32,
    /// Whether the vectors of its service may be mapped.
    pub mm: bool,
    /// Its input vectors; one that isn't there has size 0.
    pub input: [HeldVector; 4],
    /// Its output vectors; one that isn't there has size 0.
    pub output: [HeldVector; 4],
}

impl Default for HeldItem {
    // It fills the places of a table that are free.
    fn default() -> Self {
        HeldItem {
            handle: Handle(0),
            kind: 0,
            mm: false,
            input: [HeldVector::default(); 4],
            output: [HeldVector::default(); 4],
        }
    }
}

fn fresh_vectors(sizes: [u32; 4]) -> [HeldVector; 4]
    ensures { map vector_of result ≡ map fresh_vector sizes }
{
    sizes.map(|size| HeldVector::fresh(size))
}

impl HeldItem {
    /// A message with fresh vectors. `mm` says whether its service's vectors may be mapped.
    pub(crate) fn of(message: Message, mm: bool) -> Self
        ensures { message_of result
            ≡ record {
              handle = message.handle;
              kind = message.kind;
              mm = mm;
              input = map fresh_vector message.in_size;
              output = map fresh_vector message.out_size;
            } }
    {
        HeldItem {
            handle: message.handle,
            kind: message.kind,
            mm,
            input: fresh_vectors(message.in_size),
            output: fresh_vectors(message.out_size),
        }
    }

    pub(crate) fn with_input(self, state: VectorState, index: u32) -> Self
        ensures { message_of result ≡ with_input (state_of state) index (message_of self) }
    {
        let mut input = self.input;
        set_state(&mut input, index, state);
        HeldItem { input, ..self }
    }

    pub(crate) fn with_output(self, state: VectorState, index: u32) -> Self
        ensures { message_of result ≡ with_output (state_of state) index (message_of self) }
    {
        let mut output = self.output;
        set_state(&mut output, index, state);
        HeldItem { output, ..self }
    }

    pub(crate) fn with_input_touched(self, index: u32) -> Self
        ensures { message_of result
            ≡ record (message_of self) { input = touched index (message_of self).input } }
    {
        let mut input = self.input;
        touch(&mut input, index);
        HeldItem { input, ..self }
    }

    pub(crate) fn with_output_touched(self, index: u32) -> Self
        ensures { message_of result
            ≡ record (message_of self) { output = touched index (message_of self).output } }
    {
        let mut output = self.output;
        touch(&mut output, index);
        HeldItem { output, ..self }
    }
}

/// The input vector of a message at an index.
pub(crate) fn input_at(item: &HeldItem, index: u32) -> HeldVector
    ensures { vector_of result ≡ vector_at (message_of item.now).input index }
{
    vector_at(&item.input, index)
}

/// The output vector of a message at an index.
pub(crate) fn output_at(item: &HeldItem, index: u32) -> HeldVector
    ensures { vector_of result ≡ vector_at (message_of item.now).output index }
{
    vector_at(&item.output, index)
}

/// Whether no output vector of a message is mapped.
pub(crate) fn is_output_unmapped(item: &HeldItem) -> bool
    ensures { result ≡ is_output_unmapped (message_of item.now) }
{
    item.output.iter().all(|vector| !vector.is_mapped())
}
