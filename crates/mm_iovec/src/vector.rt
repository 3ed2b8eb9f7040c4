//! A vector of a message that is held.
ghost use Rattle.std.specs.Prelude.{◌≡◌, map};
ghost use Rattle.ffm_model.specs.Held.{fresh_vector, is_fresh, is_mapped, is_or_was_mapped, no_vector, touched, vector_at, with_state};
ghost use Rattle.mm_iovec.specs.Items.{state_of, vector_of};

/// What has become of a vector.
#[derive(Clone, Copy)]
pub enum VectorState {
    /// `psa_read`, `psa_skip` or `psa_write` used it.
    Used,
    /// No call has used it, and it was never mapped.
    Fresh,
    /// Its bytes stand in its window.
    Mapped,
    /// It was mapped, and is no more.
    Unmapped,
}

/// A vector of a message that is held.
#[derive(Clone, Copy)]
pub struct HeldVector {
    /// Its size in bytes, as `psa_get` told it.
    pub size: u32,
    /// What has become of it.
    pub state: VectorState,
}

impl Default for HeldVector {
    ghost is_default = { λ v. vector_of v ≡ no_vector };

    // One that isn't there.
    fn default() -> Self {
        HeldVector {
            size: 0,
            state: VectorState::Used,
        }
    }
}

impl HeldVector {
    pub(crate) fn fresh(size: u32) -> Self
        ensures { vector_of result ≡ fresh_vector size }
    {
        HeldVector {
            size,
            state: VectorState::Fresh,
        }
    }

    pub(crate) fn is_fresh(self) -> bool
        ensures { result ≡ is_fresh (vector_of self).state }
    {
        matches!(self.state, VectorState::Fresh)
    }

    pub(crate) fn is_mapped(self) -> bool
        ensures { result ≡ is_mapped (vector_of self).state }
    {
        matches!(self.state, VectorState::Mapped)
    }

    pub(crate) fn is_or_was_mapped(self) -> bool
        ensures { result ≡ is_or_was_mapped (vector_of self).state }
    {
        matches!(self.state, VectorState::Mapped | VectorState::Unmapped)
    }
}

/// The vector at an index.
pub(crate) fn vector_at(vectors: &[HeldVector], index: u32) -> HeldVector
    ensures { vector_of result ≡ vector_at (map vector_of vectors.now) index }
{
    match vectors.get(index as usize) {
        Some(vector) => *vector,
        None => HeldVector::default(),
    }
}

/// The vector at an index gets a state.
pub(crate) fn set_state(vectors: &mut [HeldVector], index: u32, state: VectorState)
    ensures { map vector_of vectors.new
        ≡ with_state (state_of state) index (map vector_of vectors.old) }
{
    let place = index as usize;
    if place < vectors.len() {
        let size = vectors[place].size;
        vectors[place] = HeldVector { size, state };
    }
}

/// The vector at an index becomes used where it was fresh.
pub(crate) fn touch(vectors: &mut [HeldVector], index: u32)
    ensures { map vector_of vectors.new ≡ touched index (map vector_of vectors.old) }
{
    if vector_at(vectors, index).is_fresh() {
        set_state(vectors, index, VectorState::Used);
    }
}
