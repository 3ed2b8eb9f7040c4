//! Which bytes the calls on vectors read and change, as laws over the definitions.
ghost use Rattle.std.specs.Prelude.{◌≡◌, ℕ, ◌+◌, ◌*◌, ◌≤◌, length, true, false, List};
ghost use Rattle.ffm_model.specs.declared.objects.Span.{Span as SpanSeen};
ghost use Rattle.ffm_model.specs.declared.system.System.{System as SystemSeen};
ghost use Rattle.ffm_model.specs.Memory.{ByteMap, valid_buffer, vectors_of, copy_bytes, lengths_written, load_number, store_number, words_stored};
ghost use Rattle.ffm_model.specs.Reach.{span_has, length_word_has};
ghost use Rattle.memory_image.specs.Differences.{range_covers};
ghost use Rattle.message_vectors.specs.Bytes.{ram_has, AgreeWhere, TellsNothingAt};

/// Each byte of a buffer that an actor may hand to a call lies in RAM of its domain.
pub fn buffers_lie_in_ram()
    ensures { (s : SystemSeen) → (a base len x : ℕ) → valid_buffer s a base len ≡ true
        → range_covers (base, len) x ≡ true
        → ram_has s a x ≡ true }
{}

/// The next bytes of a vector, no more than what is left of it, lie in it.
pub fn moved_bytes_lie_in_vector()
    ensures { (v : SpanSeen) → (n x : ℕ) → v.moved + n ≤ v.len
        → range_covers (v.base + v.moved, n) x ≡ true
        → span_has x v ≡ true }
{}

/// A copy changes no byte outside of the range that it copies to.
pub fn copy_changes_target()
    ensures { (m : ByteMap) → (from to len x : ℕ) → range_covers (to, len) x ≡ false
        → copy_bytes m from to len x ≡ m x }
{}

/// A copy tells nothing of bytes outside of the range that it copies from: where two memories agree
/// in that range, each byte is the same in both afterwards or wasn't changed in either.
pub fn copy_tells_source()
    ensures { (one other : ByteMap) → (from to len x : ℕ)
        → AgreeWhere (λ y. range_covers (from, len) y) one other
        → TellsNothingAt x one other (copy_bytes one from to len) (copy_bytes other from to len) }
{}

/// Storing a number, as an actor does by itself, changes no byte outside of its `size` bytes.
pub fn store_changes_range()
    ensures { (m : ByteMap) → (at size v x : ℕ) → range_covers (at, size) x ≡ false
        → store_number m at size v x ≡ m x }
{}

/// Loading a number, as an actor does by itself, tells nothing of bytes outside of its `size` bytes:
/// memories that agree in these give the same number.
pub fn load_tells_range()
    ensures { (one other : ByteMap) → (at size : ℕ)
        → AgreeWhere (λ x. range_covers (at, size) x) one other
        → load_number one at size ≡ load_number other at size }
{}

/// Storing words one after the other, as `psa_get` does with the twelve of a `psa_msg_t`, changes no
/// byte outside of them, four bytes a word.
pub fn words_change_range()
    ensures { (m : ByteMap) → (at x : ℕ) → (words : List ℕ)
        → range_covers (at, 4 * length words) x ≡ false
        → words_stored m at words x ≡ m x }
{}

/// The lengths that a reply writes change no byte outside of the length words of the descriptors.
pub fn lengths_change_length_words()
    ensures { (m : ByteMap) → (at x : ℕ) → (vs : List SpanSeen)
        → length_word_has x at (length vs) ≡ false
        → lengths_written m at vs x ≡ m x }
{}

/// The lengths that a reply writes tell nothing of memory.
pub fn lengths_tell_nothing()
    ensures { (one other : ByteMap) → (at x : ℕ) → (vs : List SpanSeen) →
        TellsNothingAt x one other (lengths_written one at vs) (lengths_written other at vs) }
{}

/// The vectors of a call tell nothing of bytes outside of the RAM of the actor's domain.
pub fn vectors_tell_ram()
    ensures { (s : SystemSeen) → (one other : ByteMap) → (a in_vec in_len out_vec out_len : ℕ)
        → AgreeWhere (ram_has s a) one other
        → vectors_of s one a in_vec in_len out_vec out_len
        ≡ vectors_of s other a in_vec in_len out_vec out_len }
{}
