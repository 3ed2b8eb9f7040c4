//! The laws of isolation: which bytes of memory an event of an actor changes, which it can tell, and
//! where the vectors of messages lie.
//!
//! The functions here do nothing. Each one's contract is a law of the machine of `ffm_model`, for every
//! system, with all calls, PROGRAMMER ERRORs and panics. The modules of `proofs/` offer the same laws,
//! and their steps, to the crates above.

ghost use Rattle.std.specs.Prelude.{◌≡◌, List, Some};
ghost use Rattle.ffm_model.specs.declared.machine.Entry.{Entry};
ghost use Rattle.ffm_model.specs.declared.system.System.{System};
ghost use Rattle.ffm_model.specs.Memory.{ByteMap};
ghost use Rattle.ffm_model.specs.Reach.{AgreeWithin, StepsAlike};
ghost use Rattle.ffm_model.specs.State.{State};
ghost use Rattle.ffm_model.specs.Step.{after, step};
ghost use Rattle.law_calls.specs.ByteChanges.{CallsChangeReach, StepsChangeReach};
ghost use Rattle.law_calls.specs.Vectors.{HaveFour, LieWithin};

/// A byte that an event changes lies in RAM of its actor's domain, in writable MMIO of its actor, in an
/// output vector of a request that its actor holds, or in the length word of one. It holds of each
/// state of a run, and of any other in which each message has four input and four output vectors.
pub fn bytes_changed_lie_in_reach()
    ensures steps { (s : System) → (st : State) → HaveFour st.spm → StepsChangeReach s st }
    ensures calls { (s : System) → (st : State) → HaveFour st.spm → CallsChangeReach s st }
    ensures runs { (s : System) → (m : ByteMap) → (es : List Entry) → (st : State)
        → after s m es ≡ Some st
        → StepsChangeReach s st }
{}

/// A byte that an event tells lies in RAM of its actor's domain, in MMIO of its actor, or in an input
/// vector of a request that its actor holds: in two states that differ only in
/// memory outside of these, the same entries are steps, and after one each byte is the same in both or wasn't
/// changed in either. It holds of any two states.
pub fn bytes_read_lie_in_reach()
    ensures { (s : System) → (one other : State) → (e : Entry) → AgreeWithin s e.actor.0 one other
        → StepsAlike one other (step s one e) (step s other e) }
{}

/// In each state of a run each message has four input and four output vectors, and they meet the
/// condition on vectors in the system's regions: they, and the descriptors of the outputs given, lie in
/// these regions, and no more was moved than there is.
pub fn vectors_stay_within()
    ensures four { (s : System) → (m : ByteMap) → (es : List Entry) → (st : State)
        → after s m es ≡ Some st
        → HaveFour st.spm }
    ensures within { (s : System) → (m : ByteMap) → (es : List Entry) → (st : State)
        → after s m es ≡ Some st
        → LieWithin s st.spm }
{}
