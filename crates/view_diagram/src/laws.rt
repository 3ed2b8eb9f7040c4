//! What the arrows of a trace say of its calls, in plain words.
//!
//! The functions here do nothing. Their contracts are laws of the machine of `ffm_model` and of the
//! definition of the arrows: they hold for every system, every opening memory, every limit, every trace and
//! every part.
ghost use Rattle.view_diagram.specs.Pairs.{EachAnswerPairs, EachCallBlocks, EachCallHasArrow, EachFreedHasArrow, EachIsAnsweredOnce, EachReplyHasArrow};

/// An arrow that names a place is a reply to the call at that place, or its client's release. That call is
/// Blocked, and its client's last entry before the arrow's. The call is for a message of the kind that the
/// arrow answers, to the same service, and its own arrow goes the other way, from the client to the
/// partition that answers.
pub fn answers_pair_with_calls()
    ensures { EachAnswerPairs }
{}

/// No call is answered twice: one arrow at most names its place.
pub fn calls_are_answered_once()
    ensures { EachIsAnsweredOnce }
{}

/// Each entry after which its actor is Blocked is a call for a message to a service. It has one arrow, from
/// the client to the service's partition, with that message. A call for a message that answers Blocked leaves
/// its actor Blocked. Each reply has its arrow, which goes to the client of its message.
pub fn calls_and_replies_have_arrows()
    ensures calls { EachCallHasArrow }
    ensures blocks { EachCallBlocks }
    ensures replies { EachReplyHasArrow }
{}

/// Where a partition panics, each other actor that was Blocked and is so no longer has an arrow from that
/// partition. The arrow is for the message that the actor waited for.
pub fn freed_clients_have_arrows()
    ensures { EachFreedHasArrow }
{}
