//! What a scenario file says of one actor.

use crate::machine::ActorId;
use crate::scenario::Lines;

/// The script that a scenario file gives an actor.
#[derive(Drop)]
pub struct ScriptItem {
    pub actor: ActorId,
    pub lines: Lines,
}
