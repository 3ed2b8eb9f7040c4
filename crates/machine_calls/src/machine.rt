//! The machine's state.

ghost use Rattle.std.specs.Prelude.{◌≡◌, slice_set};
ghost use Rattle.ffm_model.specs.State.{phase_of, with_phase};
ghost use Rattle.machine_calls.specs.Machine.{spm_of_objects};

use ffm_model::{ActorPhase, OpenConnection, PendingMessage, SourceFlags};
use memory_image::Image;

/// The state without its memory and without the handles of the past.
#[derive(Drop)]
pub struct Objects {
    /// In the order of their making.
    pub connections: Vec<OpenConnection>,
    pub connections_made: u32,
    /// Those to one service in order of arrival. The order of others to each other counts for nothing; here it is that of
    /// arrival too, unless the state was put together otherwise.
    pub messages: Vec<PendingMessage>,
    /// What each actor does.
    pub phases: Vec<ActorPhase>,
    pub doorbells: Vec<bool>,
    pub sources: Vec<SourceFlags>,
}

/// The objects, and the memory beside them.
#[derive(Drop)]
pub struct Machine {
    pub objects: Objects,
    pub memory: Image,
}

fn put_phase(phases: &mut [ActorPhase], actor: u32, phase: ActorPhase)
    ensures { phases.new ≡ slice_set phases.old actor phase }
{
    let at = actor as usize;
    if at < phases.len() {
        phases[at] = phase;
    }
}

impl Objects {
    /// What an actor does; one that isn't there has ended.
    pub fn phase(&self, actor: u32) -> ActorPhase
        ensures { result ≡ phase_of (spm_of_objects self.now) actor }
    {
        match self.phases.as_slice().get(actor as usize) {
            Some(phase) => *phase,
            None => ActorPhase::Ended,
        }
    }

    /// Sets what an actor does.
    pub fn set_phase(&mut self, actor: u32, phase: ActorPhase)
        ensures state { spm_of_objects self.new ≡ with_phase (spm_of_objects self.old) actor phase }
        ensures messages { self.new.messages ≡ self.old.messages }
        ensures made { self.new.connections_made ≡ self.old.connections_made }
    {
        put_phase(self.phases.as_mut_slice(), actor, phase);
    }
}
