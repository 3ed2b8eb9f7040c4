//! Loads and stores.
ghost use Rattle.std.specs.Prelude.{◌≡◌, Ok};
ghost use Rattle.ffm_model.specs.Accesses.{load, store};
ghost use Rattle.machine_calls.specs.Machine.{state_of, Does, IsMachineOf};

use crate::machine::Machine;
use ffm_model::{ActorId, Outcome, System};
use machine_rules::is_access_size;
use memory_image::{may_read, may_write};

impl Machine {
    /// A load of an actor. None where the size isn't 1, 2 or 4, or the range isn't one that the actor may read.
    pub fn load(&self, system: &System, actor: ActorId, address: u32, size: u32) -> Option<Outcome>
        requires { IsMachineOf system.now self.now }
        ensures does { Does (λ given.
            load system.now (state_of self.now given) actor.0 address size)
            self.now (Ok result) self.now }
    {
        if !is_access_size(size) || !may_read(system, actor, address, size) {
            return None;
        }
        Some(Outcome::Number(self.memory.load(address, size)))
    }

    /// A store of an actor. None where the size isn't 1, 2 or 4, or the range isn't one that the actor may write.
    pub fn store(
        &mut self,
        system: &System,
        actor: ActorId,
        address: u32,
        size: u32,
        value: u32,
    ) -> Option<Outcome>
        requires { IsMachineOf system.now self.old }
        ensures does { Does (λ given.
            store system.now (state_of self.old given) actor.0 address size value)
            self.old (Ok result) self.new }
        ensures made { self.new.objects.connections_made ≡ self.old.objects.connections_made }
        ensures kept { IsMachineOf system.now self.new }
    {
        if !is_access_size(size) || !may_write(system, actor, address, size) {
            return None;
        }
        self.memory.store(address, size, value);
        Some(Outcome::Done)
    }
}
