//! The runner of an actor's script.

use crate::client::ClientRunner;
use crate::partition::PartitionRunner;
use ffm_model::{ActorId, ActorKind, Call, Outcome, Script, System};

/// Runs the script of an actor.
///
/// Ask `next` for the actor's call, give its outcome to `after`, and so on. Where `next` is asked at
/// least once before each `after`, with the same script, each call is the one that the script makes
/// after the outcomes so far.
#[derive(Drop)]
pub enum Runner {
    /// A non-secure client, whose contexts take turns, or an actor with one context: the device, or a
    /// partition whose script maps nothing.
    Client(ClientRunner),
    /// A partition, which may map the vectors of the messages that it holds.
    Partition(PartitionRunner),
}

impl Runner {
    ghost use Rattle.std.specs.Prelude.{◌≡◌, ◌≢◌, ◌≤◌, ◌<◌, ◌∷◌, ◌++◌, [], List, length};
    ghost use Rattle.ffm_model.specs.declared.machine.Outcome.{Outcome};
    ghost use Rattle.ffm_model.specs.declared.script.Instruction.{Instruction};
    ghost use Rattle.ffm_model.specs.Actors.{actor_count, kind_of};
    ghost use Rattle.partition_sim.specs.ActorPlans.{Role, plan_of_role, role_at};
    ghost use Rattle.partition_sim.specs.Standing.{Asked, Follows, contexts_of, role_of};

    /// A runner at the start of its actor's script, which has as many parts as the actor has
    /// contexts: 1, or up to 8 for a non-secure client. It has seen no outcome.
    pub fn new(system: &System, actor: ActorId, contexts: u32) -> Runner
        requires exists { actor.0 < actor_count system.now }
        requires some { 1 ≤ contexts }
        requires few { contexts ≤ 8 }
        requires single { kind_of system.now actor.0 ≢ ActorKind.Client → contexts ≡ 1 }
        ensures role { role_of result ≡ role_at system.now actor.0 }
        ensures contexts { contexts_of result ≡ contexts }
        ensures follows { (parts : List (List Instruction)) → length parts ≡ contexts
            → Follows (role_at system.now actor.0) parts [] result }
    {
        match system.actor_kind(actor) {
            ActorKind::Partition => Runner::Partition(PartitionRunner::new(system, actor.0)),
            ActorKind::Client | ActorKind::Device => Runner::Client(ClientRunner::new(contexts)),
        }
    }

    /// The call that the actor makes next. Asked again before `after`, it is the same call. The script
    /// has as many parts as the runner has contexts.
    pub fn next(&mut self, script: &Script) -> Call
        requires { length script.now ≡ contexts_of self.old }
        ensures call { (role : Role) (outcomes : List Outcome)
            → Follows role script.now outcomes self.old
            → result ≡ plan_of_role role script.now outcomes }
        ensures asked { (role : Role) (outcomes : List Outcome)
            → Follows role script.now outcomes self.old
            → Asked role script.now outcomes self.new }
        ensures again { (role : Role) (outcomes : List Outcome)
            → Follows role script.now outcomes self.old
            → Follows role script.now outcomes self.new }
        ensures contexts { contexts_of self.new ≡ contexts_of self.old }
    {
        match self {
            Runner::Client(runner) => runner.next(script),
            Runner::Partition(runner) => runner.next(script.instructions()),
        }
    }

    /// Takes the outcome of the call that was asked for.
    pub fn after(&mut self, outcome: &Outcome)
        ensures follows { (role : Role) (parts : List (List Instruction)) (outcomes : List Outcome)
            → Asked role parts outcomes self.old
            → Follows role parts (outcomes ++ outcome.now ∷ []) self.new }
        ensures contexts { contexts_of self.new ≡ contexts_of self.old }
    {
        match self {
            Runner::Client(runner) => runner.after(outcome),
            Runner::Partition(runner) => runner.after(outcome),
        }
    }
}
