//! The runner of an actor's script in a scheduled run.

use crate::client::ClientRunner;
use crate::partition::PartitionRunner;
use ffm_model::{Call, Memory, Outcome, Script};
use std::alloc::Global;
use std::marker::Model;

// A runner of either kind. That of a partition has room for all messages that it may hold: it stands in a
// box, so that the others stay small.
#[derive(Drop)]
enum SmallRunner {
    Client(ClientRunner),
    Partition(Box<PartitionRunner>),
}

impl SmallRunner {
    ghost use Rattle.std.specs.Prelude.{◌≡◌, ◌∷◌, ◌++◌, [], List, length};
    ghost use Rattle.ffm_model.specs.declared.machine.Outcome.{Outcome};
    ghost use Rattle.ffm_model.specs.declared.script.Instruction.{Instruction};
    ghost use Rattle.partition_sim.specs.ActorPlans.{Role, plan_of_role};
    ghost use Rattle.partition_sim.specs.SmallRunners.{runner_of};
    ghost use Rattle.partition_sim.specs.Standing.{Asked, Follows, contexts_of};

    fn next(&mut self, script: &Script) -> Call
        requires { length script.now ≡ contexts_of (runner_of self.old) }
        ensures call { (role : Role) (outcomes : List Outcome)
            → Follows role script.now outcomes (runner_of self.old)
            → result ≡ plan_of_role role script.now outcomes }
        ensures asked { (role : Role) (outcomes : List Outcome)
            → Follows role script.now outcomes (runner_of self.old)
            → Asked role script.now outcomes (runner_of self.new) }
        ensures again { (role : Role) (outcomes : List Outcome)
            → Follows role script.now outcomes (runner_of self.old)
            → Follows role script.now outcomes (runner_of self.new) }
        ensures contexts { contexts_of (runner_of self.new) ≡ contexts_of (runner_of self.old) }
    {
        match self {
            SmallRunner::Client(runner) => runner.next(script),
            SmallRunner::Partition(runner) => runner.next(script.instructions()),
        }
    }

    fn after(&mut self, outcome: &Outcome)
        ensures follows { (role : Role) (parts : List (List Instruction)) (outcomes : List Outcome)
            → Asked role parts outcomes (runner_of self.old)
            → Follows role parts (outcomes ++ outcome.now ∷ []) (runner_of self.new) }
        ensures contexts { contexts_of (runner_of self.new) ≡ contexts_of (runner_of self.old) }
    {
        match self {
            SmallRunner::Client(runner) => runner.after(outcome),
            SmallRunner::Partition(runner) => runner.after(outcome),
        }
    }
}

/// Runs the script of an actor, as a `Runner` does, in less room where it holds no messages.
///
/// Contracts see a `Runner`.
#[derive(Drop)]
pub(crate) struct TurnRunner {
    runner: SmallRunner,
}

impl Model for TurnRunner {
    ghost use Rattle.partition_sim.specs.declared.runner.Runner.{Runner};

    ghost Value = { Runner };

    ghost use Rattle.partition_sim.specs.SmallRunners.{runner_of};

    ghost view = { λ r. runner_of r.runner };
}

impl TurnRunner {
    ghost use Rattle.std.specs.Prelude.{◌≡◌, ◌∷◌, ◌++◌, [], IfOk, List, length};
    ghost use Rattle.ffm_model.specs.declared.machine.Outcome.{Outcome};
    ghost use Rattle.ffm_model.specs.declared.script.Instruction.{Instruction};
    ghost use Rattle.partition_sim.specs.declared.runner.Runner.TheVariants as kind;
    ghost use Rattle.partition_sim.specs.ActorPlans.{Role, plan_of_role};
    ghost use Rattle.partition_sim.specs.Standing.{Asked, Follows, contexts_of};

    /// The runner of contexts that take turns.
    pub(crate) fn of_contexts(runner: ClientRunner) -> TurnRunner
        ensures { result ≡ kind.Client runner }
    {
        TurnRunner {
            runner: SmallRunner::Client(runner),
        }
    }

    /// The runner of a partition that holds messages. `Memory` where none was found for them.
    pub(crate) fn of_partition(alloc: Global, runner: PartitionRunner) -> Result<TurnRunner, Memory>
        ensures { IfOk result (λ r. r ≡ kind.Partition runner) }
    {
        Ok(TurnRunner {
            runner: SmallRunner::Partition(Box::new(alloc, runner)?),
        })
    }

    /// The call that the actor makes next. Asked again before `after`, it is the same call. The script
    /// has as many parts as the runner has contexts.
    pub(crate) fn next(&mut self, script: &Script) -> Call
        requires { length script.now ≡ contexts_of self.old }
        ensures call { (role : Role) (outcomes : List Outcome)
            → Follows role script.now outcomes self.old
            → result ≡ plan_of_role role script.now outcomes }
        ensures asked { (role : Role) (outcomes : List Outcome)
            → Follows role script.now outcomes self.old
            → Asked role script.now outcomes self.new }
        ensures again { (role : Role) (outcomes : List Outcome)
            → Follows role script.now outcomes self.old
            → Follows role script.now outcomes self.new }
        ensures contexts { contexts_of self.new ≡ contexts_of self.old }
    {
        self.runner.next(script)
    }

    /// Takes the outcome of the call that was asked for.
    pub(crate) fn after(&mut self, outcome: &Outcome)
        ensures follows { (role : Role) (parts : List (List Instruction)) (outcomes : List Outcome)
            → Asked role parts outcomes self.old
            → Follows role parts (outcomes ++ outcome.now ∷ []) self.new }
        ensures contexts { contexts_of self.new ≡ contexts_of self.old }
    {
        self.runner.after(outcome);
    }
}
