//! The runner of a client's contexts.
ghost use Rattle.std.specs.Prelude.{◌≡◌, ◌≤◌, ◌<◌, ℕ, IfSome, List, false, get_or, length, if◌then◌else◌};
ghost use Rattle.std.specs.List.{AllByRecursion, list_any};
ghost use Rattle.std.specs.Option.{option_map_or};
ghost use Rattle.ffm_model.specs.declared.script.Instruction.{Instruction};
ghost use Rattle.ffm_model.specs.Contexts.{is_spent, next_calls, script_of};
ghost use Rattle.ffm_model.specs.Plans.{is_stop};
ghost use Rattle.ffm_model.specs.ScriptRuns.{Point, arrived, behind, start};
ghost use Rattle.ffm_model.specs.Scripts.{IsPart};
ghost use Rattle.partition_sim.specs.Clients.{AtCall, EachAtCall, EachReaches, Reaches, call_from, first_context};

use crate::context::Context;
use ffm_model::{Call, Outcome, Part, Script};
use ns_contexts::Desk;
use script_engines::{is_blocked, is_stop};
use std::marker::Model;

fn is_spent(call: Call) -> bool
    ensures { result ≡ is_spent call }
{
    matches!(call, Call::Stop { spent: true })
}

// Brings one context to its next call.
fn settle_at(contexts: &mut [Context; 8], parts: &[Part], k: usize)
    requires here { k < length parts.now }
    requires few { length parts.now ≤ 8 }
    requires fits { AllByRecursion IsPart parts.now }
    ensures at { (p : Point)
        → Reaches (script_of parts.now k) p (get_or contexts.old k first_context)
        → AtCall (script_of parts.now k) p (get_or contexts.new k first_context) }
    ensures others { (j : ℕ) → (j ≡ k → ⊥)
        → get_or contexts.new j first_context ≡ get_or contexts.old j first_context }
{
    let part = &parts[k];
    let context = &mut contexts[k];
    context.settle(part.instructions.as_slice());
}

// Brings each context to its next call.
fn settle_all(contexts: &mut [Context; 8], parts: &[Part])
    requires few { length parts.now ≤ 8 }
    requires fits { AllByRecursion IsPart parts.now }
    ensures { (ps : List Point) → EachReaches parts.now ps contexts.old
        → EachAtCall parts.now ps contexts.new }
{
    for k in 0..parts.len() {
        settle_at(contexts, parts, k);
    }
}

// The next call of one context.
fn call_of(contexts: &[Context; 8], k: usize) -> Call
    requires { k < 8 }
    ensures { (script : List Instruction) (p : Point)
        → AtCall script p (get_or contexts.now k first_context)
        → result ≡ call_from script p }
{
    contexts[k].call
}

// Which contexts have ended: their next call is Stop.
fn ended_contexts(contexts: &[Context; 8], parts: &[Part]) -> [bool; 8]
    requires few { length parts.now ≤ 8 }
    ensures { (ps : List Point) → EachAtCall parts.now ps contexts.now → (k : ℕ)
        → k < length parts.now
        → get_or result k false ≡ is_stop (call_from (script_of parts.now k) (get_or ps k start)) }
{
    let mut ended = [false; 8];
    for k in 0..parts.len() {
        ended[k] = is_stop(call_of(contexts, k));
    }
    ended
}

// Whether the local lines of a context are spent.
fn any_spent(contexts: &[Context; 8], parts: &[Part]) -> bool
    requires few { length parts.now ≤ 8 }
    ensures { (ps : List Point) → length ps ≡ length parts.now
        → EachAtCall parts.now ps contexts.now
        → result ≡ list_any is_spent (next_calls parts.now ps) }
{
    for k in 0..parts.len() {
        if is_spent(call_of(contexts, k)) {
            return true;
        }
    }
    false
}

// The call that is due: the return of a call that waits for it, else that of the context that was
// picked; where all have ended, the end.
fn call_due(waiting: bool, contexts: &[Context; 8], parts: &[Part], picked: Option<u32>) -> Call
    requires few { length parts.now ≤ 8 }
    requires within { IfSome picked (λ k. k < length parts.now) }
    ensures { (ps : List Point) → length ps ≡ length parts.now
        → EachAtCall parts.now ps contexts.now
        → let calls = next_calls parts.now ps in
        result ≡ (if waiting
        then Call.Resume
        else option_map_or (λ k. get_or calls k (Call.Stop false)) picked
        (Call.Stop (list_any is_spent calls))) }
{
    if waiting {
        return Call::Resume;
    }
    match picked {
        Some(k) => call_of(contexts, k as usize),
        None => Call::Stop {
            spent: any_spent(contexts, parts),
        },
    }
}

// Gives one context the outcome of its call, which isn't Blocked.
fn answer_at(contexts: &mut [Context; 8], k: usize, outcome: &Outcome)
    requires { k < 8 }
    ensures answered { (script : List Instruction) (p : Point)
        → AtCall script p (get_or contexts.old k first_context)
        → Reaches script (behind script outcome.now (arrived script p))
        (get_or contexts.new k first_context) }
    ensures others { (j : ℕ) → (j ≡ k → ⊥)
        → get_or contexts.new j first_context ≡ get_or contexts.old j first_context }
{
    let context = &mut contexts[k];
    context.take(outcome);
}

/// Runs the scripts of a client, which take turns: one call at a time. The contexts are numbered as
/// the parts of the client's script.
///
/// Ask `next` for the client's call, give its outcome to `after`, and so on. Where `next` is asked at
/// least once before each `after`, with the same script, each call is the one that the client makes
/// after the outcomes so far.
#[derive(Drop)]
pub struct ClientRunner {
    contexts: [Context; 8],
    desk: Desk,
    // The context whose call was asked for.
    caller: u32,
    // The last outcome is Blocked.
    waiting: bool,
}

impl Model for ClientRunner {
    ghost use Rattle.std.specs.Prelude.{◌<◌, ◌≤◌};
    ghost use Rattle.partition_sim.specs.Clients.{ClientStanding};

    ghost Value = { ClientStanding };

    ghost view = { λ r.
        record { contexts = r.contexts; desk = r.desk; caller = r.caller; waiting = r.waiting } };

    ghost invariant = { λ r. (r.caller < r.desk.count) × (r.desk.count ≤ 8) };
}

impl ClientRunner {
    ghost use Rattle.std.specs.Prelude.{◌≡◌, ◌≤◌, ◌∷◌, ◌++◌, [], List, length};
    ghost use Rattle.ffm_model.specs.declared.machine.Outcome.{Outcome};
    ghost use Rattle.ffm_model.specs.declared.script.Instruction.{Instruction};
    ghost use Rattle.ffm_model.specs.Contexts.{context_plan};
    ghost use Rattle.partition_sim.specs.Clients.{AskedAll, FollowsAll};

    /// A runner of so many contexts, at the start of their scripts. It has seen no outcome.
    pub fn new(count: u32) -> ClientRunner
        requires some { 1 ≤ count }
        requires few { count ≤ 8 }
        ensures follows { (scripts : List (List Instruction)) → length scripts ≡ count
            → FollowsAll scripts [] result }
        ensures count { result.desk.count ≡ count }
    {
        let context = Context::new();
        ClientRunner {
            contexts: [context; 8],
            desk: Desk::new(count),
            caller: 0,
            waiting: false,
        }
    }

    /// The call that the client makes next. Asked again before `after`, it is the same call.
    pub fn next(&mut self, script: &Script) -> Call
        requires { length script.now ≡ self.old.desk.count }
        ensures call { (outcomes : List Outcome) → FollowsAll script.now outcomes self.old
            → result ≡ context_plan script.now outcomes }
        ensures asked { (outcomes : List Outcome) → FollowsAll script.now outcomes self.old
            → AskedAll script.now outcomes self.new }
        ensures again { (outcomes : List Outcome) → FollowsAll script.now outcomes self.old
            → FollowsAll script.now outcomes self.new }
        ensures count { self.new.desk.count ≡ self.old.desk.count }
    {
        let parts = script.parts.as_slice();
        settle_all(&mut self.contexts, parts);
        let picked = self.desk.pick(ended_contexts(&self.contexts, parts));
        self.caller = picked.unwrap_or(self.desk.turn());
        call_due(self.waiting, &self.contexts, parts, picked)
    }

    /// Takes the outcome of the call that was asked for.
    pub fn after(&mut self, outcome: &Outcome)
        ensures follows { (scripts : List (List Instruction)) (outcomes : List Outcome)
            → AskedAll scripts outcomes self.old
            → FollowsAll scripts (outcomes ++ outcome.now ∷ []) self.new }
        ensures count { self.new.desk.count ≡ self.old.desk.count }
    {
        if is_blocked(outcome) {
            self.waiting = true;
            return;
        }
        answer_at(&mut self.contexts, self.caller as usize, outcome);
        self.desk.served(self.caller);
        self.waiting = false;
    }
}
