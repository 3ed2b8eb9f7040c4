//! One context: where its script stands.

use ffm_model::{Call, Instruction, Outcome};
use script_engines::{arrive, call_at, note, place_after};

/// Where one script stands that holds no messages: sixteen registers, and a place in the script.
#[derive(Clone, Copy)]
pub struct Context {
    pub registers: [u32; 16],
    pub place: usize,
    // The context stands at its next call.
    pub ready: bool,
    // That call, and where the script goes on after it.
    pub call: Call,
    pub after: usize,
}

impl Context {
    ghost use Rattle.std.specs.Prelude.{◌≡◌, List};
    ghost use Rattle.ffm_model.specs.declared.script.Instruction.{Instruction};
    ghost use Rattle.ffm_model.specs.ScriptRuns.{Point, arrived, behind};
    ghost use Rattle.ffm_model.specs.Scripts.{IsPart};
    ghost use Rattle.partition_sim.specs.Clients.{AtCall, Reaches, first_context};

    /// A context at the start of its script.
    pub fn new() -> Context
        ensures { result ≡ first_context }
    {
        Context {
            registers: [0; 16],
            place: 0,
            ready: false,
            call: Call::Resume,
            after: 0,
        }
    }

    /// Runs local lines up to the context's next call, unless it stands there.
    pub fn settle(&mut self, script: &[Instruction])
        requires { IsPart script.now }
        ensures { (p : Point) → Reaches script.now p self.old → AtCall script.now p self.new }
    {
        if self.ready {
            return;
        }
        let place = arrive(script, &mut self.registers, self.place);
        self.place = place;
        self.call = call_at(script, &self.registers, place);
        self.after = place_after(script, place);
        self.ready = true;
    }

    /// Takes the outcome of the call at which the context stands, which isn't Blocked.
    pub fn take(&mut self, outcome: &Outcome)
        ensures { (script : List Instruction) (p : Point) → AtCall script p self.old
            → Reaches script (behind script outcome.now (arrived script p)) self.new }
    {
        note(&mut self.registers, outcome);
        self.place = self.after;
        self.ready = false;
    }
}
