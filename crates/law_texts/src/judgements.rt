//! The law of judgements: what the judgement of a trace means, in plain words.
//!
//! The function here does nothing. Its contract is a law of the machine of `ffm_model`: it holds for
//! every system, every opening memory, every limit and every trace.

ghost use Rattle.std.specs.Prelude.{ℕ, List};
ghost use Rattle.ffm_model.specs.declared.machine.Entry.{Entry};
ghost use Rattle.ffm_model.specs.declared.machine.Verdict.{Verdict};
ghost use Rattle.ffm_model.specs.declared.system.System.{System};
ghost use Rattle.ffm_model.specs.Memory.{ByteMap};
ghost use Rattle.law_texts.specs.Plain.{JudgedPlainly};

/// A trace is judged legal exactly where its entries are a run of the machine, at most as many as the limit, and its
/// verdict is that of the run. Else it is judged illegal at the first place, counted from 1, at which the entry is no
/// step after those before it, or is above the limit, or which is one after all entries.
pub fn traces_are_judged_plainly()
    ensures { (s : System) (m : ByteMap) (limit : ℕ) (es : List Entry) (v : Verdict)
        → JudgedPlainly s m limit es v }
{}
