//! The law of the lines of a run.

ghost use Rattle.std.specs.Prelude.{List};
ghost use Rattle.ffm_model.specs.declared.machine.Entry.{Entry};
ghost use Rattle.ffm_model.specs.declared.system.System.{System};
ghost use Rattle.ffm_model.specs.Memory.{ByteMap};
ghost use Rattle.trace_print.specs.RunLines.{RunsHaveShortLines};

/// A line of a run of the machine has at most 175 bytes with its line feed, where its numbers are values
/// of their types: no call with a long text is answered with a message. It does nothing.
pub fn lines_of_runs_are_short()
    ensures { (s : System) (m : ByteMap) (es : List Entry) → RunsHaveShortLines s m es }
{}
