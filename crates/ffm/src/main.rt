//! The program: the top call over the real files and the standard output, ending with its answer.
#![tactic(auto)]

use ffm_model::OpenGate;
use ffm_top::program;
use outside_io::{HostFiles, HostWords, StdoutSink};
use std::process::ExitCode;

fn main(rt: HostRuntime) -> ExitCode {
    program(
        &rt,
        rt.alloc(),
        &HostWords::new(&rt),
        &mut HostFiles::new(&rt),
        &mut StdoutSink::new(&rt),
        &OpenGate,
    )
}
