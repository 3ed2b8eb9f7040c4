//! The program: every interleaving of a scenario's scripts, explored, over the real files and the standard output, ending with its answer.
#![tactic(auto)]

use explore_commands::{Progress, program};
use file_places::KeptFiles;
use outside_io::{HostFiles, HostWords, StdoutSink};
use std::io::IsTerminal;
use std::process::ExitCode;

fn main(rt: HostRuntime) -> ExitCode {
    let is_watched = rt.stderr().is_terminal();
    program(
        &rt,
        rt.alloc(),
        &HostWords::new(&rt),
        &mut KeptFiles::of(rt.alloc(), HostFiles::new(&rt)),
        &mut StdoutSink::new(&rt),
        &mut Progress::new(&rt, is_watched),
    )
}
