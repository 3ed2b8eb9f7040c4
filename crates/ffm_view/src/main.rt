//! The program: what a trace shows, and why files are refused, over the real files and the standard output, ending with its answer.
#![tactic(auto)]

use file_places::KeptFiles;
use outside_io::{HostFiles, HostWords, StdoutSink};
use std::process::ExitCode;
use view_commands::program;

fn main(rt: HostRuntime) -> ExitCode {
    program(
        &rt,
        rt.alloc(),
        &HostWords::new(&rt),
        &mut KeptFiles::of(rt.alloc(), HostFiles::new(&rt)),
        &mut StdoutSink::new(&rt),
    )
}
