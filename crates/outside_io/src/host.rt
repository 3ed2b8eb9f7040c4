//! Real files and the standard output: the trusted edge. No clause knows what the operating system
//! does: here it opens a file, and takes the bytes of a piece.

ghost use Rattle.std.specs.Prelude.{◌≡◌, None};

use crate::gathering::Gathering;
use crate::opening::{OpenedFiles, Opening};
use crate::output::Output;
use std::fs::File;
use std::io::Printer;
use std::{io, rt};

/// What opens real files, by names as the operating system takes them.
///
/// It tells neither what a name holds, nor which names were opened.
#[derive(Drop)]
pub struct HostOpening<'a, R> {
    rt: &'a R,
}

impl<R: rt::Files> Opening for HostOpening<'_, R> {
    type Reader = R::File;

    ghost holds = { λ _. None };

    ghost opened = { λ _. None };

    fn open(&mut self, name: &str) -> io::Result<R::File> {
        File::open(self.rt, name)
    }
}

/// Real files. A directory, a missing file and one that may not be read are `Failed`.
///
/// They tell neither what a name holds nor which names were read; the name of the last failed read they tell.
pub type HostFiles<'a, R> = OpenedFiles<HostOpening<'a, R>>;

impl<'a, R: rt::Files> OpenedFiles<HostOpening<'a, R>> {
    ghost use Rattle.outside_io.specs.Opening.{faults_of};

    /// Real files, none of which failed yet. It keeps the runtime value.
    pub fn new(rt: &'a R) -> Self
        ensures no_fault { faults_of result ≡ 0 }
    {
        OpenedFiles::of(HostOpening { rt })
    }
}

/// The standard output. Pieces are gathered, and written where the next one finds no room and at
/// each `flush`; so a text is written whole only once `flush` answered `Ok`.
///
/// It doesn't tell its bytes. What was gathered waits still after a write that failed.
pub type StdoutSink<'a, R> = Gathering<Output<Printer<'a, R>>>;

impl<'a, R: Print> Gathering<Output<Printer<'a, R>>> {
    ghost use Rattle.outside_io.specs.Gathering.{sink_of};
    ghost use Rattle.outside_io.specs.Output.{faults_of};

    /// The standard output, which didn't fail yet. It keeps the runtime value.
    pub fn new(rt: &'a R) -> Self
        ensures no_fault { faults_of (sink_of result) ≡ 0 }
    {
        Gathering::of(Output::of(io::writer(rt)))
    }
}
