//! The top call over files and a sink that never fail.

ghost use Rattle.std.specs.Prelude.{◌≡◌, ◌≢◌, None, false, map, string_bytes};
ghost use Rattle.outside_io.specs.SteadyFiles.{seen_of as files_seen};
ghost use Rattle.outside_io.specs.SteadySink.{seen_of as sink_seen};
ghost use Rattle.ffm_top.specs.Answers.{Answered};
ghost use Rattle.command_words.specs.Words.{asks_threads, order_of};

use crate::run::NoThreads;
use crate::top::ffm_by;
use outside_io::{SteadyFiles, SteadySink};
use std::alloc::Global;

/// `ffm` without threads, over files and a sink that never fail: neither 7 nor 8 comes, and where
/// the words are accepted and the files give no refusal, what was asked for is done and its text
/// written, or no memory was found. The files tell which of them were read.
pub fn ffm_steady(
    alloc: Global,
    words: &Vec<String>,
    files: &mut SteadyFiles,
    out: &mut SteadySink,
) -> u8
    requires { asks_threads (order_of (map string_bytes words.now.items)) ≡ false }
    ensures answered { Answered (map string_bytes words.now.items) None
        (files_seen files.old) (files_seen files.new)
        (sink_seen out.old) (sink_seen out.new) result }
    ensures no_read_fails { result ≢ 7 }
    ensures no_put_fails { result ≢ 8 }
{
    ffm_by(alloc, words, files, out, NoThreads)
}
