//! The files that are read, the sink that is written and the words of the command line: what they
//! tell, and how often they failed.
#![tactic(auto)]

mod counted;
mod files;
mod front;
mod gathering;
mod host;
mod listed;
mod memory_files;
mod memory_sink;
mod opening;
mod output;
mod sink;
mod steady_files;
mod steady_sink;
mod words;

pub use counted::Counted;
pub use files::{FileError, Files, NamesFailed};
pub use front::whole_of;
pub use gathering::Gathering;
pub use host::{HostFiles, HostOpening, StdoutSink};
pub use memory_files::MemoryFiles;
pub use memory_sink::MemorySink;
pub use opening::{OpenedFiles, Opening};
pub use output::{Output, Telling};
pub use sink::{Failed, Sink, put_all};
pub use steady_files::SteadyFiles;
pub use steady_sink::SteadySink;
pub use words::{HostWords, Words, given_words};
