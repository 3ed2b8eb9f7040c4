//! The laws of what is written and judged: what a judgement means (`judgements`), that one text is due
//! (`one_text`), that `replay` takes what `run` writes (`replay`), and that the files of `make` are never
//! refused (`generated`).
//!
//! The functions here do nothing. The contract of each is a law.
#![tactic(auto)]

mod generated;
mod judgements;
mod one_text;
mod replay;

pub use generated::generated_files_are_admitted;
pub use judgements::traces_are_judged_plainly;
pub use one_text::one_text_is_due;
pub use replay::{
    legal_traces_are_interleavings, replay_takes_what_run_writes, texts_of_runs_are_traces,
};
