//! Where the scripts of a scenario stand after entries of a trace, and the text of that.
#![tactic(auto)]

mod lines;
mod rows;
mod standing;
mod text;

pub use rows::{NumberedContext, ScriptRow, Told, script_rows};
pub use standing::{End, Standing, standing_of};
pub use text::{end_word, put_scripts};
