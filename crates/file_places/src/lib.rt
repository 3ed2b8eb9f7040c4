//! Where values stand in the texts of files, by the places of refusals, and the files as they were read.
#![tactic(auto)]

mod guesses;
mod kept;
mod lexemes;
mod numbers;
mod outline;
mod places;
mod shown;
mod slices;
mod sources;
mod standing;

pub use guesses::nearest;
pub use kept::{KeepsFiles, KeptFile, KeptFiles};
pub use numbers::number_of;
pub use outline::{Cause, Fault, Kind, Node, Outline, outlined};
pub use places::{column_of, line_of, put_line, put_place};
pub use shown::{Listed, Shown};
pub use slices::{Span, front_of, is_blank, is_word_byte, rest_of, word_at};
pub use sources::{FileRead, Source, Sources, Spot};
pub use standing::stands;
