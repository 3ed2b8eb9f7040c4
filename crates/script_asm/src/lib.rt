//! The assembler: makes the script of a partition or a client of its lines, and that of the device
//! of its raises.
#![tactic(auto)]

mod device;
mod first_words;
mod instructions;
mod labels;
mod lines;
mod scripts;
mod words;

pub use device::device_script;
pub use instructions::{instruction_of, one_word, two_words};
pub use labels::{LabelledLines, labelled_lines};
pub use lines::{Line, lines_of};
pub use scripts::{LineError, assemble, line_refusal};
pub use words::operand_of;
