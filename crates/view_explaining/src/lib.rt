//! The first refusal of files, by ffm's own line and in words for people; or that nothing is refused.
#![tactic(auto)]

mod explaining;

pub use explaining::explained;
