//! What a trace shows: the state after each of its entries, and why an entry is refused, with the
//! conditions under which its call is a PROGRAMMER ERROR.
//!
//! The state is the one that the judge's machine keeps. Texts name actors, services and signals as the
//! system does.
#![tactic(auto)]

mod access;
mod asked_text;
mod asking;
mod behind;
mod calls;
mod client;
mod condition;
mod phases;
mod reasons;
mod reasons_text;
mod service;
mod signal;
mod stall;
mod state;
mod transfer;
mod waits;

pub use asked_text::{ask_text, legal_entry_text};
pub use asking::{CallAfter, PlaceAsked, Reply, ask};
pub use behind::{Place, StateAfter, after_last, after_place};
pub use calls::conditions;
pub use condition::Condition;
pub use phases::put_phase;
pub use reasons::{Finding, IllegalEntry, Rule, why};
pub use reasons_text::{answer_due, known_or, rule_words, where_not_looked, why_text};
pub use stall::{put_signals_in, put_stop};
pub use state::{connection_word, rung, state_text};
pub use waits::{Waits, flags_at, is_stalled, owner_of, waits_for};
