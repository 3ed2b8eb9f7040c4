//! Worked runs, checked by computing with the definitions. No function here does anything. Most say of the
//! machine that written traces are runs with their verdict, and most of these that the handles are the
//! names, and many that the machine refuses single wrong entries; others say which addresses an actor
//! reaches, which vectors a request may have, how traces are judged, and which traces follow each other
//! after a reset. Those of `scenarios` say that the laws of runs, ranges and replays speak of something,
//! and that without one of its conditions each is wrong.
#![tactic(auto)]

mod connections;
mod contexts;
mod functions;
mod handling;
mod isolation;
mod judgements;
mod mapping;
mod panics;
mod requests;
mod restarts;
mod scenarios;
mod signals;
mod stateless;

pub use connections::{
    budget_of_two_connections, closed_handle_of_a_partition, closed_handle_used_again,
    handle_of_another_client, turned_away_by_the_service, version_policies, versions_of_services,
};
pub use contexts::{blocked_thread_keeps_the_turn, threads_take_turns};
pub use functions::{answered_by_a_function, connection_answered_by_a_function};
pub use handling::{handled_at_first_level, interrupt_while_disabled};
pub use isolation::isolation_levels;
pub use judgements::{first_wrong_entry, runs_without_end};
pub use mapping::{mapped_vector_read, vectors_mapped};
pub use panics::{
    clients_of_a_panicked_service, disconnections_in_order,
    programmer_error_answered_to_a_partition,
};
pub use requests::{
    bytes_moved_in_order, descriptor_changed_after_the_call, one_request_served,
    reach_of_a_partition, request_answered_with_programmer_error, rhandle_of_a_connection,
    vectors_of_a_request, written_past_the_end,
};
pub use restarts::runs_again_after_a_panic;
pub use scenarios::{
    names_fix_handles, orders_meet_in_one_state, ranges_are_needed, turns_are_the_freedom,
};
pub use signals::{doorbell_rung_twice, interrupt_raised_while_asserted, two_messages_one_signal};
pub use stateless::{called_without_connection, caller_panics, panicked_without_connection};
