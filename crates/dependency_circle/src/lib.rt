//! The first circle of a graph.
//!
//! A circle is a list of different places, each with an edge to the next, and the last with one to
//! the first. The first circle is the one that comes first when lists are compared place by place, a
//! list before the longer ones that begin with it. So it begins with the least place on any circle.
#![tactic(auto)]

mod circle;
mod graph;
mod laws;
mod next;
mod ways;

pub use circle::first_circle;
pub use graph::Graph;
pub use laws::{
    first_of_the_lists_is_the_first_circle, least_place_first, one_first_circle, rotated_circle,
    worked_graphs,
};
