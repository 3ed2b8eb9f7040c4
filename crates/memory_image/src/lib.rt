//! The memory of a system: the bytes of its regions by address, which ranges an actor may name, and where
//! two memories differ, 32 bytes at a time.
#![tactic(auto)]

mod differences;
mod image;
mod index;
mod lanes;
mod opening;
mod pieces;
mod ranges;

pub use differences::{count_differences, first_difference, first_difference_outside};
pub use image::Image;
pub use lanes::{count_unequal, first_unequal, lesser};
pub use opening::opening_image;
pub use ranges::{may_read, may_write, open_within, valid_buffer};
