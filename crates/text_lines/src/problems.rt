//! What a program says to a person at a terminal, and the statuses that come with no text.

use std::io::Eprint;

/// The status where a file that is asked for can't be read.
pub const UNREAD: u8 = 7;

/// The status where a text can't be written whole.
pub const UNWRITTEN: u8 = 8;

/// The status where no memory was found.
pub const NO_MEMORY: u8 = 9;

/// Says on the standard error why a program that ends with this status did nothing, or wrote no text
/// or not all of it: 2, 7 with the name of the file that can't be read, 8 and 9. It says nothing at
/// every other status. That the line can't be written changes nothing.
pub fn say_problem<R: Eprint>(rt: &R, program: &str, status: u8, unread: Option<&str>) {
    let _ = match status {
        2 => eprintln!(rt; "{program}: nothing was done: the output says why"),
        UNREAD => eprintln!(rt; "{program}: can't read {}", unread.unwrap_or("a file")),
        UNWRITTEN => eprintln!(rt; "{program}: the output takes no more"),
        NO_MEMORY => eprintln!(rt; "{program}: out of memory"),
        _ => Ok(()),
    };
}
