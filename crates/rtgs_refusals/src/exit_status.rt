//! The statuses with which the program ends.

/// What was asked for was done.
pub const DONE: u8 = 0;

pub const REFUSED: u8 = 1;

/// The words are no command line.
pub const MISUSED: u8 = 2;

/// It could not be tried, or not to its end: memory, the book's file or standard output failed.
pub const FAILED: u8 = 3;
