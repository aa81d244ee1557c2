//! The run that shows what the desk over the file of a book says of a reading. Where it is refused, nothing is printed
//! but the rows of a statement before the one that was not read.

mod statements;
mod texts;

pub use crate::readings::texts::show;
