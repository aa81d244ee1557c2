//! How much the file of a book may have.

/// How many tables, indexes, views and triggers a desk's file lists at most: it has seven tables, four indexes and what
/// other tools made in it. The time of an opening grows with the square of their number.
pub const MOST_OBJECTS: usize = 100;
