//! Two sessions with a desk: in memory, and over two disks of which one fails.
mod lives;
