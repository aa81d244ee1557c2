//! How long an order file may be. Readers of files and of requests cite these limits, and so do the definitions.

/// The greatest number of rows of an order file.
pub const MOST_ROWS: usize = 500;

/// The most bytes that an order file may have.
pub const MOST_BYTES: usize = 65_536;
