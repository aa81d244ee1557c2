//! Which release of the desk this is.
#![tactic(auto)]

/// The version of the program.
pub const PROGRAM_VERSION: &str = "0.14.0";

/// The version in which new tables are made.
pub const TABLES_VERSION: u64 = 3;
