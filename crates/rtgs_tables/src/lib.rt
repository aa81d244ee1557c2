//! The keeper of a book over a connection, and the migration of tables of an earlier version.
#![tactic(auto)]

mod faults;
mod migration;
mod sql_keeper;

pub use crate::faults::fault_of_commit;
pub use crate::migration::migrate;
pub use crate::sql_keeper::SqlKeeper;
