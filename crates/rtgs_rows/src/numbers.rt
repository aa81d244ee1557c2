//! The numbers that stand in columns: the version of the tables, and what stands for a phase of the day, for the choice
//! of how gridlocks are resolved, and for where an order stands.

/// The version in which new tables are made.
pub const VERSION: u64 = 3;

/// No day is open.
pub const PHASE_CLOSED: u64 = 0;

/// A day is open.
pub const PHASE_OPEN: u64 = 1;

/// A day is open, past its cut-off.
pub const PHASE_CUT_OFF: u64 = 2;

/// Gridlocks are resolved where that is asked for, and else not.
pub const RESOLUTION_ON_REQUEST: u64 = 0;

/// Gridlocks are resolved without being asked for.
pub const RESOLUTION_AUTOMATIC: u64 = 1;

/// The order is queued.
pub const STATE_QUEUED: u64 = 0;

/// The order is settled, under the mark in the next column.
pub const STATE_SETTLED: u64 = 1;

/// The order is withdrawn.
pub const STATE_WITHDRAWN: u64 = 2;

/// The order is rejected.
pub const STATE_REJECTED: u64 = 3;

/// The order is held until its due date, which stands in another table.
pub const STATE_HELD: u64 = 4;
