//! The second row of the business day, as the tables have it.

/// What the one row of the table `resolution` says: whether gridlocks are resolved without being asked for.
#[derive(Clone, Copy, Debug, PartialEq, Eq)]
pub struct ResolutionRow {
    pub automatic: bool,
}
