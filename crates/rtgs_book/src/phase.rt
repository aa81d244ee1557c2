//! Phases of the business day.

/// Whether the desk is open, and for what.
#[derive(Clone, Copy, Debug, PartialEq, Eq)]
pub enum Phase {
    /// No day is open: nothing is queued, and no balance may be below zero.
    Closed,
    /// Orders are taken.
    Open,
    /// Orders are no longer taken, but may be withdrawn or resolved.
    CutOff,
}
