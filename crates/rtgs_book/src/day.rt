//! The business day.
use crate::phase::Phase;
use rtgs_money::BusinessDate;

/// The business day: its date, or the last one's while the desk is closed, if there ever was one, the phase, and
/// whether gridlocks are resolved without being asked for.
#[derive(Clone, Copy, Debug, PartialEq, Eq)]
pub struct Day {
    pub date: Option<BusinessDate>,
    pub phase: Phase,
    /// Chosen when the day is opened. While the desk is closed it is false.
    pub automatic: bool,
}
