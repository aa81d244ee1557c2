//! What is said of a day that is opened.
use rtgs_money::BusinessDate;

/// What an operator says of the business day that it opens.
#[derive(Clone, Copy, Debug, PartialEq, Eq)]
pub struct NewDay {
    pub date: BusinessDate,
    /// Whether a resolution follows each command of the day that may let orders settle.
    pub automatic: bool,
}
