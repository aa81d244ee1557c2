//! Due dates, as the tables have them.
use rtgs_money::BusinessDate;

/// The due date of the order with this number, which stands in a row of its own.
#[derive(Clone, Copy, Debug, PartialEq, Eq)]
pub struct Forward {
    pub number: u64,
    pub due: BusinessDate,
}
