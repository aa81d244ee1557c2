//! The first row of the business day, as the tables have it.
use rtgs_book::Phase;
use rtgs_money::BusinessDate;

/// What the one row of the table `desk` says: the version of the tables, and the date and the phase of the business
/// day.
#[derive(Clone, Copy, Debug, PartialEq, Eq)]
pub struct DeskRow {
    pub version: u64,
    pub date: Option<BusinessDate>,
    pub phase: Phase,
}
