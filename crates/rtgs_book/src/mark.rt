//! Settlement marks.
use rtgs_money::{BusinessDate, Cents};

/// One settlement: how many orders it settled together, and their value. From then on they are final. Marks are
/// numbered from 1.
#[derive(Clone, Copy, Debug, PartialEq, Eq)]
pub struct Mark {
    pub number: u64,
    pub date: BusinessDate,
    pub count: u64,
    pub value: Cents,
}
