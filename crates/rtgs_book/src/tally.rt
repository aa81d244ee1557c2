//! Orders, counted.
use rtgs_money::Units;

/// How many orders there are, and what they pay together.
#[derive(Clone, Copy, Debug, PartialEq, Eq)]
pub struct Tally {
    pub count: usize,
    pub value: Units,
}
