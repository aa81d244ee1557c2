//! One statement for each kind of change to a row.
mod inserts;
mod updates;

pub(crate) use inserts::{add_mark, add_order, add_participant, add_posting};
pub(crate) use updates::{enter_queue, set_balance, set_credit, set_day, set_state};
