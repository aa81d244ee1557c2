//! Scenarios of orders that wait for each other. Each is a text in one small language, and is run at each layer: by the
//! resolver alone, by a ledger, by desks, over HTTP, and by runs of the program.
//!
//! ALFA, BETA and GAMA begin with nothing, on a day that is open and not automatic. Each line is one of these:
//!
//! - `post BANK CENTS` gives a bank this many cents, and `credit BANK CENTS` sets its credit limit.
//! - `order SENDER REFERENCE RECEIVER CENTS` is an order, which has to wait when it comes. No two orders of a scenario
//!   share a reference.
//! - `resolve REFERENCES` is a resolution, which settles these orders and no others. They stand in the order in which
//!   they came; where there are none, `nothing` stands in their place.
//! - `has BANK CENTS queued REFERENCES` tells what a bank has by now, and which of its orders wait, in the same way.
//!
//! A scenario has a resolution, and ends with what each of the three banks has. A line that is not understood fails the
//! test.

mod gridlocks;
mod layer;
mod scenario;
mod scenario_account;
mod scenario_order;

pub use crate::scenarios::gridlocks::GRIDLOCKS;
pub use crate::scenarios::layer::Layer;
pub use crate::scenarios::scenario::plays;
pub use crate::scenarios::scenario_account::{BANK_COUNT, ScenarioAccount, bank_index};
pub use crate::scenarios::scenario_order::{ScenarioOrder, cents_of, queue_json, references_of};
