#![tactic(auto)]
//! Gridlock resolution: which queued payments settle together. The answer is the greatest choice
//! of queue beginnings that leaves no participant below its floor, under the first-in-first-out
//! rule of Bech and Soramäki, "Gridlock resolution in interbank payment systems" (2001).

mod fundings;
mod laws;
mod out_of_memory;
mod positions;
mod queues;
mod resolver;
mod slack;
mod worklist;
mod workspace;

pub use laws::{greatest_is_most, greatest_is_unique, greatest_leaves_nothing};
pub use out_of_memory::OutOfMemory;
pub use positions::{Position, Positions};
pub use queues::{Payment, Queues};
pub use resolver::greatest;
pub use slack::{
    appended_within_slack, appended_without_cover, calm_below_limits, calm_within_slack,
    last_withdrawn_keeps_limits, no_queue_no_limit, nothing_queued_no_limits,
    slack_outlasts_settling, withdrawn_within_slack,
};
pub use workspace::Workspace;
