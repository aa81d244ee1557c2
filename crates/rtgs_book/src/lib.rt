//! The settlement book: its records, the commands, and what they mean. And the part of a book that an open desk has in
//! memory (`cores`).
#![tactic(auto)]

mod account;
mod account_reading;
mod answer;
mod book;
mod change;
mod command;
pub mod cores;
mod day;
mod fault;
pub mod laws;
mod limits;
mod mark;
mod new_day;
mod new_order;
mod order;
mod order_state;
mod participant;
mod phase;
mod posting;
mod queue_reading;
mod reading;
mod receiver_reading;
mod refusal;
mod rows;
mod rule;
mod standing;
mod status;
mod tally;
mod waiting_reading;

pub use crate::account::Account;
pub use crate::account_reading::AccountReading;
pub use crate::answer::{Answer, Known, Resolution, WholeAnswer};
pub use crate::book::Book;
pub use crate::change::{Change, RowChange};
pub use crate::command::Command;
pub use crate::cores::{Core, Found};
pub use crate::day::Day;
pub use crate::fault::Fault;
pub use crate::limits::{
    LARGEST_BALANCE, LARGEST_NUMBER, LARGEST_TOTAL, LONGEST_QUEUE, MOST_PARTICIPANTS, MOST_QUEUED,
};
pub use crate::mark::Mark;
pub use crate::new_day::NewDay;
pub use crate::new_order::NewOrder;
pub use crate::order::Order;
pub use crate::order_state::OrderState;
pub use crate::participant::Participant;
pub use crate::phase::Phase;
pub use crate::posting::Posting;
pub use crate::queue_reading::QueueReading;
pub use crate::reading::Reading;
pub use crate::receiver_reading::ReceiverReading;
pub use crate::refusal::Refusal;
pub use crate::rows::Rows;
pub use crate::rule::Rule;
pub use crate::standing::Standing;
pub use crate::status::Status;
pub use crate::tally::Tally;
pub use crate::waiting_reading::WaitingReading;
