//! The texts of a desk's book, from the book to the bytes: a participant's statement, the day report, the orders and
//! the marks of a date, and what is shown of one account and of all, of a queue and of an order, of orders that wait,
//! and of the whole desk.

mod account;
mod accounts;
pub mod laws;
mod listings;
mod queues;
mod readings;
mod status;
mod texts;
mod waiting;

pub use crate::desks::account::{account_reply, account_text};
pub use crate::desks::accounts::{accounts_reply, accounts_text};
pub use crate::desks::listings::{marks_text, orders_text, write_marks, write_orders};
pub use crate::desks::queues::{queues_reply, queues_text};
pub use crate::desks::readings::{report_text, statement_text, text_of};
pub use crate::desks::status::{status_reply, status_text};
pub use crate::desks::texts::{write_report, write_statement};
pub use crate::desks::waiting::{held_reply, held_text, waiting_reply, waiting_text};
