//! A participant's statement, the day report, and the orders and the marks of a date: the records of the date that each
//! takes, and its text, exact to the byte.
#![tactic(auto)]

mod book_text_fault;
mod day_sums;
mod kind;
pub mod laws;
mod line;
mod lines;
mod listed;
mod listed_marks;
mod listed_orders;
mod next_records;
mod ordered;
mod parts;
mod party;
mod records_of_date;
mod report;
mod row;
mod source;
mod statement;
mod sums;
mod tallies;
mod tally;
mod total;
mod totals;

pub use crate::book_text_fault::BookTextFault;
pub use crate::listed_marks::write_marks;
pub use crate::listed_orders::write_orders;
pub use crate::report::write_report;
pub use crate::source::Source;
pub use crate::statement::write_statement;
