//! The book.
use crate::day::Day;
use crate::mark::Mark;
use crate::order::Order;
use crate::participant::Participant;
use crate::posting::Posting;
use crate::rows::Rows;

/// All that the desk has recorded: participants by code, the others by number, and the day. No balance and no queue is
/// stored in it.
#[derive(Debug, Drop)]
pub struct Book {
    pub participants: Rows<Participant>,
    pub postings: Rows<Posting>,
    pub orders: Rows<Order>,
    pub marks: Rows<Mark>,
    pub day: Day,
}
