//! What one command changes in the rows.
use crate::day::Day;
use crate::mark::Mark;
use crate::order::Order;
use crate::order_state::OrderState;
use crate::participant::Participant;
use crate::posting::Posting;
use crate::rows::Rows;
use rtgs_money::{BusinessDate, Cents, Code, Credit};

/// One row that is added or set.
#[derive(Clone, Copy, Debug, PartialEq, Eq)]
pub enum RowChange {
    AddParticipant(Participant),
    AddPosting(Posting),
    AddOrder(Order),
    AddMark(Mark),
    SetCredit { code: Code, credit: Credit },
    /// The new balance of a participant whose balance moves.
    SetBalance { code: Code, balance: Cents },
    /// The new state of the order with this number.
    SetState { number: u64, state: OrderState },
    /// The held order with this number enters its queue on this date.
    EnterQueue { number: u64, date: BusinessDate },
    SetDay(Day),
}

/// The row changes of one command, in the order in which they are made.
pub type Change = Rows<RowChange>;
