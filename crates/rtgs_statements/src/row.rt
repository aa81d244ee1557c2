//! Rows of a statement.
ghost use Rattle.std.specs.Prelude.{◌≡◌, IfOk, string_bytes};
ghost use Rattle.std.specs.Str.{IsAscii};
ghost use Rattle.rtgs_statements.specs.Lines.{mark_of, row_of_posting, row_of_order, row_columns, row_text};

use crate::kind::Kind;
use itoa::Buffer;
use rtgs_book::{Order, OrderState, Posting};
use rtgs_money::{Code, Reference, Units};
use std::alloc::{AllocError, Global};
use std::fmt::Write;

/// One posting or order, as its participant sees it.
#[derive(Clone, Copy, Debug, PartialEq, Eq)]
pub struct Row {
    pub kind: Kind,
    pub number: u64,
    pub reference: Reference,
    /// The other party of an order.
    pub party: Option<Code>,
    pub amount: Units,
    /// The mark under which an order was settled.
    pub mark: Option<u64>,
}

impl Row {
    /// The row that shows a posting.
    pub fn of_posting(posting: &Posting) -> Row
        ensures { result ≡ row_of_posting posting.now }
    {
        Row {
            kind: Kind::Posting,
            number: posting.number,
            reference: posting.reference,
            party: None,
            amount: Units::new(i128::from(posting.cents.cents())),
            mark: None,
        }
    }

    /// The row of an order, for the participant with this code.
    pub fn of_order(code: &Code, order: &Order) -> Row
        ensures { result ≡ row_of_order code.now order.now }
    {
        let is_sender = order.sender == *code;
        let kind = if is_sender {
            Kind::of_sent(order.state)
        } else {
            Kind::Received
        };
        let party = if is_sender {
            order.receiver
        } else {
            order.sender
        };
        Row {
            kind,
            number: order.number,
            reference: order.reference,
            party: Some(party),
            amount: Units::new(i128::from(order.amount.cents())),
            mark: mark_of(order.state),
        }
    }

    /// The row as it is printed. The only error is lack of memory.
    pub fn text(&self, alloc: Global) -> Result<String, AllocError>
        ensures { IfOk result (λ line. string_bytes line ≡ row_text self.now) }
    {
        let kind = self.kind.text();
        let number = self.number;
        let reference = self.reference.as_str();
        let party = match &self.party {
            Some(code) => code.as_str(),
            None => "-",
        };
        let amount = self.amount.text();
        let mut digits = Buffer::new();
        let mark = match self.mark {
            Some(mark) => digits.format(mark),
            None => "-",
        };
        columns(alloc, kind, number, reference, party, amount.as_str(), mark)
    }
}

// The mark under which an order was settled.
fn mark_of(state: OrderState) -> Option<u64>
    ensures { result ≡ mark_of state }
{
    match state {
        OrderState::Settled(mark) => Some(mark),
        _ => None,
    }
}

// Six columns and the end of the line.
fn columns(
    alloc: Global,
    kind: &str,
    number: u64,
    reference: &str,
    party: &str,
    amount: &str,
    mark: &str,
) -> Result<String, AllocError>
    requires kind { IsAscii kind.now }
    requires reference { IsAscii reference.now }
    requires party { IsAscii party.now }
    requires amount { IsAscii amount.now }
    requires mark { IsAscii mark.now }
    ensures { IfOk result
        (λ line. string_bytes line ≡ row_columns kind.now number reference.now party.now amount.now mark.now) }
{
    let mut line = String::new(alloc);
    write!(line, "{kind:<10} {number:09} ")?;
    write!(line, "{reference:<16} {party:<8} ")?;
    writeln!(line, "{amount:>20} {mark:>9}")?;
    Ok(line)
}
