//! Tests of a book in memory.
use super::super::setting::{MONDAY, code, date, kept, order, posting};
use super::{has_two_banks, with_two_banks};
use rtgs_book::{Book, Day, Fault, Mark, Order, OrderState, Participant, Phase, RowChange, Rule};
use rtgs_money::{Cents, Credit};
use rtgs_tests_desks::{MemoryKeeper, ensure};
use std::alloc::Global;
use std::test::Fail;

/// A keeper with two banks in its book.
fn two_banks(alloc: Global) -> Result<MemoryKeeper, Fail> {
    with_two_banks(alloc, MemoryKeeper::new(alloc))
}

/// The book of a new keeper.
fn new_book(alloc: Global) -> Result<Book, Fail> {
    let mut keeper = MemoryKeeper::new(alloc);
    Ok(keeper.load(alloc)?)
}

#[test]
fn a_new_book_is_empty_and_closed(rt: HostRuntime) -> Result<(), Fail> {
    let book = new_book(rt.alloc())?;
    let (banks, orders) = (book.participants.len(), book.orders.len());
    ensure((banks, orders, book.day.phase) == (0, 0, Phase::Closed))
}

#[test]
fn what_is_committed_is_loaded(rt: HostRuntime) -> Result<(), Fail> {
    let book = two_banks(rt.alloc())?.load(rt.alloc())?;
    ensure(has_two_banks(&book)?)
}

/// The rows of an open Monday on which two orders of 300 cents came, of which the first is settled.
fn one_settled() -> Result<[RowChange; 5], Fail> {
    let monday = date(MONDAY)?;
    Ok([
        RowChange::SetDay(Day {
            date: Some(monday),
            phase: Phase::Open,
            automatic: false,
        }),
        RowChange::AddOrder(order(1, "O-1", 300, OrderState::Queued)?),
        RowChange::AddOrder(order(2, "O-2", 300, OrderState::Queued)?),
        RowChange::SetState {
            number: 1,
            state: OrderState::Settled(1),
        },
        RowChange::AddMark(Mark {
            number: 1,
            date: monday,
            count: 1,
            value: Cents::new(300),
        }),
    ])
}

/// The book of two banks after these rows.
fn book_after(alloc: Global, rows: &[RowChange]) -> Result<Book, Fail> {
    let mut keeper = kept(alloc, two_banks(alloc)?, rows)?;
    Ok(keeper.load(alloc)?)
}

/// The states of two orders, if there are two.
fn states(orders: &[Order]) -> Option<[OrderState; 2]> {
    match orders {
        [first, second] => Some([first.state, second.state]),
        _ => None,
    }
}

#[test]
fn an_order_is_settled(rt: HostRuntime) -> Result<(), Fail> {
    let book = book_after(rt.alloc(), &one_settled()?)?;
    let found = (
        states(book.orders.as_slice()),
        book.marks.len(),
        book.day.phase,
    );
    let wanted = [OrderState::Settled(1), OrderState::Queued];
    ensure(found == (Some(wanted), 1, Phase::Open))
}

/// The credits of two participants, if there are two.
fn credits(participants: &[Participant]) -> Option<[Credit; 2]> {
    match participants {
        [first, second] => Some([first.credit, second.credit]),
        _ => None,
    }
}

#[test]
fn a_credit_is_set(rt: HostRuntime) -> Result<(), Fail> {
    let credit = Credit::from_cents(500).ok_or("a credit")?;
    let row = RowChange::SetCredit {
        code: code("BETA")?,
        credit,
    };
    let book = book_after(rt.alloc(), &[row])?;
    let found = credits(book.participants.as_slice());
    ensure(found == Some([Credit::NONE, credit]))
}

#[test]
fn an_unsound_book_is_not_loaded(rt: HostRuntime) -> Result<(), Fail> {
    let row = RowChange::AddPosting(posting(3, "ALFA", "P-1", 5)?);
    let mut keeper = kept(rt.alloc(), two_banks(rt.alloc())?, &[row])?;
    let fault = keeper.load(rt.alloc()).err();
    let rule = Rule::PostingNumbers;
    ensure(fault == Some(Fault::Inconsistent { rule }))
}
