//! The core of a book.
use super::setting::{MONDAY, TUESDAY, code, date};
use rtgs_book::{
    Account, Book, Core, Day, Mark, Order, OrderState, Participant, Phase, Posting, Rows,
};
use rtgs_money::{Amount, Cents, Credit, KeyDigest, Name, PostingAmount, Reference};
use rtgs_soundness::{check, core_of};
use rtgs_tests_desks::ensure;
use std::alloc::Global;
use std::test::Fail;

/// A participant of this code, whose key's digest is this byte throughout.
fn participant(text: &str, key: u8) -> Result<Participant, Fail> {
    Ok(Participant {
        code: code(text)?,
        name: Name::read(b"A Bank")?,
        key: KeyDigest::from_bytes([key; 32]),
        credit: Credit::NONE,
    })
}

/// ALFA's order of this number to BETA.
fn order(number: u64, name: &str, cents: u64, state: OrderState) -> Result<Order, Fail> {
    Ok(Order {
        number,
        sender: code("ALFA")?,
        reference: Reference::read(name.as_bytes())?,
        receiver: code("BETA")?,
        amount: Amount::from_cents(cents).ok_or("an amount")?,
        date: date(MONDAY)?,
        due: None,
        state,
    })
}

/// The same order, which is held until Tuesday.
fn held_order(number: u64, name: &str, cents: u64) -> Result<Order, Fail> {
    let tuesday = date(TUESDAY)?;
    Ok(Order {
        date: tuesday,
        due: Some(tuesday),
        ..order(number, name, cents, OrderState::Held)?
    })
}

/// The posting of 100 cents to ALFA, from before all days.
fn posting() -> Result<Posting, Fail> {
    Ok(Posting {
        number: 1,
        code: code("ALFA")?,
        reference: Reference::read(b"P-1")?,
        cents: PostingAmount::from_cents(100).ok_or("a posting")?,
        date: None,
    })
}

/// The mark of an order of 30 cents.
fn mark() -> Result<Mark, Fail> {
    Ok(Mark {
        number: 1,
        date: date(MONDAY)?,
        count: 1,
        value: Cents::new(30),
    })
}

/// An open day, which is automatic.
fn day() -> Result<Day, Fail> {
    Ok(Day {
        date: Some(date(MONDAY)?),
        phase: Phase::Open,
        automatic: true,
    })
}

/// ALFA's first order, which is settled, its second one, which waits in its queue, and its third one, which is held.
fn orders() -> Result<[Order; 3], Fail> {
    let settled = order(1, "A-1", 30, OrderState::Settled(1))?;
    let queued = order(2, "A-2", 80, OrderState::Queued)?;
    Ok([settled, queued, held_order(3, "A-3", 40)?])
}

/// A book with these orders.
fn book(alloc: Global) -> Result<Book, Fail> {
    let parties = [participant("ALFA", 1)?, participant("BETA", 2)?];
    let (posting, orders, mark, day) = (posting()?, orders()?, mark()?, day()?);
    let participants = Vec::from_slice(alloc, &parties)?;
    let postings = Vec::from_slice(alloc, &[posting])?;
    let orders = Vec::from_slice(alloc, &orders)?;
    let marks = Vec::from_slice(alloc, &[mark])?;
    Ok(Book {
        participants: Rows::from_vec(participants),
        postings: Rows::from_vec(postings),
        orders: Rows::from_vec(orders),
        marks: Rows::from_vec(marks),
        day,
    })
}

// The core of that book, which is sound.
fn core(alloc: Global) -> Result<Core, Fail> {
    let book = book(alloc)?;
    check(&book)?;
    Ok(core_of(alloc, &book)?)
}

// The accounts of ALFA and of BETA are these two.
fn are_accounts(accounts: &[Account]) -> Result<(), Fail> {
    let [alfa, beta] = accounts else {
        return Err(Fail::from("not two accounts"));
    };
    ensure(alfa.participant.code == code("ALFA")? && alfa.balance == Cents::new(70))?;
    ensure(beta.participant.code == code("BETA")? && beta.balance == Cents::new(30))
}

#[test]
fn a_core_has_balances(rt: HostRuntime) -> Result<(), Fail> {
    are_accounts(core(rt.alloc())?.accounts.as_slice())
}

// The second order is queued and the third one held, and no other waits.
fn are_waiting(waiting: &[Order]) -> Result<(), Fail> {
    let [queued, held] = waiting else {
        return Err(Fail::from("not two orders that wait"));
    };
    ensure(*queued == order(2, "A-2", 80, OrderState::Queued)?)?;
    ensure(*held == held_order(3, "A-3", 40)?)
}

#[test]
fn a_core_has_the_orders_that_wait(rt: HostRuntime) -> Result<(), Fail> {
    are_waiting(core(rt.alloc())?.waiting.as_slice())
}

// The day, and the numbers of the next posting, order and mark.
fn goes_on(core: &Core) -> Result<(), Fail> {
    ensure(core.day == day()?)?;
    ensure(core.next_posting == 2 && core.next_order == 4 && core.next_mark == 2)
}

#[test]
fn a_core_has_the_day_and_the_next_numbers(rt: HostRuntime) -> Result<(), Fail> {
    goes_on(&core(rt.alloc())?)
}
