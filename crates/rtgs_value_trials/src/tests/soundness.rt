//! Large books that are sound, and books each of which breaks one rule.
mod automatic_days;
mod due_dates;
mod judged;

use super::setting::{MONDAY, TUESDAY, date};
use rtgs_book::{
    Book, Day, Fault, Mark, Order, OrderState, Participant, Phase, Posting, Rows, Rule,
};
use rtgs_money::{
    Amount, BusinessDate, Cents, Code, Credit, KeyDigest, Name, PostingAmount, Reference,
};
use rtgs_soundness::{RULES_OF_A_BOOK, balances, check};
use rtgs_tests_desks::ensure;
use std::alloc::Global;
use std::collections::BTreeMap;
use std::test::Fail;

// The name of the n-th thing: a letter and five digits.
fn name_of(letter: u8, n: u32) -> [u8; 6] {
    [
        letter,
        b'0' + (n / 10_000 % 10) as u8,
        b'0' + (n / 1000 % 10) as u8,
        b'0' + (n / 100 % 10) as u8,
        b'0' + (n / 10 % 10) as u8,
        b'0' + (n % 10) as u8,
    ]
}

fn open_day() -> Result<Day, Fail> {
    Ok(Day {
        date: Some(date(MONDAY)?),
        phase: Phase::Open,
        automatic: false,
    })
}

fn code_of(n: u32) -> Result<Code, Fail> {
    Ok(Code::read(&name_of(b'B', n))?)
}

fn reference_of(letter: u8, n: u32) -> Result<Reference, Fail> {
    Ok(Reference::read(&name_of(letter, n))?)
}

fn bank(n: u32) -> Result<Participant, Fail> {
    Ok(Participant {
        code: code_of(n)?,
        name: Name::read(b"A Bank")?,
        key: KeyDigest::from_bytes([(n % 256) as u8; 32]),
        credit: Credit::read(b"0")?,
    })
}

// The n-th order, of 1 cent and settled, from one of the banks to the next.
fn order(n: u32, banks: u32, date: BusinessDate) -> Result<Order, Fail> {
    let banks = banks.max(1);
    let number = u64::from(n) + 1;
    Ok(Order {
        number,
        sender: code_of(n % banks)?,
        reference: reference_of(b'R', n)?,
        receiver: code_of((n % banks + 1) % banks)?,
        amount: Amount::read(b"1")?,
        date,
        due: None,
        state: OrderState::Settled(number),
    })
}

// The mark under which an order was settled alone.
fn mark(order: &Order) -> Mark {
    Mark {
        number: order.number,
        date: order.date,
        count: 1,
        value: Cents::new(1),
    }
}

fn banks_of(alloc: Global, banks: u32) -> Result<Vec<Participant>, Fail> {
    let mut participants = Vec::new(alloc);
    for n in 0..banks {
        participants.push(bank(n)?)?;
    }
    Ok(participants)
}

// Adds the n-th order.
fn add_order(sent: &mut Vec<Order>, n: u32, banks: u32, date: BusinessDate) -> Result<(), Fail> {
    // Names the type of due dates for the borrow checker, which finds it nowhere else in this function.
    let _no_date: Option<BusinessDate> = None;
    let order = order(n, banks, date)?;
    sent.push(order)?;
    Ok(())
}

fn orders_of(alloc: Global, banks: u32, orders: u32) -> Result<Vec<Order>, Fail> {
    let monday = date(MONDAY)?;
    let mut sent = Vec::new(alloc);
    for n in 0..orders {
        add_order(&mut sent, n, banks, monday)?;
    }
    Ok(sent)
}

// An open book in which each bank sent as much as it received.
fn book_of(alloc: Global, banks: u32, orders: u32) -> Result<Book, Fail> {
    let orders = orders_of(alloc, banks, orders)?;
    let marks = orders.iter().map(mark).collect(alloc)?;
    Ok(Book {
        participants: Rows::from_vec(banks_of(alloc, banks)?),
        postings: Rows::new(alloc),
        orders: Rows::from_vec(orders),
        marks: Rows::from_vec(marks),
        day: open_day()?,
    })
}

// A book of 100 banks with this many orders is sound.
fn is_sound(alloc: Global, orders: u32) -> Result<(), Fail> {
    let book = book_of(alloc, 100, orders)?;
    check(&book)?;
    ensure(book.orders.len() == orders as usize)
}

#[test]
fn book_of_5000_orders_is_sound(rt: HostRuntime) -> Result<(), Fail> {
    is_sound(rt.alloc(), 5000)
}

#[test]
fn book_of_10000_orders_is_sound(rt: HostRuntime) -> Result<(), Fail> {
    is_sound(rt.alloc(), 10_000)
}

#[test]
fn book_of_20000_orders_is_sound(rt: HostRuntime) -> Result<(), Fail> {
    is_sound(rt.alloc(), 20_000)
}

// A sound book by its records, so that a test may break one: a ring of settled orders, one order that is queued, and
// two postings.
#[derive(Drop)]
struct Records {
    participants: [Participant; 3],
    postings: [Posting; 2],
    orders: [Order; 4],
    marks: [Mark; 3],
    day: Day,
}

// The n-th posting, of 10 cents to the n-th bank.
fn posting(n: u32) -> Result<Posting, Fail> {
    Ok(Posting {
        number: u64::from(n) + 1,
        code: code_of(n)?,
        reference: reference_of(b'P', n)?,
        cents: PostingAmount::read(b"10")?,
        date: Some(date(MONDAY)?),
    })
}

fn sound_records() -> Result<Records, Fail> {
    let monday = date(MONDAY)?;
    let ring = [
        order(0, 3, monday)?,
        order(1, 3, monday)?,
        order(2, 3, monday)?,
    ];
    let queued = Order {
        state: OrderState::Queued,
        ..order(3, 3, monday)?
    };
    Ok(Records {
        participants: [bank(0)?, bank(1)?, bank(2)?],
        postings: [posting(0)?, posting(1)?],
        orders: [ring[0], ring[1], ring[2], queued],
        marks: [mark(&ring[0]), mark(&ring[1]), mark(&ring[2])],
        day: open_day()?,
    })
}

// Closes the day with nothing queued, and leaves it automatic.
fn close_automatically(records: &mut Records) {
    records.orders[3].state = OrderState::Rejected;
    records.day.phase = Phase::Closed;
    records.day.automatic = true;
}

// Breaks the rule, and no other.
fn break_rule(records: &mut Records, rule: Rule) -> Result<(), Fail> {
    match rule {
        Rule::OrderNumbers => records.orders[3].number = 5,
        Rule::PostingNumbers => records.postings[1].number = 3,
        Rule::MarkNumbers => {
            records.marks[2].number = 4;
            records.orders[2].state = OrderState::Settled(4);
        }
        Rule::ParticipantCodes => records.participants.reverse(),
        Rule::Keys => records.participants[1].key = KeyDigest::from_bytes([0; 32]),
        Rule::OrderReferences => records.orders[3].reference = reference_of(b'R', 0)?,
        Rule::PostingReferences => records.postings[1].reference = reference_of(b'P', 0)?,
        Rule::Parties => records.orders[3].receiver = code_of(0)?,
        Rule::Marks => records.marks[0].count = 2,
        Rule::Queues => records.day.phase = Phase::Closed,
        Rule::Dates => records.postings[1].date = Some(date(TUESDAY)?),
        Rule::Floors => records.postings[1].cents = PostingAmount::read(b"-11")?,
        Rule::Total => records.postings[1].cents = PostingAmount::read(b"1000000000000000")?,
        Rule::AutomaticDay => close_automatically(records),
        Rule::StoredBalances | Rule::Calm => {}
    }
    Ok(())
}

fn book_with(alloc: Global, records: &Records) -> Result<Book, Fail> {
    let mut book = book_of(alloc, 0, 0)?;
    book.participants = Rows::from_vec(Vec::from_slice(alloc, &records.participants)?);
    book.postings = Rows::from_vec(Vec::from_slice(alloc, &records.postings)?);
    book.orders = Rows::from_vec(Vec::from_slice(alloc, &records.orders)?);
    book.marks = Rows::from_vec(Vec::from_slice(alloc, &records.marks)?);
    book.day = records.day;
    Ok(book)
}

// The check of a book names this rule.
fn breaks(book: &Book, rule: Rule) -> Result<(), Fail> {
    match check(book) {
        Ok(()) => Err(Fail::from("no rule is broken")),
        Err(Fault::Inconsistent { rule: named }) if named == rule => Ok(()),
        Err(fault) => Err(Fail::from(fault)),
    }
}

// A book in which this rule is broken, and no other.
fn broken(alloc: Global, rule: Rule) -> Result<Book, Fail> {
    let mut records = sound_records()?;
    break_rule(&mut records, rule)?;
    book_with(alloc, &records)
}

#[test]
fn each_broken_rule_is_named(rt: HostRuntime) -> Result<(), Fail> {
    let mut named = 0usize;
    for rule in RULES_OF_A_BOOK {
        breaks(&broken(rt.alloc(), rule)?, rule)?;
        named = named.saturating_add(1);
    }
    ensure(named == 14)
}

// Neither the rule on stored balances nor the one on what an automatic day has left is about a book by itself.
#[test]
fn a_book_breaks_no_rule_about_more_than_a_book(rt: HostRuntime) -> Result<(), Fail> {
    check(&broken(rt.alloc(), Rule::StoredBalances)?)?;
    check(&broken(rt.alloc(), Rule::Calm)?)?;
    Ok(())
}

// A book in which two banks have one code, and one key.
fn twins(alloc: Global) -> Result<Book, Fail> {
    let twin = bank(1)?;
    let mut book = book_of(alloc, 0, 0)?;
    book.participants = Rows::from_vec(Vec::from_slice(alloc, &[twin, twin])?);
    Ok(book)
}

// A book whose day has no date, though there are orders, and in which a bank is below zero.
fn undated(alloc: Global) -> Result<Book, Fail> {
    let mut book = book_of(alloc, 3, 2)?;
    book.day = Day {
        date: None,
        phase: Phase::Closed,
        automatic: false,
    };
    Ok(book)
}

#[test]
fn first_broken_rule_is_named(rt: HostRuntime) -> Result<(), Fail> {
    breaks(&twins(rt.alloc())?, Rule::ParticipantCodes)?;
    breaks(&undated(rt.alloc())?, Rule::Dates)
}

// The balance of the n-th bank is this one, or there is none.
fn has(balances: &BTreeMap<Code, i128>, n: u32, cents: Option<i128>) -> Result<(), Fail> {
    ensure(balances.get(&code_of(n)?).copied() == cents)
}

fn has_all(balances: &BTreeMap<Code, i128>) -> Result<(), Fail> {
    has(balances, 0, Some(10))?;
    has(balances, 1, Some(10))?;
    has(balances, 2, Some(0))?;
    has(balances, 3, None)
}

#[test]
fn balances_are_summed(rt: HostRuntime) -> Result<(), Fail> {
    let book = book_with(rt.alloc(), &sound_records()?)?;
    check(&book)?;
    has_all(&balances(&book)?)
}
