//! Small books as text, a record a line.
use super::script::{lines_of, sides};
use super::setting::{MONDAY, code, date};
use rtgs_book::{Book, Day, Mark, Order, OrderState, Participant, Phase, Posting, Rows};
use rtgs_money::{Amount, BusinessDate, Cents, Credit, KeyDigest, Name, PostingAmount, Reference};
use std::alloc::Global;
use std::test::Fail;

#[derive(Drop)]
struct Records {
    participants: Vec<Participant>,
    postings: Vec<Posting>,
    orders: Vec<Order>,
    marks: Vec<Mark>,
    day: Day,
}

/// A book of these records, whose day is Monday, open and not automatic unless a line tells another. A line has a kind
/// of record and its fields:
///
///     participant CODE
///     posting NUMBER CODE REFERENCE CENTS DATE             the date is `-` before the first day
///     order NUMBER SENDER RECEIVER REFERENCE CENTS DATE STATE
///     order NUMBER SENDER RECEIVER REFERENCE CENTS DATE STATE due DATE
///     mark NUMBER DATE COUNT CENTS
///     closed DATE                                          the day is closed
///     day cut-off                                          the day is past its cut-off
///     day automatic                                        gridlocks are resolved without being asked for
///
/// The state of an order is queued, held, withdrawn, rejected, or the number of its mark.
pub fn book_of(alloc: Global, lines: &str) -> Result<Book, Fail> {
    let mut records = Records {
        participants: Vec::new(alloc),
        postings: Vec::new(alloc),
        orders: Vec::new(alloc),
        marks: Vec::new(alloc),
        day: open_monday()?,
    };
    for line in lines_of(lines)? {
        put(alloc, &mut records, line)?;
    }
    Ok(Book {
        participants: Rows::from_vec(records.participants),
        postings: Rows::from_vec(records.postings),
        orders: Rows::from_vec(records.orders),
        marks: Rows::from_vec(records.marks),
        day: records.day,
    })
}

fn open_monday() -> Result<Day, Fail> {
    Ok(Day {
        date: Some(date(MONDAY)?),
        phase: Phase::Open,
        automatic: false,
    })
}

// Reads a line, and puts its record after the others.
fn put(alloc: Global, records: &mut Records, line: &str) -> Result<(), Fail> {
    let (kind, fields) = sides(line, " ")?;
    if kind == "participant" {
        return put_participant(&mut records.participants, fields);
    }
    let words = words_of(alloc, fields)?;
    put_words(records, kind, words.as_slice())
}

// Puts a posting, an order or a mark after the others, or changes the day, by its words.
fn put_words(records: &mut Records, kind: &str, words: &[&str]) -> Result<(), Fail> {
    if kind == "posting" {
        return put_posting(&mut records.postings, words);
    }
    if kind == "order" {
        return put_order(&mut records.orders, words);
    }
    if kind == "mark" {
        return put_mark(&mut records.marks, words);
    }
    if kind == "closed" {
        return close(&mut records.day, words);
    }
    if kind == "day" {
        return set_day(&mut records.day, words);
    }
    Err(Fail::new(kind))
}

fn put_participant(participants: &mut Vec<Participant>, fields: &str) -> Result<(), Fail> {
    let place = u8::try_from(participants.len())?;
    let participant = participant(fields, place)?;
    participants.push(participant)?;
    Ok(())
}

fn put_posting(postings: &mut Vec<Posting>, words: &[&str]) -> Result<(), Fail> {
    let read = [posting(words)?];
    postings.extend_from_slice(&read)?;
    Ok(())
}

fn put_order(orders: &mut Vec<Order>, words: &[&str]) -> Result<(), Fail> {
    // Names the type of due dates for the borrow checker, which finds it nowhere else in this function.
    let _no_date: Option<BusinessDate> = None;
    let order = order(words)?;
    orders.push(order)?;
    Ok(())
}

fn put_mark(marks: &mut Vec<Mark>, words: &[&str]) -> Result<(), Fail> {
    let mark = mark(words)?;
    marks.push(mark)?;
    Ok(())
}

fn close(day: &mut Day, words: &[&str]) -> Result<(), Fail> {
    let [last] = words else {
        return Err(Fail::from("another number of words"));
    };
    day.date = date_or_none(last)?;
    day.phase = Phase::Closed;
    Ok(())
}

fn set_day(day: &mut Day, words: &[&str]) -> Result<(), Fail> {
    match words {
        ["cut-off"] => day.phase = Phase::CutOff,
        ["automatic"] => day.automatic = true,
        _ => return Err(Fail::from("no such day")),
    }
    Ok(())
}

// The participant of a code, whose key's digest is its place throughout.
fn participant(text: &str, place: u8) -> Result<Participant, Fail> {
    Ok(Participant {
        code: code(text)?,
        name: Name::read(b"A Bank")?,
        key: KeyDigest::from_bytes([place; 32]),
        credit: Credit::NONE,
    })
}

fn posting(words: &[&str]) -> Result<Posting, Fail> {
    let [number, to, reference, cents, day] = words else {
        return Err(Fail::from("another number of words"));
    };
    Ok(Posting {
        number: number.parse::<u64>()?,
        code: code(to)?,
        reference: Reference::read(reference.as_bytes())?,
        cents: PostingAmount::read(cents.as_bytes())?,
        date: date_or_none(day)?,
    })
}

fn order(words: &[&str]) -> Result<Order, Fail> {
    let [
        number,
        sender,
        receiver,
        reference,
        cents,
        day,
        state,
        due @ ..,
    ] = words
    else {
        return Err(Fail::from("another number of words"));
    };
    Ok(Order {
        number: number.parse::<u64>()?,
        sender: code(sender)?,
        reference: Reference::read(reference.as_bytes())?,
        receiver: code(receiver)?,
        amount: Amount::read(cents.as_bytes())?,
        date: date(day)?,
        due: due_of(due)?,
        state: state_of(state)?,
    })
}

// The due date of an order, where there are words of one.
fn due_of(words: &[&str]) -> Result<Option<BusinessDate>, Fail> {
    match words {
        [] => Ok(None),
        ["due", day] => Ok(Some(date(day)?)),
        _ => Err(Fail::from("no due date")),
    }
}

fn mark(words: &[&str]) -> Result<Mark, Fail> {
    let [number, day, count, cents] = words else {
        return Err(Fail::from("another number of words"));
    };
    Ok(Mark {
        number: number.parse::<u64>()?,
        date: date(day)?,
        count: count.parse::<u64>()?,
        value: Cents::new(cents.parse::<i64>()?),
    })
}

fn words_of(alloc: Global, fields: &str) -> Result<Vec<&str>, Fail> {
    Ok(fields.split_whitespace().collect(alloc)?)
}

fn date_or_none(word: &str) -> Result<Option<BusinessDate>, Fail> {
    if word == "-" {
        return Ok(None);
    }
    Ok(Some(date(word)?))
}

// Where an order stands: a number is that of the mark under which it was settled.
fn state_of(word: &str) -> Result<OrderState, Fail> {
    if word == "queued" {
        return Ok(OrderState::Queued);
    }
    if word == "held" {
        return Ok(OrderState::Held);
    }
    if word == "withdrawn" {
        return Ok(OrderState::Withdrawn);
    }
    if word == "rejected" {
        return Ok(OrderState::Rejected);
    }
    Ok(OrderState::Settled(word.parse::<u64>()?))
}
