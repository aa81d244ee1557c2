//! Banks, their records, desks over keepers, and keepers over tables.
use rtgs_book::{
    Answer, Change, Order, OrderState, Participant, Posting, Refusal, Resolution, RowChange, Rows,
    WholeAnswer,
};
use rtgs_desk::Desk;
use rtgs_keeper::Keeper;
use rtgs_money::{
    Amount, BusinessDate, Cents, Code, Credit, KeyDigest, Name, PostingAmount, Reference,
};
use rtgs_tables::SqlKeeper;
use sqlite::{Alter, Connection, MemStore};
use std::alloc::Global;
use std::test::Fail;

/// What a command is answered.
pub type Reply = Result<WholeAnswer, Refusal>;

/// The first day of the week.
pub const MONDAY: u32 = 20240304;

/// The second day of the week.
pub const TUESDAY: u32 = 20240305;

/// Fails where another text is wanted.
pub fn is_same(found: &str, wanted: &str) -> Result<(), Fail> {
    if found == wanted {
        return Ok(());
    }
    Err(Fail::new(found))
}

/// The code of this text.
pub fn code(text: &str) -> Result<Code, Fail> {
    Ok(Code::read(text.as_bytes())?)
}

/// The reference of this text.
pub fn reference(text: &str) -> Result<Reference, Fail> {
    Ok(Reference::read(text.as_bytes())?)
}

/// The amount of this many cents.
pub fn amount(cents: u64) -> Result<Amount, Fail> {
    Ok(Amount::from_cents(cents).ok_or("an amount")?)
}

/// The date of this number, as 20240304.
pub fn date(day: u32) -> Result<BusinessDate, Fail> {
    Ok(BusinessDate::from_number(day).ok_or("a date")?)
}

/// The record of a participant whose key's digest has this byte throughout.
pub fn participant(text: &str, key: u8) -> Result<Participant, Fail> {
    Ok(Participant {
        code: code(text)?,
        name: Name::read(b"A Bank")?,
        key: KeyDigest::from_bytes([key; 32]),
        credit: Credit::NONE,
    })
}

/// The record of a posting from before the first day.
pub fn posting(number: u64, to: &str, name: &str, cents: i64) -> Result<Posting, Fail> {
    Ok(Posting {
        number,
        code: code(to)?,
        reference: reference(name)?,
        cents: PostingAmount::from_cents(cents).ok_or("a posting")?,
        date: None,
    })
}

/// The record of ALFA's order to pay BETA on Monday.
pub fn order(number: u64, name: &str, cents: u64, state: OrderState) -> Result<Order, Fail> {
    Ok(Order {
        number,
        sender: code("ALFA")?,
        reference: reference(name)?,
        receiver: code("BETA")?,
        amount: amount(cents)?,
        date: date(MONDAY)?,
        due: None,
        state,
    })
}

/// The record of ALFA's order to pay BETA on this day, until which it is held.
pub fn held(number: u64, name: &str, cents: u64, day: u32) -> Result<Order, Fail> {
    let due = date(day)?;
    Ok(Order {
        date: due,
        due: Some(due),
        ..order(number, name, cents, OrderState::Held)?
    })
}

/// These rows, changed as one.
pub fn change(alloc: Global, rows: &[RowChange]) -> Result<Change, Fail> {
    Ok(Rows::from_vec(Vec::from_slice(alloc, rows)?))
}

/// A keeper of a new book in tables, which a store in memory has.
pub fn new_keeper(alloc: Global) -> Result<SqlKeeper<MemStore>, Fail> {
    match SqlKeeper::create(Connection::open_in_memory(alloc)?) {
        Ok(keeper) => Ok(keeper),
        Err((fault, _)) => Err(Fail::from(fault)),
    }
}

/// The keeper, once it has kept these rows as one change.
pub fn kept<K: Keeper + Drop>(alloc: Global, keeper: K, rows: &[RowChange]) -> Result<K, Fail> {
    let mut keeper = keeper;
    keeper.commit(&change(alloc, rows)?)?;
    Ok(keeper)
}

/// The tables of a keeper, opened again.
pub fn opened<S: Alter + Drop>(keeper: SqlKeeper<S>) -> SqlKeeper<S> {
    SqlKeeper::open(keeper.into_connection())
}

/// The tables of a keeper, opened again once this was done to them.
pub fn meddled<S: Alter + Drop>(keeper: SqlKeeper<S>, sql: &str) -> Result<SqlKeeper<S>, Fail> {
    let mut conn = keeper.into_connection();
    conn.execute_batch(sql)?;
    if conn.is_autocommit() {
        Ok(SqlKeeper::open(conn))
    } else {
        Err(Fail::from("in a transaction"))
    }
}

pub fn desk_over<K: Keeper + Drop>(alloc: Global, keeper: K) -> Result<Desk<K>, Fail> {
    match Desk::open(alloc, keeper) {
        Ok(desk) => Ok(desk),
        Err((fault, _)) => Err(Fail::from(fault)),
    }
}

/// A command is answered so, and nothing was resolved after it.
pub fn alone(own: Answer) -> Reply {
    // Names the type of resolutions for the borrow checker, which finds it nowhere else in this function.
    let _none: Option<Resolution> = None;
    Ok(WholeAnswer { own, auto: None })
}

/// The order has this number, and waits at this place of its queue.
pub fn queued(number: u64, place: u64) -> Reply {
    alone(Answer::Queued { number, place })
}

/// This many orders of this value in cents settled under this mark.
pub fn resolved(mark: u64, count: u64, cents: i64) -> Reply {
    alone(Answer::Resolved {
        mark,
        count,
        value: Cents::new(cents),
    })
}
