//! Tables with orders for later days, and what is found of them once they are meddled with.
use super::super::scripts::{Answers, follows};
use super::super::setting::meddled;
use super::{meddled_and_loaded, two_banks};
use std::alloc::Global;
use std::fmt::Write;
use std::test::Fail;

/// On an open Monday ALFA has orders with due dates: one is held, one entered its queue and one settled, one was taken
/// back while it was held, and one was rejected on Friday. One order of BETA has none.
const ORDERS: &str = "
    UPDATE desk SET date = '2024-03-04', phase = 1;
    INSERT INTO payment (number, sender, reference, receiver, amount, date, state, mark) VALUES
        (1, 'ALFA', 'A-1', 'BETA', 5, '2024-03-05', 4, NULL), (2, 'ALFA', 'A-2', 'BETA', 6, '2024-03-04', 0, NULL),
        (3, 'ALFA', 'A-3', 'BETA', 7, '2024-03-04', 1, 1), (4, 'ALFA', 'A-4', 'BETA', 8, '2024-03-06', 2, NULL),
        (5, 'ALFA', 'A-5', 'BETA', 9, '2024-03-01', 3, NULL), (6, 'BETA', 'B-1', 'ALFA', 10, '2024-03-04', 0, NULL);
    INSERT INTO forward (number, due) VALUES (1, '2024-03-05'), (2, '2024-03-01'), (3, '2024-03-04'),
        (4, '2024-03-06'), (5, '2024-03-01');
    INSERT INTO mark (number, date, many, value) VALUES (1, '2024-03-04', 1, 7);
    UPDATE participant SET balance = 993 WHERE code = 'ALFA';
    UPDATE participant SET balance = 7 WHERE code = 'BETA'";

/// The held order alone, while the desk is closed.
const HELD_ALONE: &str = "
    UPDATE desk SET date = '2024-03-04', phase = 0;
    INSERT INTO payment (number, sender, reference, receiver, amount, date, state, mark) VALUES
        (1, 'ALFA', 'A-1', 'BETA', 5, '2024-03-05', 4, NULL);
    INSERT INTO forward (number, due) VALUES (1, '2024-03-05')";

/// Tells what `load` answers once a line of SQL was run on tables of two banks in which this was done.
#[derive(Clone, Copy)]
struct Meddling<'a> {
    made: &'a str,
}

impl Answers for Meddling<'_> {
    fn answer(&mut self, alloc: Global, asked: &str) -> Result<String, Fail> {
        let keeper = meddled(two_banks(alloc)?, self.made)?;
        match meddled_and_loaded(alloc, keeper, asked)? {
            Ok(_) => Ok(String::from_str(alloc, "sound")?),
            Err(fault) => Ok(format!(in alloc; "{fault:?}")?),
        }
    }
}

const QUEUES: &str = "
UPDATE participant SET name = 'B' => sound
UPDATE payment SET state = 2 WHERE number = 1 => sound
UPDATE desk SET phase = 0 => Inconsistent { rule: Queues }
UPDATE payment SET date = '2024-03-01' WHERE number = 2 => Inconsistent { rule: Queues }
UPDATE payment SET date = '2024-03-05' WHERE number = 2 => Inconsistent { rule: Queues }
UPDATE payment SET state = 0 WHERE number = 1 => Inconsistent { rule: Queues }
UPDATE payment SET state = 0 WHERE number = 5 => Inconsistent { rule: Queues }
";

#[test]
fn a_queued_order_is_of_the_day_whatever_its_due_date(rt: HostRuntime) -> Result<(), Fail> {
    follows(rt.alloc(), &mut Meddling { made: ORDERS }, QUEUES)
}

const DATES: &str = "
UPDATE payment SET date = '2024-03-06' WHERE number = 1 => Inconsistent { rule: Dates }
UPDATE payment SET date = '2024-03-04' WHERE number = 1 => Inconsistent { rule: Dates }
UPDATE forward SET due = '2024-03-06' WHERE number = 1 => Inconsistent { rule: Dates }
UPDATE forward SET due = '2024-03-01' WHERE number = 1 => Inconsistent { rule: Dates }
UPDATE forward SET due = '2024-03-02' WHERE number = 2 => Inconsistent { rule: Dates }
UPDATE forward SET due = '2024-03-05' WHERE number = 2 => Inconsistent { rule: Dates }
UPDATE forward SET due = '2024-03-04' WHERE number = 2 => sound
UPDATE forward SET due = '2024-03-05' WHERE number = 3 => Inconsistent { rule: Dates }
UPDATE forward SET due = '2024-03-03' WHERE number = 3 => Inconsistent { rule: Dates }
UPDATE forward SET due = '2024-02-29' WHERE number = 3 => sound
UPDATE forward SET due = '2024-03-07' WHERE number = 4 => Inconsistent { rule: Dates }
UPDATE forward SET due = '2024-03-05' WHERE number = 4 => Inconsistent { rule: Dates }
UPDATE payment SET date = '2024-03-05' WHERE number = 4 => Inconsistent { rule: Dates }
UPDATE payment SET date = '2024-03-07' WHERE number = 4 => Inconsistent { rule: Dates }
UPDATE payment SET state = 3 WHERE number = 4 => Inconsistent { rule: Dates }
UPDATE payment SET state = 4 WHERE number = 4 => sound
UPDATE payment SET date = '2024-03-05' WHERE number = 5 => Inconsistent { rule: Dates }
UPDATE payment SET date = '2024-02-29' WHERE number = 5 => Inconsistent { rule: Dates }
UPDATE payment SET state = 4 WHERE number = 5 => Inconsistent { rule: Dates }
";

#[test]
fn an_order_is_dated_by_its_due_date(rt: HostRuntime) -> Result<(), Fail> {
    follows(rt.alloc(), &mut Meddling { made: ORDERS }, DATES)
}

const DAYS: &str = "
UPDATE desk SET date = NULL => sound
UPDATE desk SET date = '2024-03-01' => sound
UPDATE desk SET date = '2024-03-05' => Inconsistent { rule: Dates }
UPDATE desk SET date = '2024-03-06' => Inconsistent { rule: Dates }
";

#[test]
fn a_held_order_is_due_after_the_day(rt: HostRuntime) -> Result<(), Fail> {
    follows(rt.alloc(), &mut Meddling { made: HELD_ALONE }, DAYS)
}

// Rows without their order, held orders without their row, dates in no form, states and marks that do not go together,
// and other tables of that name.
const NO_FORM: &str = "
INSERT INTO forward (number, due) VALUES (6, '2024-03-04') => sound
INSERT INTO forward (number, due) VALUES (7, '2024-03-05') => NotADeskFile
INSERT INTO forward (number, due) VALUES (0, '2024-03-05') => NotADeskFile
INSERT INTO forward (number, due) VALUES (-1, '2024-03-05') => NotADeskFile
UPDATE forward SET number = 7 WHERE number = 1 => NotADeskFile
UPDATE forward SET number = 6 WHERE number = 1 => NotADeskFile
UPDATE forward SET number = 0 WHERE number = 1 => NotADeskFile
DELETE FROM forward WHERE number = 1 => NotADeskFile
DELETE FROM forward WHERE number = 3 => sound
DELETE FROM forward WHERE number = 4 => Inconsistent { rule: Dates }
DELETE FROM payment WHERE number = 1 => NotADeskFile
DELETE FROM payment WHERE number = 6 => sound
UPDATE payment SET state = 4 WHERE number = 6 => NotADeskFile
UPDATE payment SET state = 5 WHERE number = 1 => NotADeskFile
UPDATE payment SET mark = 1 WHERE number = 1 => NotADeskFile
UPDATE forward SET due = '2024-02-30' WHERE number = 1 => NotADeskFile
UPDATE forward SET due = '2024-3-5' WHERE number = 1 => NotADeskFile
UPDATE forward SET due = '1999-12-31' WHERE number = 5 => NotADeskFile
UPDATE forward SET due = '3000-01-01' WHERE number = 1 => NotADeskFile
UPDATE forward SET due = '' WHERE number = 5 => NotADeskFile
DROP TABLE forward => NotADeskFile
DROP TABLE forward; CREATE TABLE forward (number INTEGER PRIMARY KEY) STRICT => NotADeskFile
DROP TABLE forward; CREATE TABLE forward (number INTEGER PRIMARY KEY, due TEXT) STRICT => NotADeskFile
DROP TABLE forward; CREATE TABLE forward (number INTEGER, due TEXT, more TEXT); \
    INSERT INTO forward (number, due) VALUES (1, '2024-03-05'), (2, '2024-03-01'), (4, '2024-03-06'), \
    (5, '2024-03-01') => sound
DROP TABLE forward; CREATE TABLE forward (number INTEGER, due TEXT); \
    INSERT INTO forward (number, due) VALUES (1, '2024-03-05'), (1, '2024-03-05'), (4, '2024-03-06') => NotADeskFile
DROP TABLE forward; CREATE TABLE forward (number INTEGER, due TEXT); \
    INSERT INTO forward (number, due) VALUES (1, NULL), (4, '2024-03-06') => NotADeskFile
DROP TABLE forward; CREATE TABLE forward (number INTEGER, due TEXT); \
    INSERT INTO forward (number, due) VALUES (NULL, '2024-03-05'), (1, '2024-03-05') => NotADeskFile
DROP TABLE forward; CREATE TABLE forward (number TEXT, due TEXT); \
    INSERT INTO forward (number, due) VALUES ('1', '2024-03-05'), ('4', '2024-03-06') => NotADeskFile
DROP TABLE forward; CREATE VIEW forward AS SELECT number, date AS due FROM payment WHERE number < 5 => sound
";

#[test]
fn due_dates_in_no_form_are_no_desks(rt: HostRuntime) -> Result<(), Fail> {
    follows(rt.alloc(), &mut Meddling { made: ORDERS }, NO_FORM)
}

// Adds an order of ALFA that is due on Tuesday, in this state, and its due date.
fn add(orders: &mut String, dues: &mut String, number: u32, state: u32) -> Result<(), Fail> {
    let comma = if number == 1 { "" } else { "," };
    write!(
        orders,
        "{comma} ({number}, 'ALFA', 'A-{number}', 'BETA', 5, '2024-03-05', {state}, NULL)"
    )?;
    write!(dues, "{comma} ({number}, '2024-03-05')")?;
    Ok(())
}

// As many orders of ALFA are held as may wait, and one more was taken back.
fn full(alloc: Global) -> Result<String, Fail> {
    let (mut orders, mut dues) = (String::new(alloc), String::new(alloc));
    for number in 1..=500u32 {
        add(&mut orders, &mut dues, number, 4)?;
    }
    add(&mut orders, &mut dues, 501, 2)?;
    Ok(format!(in alloc;
        "UPDATE desk SET date = '2024-03-04', phase = 1; \
        INSERT INTO payment (number, sender, reference, receiver, amount, date, state, mark) VALUES{orders}; \
        INSERT INTO forward (number, due) VALUES{dues}"
    )?)
}

const FULL: &str = "
UPDATE participant SET name = 'B' => sound
UPDATE payment SET state = 4 => Inconsistent { rule: Queues }
UPDATE payment SET state = 4 WHERE number = 501 => Inconsistent { rule: Queues }
UPDATE payment SET state = 6 - state WHERE number = 1 OR number = 501 => sound
UPDATE payment SET state = 0, date = '2024-03-04' WHERE number = 1 => Inconsistent { rule: Dates }
UPDATE payment SET state = 0, date = '2024-03-04' WHERE number = 501 => Inconsistent { rule: Queues }
";

#[test]
fn five_hundred_orders_of_a_sender_wait(rt: HostRuntime) -> Result<(), Fail> {
    let made = full(rt.alloc())?;
    let mut meddling = Meddling {
        made: made.as_str(),
    };
    follows(rt.alloc(), &mut meddling, FULL)
}
