//! The numbers in columns for a phase of the day and for where an order stands, as each tool that reads the tables
//! knows them.
use super::super::scripts::{Answers, follows};
use super::loaded_after;
use std::alloc::Global;
use std::test::Fail;

// Tells the phase of the day, and where the first order stands, once a line of SQL was run on the tables of two banks.
#[derive(Clone, Copy)]
struct Showing;

impl Answers for Showing {
    fn answer(&mut self, alloc: Global, asked: &str) -> Result<String, Fail> {
        let book = loaded_after(alloc, asked)??;
        let phase = book.day.phase;
        match book.orders.as_slice().first() {
            Some(order) => {
                let state = order.state;
                Ok(format!(in alloc; "{phase:?}, {state:?}")?)
            }
            None => Ok(format!(in alloc; "{phase:?}, no order")?),
        }
    }
}

const PHASES: &str = "
UPDATE desk SET date = '2024-03-04', phase = 0 => Closed, no order
UPDATE desk SET date = '2024-03-04', phase = 1 => Open, no order
UPDATE desk SET date = '2024-03-04', phase = 2 => CutOff, no order
";

#[test]
fn phases_of_the_day(rt: HostRuntime) -> Result<(), Fail> {
    follows(rt.alloc(), &mut Showing, PHASES)
}

// Beside a settled order of 5 cents stand its mark and the balances.
const STATES: &str = "
UPDATE desk SET date = '2024-03-04', phase = 1; \
    INSERT INTO payment (number, sender, reference, receiver, amount, date, state, mark) \
    VALUES (1, 'ALFA', 'A-1', 'BETA', 5, '2024-03-04', 0, NULL) => Open, Queued
UPDATE desk SET date = '2024-03-04', phase = 1; \
    INSERT INTO payment (number, sender, reference, receiver, amount, date, state, mark) \
    VALUES (1, 'ALFA', 'A-1', 'BETA', 5, '2024-03-04', 1, 1); \
    INSERT INTO mark (number, date, many, value) VALUES (1, '2024-03-04', 1, 5); \
    UPDATE participant SET balance = 995 WHERE code = 'ALFA'; \
    UPDATE participant SET balance = 5 WHERE code = 'BETA' => Open, Settled(1)
UPDATE desk SET date = '2024-03-04', phase = 1; \
    INSERT INTO payment (number, sender, reference, receiver, amount, date, state, mark) \
    VALUES (1, 'ALFA', 'A-1', 'BETA', 5, '2024-03-04', 2, NULL) => Open, Withdrawn
UPDATE desk SET date = '2024-03-04', phase = 1; \
    INSERT INTO payment (number, sender, reference, receiver, amount, date, state, mark) \
    VALUES (1, 'ALFA', 'A-1', 'BETA', 5, '2024-03-04', 3, NULL) => Open, Rejected
UPDATE desk SET date = '2024-03-04', phase = 1; \
    INSERT INTO payment (number, sender, reference, receiver, amount, date, state, mark) \
    VALUES (1, 'ALFA', 'A-1', 'BETA', 5, '2024-03-05', 4, NULL); \
    INSERT INTO forward (number, due) VALUES (1, '2024-03-05') => Open, Held
";

#[test]
fn states_of_an_order(rt: HostRuntime) -> Result<(), Fail> {
    follows(rt.alloc(), &mut Showing, STATES)
}
