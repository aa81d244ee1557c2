//! Tables of an automatic day, and what is found of them once they are meddled with.
use super::super::scripts::{Answers, follows};
use super::super::setting::meddled;
use super::{tables_follow, two_banks};
use rtgs_desk::Desk;
use rtgs_tables::SqlKeeper;
use sqlite::Alter;
use std::alloc::Global;
use std::test::Fail;

// Other rows than the one, values in no form, and other tables of that name.
const NO_FORM: &str = "
UPDATE resolution SET automatic = 0 => sound
DELETE FROM resolution => NotADeskFile
INSERT INTO resolution (id, automatic) VALUES (2, 0) => NotADeskFile
INSERT INTO resolution (id, automatic) VALUES (0, 0) => NotADeskFile
UPDATE resolution SET id = 2 => NotADeskFile
UPDATE resolution SET automatic = 2 => NotADeskFile
UPDATE resolution SET automatic = -1 => NotADeskFile
DROP TABLE resolution => NotADeskFile
DROP TABLE resolution; CREATE TABLE resolution (id INTEGER PRIMARY KEY) STRICT; \
    INSERT INTO resolution (id) VALUES (1) => NotADeskFile
DROP TABLE resolution; CREATE TABLE resolution (id INTEGER, automatic INTEGER); \
    INSERT INTO resolution (id, automatic) VALUES (1, NULL) => NotADeskFile
DROP TABLE resolution; CREATE TABLE resolution (id INTEGER, automatic INTEGER); \
    INSERT INTO resolution (id, automatic) VALUES (NULL, 0) => NotADeskFile
DROP TABLE resolution; CREATE TABLE resolution (id INTEGER, automatic INTEGER); \
    INSERT INTO resolution (id, automatic) VALUES (1, 0), (1, 0) => NotADeskFile
DROP TABLE resolution; CREATE TABLE resolution (id INTEGER, automatic TEXT); \
    INSERT INTO resolution (id, automatic) VALUES (1, '0') => NotADeskFile
DROP TABLE resolution; CREATE TABLE resolution (id INTEGER, automatic INTEGER, more TEXT); \
    INSERT INTO resolution (id, automatic) VALUES (1, 0) => sound
DROP TABLE resolution; CREATE VIEW resolution AS SELECT id, phase AS automatic FROM desk => sound
";

#[test]
fn a_choice_in_no_form_is_no_desks(rt: HostRuntime) -> Result<(), Fail> {
    tables_follow(&rt, NO_FORM)
}

// A day is automatic only while it is in progress. Of the rules that are broken besides, the first is named.
const CLOSED: &str = "
UPDATE resolution SET automatic = 1 => Inconsistent { rule: AutomaticDay }
UPDATE resolution SET automatic = 1; UPDATE desk SET date = '2024-03-04' => Inconsistent { rule: AutomaticDay }
UPDATE resolution SET automatic = 1; UPDATE desk SET date = '2024-03-04', phase = 1 => sound
UPDATE resolution SET automatic = 1; UPDATE desk SET date = '2024-03-04', phase = 2 => sound
UPDATE resolution SET automatic = 1; UPDATE desk SET phase = 1 => Inconsistent { rule: Dates }
UPDATE resolution SET automatic = 1; UPDATE posting SET number = 2 => Inconsistent { rule: PostingNumbers }
UPDATE resolution SET automatic = 1; UPDATE posting SET cents = -1000 => Inconsistent { rule: Floors }
UPDATE resolution SET automatic = 1; UPDATE participant SET balance = 999 WHERE code = 'ALFA' \
    => Inconsistent { rule: StoredBalances }
UPDATE resolution SET automatic = 1; DROP TABLE mark => NotADeskFile
";

#[test]
fn a_closed_day_is_not_automatic(rt: HostRuntime) -> Result<(), Fail> {
    tables_follow(&rt, CLOSED)
}

/// Monday is open and automatic.
const MONDAY: &str =
    "UPDATE desk SET date = '2024-03-04', phase = 1; UPDATE resolution SET automatic = 1";

/// Tells whether a desk is opened over the tables of two banks on an automatic Monday, once a line of SQL was run on
/// them. Where none is, the keeper that is handed back may tell its book all the same.
#[derive(Clone, Copy)]
struct Opening;

impl Answers for Opening {
    fn answer(&mut self, alloc: Global, asked: &str) -> Result<String, Fail> {
        let keeper = meddled(two_banks(alloc)?, MONDAY)?;
        opening_text(alloc, meddled(keeper, asked)?)
    }
}

/// The same of any tables.
fn opening_text<S: Alter + Drop>(alloc: Global, keeper: SqlKeeper<S>) -> Result<String, Fail> {
    match Desk::open(alloc, keeper) {
        Ok(_) => Ok(String::from_str(alloc, "opened")?),
        Err((fault, back)) => {
            let mut keeper = back;
            let loaded = if keeper.load(alloc).is_ok() {
                ", and the book is loaded"
            } else {
                ""
            };
            Ok(format!(in alloc; "{fault:?}{loaded}")?)
        }
    }
}

// ALFA has 1000 cents, BETA has none. What an order can do alone, or with others, does not wait.
const RESTLESS: &str = "
UPDATE participant SET name = 'B' => opened
INSERT INTO payment (number, sender, reference, receiver, amount, date, state, mark) \
    VALUES (1, 'ALFA', 'A-1', 'BETA', 1000, '2024-03-04', 0, NULL) => Inconsistent { rule: Calm }, and the book is loaded
INSERT INTO payment (number, sender, reference, receiver, amount, date, state, mark) \
    VALUES (1, 'ALFA', 'A-1', 'BETA', 1001, '2024-03-04', 0, NULL) => opened
INSERT INTO payment (number, sender, reference, receiver, amount, date, state, mark) \
    VALUES (1, 'ALFA', 'A-1', 'BETA', 1000, '2024-03-04', 2, NULL) => opened
INSERT INTO payment (number, sender, reference, receiver, amount, date, state, mark) \
    VALUES (1, 'ALFA', 'A-1', 'BETA', 1001, '2024-03-04', 0, NULL), \
    (2, 'BETA', 'B-1', 'ALFA', 1, '2024-03-04', 0, NULL) => Inconsistent { rule: Calm }, and the book is loaded
INSERT INTO payment (number, sender, reference, receiver, amount, date, state, mark) \
    VALUES (1, 'ALFA', 'A-1', 'BETA', 1002, '2024-03-04', 0, NULL), \
    (2, 'BETA', 'B-1', 'ALFA', 1, '2024-03-04', 0, NULL) => opened
INSERT INTO payment (number, sender, reference, receiver, amount, date, state, mark) \
    VALUES (1, 'ALFA', 'A-1', 'BETA', 1001, '2024-03-04', 0, NULL); UPDATE participant SET credit = 1 \
    => Inconsistent { rule: Calm }, and the book is loaded
INSERT INTO payment (number, sender, reference, receiver, amount, date, state, mark) \
    VALUES (1, 'ALFA', 'A-1', 'BETA', 1000, '2024-03-05', 4, NULL); \
    INSERT INTO forward (number, due) VALUES (1, '2024-03-05') => opened
";

#[test]
fn nothing_waits_on_an_automatic_day_that_could_settle(rt: HostRuntime) -> Result<(), Fail> {
    follows(rt.alloc(), &mut Opening, RESTLESS)
}

// The same of the other phases and of a day on request. Of the rules that are broken besides, the first is named.
const OTHER_DAYS: &str = "
INSERT INTO payment (number, sender, reference, receiver, amount, date, state, mark) \
    VALUES (1, 'ALFA', 'A-1', 'BETA', 5, '2024-03-04', 0, NULL); UPDATE desk SET phase = 2 \
    => Inconsistent { rule: Calm }, and the book is loaded
INSERT INTO payment (number, sender, reference, receiver, amount, date, state, mark) \
    VALUES (1, 'ALFA', 'A-1', 'BETA', 5, '2024-03-04', 0, NULL); UPDATE resolution SET automatic = 0 => opened
INSERT INTO payment (number, sender, reference, receiver, amount, date, state, mark) \
    VALUES (1, 'ALFA', 'A-1', 'BETA', 5, '2024-03-04', 0, NULL); UPDATE desk SET phase = 0 \
    => Inconsistent { rule: Queues }
INSERT INTO payment (number, sender, reference, receiver, amount, date, state, mark) \
    VALUES (1, 'ALFA', 'A-1', 'BETA', 5, '2024-03-04', 0, NULL); \
    UPDATE participant SET balance = 999 WHERE code = 'ALFA' => Inconsistent { rule: StoredBalances }
UPDATE desk SET phase = 0 => Inconsistent { rule: AutomaticDay }
UPDATE desk SET phase = 0; UPDATE participant SET balance = 999 WHERE code = 'ALFA' \
    => Inconsistent { rule: StoredBalances }
UPDATE desk SET version = 2 => NotADeskFile
DROP TABLE resolution => NotADeskFile
";

#[test]
fn other_rules_are_named_before_what_could_settle(rt: HostRuntime) -> Result<(), Fail> {
    follows(rt.alloc(), &mut Opening, OTHER_DAYS)
}
