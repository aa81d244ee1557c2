//! Tables of two banks, made those of an earlier version by hand, since no desk makes such tables: they are made those
//! of the newest, or refused and left as they are.
use super::super::scripts::{Answers, follows};
use super::super::setting::{meddled, new_keeper};
use super::{
    BALANCES, BROKEN_RULES, FIRST_VERSION, NEWEST_VERSION, NO_DESK, OTHER_TABLES, SECOND_VERSION,
    WITHOUT_KEYS, two_banks,
};
use rtgs_book::Fault;
use rtgs_sql_loading::load_book;
use rtgs_tables::{SqlKeeper, migrate};
use rtgs_tests_desks::ensure;
use sqlite::{Alter, Connection};
use std::alloc::Global;
use std::test::Fail;

/// What tables show: how many there are, and the book that is read of them as those of each version, or why none is.
#[derive(Drop, PartialEq, Eq)]
struct Shown {
    tables: usize,
    first: String,
    second: String,
    third: String,
}

/// The book that is read of tables as those of this version, or why none is.
fn read_as<S: Alter>(
    alloc: Global,
    conn: &mut Connection<S>,
    version: u64,
) -> Result<String, Fail> {
    let book = load_book(alloc, conn, version);
    Ok(format!(in alloc; "{book:?}")?)
}

impl Shown {
    /// What these show.
    fn of<S: Alter>(alloc: Global, conn: &mut Connection<S>) -> Result<Shown, Fail> {
        Ok(Shown {
            tables: conn.schema().tables.len(),
            first: read_as(alloc, conn, 1)?,
            second: read_as(alloc, conn, 2)?,
            third: read_as(alloc, conn, 3)?,
        })
    }

    /// Whether this is what they show once those of an earlier version are made those of the newest, and the same book.
    /// The first lacks two tables, the second lacks one.
    fn becomes(&self, after: &Shown) -> bool {
        let none = "Err(NotADeskFile)";
        let was = match after.tables.saturating_sub(self.tables) {
            1 => self.second.as_str(),
            2 => self.first.as_str(),
            _ => return false,
        };
        was != none
            && after.third.as_str() == was
            && after.second.as_str() == none
            && after.first.as_str() == none
    }
}

/// What a migration answers. Nothing is changed but where it tells so.
fn answer_word(
    alloc: Global,
    answer: Result<bool, Fault>,
    before: &Shown,
    after: &Shown,
) -> Result<String, Fail> {
    match answer {
        Ok(true) if before.becomes(after) => Ok(String::from_str(alloc, "sound")?),
        Ok(false) if before == after => Ok(String::from_str(alloc, "repeated")?),
        Err(fault) if before == after => Ok(format!(in alloc; "{fault:?}")?),
        _ => Err(Fail::from("another change, or none")),
    }
}

/// The same of the tables of a keeper.
fn migrated<S: Alter + Drop>(alloc: Global, keeper: SqlKeeper<S>) -> Result<String, Fail> {
    let mut conn = keeper.into_connection();
    let before = Shown::of(alloc, &mut conn)?;
    if !conn.is_autocommit() {
        return Err(Fail::from("in a transaction"));
    }
    let answer = migrate(alloc, &mut conn);
    let after = Shown::of(alloc, &mut conn)?;
    answer_word(alloc, answer, &before, &after)
}

/// Tells what the migration answers once this was made of tables of two banks, and a line of SQL was run on them.
#[derive(Clone, Copy)]
struct Migrating {
    made: &'static str,
}

impl Answers for Migrating {
    fn answer(&mut self, alloc: Global, asked: &str) -> Result<String, Fail> {
        let keeper = meddled(two_banks(alloc)?, self.made)?;
        migrated(alloc, meddled(keeper, asked)?)
    }
}

/// Fails unless tables of two banks, of the first version, are judged by a migration as the script tells.
fn first_tables_follow(rt: &HostRuntime, script: &str) -> Result<(), Fail> {
    let made = FIRST_VERSION;
    follows(rt.alloc(), &mut Migrating { made }, script)
}

/// The same of the second version.
fn second_tables_follow(rt: &HostRuntime, script: &str) -> Result<(), Fail> {
    let made = SECOND_VERSION;
    follows(rt.alloc(), &mut Migrating { made }, script)
}

#[test]
fn a_book_is_judged_as_one_of_the_newest_version(rt: HostRuntime) -> Result<(), Fail> {
    for script in [NO_DESK, BALANCES, BROKEN_RULES, WITHOUT_KEYS, OTHER_TABLES] {
        first_tables_follow(&rt, script)?;
        second_tables_follow(&rt, script)?;
    }
    Ok(())
}

// An order in a state that no desk of the first version knew, and one that none knows.
const STATES: &str = "
INSERT INTO payment (number, sender, reference, receiver, amount, date, state, mark) \
    VALUES (1, 'ALFA', 'A-1', 'BETA', 5, '2024-03-04', 4, NULL) => NotADeskFile
INSERT INTO payment (number, sender, reference, receiver, amount, date, state, mark) \
    VALUES (1, 'ALFA', 'A-1', 'BETA', 5, '2024-03-04', 9, NULL) => NotADeskFile
INSERT INTO payment (number, sender, reference, receiver, amount, date, state, mark) \
    VALUES (1, 'ALFA', 'A-1', 'BETA', 0, '2024-03-04', 2, NULL) => NotADeskFile
";

#[test]
fn orders_of_no_form_are_refused(rt: HostRuntime) -> Result<(), Fail> {
    first_tables_follow(&rt, STATES)?;
    second_tables_follow(&rt, STATES)
}

// A held order with its due date and without it, and a due date without its order.
const DUE: &str = "
INSERT INTO payment (number, sender, reference, receiver, amount, date, state, mark) \
    VALUES (1, 'ALFA', 'A-1', 'BETA', 5, '2024-03-05', 4, NULL); \
    INSERT INTO forward (number, due) VALUES (1, '2024-03-05') => sound
INSERT INTO payment (number, sender, reference, receiver, amount, date, state, mark) \
    VALUES (1, 'ALFA', 'A-1', 'BETA', 5, '2024-03-05', 4, NULL); \
    INSERT INTO forward (number, due) VALUES (1, '2024-03-06') => Inconsistent { rule: Dates }
INSERT INTO payment (number, sender, reference, receiver, amount, date, state, mark) \
    VALUES (1, 'ALFA', 'A-1', 'BETA', 5, '2024-03-05', 4, NULL) => NotADeskFile
INSERT INTO forward (number, due) VALUES (1, '2024-03-05') => NotADeskFile
";

#[test]
fn due_dates_of_the_second_version_are_judged(rt: HostRuntime) -> Result<(), Fail> {
    second_tables_follow(&rt, DUE)
}

// On an open day an order waits that could settle: no day of an earlier version is automatic.
const WAITING: &str = "
UPDATE desk SET date = '2024-03-04', phase = 1; \
    INSERT INTO payment (number, sender, reference, receiver, amount, date, state, mark) \
    VALUES (1, 'ALFA', 'A-1', 'BETA', 5, '2024-03-04', 0, NULL) => sound
";

#[test]
fn an_open_day_is_migrated_as_one_on_request(rt: HostRuntime) -> Result<(), Fail> {
    first_tables_follow(&rt, WAITING)?;
    second_tables_follow(&rt, WAITING)
}

const VERSIONS: &str = "
UPDATE desk SET version = -1 => NotADeskFile
UPDATE desk SET version = 0 => NotADeskFile
UPDATE desk SET version = 3 => NotADeskFile
UPDATE desk SET version = 7 => NotADeskFile
UPDATE desk SET version = 3 - version => NotADeskFile
INSERT INTO desk (id, version, phase) VALUES (2, 1, 0) => NotADeskFile
INSERT INTO desk (id, version, phase) VALUES (2, 2, 0) => NotADeskFile
INSERT INTO desk (id, version, phase) VALUES (2, 3, 0) => NotADeskFile
DROP TABLE desk => NotADeskFile
";

#[test]
fn tables_that_tell_another_version_are_refused(rt: HostRuntime) -> Result<(), Fail> {
    first_tables_follow(&rt, VERSIONS)?;
    second_tables_follow(&rt, VERSIONS)
}

// The name of the table that both earlier versions lack is taken. Where the book is broken besides, this comes first.
const TAKEN: &str = "
CREATE TABLE resolution (id INTEGER PRIMARY KEY, automatic INTEGER NOT NULL) STRICT => NotADeskFile
CREATE VIEW resolution AS SELECT id, phase AS automatic FROM desk => NotADeskFile
CREATE INDEX resolution ON payment (receiver) => NotADeskFile
CREATE TABLE RESOLUTION (a) => NotADeskFile
CREATE TABLE resolution (a); UPDATE participant SET balance = 999 WHERE code = 'ALFA' => NotADeskFile
CREATE TABLE another (a) => sound
";

// So is that of the table that the first version lacks.
const TAKEN_BEFORE: &str = "
CREATE TABLE forward (number INTEGER PRIMARY KEY, due TEXT NOT NULL) STRICT => NotADeskFile
CREATE VIEW forward AS SELECT number, date AS due FROM posting => NotADeskFile
CREATE INDEX forward ON payment (receiver) => NotADeskFile
CREATE TABLE FORWARD (a) => NotADeskFile
CREATE TABLE forward (a); UPDATE participant SET balance = 999 WHERE code = 'ALFA' => NotADeskFile
";

#[test]
fn a_name_that_is_taken_is_refused(rt: HostRuntime) -> Result<(), Fail> {
    first_tables_follow(&rt, TAKEN_BEFORE)?;
    first_tables_follow(&rt, TAKEN)?;
    second_tables_follow(&rt, TAKEN)
}

// What could settle on an automatic day is judged where a desk is opened, and not here.
const NEWEST: &str = "
UPDATE participant SET name = 'B' => repeated
UPDATE participant SET balance = 999 WHERE code = 'ALFA' => Inconsistent { rule: StoredBalances }
UPDATE resolution SET automatic = 1 => Inconsistent { rule: AutomaticDay }
UPDATE resolution SET automatic = 1; UPDATE desk SET date = '2024-03-04', phase = 1 => repeated
UPDATE resolution SET automatic = 1; UPDATE desk SET date = '2024-03-04', phase = 1; \
    INSERT INTO payment (number, sender, reference, receiver, amount, date, state, mark) \
    VALUES (1, 'ALFA', 'A-1', 'BETA', 5, '2024-03-04', 0, NULL) => repeated
INSERT INTO forward (number, due) VALUES (1, '2024-03-05') => NotADeskFile
DROP TABLE forward => NotADeskFile
DELETE FROM resolution => NotADeskFile
DROP TABLE resolution => NotADeskFile
UPDATE desk SET version = 1 => NotADeskFile
UPDATE desk SET version = 2 => NotADeskFile
UPDATE desk SET version = 4 => NotADeskFile
";

#[test]
fn tables_of_the_newest_version_stay(rt: HostRuntime) -> Result<(), Fail> {
    let made = NEWEST_VERSION;
    follows(rt.alloc(), &mut Migrating { made }, NEWEST)
}

/// What the migration of a new book answers of which this was made.
fn new_book_migrated(alloc: Global, made: &str) -> Result<String, Fail> {
    let keeper = new_keeper(alloc)?;
    migrated(alloc, meddled(keeper, made)?)
}

#[test]
fn a_new_book_is_migrated(rt: HostRuntime) -> Result<(), Fail> {
    ensure(new_book_migrated(rt.alloc(), FIRST_VERSION)?.as_str() == "sound")?;
    ensure(new_book_migrated(rt.alloc(), SECOND_VERSION)?.as_str() == "sound")
}

#[test]
fn an_empty_database_is_refused(rt: HostRuntime) -> Result<(), Fail> {
    let conn = Connection::open_in_memory(rt.alloc())?;
    let answer = migrated(rt.alloc(), SqlKeeper::open(conn))?;
    ensure(answer.as_str() == "NotADeskFile")
}
