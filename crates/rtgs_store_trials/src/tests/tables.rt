//! Books kept in tables, found again, and refused where they are meddled with, over a store in memory.
mod automatic_days;
mod due_dates;
mod memory_keeper;
mod migrations;
mod no_memory;
mod steps;
mod stored_numbers;
mod versions;

use super::scripts::{Answers, follows};
use super::setting::{change, code, meddled, new_keeper, opened, participant, posting};
use rtgs_book::{Book, Change, Fault, Participant, Posting, RowChange};
use rtgs_keeper::{CommitFault, Keeper};
use rtgs_money::Cents;
use rtgs_tables::SqlKeeper;
use rtgs_tests_desks::ensure;
use sqlite::{Alter, Connection, MemStore};
use std::alloc::Global;
use std::test::Fail;

fn posts(
    alloc: Global,
    number: u64,
    reference: &str,
    cents: i64,
    balance: i64,
) -> Result<Change, Fail> {
    change(
        alloc,
        &[
            RowChange::AddPosting(posting(number, "ALFA", reference, cents)?),
            RowChange::SetBalance {
                code: code("ALFA")?,
                balance: Cents::new(balance),
            },
        ],
    )
}

/// Adds BETA and ALFA, and posts 1000 cents to ALFA.
fn add_two_banks<K: Keeper>(alloc: Global, keeper: &mut K) -> Result<(), Fail> {
    for bank in [participant("BETA", 2)?, participant("ALFA", 1)?] {
        keeper.commit(&change(alloc, &[RowChange::AddParticipant(bank)])?)?;
    }
    keeper.commit(&posts(alloc, 1, "P-1", 1000, 1000)?)?;
    Ok(())
}

/// The keeper, with these two banks in its book.
fn with_two_banks<K: Keeper + Drop>(alloc: Global, keeper: K) -> Result<K, Fail> {
    let mut keeper = keeper;
    add_two_banks(alloc, &mut keeper)?;
    Ok(keeper)
}

/// Makes tables of the newest version those of the first, which has two tables less.
const FIRST_VERSION: &str =
    "DROP TABLE resolution; DROP TABLE forward; UPDATE desk SET version = 1";

/// The same of the second, which has one table less.
const SECOND_VERSION: &str = "DROP TABLE resolution; UPDATE desk SET version = 2";

/// Leaves them as they are made.
const NEWEST_VERSION: &str = "";

/// A keeper with these two banks in its tables.
fn two_banks(alloc: Global) -> Result<SqlKeeper<MemStore>, Fail> {
    let keeper = new_keeper(alloc)?;
    with_two_banks(alloc, keeper)
}

/// The book of two banks, once a line of SQL was run on their tables, or why none is loaded.
pub fn loaded_after(alloc: Global, sql: &str) -> Result<Result<Book, Fault>, Fail> {
    let keeper = two_banks(alloc)?;
    meddled_and_loaded(alloc, keeper, sql)
}

/// The same of any tables.
fn meddled_and_loaded<S: Alter + Drop>(
    alloc: Global,
    keeper: SqlKeeper<S>,
    sql: &str,
) -> Result<Result<Book, Fault>, Fail> {
    let mut keeper = meddled(keeper, sql)?;
    Ok(keeper.load(alloc))
}

/// Tells what `load` answers once a line of SQL was run on the tables of two banks.
#[derive(Clone, Copy)]
struct Meddling;

impl Answers for Meddling {
    fn answer(&mut self, alloc: Global, asked: &str) -> Result<String, Fail> {
        match loaded_after(alloc, asked)? {
            Ok(_) => Ok(format!(in alloc; "sound")?),
            Err(fault) => Ok(format!(in alloc; "{fault:?}")?),
        }
    }
}

/// Fails unless the tables of two banks are judged as the script tells, after each of its lines.
fn tables_follow(rt: &HostRuntime, script: &str) -> Result<(), Fail> {
    follows(rt.alloc(), &mut Meddling, script)
}

fn new_book(alloc: Global) -> Result<Book, Fail> {
    let mut keeper = new_keeper(alloc)?;
    Ok(keeper.load(alloc)?)
}

#[test]
fn a_new_book_is_empty(rt: HostRuntime) -> Result<(), Fail> {
    let book = new_book(rt.alloc())?;
    let found = (book.participants.is_empty(), book.day.date.is_none());
    ensure(found == (true, true))
}

/// Whether these are the two banks.
fn are_two_banks(participants: &[Participant]) -> Result<bool, Fail> {
    let banks = [participant("ALFA", 1)?, participant("BETA", 2)?];
    Ok(participants == banks.as_slice())
}

/// Whether there is the one posting alone.
fn is_one_posting(postings: &[Posting]) -> Result<bool, Fail> {
    let posting = posting(1, "ALFA", "P-1", 1000)?;
    Ok(postings == [posting].as_slice())
}

/// Whether a book has the two banks and the posting, and nothing else of them.
fn has_two_banks(book: &Book) -> Result<bool, Fail> {
    let has_banks = are_two_banks(book.participants.as_slice())?;
    let has_posting = is_one_posting(book.postings.as_slice())?;
    Ok(has_banks && has_posting)
}

/// The book that is found again in a keeper's tables.
fn found_again<S: Alter + Drop>(alloc: Global, keeper: SqlKeeper<S>) -> Result<Book, Fail> {
    let mut keeper = opened(keeper);
    Ok(keeper.load(alloc)?)
}

#[test]
fn changes_are_found_again(rt: HostRuntime) -> Result<(), Fail> {
    let book = found_again(rt.alloc(), two_banks(rt.alloc())?)?;
    ensure(has_two_banks(&book)?)
}

/// What the keeper fails with at a posting whose reference was used, and at another posting.
fn faults_of_postings<K: Keeper>(
    alloc: Global,
    keeper: &mut K,
) -> Result<[Option<CommitFault>; 2], Fail> {
    let repeated = posts(alloc, 2, "P-1", 5, 1005)?;
    let another = posts(alloc, 2, "P-2", 5, 1005)?;
    Ok([
        keeper.commit(&repeated).err(),
        keeper.commit(&another).err(),
    ])
}

/// The same faults and that of loading after them, and how many postings are found again in the tables.
fn faults_and_postings<S: Alter + Drop>(
    alloc: Global,
    keeper: SqlKeeper<S>,
) -> Result<([Option<CommitFault>; 2], Option<Fault>, usize), Fail> {
    let mut keeper = keeper;
    let faults = faults_of_postings(alloc, &mut keeper)?;
    let at_load = keeper.load(alloc).err();
    let found = found_again(alloc, keeper)?;
    Ok((faults, at_load, found.postings.len()))
}

#[test]
fn a_repeated_key_fails_the_keeper(rt: HostRuntime) -> Result<(), Fail> {
    let keeper = two_banks(rt.alloc())?;
    let found = faults_and_postings(rt.alloc(), keeper)?;
    let faults = [Some(CommitFault::Store), Some(CommitFault::Failed)];
    ensure(found == (faults, Some(Fault::StoreFault), 1))
}

const NO_DESK: &str = "
DROP TABLE mark => NotADeskFile
DROP TABLE mark; CREATE VIEW mark AS SELECT number, date, cents AS value FROM posting => NotADeskFile
CREATE TABLE large (a INTEGER); INSERT INTO large VALUES (9223372036854775807), (1); DROP TABLE mark; \
    CREATE VIEW mark AS SELECT sum(a) AS number, '' AS date, 1 AS many, 1 AS value FROM large => NotADeskFile
DELETE FROM desk => NotADeskFile
UPDATE desk SET version = 4 => NotADeskFile
UPDATE desk SET id = 2 => NotADeskFile
UPDATE desk SET phase = 3 => NotADeskFile
UPDATE desk SET date = '2024-02-30' => NotADeskFile
UPDATE participant SET code = 'alfa' WHERE code = 'ALFA' => NotADeskFile
UPDATE participant SET name = ' A' => NotADeskFile
UPDATE participant SET key = x'00' WHERE code = 'ALFA' => NotADeskFile
UPDATE participant SET credit = -1 => NotADeskFile
UPDATE posting SET cents = 0 => NotADeskFile
UPDATE posting SET reference = '' => NotADeskFile
INSERT INTO payment (number, sender, reference, receiver, amount, date, state, mark) \
    VALUES (1, 'ALFA', 'A-1', 'BETA', 5, '2024-03-04', 1, NULL) => NotADeskFile
INSERT INTO payment (number, sender, reference, receiver, amount, date, state, mark) \
    VALUES (1, 'ALFA', 'A-1', 'BETA', 5, '2024-03-04', 0, 1) => NotADeskFile
";

#[test]
fn tables_of_something_else_are_no_desk(rt: HostRuntime) -> Result<(), Fail> {
    tables_follow(&rt, NO_DESK)
}

const BALANCES: &str = "
UPDATE participant SET balance = 999 WHERE code = 'ALFA' => Inconsistent { rule: StoredBalances }
UPDATE participant SET balance = 1 WHERE code = 'BETA' => Inconsistent { rule: StoredBalances }
UPDATE posting SET code = 'BETA' => Inconsistent { rule: StoredBalances }
UPDATE participant SET name = 'B' => sound
";

#[test]
fn a_wrong_balance_is_found(rt: HostRuntime) -> Result<(), Fail> {
    tables_follow(&rt, BALANCES)
}

const BROKEN_RULES: &str = "
UPDATE posting SET number = 2 => Inconsistent { rule: PostingNumbers }
UPDATE posting SET number = -1 => Inconsistent { rule: PostingNumbers }
INSERT INTO mark (number, date, many, value) VALUES (2, '2024-03-04', 1, 5) => Inconsistent { rule: MarkNumbers }
UPDATE posting SET code = 'GAMA' => Inconsistent { rule: Parties }
UPDATE desk SET phase = 1 => Inconsistent { rule: Dates }
UPDATE posting SET cents = -1000 => Inconsistent { rule: Floors }
INSERT INTO payment (number, sender, reference, receiver, amount, date, state, mark) \
    VALUES (2, 'ALFA', 'A-1', 'BETA', 5, '2024-03-04', 0, NULL) => Inconsistent { rule: OrderNumbers }
INSERT INTO payment (number, sender, reference, receiver, amount, date, state, mark) \
    VALUES (1, 'ALFA', 'A-1', 'BETA', 5, '2024-03-04', 1, 1) => Inconsistent { rule: Marks }
INSERT INTO payment (number, sender, reference, receiver, amount, date, state, mark) \
    VALUES (1, 'ALFA', 'A-1', 'BETA', 5, '2024-03-04', 0, NULL) => Inconsistent { rule: Queues }
UPDATE posting SET cents = 1000000000000000; \
    INSERT INTO posting (number, code, reference, cents) VALUES (2, 'BETA', 'P-2', 1) => Inconsistent { rule: Total }
";

#[test]
fn the_first_broken_rule_is_named(rt: HostRuntime) -> Result<(), Fail> {
    tables_follow(&rt, BROKEN_RULES)
}

const WITHOUT_KEYS: &str = "
CREATE TABLE other (code TEXT, name TEXT, key BLOB, credit INTEGER, balance INTEGER); \
    INSERT INTO other SELECT code, name, key, credit, balance FROM participant; DROP TABLE participant; \
    CREATE TABLE participant (code TEXT, name TEXT, key BLOB, credit INTEGER, balance INTEGER); \
    INSERT INTO participant SELECT 'ALFA', name, key, credit, balance FROM other \
    => Inconsistent { rule: ParticipantCodes }
CREATE TABLE other (code TEXT, name TEXT, key BLOB, credit INTEGER, balance INTEGER); \
    INSERT INTO other SELECT code, name, key, credit, balance FROM participant; DROP TABLE participant; \
    CREATE TABLE participant (code TEXT, name TEXT, key BLOB, credit INTEGER, balance INTEGER); \
    INSERT INTO participant SELECT code, name, (SELECT min(key) FROM other), credit, balance FROM other \
    => Inconsistent { rule: Keys }
DROP TABLE payment; CREATE TABLE payment (number INTEGER, sender TEXT, reference TEXT, receiver TEXT, \
    amount INTEGER, date TEXT, state INTEGER, mark INTEGER); \
    INSERT INTO payment (number, sender, reference, receiver, amount, date, state) \
    VALUES (1, 'ALFA', 'A-1', 'BETA', 5, '2024-03-04', 2), (2, 'ALFA', 'A-1', 'BETA', 6, '2024-03-04', 2) \
    => Inconsistent { rule: OrderReferences }
DROP TABLE posting; CREATE TABLE posting (number INTEGER, code TEXT, reference TEXT, cents INTEGER, date TEXT); \
    INSERT INTO posting (number, code, reference, cents) VALUES (1, 'ALFA', 'P-1', 1000), (2, 'ALFA', 'P-1', 5) \
    => Inconsistent { rule: PostingReferences }
";

#[test]
fn tables_without_keys_are_judged(rt: HostRuntime) -> Result<(), Fail> {
    tables_follow(&rt, WITHOUT_KEYS)
}

const OTHER_TABLES: &str = "
DROP TABLE mark; \
    CREATE TABLE mark (number INTEGER, date TEXT, many INTEGER, value INTEGER, more TEXT) => sound
DROP TABLE mark; \
    CREATE VIEW mark AS SELECT number, date, 1 AS many, cents AS value FROM posting WHERE number > 1 => sound
";

#[test]
fn other_tables_that_show_a_book_are_read(rt: HostRuntime) -> Result<(), Fail> {
    tables_follow(&rt, OTHER_TABLES)
}

#[test]
fn an_empty_file_is_no_desk(rt: HostRuntime) -> Result<(), Fail> {
    let conn = Connection::open_in_memory(rt.alloc())?;
    let mut keeper = SqlKeeper::open(conn);
    ensure(keeper.load(rt.alloc()).err() == Some(Fault::NotADeskFile))
}
