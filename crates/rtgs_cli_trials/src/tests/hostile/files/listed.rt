//! Files that are no sound book, one by one, and books in which another tool made something more, and what a report on
//! each prints.
use super::making::BOOK;
use crate::tests::script::{follows, follows_both, follows_each};
use std::test::Fail;

/// A report on the book, in which a step has made something more, changes no byte of it.
pub const REPORTED: &str = "
$ copy @.book @
$ %1
$ copy @ @.kept
$ desk report @ 2024-03-04
> report 2024-03-04
> ALFA                               0.00                           1.50                           0.00
> BETA                               0.00                           0.00                           1.00
> GAMA                               0.00                           0.00                           0.50
> settled            2                           1.50
> queued             1                           0.25
> held               0                           0.00
> withdrawn          1                           0.25
> rejected           0                           0.00
> marks              2
$ same @ @.kept
";

/// A report is refused so on the book that a step has changed, and changes no byte of it.
pub const REFUSED: &str = "
$ copy @.book @
$ %2
$ copy @ @.kept
$ desk report @ 2024-03-04
! refused %1
status 3
$ same @ @.kept
";

const MISSING: &str = "
$ desk report @ 2024-03-04
! refused 93 NotADeskFile
status 3
$ gone @
";

#[test]
fn without_a_file(rt: HostRuntime) -> Result<(), Fail> {
    follows(&rt, "missing", MISSING)
}

const ONE_BYTE: &str = "
$ file @.s S
$ file @.zero \0
";

const NO_DATABASE: &str = "\
93 NotADeskFile ! file @
93 NotADeskFile ! file @ S
93 NotADeskFile ! file @ SQLite format 3
93 NotADeskFile ! file @ SQLite format 3\0
93 NotADeskFile ! file @ SQLite format 4\0 and nothing that is known.
93 NotADeskFile ! file @ A text that is no database at all.\\n
93 NotADeskFile ! filled @.s @ 8192
93 NotADeskFile ! filled @.zero @ 8192";

#[test]
fn that_are_no_database(rt: HostRuntime) -> Result<(), Fail> {
    follows_both(&rt, "nothing", BOOK, ONE_BYTE)?;
    follows_each(&rt, "nothing", REFUSED, NO_DATABASE)
}

const NO_DESK: &str = "\
93 NotADeskFile ! sql @ DROP TABLE mark
93 NotADeskFile ! sql @ DROP TABLE forward
93 NotADeskFile ! sql @ DROP TABLE resolution
93 NotADeskFile ! sql @ DELETE FROM resolution
93 NotADeskFile ! sql @ INSERT INTO resolution VALUES (2, 0)
93 NotADeskFile ! sql @ UPDATE resolution SET id = 2
93 NotADeskFile ! sql @ UPDATE resolution SET automatic = 2
93 NotADeskFile ! sql @ UPDATE resolution SET automatic = -1
93 NotADeskFile ! sql @ INSERT INTO forward VALUES (5, '2024-03-05')
93 NotADeskFile ! sql @ INSERT INTO forward VALUES (1, 'never')
93 NotADeskFile ! sql @ UPDATE payment SET state = 4 WHERE number = 4
93 NotADeskFile ! sql @ INSERT INTO desk VALUES (2, 3, NULL, 0)
93 NotADeskFile ! sql @ DELETE FROM desk
93 NotADeskFile ! sql @ UPDATE desk SET version = 1
93 NotADeskFile ! sql @ UPDATE desk SET version = 2
93 NotADeskFile ! sql @ UPDATE desk SET version = 4
93 NotADeskFile ! sql @ UPDATE desk SET version = 7
93 NotADeskFile ! sql @ UPDATE payment SET state = 9 WHERE number = 3
93 NotADeskFile ! sql @ UPDATE payment SET amount = 0 WHERE number = 4
93 NotADeskFile ! sql @ UPDATE desk SET phase = 3";

#[test]
fn whose_tables_are_no_desks(rt: HostRuntime) -> Result<(), Fail> {
    follows(&rt, "no_desk", BOOK)?;
    follows_each(&rt, "no_desk", REFUSED, NO_DESK)
}

// In the second case the orders numbered 1 and 3 are left, of which the first has settled, with its mark and the
// balances that it gave. In each case but the last nothing else is broken.
const UNSOUND: &str = "\
94 Inconsistent 14 ! sql @ UPDATE participant SET balance = balance + 1 WHERE code = 'GAMA'
94 Inconsistent 1 ! sql @ DELETE FROM payment WHERE number = 2 OR number = 4; DELETE FROM mark WHERE number = 2; \
    UPDATE participant SET balance = 50 WHERE code = 'ALFA'; UPDATE participant SET balance = 0 WHERE code = 'GAMA'
94 Inconsistent 1 ! sql @ UPDATE payment SET number = 5 WHERE number = 4
94 Inconsistent 9 ! sql @ UPDATE mark SET many = many + 1 WHERE number = 2
94 Inconsistent 10 ! sql @ UPDATE desk SET phase = 0
94 Inconsistent 10 ! sql @ UPDATE desk SET phase = 0; \
    UPDATE participant SET balance = balance + 1 WHERE code = 'GAMA'";

#[test]
fn whose_book_is_unsound(rt: HostRuntime) -> Result<(), Fail> {
    follows(&rt, "unsound", BOOK)?;
    follows_each(&rt, "unsound", REFUSED, UNSOUND)
}

// A day that is said to be automatic, and on which nothing that waits could settle, is one.
const AUTOMATIC: &str = "sql @ UPDATE resolution SET automatic = 1";

// ALFA could settle what it has queued, and then its balance is wrong too.
const RESTLESS: &str = "\
94 Inconsistent 16 ! sql @ UPDATE resolution SET automatic = 1; UPDATE posting SET cents = 175; \
    UPDATE participant SET balance = 25 WHERE code = 'ALFA'
94 Inconsistent 14 ! sql @ UPDATE resolution SET automatic = 1; UPDATE posting SET cents = 175";

#[test]
fn whose_automatic_day_is_not_calm(rt: HostRuntime) -> Result<(), Fail> {
    follows(&rt, "restless_file", BOOK)?;
    follows_each(&rt, "restless_file", REPORTED, AUTOMATIC)?;
    follows_each(&rt, "restless_file", REFUSED, RESTLESS)
}

const CLOSED: &str = "
$ desk cutoff @ 2024-03-04
> cut off
$ desk close @ 2024-03-04
> closed rejected 1
$ desk post @ BETA P-2 7
> posted 2
$ copy @ @.book
";

// Orders without a third one, a queued order once the day is closed, and a closed day that is automatic. In the last
// case of each kind nothing adds up besides.
const ENDED: &str = "\
94 Inconsistent 1 ! sql @ DELETE FROM payment WHERE number = 4; UPDATE payment SET number = 4 WHERE number = 3
94 Inconsistent 10 ! sql @ UPDATE payment SET state = 0 WHERE number = 4
94 Inconsistent 10 ! sql @ UPDATE payment SET state = 0 WHERE number = 4; UPDATE participant SET balance = 0
94 Inconsistent 10 ! sql @ UPDATE payment SET state = 0 WHERE number = 4; UPDATE resolution SET automatic = 1
94 Inconsistent 15 ! sql @ UPDATE resolution SET automatic = 1
94 Inconsistent 14 ! sql @ UPDATE resolution SET automatic = 1; UPDATE participant SET balance = 0";

#[test]
fn whose_book_is_unsound_once_its_day_is_closed(rt: HostRuntime) -> Result<(), Fail> {
    follows_both(&rt, "ended", BOOK, CLOSED)?;
    follows_each(&rt, "ended", REFUSED, ENDED)
}

// What is done to a book, of which the desk takes no notice.
const BESIDE: &str = "\
sql @ CREATE TABLE more (a, b); INSERT INTO more VALUES (1, 2)
sql @ CREATE INDEX more ON payment (receiver)
sql @ CREATE VIEW more AS SELECT code, balance FROM participant
sql @ CREATE TABLE more (a); INSERT INTO more SELECT code FROM participant; \
    INSERT INTO more SELECT a.code || b.code || c.code || d.code \
    FROM participant AS a, participant AS b, participant AS c, participant AS d; DELETE FROM more
sql @ CREATE TABLE more (a TEXT); INSERT INTO more VALUES ('twenty letters of it'); \
    UPDATE more SET a = a || a || a || a || a || a || a || a || a || a; \
    UPDATE more SET a = a || a || a || a || a || a || a || a || a || a; \
    UPDATE more SET a = a || a || a || a || a || a || a || a || a || a; DROP TABLE more";

#[test]
fn that_are_the_same_to_the_desk(rt: HostRuntime) -> Result<(), Fail> {
    follows(&rt, "beside", BOOK)?;
    follows_each(&rt, "beside", REPORTED, BESIDE)
}

// Keeps the marks in another table, and makes room for a new one.
const KEPT: &str = "
$ sql @ CREATE TABLE kept (number INTEGER, date TEXT, many INTEGER, value INTEGER); \
    INSERT INTO kept SELECT number, date, many, value FROM mark; DROP TABLE mark;
$ copy @ @.book
";

// How the marks stand then, as they may.
const MARKS: &str = "\
sql @ CREATE TABLE mark (number INTEGER, date TEXT, more TEXT, many INTEGER, value INTEGER); \
    INSERT INTO mark (number, date, many, value) SELECT number, date, many, value FROM kept";

// How they stand otherwise: first not at all.
const NO_MARKS: &str = "\
93 NotADeskFile ! copy @.book @
93 NotADeskFile ! sql @ CREATE TABLE mark (number INTEGER, date TEXT, many INTEGER); \
    INSERT INTO mark SELECT number, date, many FROM kept
93 NotADeskFile ! sql @ CREATE TABLE mark (number INTEGER, date TEXT, few INTEGER, value INTEGER); \
    INSERT INTO mark SELECT number, date, many, value FROM kept
93 NotADeskFile ! sql @ CREATE TABLE mark (number INTEGER, date BLOB, many INTEGER, value INTEGER); \
    INSERT INTO mark SELECT number, x'00', many, value FROM kept";

#[test]
fn whose_marks_stand_otherwise(rt: HostRuntime) -> Result<(), Fail> {
    follows_both(&rt, "marks", BOOK, KEPT)?;
    follows_each(&rt, "marks", REPORTED, MARKS)?;
    follows_each(&rt, "marks", REFUSED, NO_MARKS)
}
