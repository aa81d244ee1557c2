//! How files are opened, held and closed by runs.
use super::BEGIN;
use super::script::{follows, follows_both};
use rtgs_book_file::BookLock;
use sqlite::{Start, Unknown};
use std::test::Fail;

const ONE_BYTE: &str = "
$ file @ S
$ desk init @
! refused 96 FileExists
status 3
$ file @.kept S
$ same @ @.kept
";

#[test]
fn no_book_is_made_over_one_byte(rt: HostRuntime) -> Result<(), Fail> {
    follows(&rt, "one_byte", ONE_BYTE)
}

#[test]
fn a_book_is_made_in_an_empty_file(rt: HostRuntime) -> Result<(), Fail> {
    follows_both(&rt, "empty", "\n$ file @\n", BEGIN)
}

/// A log whose database file has nothing yet, and no file with it.
const UNREAD_LOG: &str = "
$ log @.other CREATE TABLE other (number INTEGER PRIMARY KEY)
$ copy @.other-wal @-wal
$ gone @
";

#[test]
fn a_log_without_its_file_is_dropped(rt: HostRuntime) -> Result<(), Fail> {
    follows_both(&rt, "logged", UNREAD_LOG, BEGIN)
}

/// The lock of a file is held by somebody else.
const HELD: &str = "
$ desk init @
! refused 95 InUse
status 3
$ desk post @ ALFA P-1 1
! refused 95 InUse
status 3
";

/// Follows a script while a book's file is open, and once it is closed and copied, but not yet released. Where the file
/// is refused, only the other script is followed, while what refused it is still there.
fn follows_while_held<S: Start>(
    rt: &HostRuntime,
    start: S,
    file: &str,
    held: &str,
    refused: &str,
) -> Result<(), Fail> {
    let lock = match BookLock::take(rt, file, start) {
        Ok(lock) => lock,
        Err(unopened) => return Err(Fail::from(unopened.fault())),
    };
    match lock.open(rt) {
        Ok(book) => {
            let while_open = follows(rt, file, held);
            let closed = book.finish().close();
            let followed = match while_open {
                Ok(()) => follows(rt, file, held),
                failed => failed,
            };
            let is_copied = closed.is_copied();
            drop(closed.release());
            followed?;
            if is_copied {
                return Ok(());
            }
            Err(Fail::from("it was not copied"))
        }
        Err(_unopened) => follows(rt, file, refused),
    }
}

const LET_GO: &str = "
$ desk post @ ALFA P-1 1
> posted 1
";

#[test]
fn a_lock_is_held_until_the_files_are_let_go(rt: HostRuntime) -> Result<(), Fail> {
    follows(&rt, "held", BEGIN)?;
    follows_while_held(&rt, Unknown, "held", HELD, "it was not opened")?;
    follows(&rt, "held", LET_GO)
}

/// The lock of a file that holds no book can be taken.
const NOT_HELD: &str = "
$ desk post @ ALFA P-1 1
! refused 93 NotADeskFile
status 3
";

#[test]
fn a_refused_book_lets_its_lock_go_at_once(rt: HostRuntime) -> Result<(), Fail> {
    follows(&rt, "no_tables", "\n$ sql @ \n")?;
    follows_while_held(&rt, Unknown, "no_tables", "it was opened", NOT_HELD)
}

const ORDERS_FOLDER: &str = "
$ folder orders
$ desk import @ ALFA orders
! refused 98 NoOrderFile
status 3
";

#[test]
fn a_folder_is_no_order_file(rt: HostRuntime) -> Result<(), Fail> {
    follows_both(&rt, "folder", BEGIN, ORDERS_FOLDER)
}

const BOOKS_FOLDER: &str = "
$ folder @
$ desk post @ ALFA P-1 1
! refused 91 StoreFault
status 3
";

#[test]
fn a_folder_holds_no_book(rt: HostRuntime) -> Result<(), Fail> {
    follows(&rt, "books", BOOKS_FOLDER)
}

/// A copy of the file alone has the posting, or else what is inserted has no value, which is refused.
const COPIED: &str = "
$ desk post @ ALFA P-1 7
> posted 1
$ copy @ @.copied
$ sql @.copied CREATE TABLE seen (is_so INTEGER NOT NULL)
$ sql @.copied INSERT INTO seen SELECT CASE WHEN sum(cents) = 7 THEN 1 END FROM posting
";

#[test]
fn the_file_is_whole_by_itself_after_a_run(rt: HostRuntime) -> Result<(), Fail> {
    follows_both(&rt, "whole", BEGIN, COPIED)
}
