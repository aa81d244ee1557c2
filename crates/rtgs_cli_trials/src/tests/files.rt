//! Files that are no book, or are in use.
use super::BEGIN;
use super::days::OPEN_DAY;
use super::script::{follows, follows_both, follows_each, write};
use rtgs_tests_desks::ensure;
use std::fs::{self, OpenOptions};
use std::test::Fail;

const MISSING: &str = "
$ desk post @ ALFA P-1 1
! refused 93 NotADeskFile
status 3
$ gone @
";

/// Runs on a file with this content are refused, and leave it as it was, byte for byte.
const NO_BOOK: &str = "
$ file @ %1
$ copy @ @.kept
$ desk post @ ALFA P-9 1
! refused 93 NotADeskFile
status 3
$ desk add @ ALFA 'Alfa Bank' 0000000000000000000000000000000a
! refused 93 NotADeskFile
status 3
$ same @ @.kept
";

const NO_DATABASES: &str = r"
x
A text that is no database at all.\n";

const EXISTS: &str = "
$ desk init @
! refused 96 FileExists
status 3
";

#[test]
fn that_are_no_database(rt: HostRuntime) -> Result<(), Fail> {
    follows(&rt, "no_database", MISSING)?;
    follows_each(&rt, "no_database", NO_BOOK, NO_DATABASES)?;
    follows(&rt, "no_database", EXISTS)
}

const ANOTHER: &str = "
$ sql @ CREATE TABLE note (id INTEGER PRIMARY KEY, title TEXT NOT NULL) STRICT
$ copy @ @.kept
$ desk post @ ALFA P-9 1
! refused 93 NotADeskFile
status 3
$ desk add @ ALFA 'Alfa Bank' 0000000000000000000000000000000a
! refused 93 NotADeskFile
status 3
$ same @ @.kept
";

#[test]
fn of_another_program(rt: HostRuntime) -> Result<(), Fail> {
    follows(&rt, "another", ANOTHER)
}

const POSTED: &str = "
$ desk post @ ALFA P-1 1000
> posted 1
$ desk post @ ALFA P-2 30
> posted 2
$ copy @ @.posted
";

/// Runs on a book that was changed are refused, and leave it as it was, byte for byte.
const CHANGED: &str = "
$ copy @.posted @
$ sql @ %2
$ copy @ @.kept
$ desk post @ ALFA P-9 1
! %1
status 3
$ desk add @ ALFA 'Alfa Bank' 0000000000000000000000000000000a
! %1
status 3
$ same @ @.kept
";

/// How a book is then refused, and what was changed in it.
const CHANGES: &str = "\
refused 94 Inconsistent 14 ! UPDATE participant SET balance = balance + 1
refused 94 Inconsistent 2 ! UPDATE posting SET number = 3 WHERE number = 2
refused 94 Inconsistent 8 ! UPDATE posting SET code = 'ZETA' WHERE number = 2
refused 93 NotADeskFile ! UPDATE desk SET version = 7
refused 93 NotADeskFile ! UPDATE participant SET credit = -1
refused 93 NotADeskFile ! DROP TABLE mark";

#[test]
fn whose_book_was_changed(rt: HostRuntime) -> Result<(), Fail> {
    follows_both(&rt, "changed", BEGIN, POSTED)?;
    follows_each(&rt, "changed", CHANGED, CHANGES)
}

const IN_USE: &str = "
$ desk init @
! refused 95 InUse
status 3
$ desk migrate @
! refused 95 InUse
status 3
$ desk post @ ALFA P-1 1
! refused 95 InUse
status 3
";

const NO_LONGER_IN_USE: &str = "
$ desk post @ ALFA P-1 1
> posted 1
$ desk init no/such/F
! refused 95 InUse
status 3
";

/// Runs over a file whose lock is held.
fn is_in_use(rt: &HostRuntime) -> Result<(), Fail> {
    let lock = OpenOptions::new()
        .read(true)
        .write(true)
        .create(true)
        .open(rt, "in_use.lock")?;
    lock.try_lock()?;
    let followed = follows(rt, "in_use", IN_USE);
    drop(lock);
    followed
}

#[test]
fn that_are_in_use(rt: HostRuntime) -> Result<(), Fail> {
    follows(&rt, "in_use", BEGIN)?;
    is_in_use(&rt)?;
    follows(&rt, "in_use", NO_LONGER_IN_USE)
}

/// A book with spaces around its name, beside one that has the same name without them. Its file of orders has such a
/// name too, and so has another one beside it.
const SPACED: &str = "
$ desk init @
> initialised
$ desk init ' @ '
> initialised
$ desk add ' @ ' ALFA 'Alfa Bank' 0000000000000000000000000000000a
> added
$ desk add ' @ ' BETA 'Beta Bank' 0000000000000000000000000000000b
> added
$ desk open ' @ ' 2024-03-04
> opened
$ desk post ' @ ' ALFA P-1 150
> posted 1
$ orders spaced.csv A-1,BETA,100
$ desk import ' @ ' ALFA ' spaced.csv '
! refused 98 NoOrderFile
status 3
$ desk post @ ALFA P-1 150
! refused 01 UnknownParticipant
status 1
$ desk post '@ ' ALFA P-1 150
! refused 93 NotADeskFile
status 3
";

const SPACED_ORDERS: &str = "
$ desk import ' @ ' ALFA ' spaced.csv '
> reference,result,number,detail
> A-2,settled,1,1
$ desk import ' @ ' ALFA spaced.csv
> reference,result,number,detail
> A-1,queued,2,1
";

// A name stands as it is given: spaces at its ends are of it, for a book and for a file of orders.
#[test]
fn whose_names_have_outer_spaces(rt: HostRuntime) -> Result<(), Fail> {
    follows(&rt, "spaced", SPACED)?;
    write(&rt, " spaced.csv ", b"reference,to,amount\nA-2,BETA,100\n")?;
    follows(&rt, "spaced", SPACED_ORDERS)?;
    ensure(fs::metadata(&rt, " spaced ").is_ok())?;
    ensure(fs::metadata(&rt, "spaced ").is_err())
}

/// Links to themselves and to nothing, and then to the book and to a file of orders.
const LINKS: &str = "
$ link @.loop @.loop
$ desk post @.loop ALFA P-1 1
! refused 91 StoreFault
status 3
$ desk import @ ALFA @.loop
! refused 98 NoOrderFile
status 3
$ link @.nowhere @.missing
$ desk post @.nowhere ALFA P-1 1
! refused 93 NotADeskFile
status 3
$ gone @.missing
$ link @.link @
$ desk init @.link
! refused 96 FileExists
status 3
$ desk post @.link ALFA P-1 1
> posted 1
$ orders @.csv A-1,BETA,1
$ link @.link.csv @.csv
$ desk import @.link ALFA @.link.csv
> reference,result,number,detail
> A-1,settled,1,1
$ desk post @ ALFA P-1 1
> repeated
$ desk import @ ALFA @.csv
> reference,result,number,detail
> A-1,repeated,1,settled
";

#[test]
fn that_are_links(rt: HostRuntime) -> Result<(), Fail> {
    follows_both(&rt, "linked", OPEN_DAY, LINKS)
}

const NEW: &str = "
$ desk init @
> initialised
";

// The bytes 16 and 17 of a file say how many bytes a page of it has.
#[test]
fn of_a_new_book_have_pages_of_512_bytes(rt: HostRuntime) -> Result<(), Fail> {
    follows(&rt, "new_pages", NEW)?;
    let file = fs::read(&rt, "new_pages")?;
    ensure(file.as_slice().get(16..18) == Some([2, 0].as_slice()))?;
    ensure(file.len() % 512 == 0)
}
