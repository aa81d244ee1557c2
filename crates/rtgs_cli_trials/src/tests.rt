//! Whole runs, by their words, and what they print.
use script::{follows, follows_both};
use std::test::Fail;

mod automatic_days;
mod databases;
mod days;
mod due_dates;
mod explaining;
mod files;
mod gridlocks;
mod helps;
mod hostile;
mod imports;
mod migrations;
mod openings;
mod order_bytes;
mod paper;
mod readings;
mod refusals;
mod runs;
mod scenarios;
mod script;
mod serving;
mod stops;

/// A book with ALFA in it.
const BEGIN: &str = "
$ desk init @
> initialised
$ desk add @ ALFA 'Alfa Bank' 0000000000000000000000000000000a
> added
";

const MADE: &str = "
$ desk init @
> initialised
$ desk init @
! refused 96 FileExists
status 3
$ desk add @ ALFA 'Alfa Bank' 0000000000000000000000000000000a
> added
$ desk add @ BETA 'Beta Bank' 0000000000000000000000000000000a
! refused 11 KeyTaken
status 1
$ desk post @ ALFA P-1 1000
> posted 1
$ desk post @ ALFA P-1 1000
> repeated
$ desk post @ ALFA P-1 999
! refused 04 ReferenceUsed
status 1
$ desk post @ ALFA P-2 1001 --debit
! refused 06 NoCover
status 1
";

#[test]
fn a_book_is_made_and_posted_to(rt: HostRuntime) -> Result<(), Fail> {
    follows(&rt, "made", MADE)
}

/// A posting is made, and its run fails, where standard output takes four bytes. One is refused with its status where
/// standard error takes four. A statement is printed, and its run fails, where standard output takes its first line and
/// four bytes.
const UNHEARD: &str = "
$ out 4 post @ ALFA P-1 1
> post~
status 3 lost
$ err 4 post @ ALFA P-1 2
! refu~
status 1
$ out 30 statement @ ALFA 2024-03-04
> statement ALFA 2024-03-04
> sum-~
status 3 lost
$ desk post @ ALFA P-1 1
> repeated
";

#[test]
fn a_run_ends_alike_where_nobody_hears_it(rt: HostRuntime) -> Result<(), Fail> {
    follows_both(&rt, "unheard", BEGIN, UNHEARD)
}
