//! Files that list more objects than a desk's file does, or pages that lead to one another.
use super::listed::{REFUSED, REPORTED};
use super::making::BOOK;
use crate::tests::databases::change;
use crate::tests::script::{follows, follows_each};
use std::fmt::Write;
use std::test::Fail;

// A report on the book with N views more is that on the book, up to a hundred objects, and refused above that.
// An opening would compare each of them with each other. Of 30000 that would take minutes, and a test has one.
const FEW: &str = "\
views @.book @ 1
views @.book @ 70
views @.book @ 71
views @.book @ 89";

const MANY: &str = "\
93 NotADeskFile ! views @.book @ 90
93 NotADeskFile ! views @.book @ 500
93 NotADeskFile ! views @.book @ 1000
93 NotADeskFile ! views @.book @ 2000
93 NotADeskFile ! views @.book @ 4000
93 NotADeskFile ! views @.book @ 8000
93 NotADeskFile ! views @.book @ 16000
93 NotADeskFile ! views @.book @ 30000";

#[test]
fn with_more_objects(rt: HostRuntime) -> Result<(), Fail> {
    follows(&rt, "crowd", BOOK)?;
    follows_each(&rt, "crowd", REPORTED, FEW)?;
    follows_each(&rt, "crowd", REFUSED, MANY)
}

// Makes the views of these numbers, and leaves them in the log of the file.
fn leave_views(rt: &HostRuntime, file: &str, first: u32, last: u32) -> Result<(), Fail> {
    let mut sql = String::new(rt.alloc());
    for view in first..=last {
        writeln!(sql, "CREATE VIEW v{view} AS SELECT 1;")?;
    }
    change(rt, file, sql.as_str(), true)
}

const LOGGED: &str = "
$ names report @ 2024-03-04
= report 2024-03-04
";

const TOO_MANY_LOGGED: &str = "
$ copy @ @.kept
$ desk report @ 2024-03-04
! refused 93 NotADeskFile
status 3
$ same @ @.kept
";

// A report moves the log into the file, where it does not refuse it.
#[test]
fn with_objects_in_the_log(rt: HostRuntime) -> Result<(), Fail> {
    follows(&rt, "crowd_log", BOOK)?;
    leave_views(&rt, "crowd_log", 1, 89)?;
    follows(&rt, "crowd_log", LOGGED)?;
    leave_views(&rt, "crowd_log", 90, 90)?;
    follows(&rt, "crowd_log", TOO_MANY_LOGGED)
}

// Each page is said to end in a checksum, and none does.
const NO_SUMS: &str = "\
93 NotADeskFile ! no_sums @.book @ 1
93 NotADeskFile ! no_sums @.book @ 8000";

#[test]
fn with_pages_that_lack_their_sums(rt: HostRuntime) -> Result<(), Fail> {
    follows(&rt, "sums", BOOK)?;
    follows_each(&rt, "sums", REFUSED, NO_SUMS)
}

// Ten megabytes of pages, each of which leads to itself, to the pages behind it, or to pages far from it.
const CIRCLES: &str = "\
91 StoreFault ! circles @.book @ 0
91 StoreFault ! circles @.book @ 1
91 StoreFault ! circles @.book @ 37";

#[test]
fn of_ten_megabytes(rt: HostRuntime) -> Result<(), Fail> {
    follows(&rt, "ten_megabytes", BOOK)?;
    follows_each(&rt, "ten_megabytes", REFUSED, CIRCLES)
}
