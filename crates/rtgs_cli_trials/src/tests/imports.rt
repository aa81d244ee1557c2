//! Files of orders, taken whole or not at all, and sent again.
use super::script::{follows, follows_both, write};
use rtgs_tests_desks::ensure;
use std::alloc::{AllocError, Global};
use std::fmt::Write;
use std::test::Fail;

/// An open day on which ALFA has 150 cents.
pub const DAY: &str = "
$ desk init @
> initialised
$ desk add @ ALFA 'A Bank' 0000000000000000000000000000000a
> added
$ desk add @ BETA 'A Bank' 0000000000000000000000000000000b
> added
$ desk add @ GAMA 'A Bank' 0000000000000000000000000000000c
> added
$ desk open @ 2024-03-04
> opened
$ desk post @ ALFA P-1 150
> posted 1
";

const TWICE: &str = "
$ orders twice.csv A-1,BETA,100 A-2,GAMA,50 A-3,BETA,25
$ desk import @ ALFA twice.csv
> reference,result,number,detail
> A-1,settled,1,1
> A-2,settled,2,2
> A-3,queued,3,1
$ orders twice.csv A-1,BETA,100 A-2,GAMA,50 A-3,BETA,25
$ desk import @ ALFA twice.csv
> reference,result,number,detail
> A-1,repeated,1,settled
> A-2,repeated,2,settled
> A-3,repeated,3,queued
";

#[test]
fn a_file_that_comes_twice_acts_once(rt: HostRuntime) -> Result<(), Fail> {
    follows_both(&rt, "twice", DAY, TWICE)
}

const AMONG: &str = "
$ orders among.csv A-1,BETA,100 A-2,ALFA,5 A-3,ZETA,5 A-1,BETA,99
$ desk import @ ALFA among.csv
> reference,result,number,detail
> A-1,settled,1,1
> A-2,refused,,3
> A-3,refused,,2
> A-1,refused,,4
$ orders among.csv A-1,BETA,100
$ desk import @ ZETA among.csv
> reference,result,number,detail
> A-1,refused,,1
";

#[test]
fn refused_rows_stand_among_good_ones(rt: HostRuntime) -> Result<(), Fail> {
    follows_both(&rt, "among", DAY, AMONG)
}

const BAD: &str = r#"
$ orders bad.csv A-1,BETA,100 A-2,GAMA,50 A-3,BETA
$ desk import @ ALFA bad.csv
! refused 41 BadRow 3
status 1
$ file bad.csv reference,to,amount\n
$ desk import @ ALFA bad.csv
! refused 42 BadCount
status 1
$ file bad.csv
$ desk import @ ALFA bad.csv
! refused 40 BadHeader
status 1
$ file bad.csv A-1,BETA,100\n
$ desk import @ ALFA bad.csv
! refused 40 BadHeader
status 1
$ orders bad.csv "A-1",BETA,100
$ desk import @ ALFA bad.csv
> reference,result,number,detail
> A-1,settled,1,1
$ desk import @ alfa no.csv
! refused 30 BadCode
status 1
$ desk import @ ALFA no.csv
! refused 98 NoOrderFile
status 3
$ desk import no_book ALFA no.csv
! refused 93 NotADeskFile
status 3
"#;

#[test]
fn a_bad_file_is_not_taken(rt: HostRuntime) -> Result<(), Fail> {
    follows_both(&rt, "bad", DAY, BAD)
}

/// A file of one order that has this many bytes.
const LONG: &str = r#"
$ file short.csv reference,to,amount\nA-1,BETA,100\n
$ filled short.csv long.csv 65536
$ desk import @ ALFA long.csv
> reference,result,number,detail
> A-1,settled,1,1
$ filled short.csv long.csv 65537
$ desk import @ ALFA long.csv
! refused 63 BodyTooLong
status 1
"#;

#[test]
fn a_file_has_65536_bytes_at_most(rt: HostRuntime) -> Result<(), Fail> {
    follows_both(&rt, "long", DAY, LONG)
}

/// The bytes of a file of three orders, of which the first stands at its begin, the second behind 32 KB and the last at
/// its end: lines without text are between them.
fn spread(alloc: Global) -> Result<String, Fail> {
    let mut file = String::from_str(alloc, "reference,to,amount\nA-1,BETA,100\n")?;
    let gap = "\n".repeat(alloc, 32_768usize.saturating_sub(file.len()))?;
    file.push_str(gap.as_str())?;
    file.push_str("A-2,GAMA,50\n")?;
    // the last order has 12 bytes
    let gap = "\n".repeat(alloc, 65_524usize.saturating_sub(file.len()))?;
    file.push_str(gap.as_str())?;
    file.push_str("A-3,BETA,25\n")?;
    Ok(file)
}

const SPREAD: &str = "
$ desk import @ ALFA spread.csv
> reference,result,number,detail
> A-1,settled,1,1
> A-2,settled,2,2
> A-3,queued,3,1
";

#[test]
fn a_file_of_65536_bytes_is_read_to_its_end(rt: HostRuntime) -> Result<(), Fail> {
    let file = spread(rt.alloc())?;
    ensure(file.len() == 65_536)?;
    write(&rt, "spread.csv", file.as_bytes())?;
    follows_both(&rt, "spread", DAY, SPREAD)
}

const ENDLESS: &str = "
$ desk import @ ALFA /dev/zero
! refused 63 BodyTooLong
status 1
";

#[test]
fn a_file_that_never_ends_is_too_long(rt: HostRuntime) -> Result<(), Fail> {
    follows_both(&rt, "endless", DAY, ENDLESS)
}

/// A file of orders is imported, and its results are lost, where standard output takes twenty bytes.
const LOST: &str = "
$ orders lost.csv A-1,BETA,100
$ out 20 import @ ALFA lost.csv
> reference,result,num~
status 3 lost
$ desk import @ ALFA lost.csv
> reference,result,number,detail
> A-1,repeated,1,settled
";

#[test]
fn orders_stand_where_their_results_are_lost(rt: HostRuntime) -> Result<(), Fail> {
    follows_both(&rt, "lost", DAY, LOST)
}

/// A step that writes a file of this many orders of one cent, and the line that imports it.
fn many_of(alloc: Global, count: u32) -> Result<String, Fail> {
    let mut many = String::from_str(alloc, "\n$ orders many.csv")?;
    for number in 1..=count {
        write!(many, " A-{number},BETA,1")?;
    }
    many.push_str("\n$ desk import @ ALFA many.csv\n> reference,result,number,detail\n")?;
    Ok(many)
}

/// What a row is answered where ALFA has 150 cents: that order settles under its own mark, or is queued behind those
/// before it that have no cover.
fn answer_to(alloc: Global, number: u32) -> Result<String, AllocError> {
    match number.checked_sub(150) {
        None | Some(0) => format!(in alloc; "> A-{number},settled,{number},{number}\n"),
        Some(place) => format!(in alloc; "> A-{number},queued,{number},{place}\n"),
    }
}

/// What the same row is answered then.
fn answer_again(alloc: Global, number: u32) -> Result<String, AllocError> {
    let state = if number <= 150 { "settled" } else { "queued" };
    format!(in alloc; "> A-{number},repeated,{number},{state}\n")
}

/// The import of this many orders, with the whole of its result file.
fn import_of(alloc: Global, count: u32, again: bool) -> Result<String, Fail> {
    let mut script = many_of(alloc, count)?;
    for number in 1..=count {
        let answer = if again {
            answer_again(alloc, number)?
        } else {
            answer_to(alloc, number)?
        };
        script.push_str(answer.as_str())?;
    }
    Ok(script)
}

#[test]
fn a_file_of_500_orders_is_answered_row_by_row(rt: HostRuntime) -> Result<(), Fail> {
    let first = import_of(rt.alloc(), 500, false)?;
    let again = import_of(rt.alloc(), 500, true)?;
    // all orders and all answers are in them
    ensure((first.len(), again.len()) == (17692, 20408))?;
    follows(&rt, "many", DAY)?;
    follows_both(&rt, "many", first.as_str(), again.as_str())
}
