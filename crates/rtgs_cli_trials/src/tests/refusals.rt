//! One row for each refusal of a command.
use super::BEGIN;
use super::databases::change;
use super::script::{REFUSED, follows, follows_both, follows_each};
use std::fmt::Write;
use std::test::Fail;

const ADDING: &str = "\
add @ '' 'Alfa Bank' 0000000000000000000000000000000a ! refused 30 BadCode
add @ AL 'Alfa Bank' 0000000000000000000000000000000a ! refused 30 BadCode
add @ ALFAALFAA 'Alfa Bank' 0000000000000000000000000000000a ! refused 30 BadCode
add @ 1LFA 'Alfa Bank' 0000000000000000000000000000000a ! refused 30 BadCode
add @ ALFÄ 'Alfa Bank' 0000000000000000000000000000000a ! refused 30 BadCode
add @ -ALFA '' '' ! refused 30 BadCode
add @ BETA '' 0000000000000000000000000000000b ! refused 33 BadName
add @ BETA ' Beta' 0000000000000000000000000000000b ! refused 33 BadName
add @ BETA 12345678901234567890123456789012345678901 0000000000000000000000000000000b ! refused 33 BadName
add @ BETA 'Bêta Bank' '' ! refused 33 BadName
add @ BETA 'Beta Bank' '' ! refused 34 BadKey
add @ BETA 'Beta Bank' 0000000000000000000000000000000G ! refused 34 BadKey
add @ ALFA 'Other Bank' 0000000000000000000000000000000a ! refused 10 CodeTaken
add @ BETA 'Beta Bank' 0000000000000000000000000000000a ! refused 11 KeyTaken";

const ADDED: &str = "
$ desk add @ ALFA 'Alfa Bank' 0000000000000000000000000000000a
> repeated
";

#[test]
fn of_adding(rt: HostRuntime) -> Result<(), Fail> {
    follows(&rt, "adding", BEGIN)?;
    follows_each(&rt, "adding", REFUSED, ADDING)?;
    follows(&rt, "adding", ADDED)
}

const POSTING: &str = "\
post @ '' P-1 1 ! refused 30 BadCode
post @ alfa p-1 x ! refused 30 BadCode
post @ ALFA '' 1 ! refused 31 BadReference
post @ ALFA p-1 1 ! refused 31 BadReference
post @ ALFA 12345678901234567 1 ! refused 31 BadReference
post @ ALFA É 1 ! refused 31 BadReference
post @ ALFA -p 1 ! refused 31 BadReference
post @ ALFA P-1 '' ! refused 32 BadAmount
post @ ALFA P-1 0 ! refused 32 BadAmount
post @ ALFA P-1 007 ! refused 32 BadAmount
post @ ALFA P-1 -1 ! refused 32 BadAmount
post @ ALFA P-1 +1 ! refused 32 BadAmount
post @ ALFA P-1 1000000000000001 ! refused 32 BadAmount
post @ ALFA P-1 １ ! refused 32 BadAmount
post @ ZETA P-1 1 ! refused 01 UnknownParticipant
post @ ALFA P-1 0 --debit ! refused 32 BadAmount
post @ ALFA P-1 -1 --debit ! refused 32 BadAmount
post @ ALFA P-1 '' --debit ! refused 32 BadAmount
post @ ALFA P-1 1000000000000001 --debit ! refused 32 BadAmount
post @ --debit ALFA P-1 1 ! refused 06 NoCover";

#[test]
fn of_posting(rt: HostRuntime) -> Result<(), Fail> {
    follows(&rt, "posting", BEGIN)?;
    follows_each(&rt, "posting", REFUSED, POSTING)
}

const DASHES: &str = "\
account @ -LFA ! refused 30 BadCode
queue @ -LFA ! refused 30 BadCode
credit @ -LFA 5 ! refused 30 BadCode
withdraw @ ALFA -p ! refused 31 BadReference
withdraw @ ALFA -A-1 ! refused 09 UnknownOrder
order @ ALFA -A-1 ! refused 09 UnknownOrder
cutoff @ -024-03-04 ! refused 35 BadDate
report @ -024-03-04 ! refused 35 BadDate
statement @ ALFA -024-03-04 ! refused 35 BadDate";

/// A word of a subcommand may begin with a dash, and is judged by its form.
#[test]
fn of_words_with_a_dash(rt: HostRuntime) -> Result<(), Fail> {
    follows(&rt, "dashes", BEGIN)?;
    follows_each(&rt, "dashes", REFUSED, DASHES)
}

const TOTALS: &str = "
$ desk add @ BETA 'Beta Bank' 0000000000000000000000000000000b
> added
$ desk post @ ALFA P-1 1000000000000000
> posted 1
$ desk post @ BETA P-2 1
! refused 13 TotalTooLarge
status 1
$ desk post @ ALFA P-3 1 --debit
> posted 2
$ desk post @ BETA P-2 1
> posted 3
$ desk post @ BETA P-1 1
! refused 04 ReferenceUsed
status 1
";

#[test]
fn of_totals(rt: HostRuntime) -> Result<(), Fail> {
    follows_both(&rt, "totals", BEGIN, TOTALS)
}

/// Adds the statement that adds a participant.
fn add(sql: &mut String, number: u32) -> Result<(), Fail> {
    Ok(write!(
        sql,
        "INSERT INTO participant VALUES ('B{number}', 'Bank {number}', x'{number:064}', 0, 0);"
    )?)
}

/// Statements that add a hundred participants.
fn hundred(rt: &HostRuntime) -> Result<String, Fail> {
    let mut sql = String::from_str(rt.alloc(), "BEGIN;")?;
    for number in 100..200 {
        add(&mut sql, number)?;
    }
    sql.push_str("COMMIT")?;
    Ok(sql)
}

const MORE: &str = "
$ desk add @ ALFA 'Alfa Bank' 0000000000000000000000000000000a
! refused 12 TooManyParticipants
status 1
";

#[test]
fn of_a_hundred_and_first_participant(rt: HostRuntime) -> Result<(), Fail> {
    follows(&rt, "hundred", "\n$ desk init @\n> initialised\n")?;
    let sql = hundred(&rt)?;
    change(&rt, "hundred", sql.as_str(), false)?;
    follows(&rt, "hundred", MORE)
}

const OPENING: &str = "
$ desk open @ ''
! refused 35 BadDate
status 1
$ desk open @ 2024-02-30
! refused 35 BadDate
status 1
$ desk open @ 2024-3-4
! refused 35 BadDate
status 1
$ desk open @ 20240304
! refused 35 BadDate
status 1
$ desk open @ -024-03-04
! refused 35 BadDate
status 1
$ desk open @ 1999-12-31
! refused 35 BadDate
status 1
$ desk open @ 3000-01-01
! refused 35 BadDate
status 1
$ desk open @ 2024-03-09
! refused 16 Weekend
status 1
$ desk open @ 2024-03-04
> opened
$ desk open @ 2024-03-04
> repeated
$ desk open @ 2024-03-05
! refused 14 WrongPhase
status 1
$ desk open @ 2024-03-01
! refused 14 WrongPhase
status 1
$ sql @ UPDATE desk SET phase = 0
$ desk open @ 2024-03-04
! refused 15 WrongDate
status 1
$ desk open @ 2024-03-01
! refused 15 WrongDate
status 1
$ desk open @ 2024-03-10
! refused 16 Weekend
status 1
$ desk open @ 2024-03-05
> opened
";

#[test]
fn of_opening_a_day(rt: HostRuntime) -> Result<(), Fail> {
    follows_both(&rt, "days", BEGIN, OPENING)
}
