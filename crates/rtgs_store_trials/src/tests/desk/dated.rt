//! What a desk gives of a date, over a book in memory: its records one after another, and its texts.
use super::super::scripts::desks::desk_after;
use super::super::scripts::{day_of, follows};
use super::super::setting::{code, is_same};
use rtgs_book::Refusal;
use rtgs_statements::{Source, write_report, write_statement};
use rtgs_tests_desks::ensure;
use std::alloc::Global;
use std::test::Fail;

// ALFA pays BETA on two days. On the second, after another posting, it pays all that it has, and one order waits.
const TWO_DAYS: &str = "
post ALFA P-1 150 => Posted { number: 1 }
open 2024-03-01 => Opened
order ALFA O-1 BETA 100 => Settled { number: 1, mark: 1 }
cutoff 2024-03-01 => CutOffDone
close 2024-03-01 => Closed { rejected: 0 }
open 2024-03-04 => Opened
post ALFA P-2 10 => Posted { number: 2 }
order ALFA O-2 BETA 60 => Settled { number: 2, mark: 2 }
order ALFA O-3 BETA 25 => Queued { number: 3, place: 1 }
";

// What the desk says of the second day's records, after the one of a number.
const RECORDS: &str = "
next-posting 2024-03-04 0 => 2 ALFA P-2 10 2024-03-04
next-posting 2024-03-04 2 => none
next-order 2024-03-04 0 => 2 ALFA O-2 BETA 60 2024-03-04 Settled(2)
next-order 2024-03-04 2 => 3 ALFA O-3 BETA 25 2024-03-04 Queued
next-order 2024-03-04 3 => none
next-mark 2024-03-04 0 => 2 2024-03-04 1 60
next-mark 2024-03-04 2 => none
";

#[test]
fn the_records_of_a_date_come_one_after_another(rt: HostRuntime) -> Result<(), Fail> {
    let mut desk = desk_after(rt.alloc(), TWO_DAYS)?;
    follows(rt.alloc(), &mut desk, RECORDS)
}

// The codes, and nothing after them up to the largest index.
const CODES: &str = "
code-at 0 => ALFA
code-at 1 => BETA
code-at 2 => GAMA
code-at 3 => none
code-at 4 => none
code-at 18446744073709551615 => none
";

#[test]
fn the_codes_come_in_order(rt: HostRuntime) -> Result<(), Fail> {
    let mut desk = desk_after(rt.alloc(), TWO_DAYS)?;
    follows(rt.alloc(), &mut desk, CODES)
}

// Writes a participant's statement of Monday.
fn state<S: Source>(alloc: Global, text: &mut Vec<u8>, desk: &mut S, of: &str) -> Result<(), Fail> {
    let of = code(of)?;
    let monday = day_of("2024-03-04")?;
    match write_statement(alloc, text, desk, &of, monday) {
        Ok(()) => Ok(()),
        Err(_) => Err(Fail::from("no statement")),
    }
}

// The text of a participant's statement of Monday.
fn statement<S: Source>(alloc: Global, desk: &mut S, of: &str) -> Result<String, Fail> {
    let mut text = Vec::new(alloc);
    state(alloc, &mut text, desk, of)?;
    Ok(String::from_utf8(text)?)
}

const OF_ALFA: &str = "statement ALFA 2024-03-04
posting    000000002 P-2              -                        0.10         -
sent       000000002 O-2              BETA                     0.60         2
queued     000000003 O-3              BETA                     0.25         -
sum-posted                           0.10
sum-sent                             0.60
sum-recv                             0.00
net                                 -0.50
";

const OF_BETA: &str = "statement BETA 2024-03-04
received   000000002 O-2              ALFA                     0.60         2
sum-posted                           0.00
sum-sent                             0.00
sum-recv                             0.60
net                                  0.60
";

// Fails unless this is the participant's statement of Monday.
fn is_stated<S: Source>(alloc: Global, desk: &mut S, of: &str, wanted: &str) -> Result<(), Fail> {
    let text = statement(alloc, desk, of)?;
    is_same(text.as_str(), wanted)
}

#[test]
fn a_statement_has_what_is_the_participants_on_the_date(rt: HostRuntime) -> Result<(), Fail> {
    let zeta = code("ZETA")?;
    let mut desk = desk_after(rt.alloc(), TWO_DAYS)?;
    is_stated(rt.alloc(), &mut desk, "ALFA", OF_ALFA)?;
    is_stated(rt.alloc(), &mut desk, "BETA", OF_BETA)?;
    let unknown = desk.account(&zeta).err();
    ensure(unknown == Some(Refusal::UnknownParticipant))
}

// Writes the day report of Monday.
fn report_day<S: Source>(alloc: Global, text: &mut Vec<u8>, desk: &mut S) -> Result<(), Fail> {
    let monday = day_of("2024-03-04")?;
    match write_report(alloc, text, desk, monday) {
        Ok(()) => Ok(()),
        Err(_) => Err(Fail::from("no report")),
    }
}

// The text of the day report of Monday.
fn report<S: Source>(alloc: Global, desk: &mut S) -> Result<String, Fail> {
    let mut text = Vec::new(alloc);
    report_day(alloc, &mut text, desk)?;
    Ok(String::from_utf8(text)?)
}

const REPORT: &str = "report 2024-03-04
ALFA                               0.10                           0.60                           0.00
BETA                               0.00                           0.00                           0.60
GAMA                               0.00                           0.00                           0.00
settled            1                           0.60
queued             1                           0.25
held               0                           0.00
withdrawn          0                           0.00
rejected           0                           0.00
marks              1
";

#[test]
fn a_report_has_what_is_of_the_date(rt: HostRuntime) -> Result<(), Fail> {
    let mut desk = desk_after(rt.alloc(), TWO_DAYS)?;
    let text = report(rt.alloc(), &mut desk)?;
    is_same(text.as_str(), REPORT)
}

// What has a date changes as orders for it are held, taken back, and enter their queue on a later day.
const LATER_DAYS: &str = "
open 2024-03-01 => Opened
order ALFA O-1 BETA 100 due 2024-03-04 => Held { number: 1, due: BusinessDate { number: 20240304 } }
order ALFA O-2 BETA 60 due 2024-03-05 => Held { number: 2, due: BusinessDate { number: 20240305 } }
order ALFA O-3 BETA 7 due 2024-03-04 => Held { number: 3, due: BusinessDate { number: 20240304 } }
order ALFA O-4 BETA 5 => Queued { number: 4, place: 1 }
account ALFA => 0 cents, 1 queued
withdraw ALFA O-3 => Withdrawn { number: 3 }
next-order 2024-03-01 0 => 4 ALFA O-4 BETA 5 2024-03-01 Queued
next-order 2024-03-01 4 => none
next-order 2024-03-04 0 => 1 ALFA O-1 BETA 100 2024-03-04 Held due 2024-03-04
next-order 2024-03-04 1 => 3 ALFA O-3 BETA 7 2024-03-04 Withdrawn due 2024-03-04
next-order 2024-03-04 3 => none
next-order 2024-03-05 0 => 2 ALFA O-2 BETA 60 2024-03-05 Held due 2024-03-05
cutoff 2024-03-01 => CutOffDone
close 2024-03-01 => Closed { rejected: 1 }
next-order 2024-03-01 0 => 4 ALFA O-4 BETA 5 2024-03-01 Rejected
next-order 2024-03-04 0 => 1 ALFA O-1 BETA 100 2024-03-04 Held due 2024-03-04
open 2024-03-05 => Opened
account ALFA => 0 cents, 2 queued
next-order 2024-03-04 0 => 3 ALFA O-3 BETA 7 2024-03-04 Withdrawn due 2024-03-04
next-order 2024-03-04 3 => none
next-order 2024-03-05 0 => 1 ALFA O-1 BETA 100 2024-03-05 Queued due 2024-03-04
next-order 2024-03-05 1 => 2 ALFA O-2 BETA 60 2024-03-05 Queued due 2024-03-05
next-order 2024-03-05 2 => none
";

#[test]
fn an_order_has_its_due_date_until_it_enters(rt: HostRuntime) -> Result<(), Fail> {
    desk_after(rt.alloc(), LATER_DAYS)?;
    Ok(())
}
