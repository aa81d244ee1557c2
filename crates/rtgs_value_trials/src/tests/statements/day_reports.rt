//! Day reports, line by line.
use super::super::books::book_of;
use super::super::setting::{MONDAY, TUESDAY};
use super::report;
use rtgs_tests_desks::ensure;
use std::test::Fail;

/// Five queued orders, of which a resolution settled two. The resolution has a mark, and there is one of the next day.
const CASCADE: &str = "
participant ALFA
participant BETA
participant GAMA
posting 1 ALFA P-1 10 2024-03-04
order 1 ALFA BETA A-1 60 2024-03-04 1
order 2 ALFA GAMA A-2 10 2024-03-04 queued
order 3 BETA ALFA B-1 50 2024-03-04 1
order 4 BETA GAMA B-2 20 2024-03-04 queued
order 5 GAMA ALFA G-1 5 2024-03-04 queued
mark 1 2024-03-04 2 110
mark 2 2024-03-05 1 1
";

/// Orders of which one is withdrawn and two are rejected, and the largest posting below zero.
const UNSETTLED: &str = "
participant ALFA
participant BETA
participant GAMA
posting 1 GAMA P-1 -1000000000000000 2024-03-04
order 1 ALFA BETA A-1 60 2024-03-04 withdrawn
order 2 BETA GAMA B-1 15 2024-03-04 rejected
order 3 BETA GAMA B-2 5 2024-03-04 rejected
";

#[test]
fn resolution_is_reported(rt: HostRuntime) -> Result<(), Fail> {
    let text = report(rt.alloc(), MONDAY, book_of(rt.alloc(), CASCADE)?)?;
    ensure(
        text.as_str()
            == "report 2024-03-04
ALFA                               0.10                           0.60                           0.50
BETA                               0.00                           0.50                           0.60
GAMA                               0.00                           0.00                           0.00
settled            2                           1.10
queued             3                           0.35
held               0                           0.00
withdrawn          0                           0.00
rejected           0                           0.00
marks              1
",
    )
}

#[test]
fn other_dates_are_left_out(rt: HostRuntime) -> Result<(), Fail> {
    let text = report(rt.alloc(), TUESDAY, book_of(rt.alloc(), CASCADE)?)?;
    ensure(
        text.as_str()
            == "report 2024-03-05
ALFA                               0.00                           0.00                           0.00
BETA                               0.00                           0.00                           0.00
GAMA                               0.00                           0.00                           0.00
settled            0                           0.00
queued             0                           0.00
held               0                           0.00
withdrawn          0                           0.00
rejected           0                           0.00
marks              1
",
    )
}

#[test]
fn unsettled_orders_are_counted_by_where_they_stand(rt: HostRuntime) -> Result<(), Fail> {
    let text = report(rt.alloc(), MONDAY, book_of(rt.alloc(), UNSETTLED)?)?;
    ensure(
        text.as_str()
            == "report 2024-03-04
ALFA                               0.00                           0.00                           0.00
BETA                               0.00                           0.00                           0.00
GAMA                 -10000000000000.00                           0.00                           0.00
settled            0                           0.00
queued             0                           0.00
held               0                           0.00
withdrawn          1                           0.60
rejected           2                           0.20
marks              0
",
    )
}

/// Orders with due dates: one is held until Tuesday and one was taken back before it, one that was held until Monday is
/// queued and one has settled, one was due on Friday and entered on Monday, and one is held until Wednesday.
const DUE: &str = "
participant ALFA
participant BETA
order 1 ALFA BETA A-1 60 2024-03-05 held due 2024-03-05
order 2 ALFA BETA A-2 7 2024-03-05 withdrawn due 2024-03-05
order 3 ALFA BETA A-3 80 2024-03-04 queued due 2024-03-04
order 4 ALFA BETA A-4 10 2024-03-04 1 due 2024-03-04
order 5 BETA ALFA B-5 9 2024-03-04 queued due 2024-03-01
order 6 BETA ALFA B-6 5 2024-03-06 held due 2024-03-06
order 7 BETA ALFA B-7 400 2024-03-05 held due 2024-03-05
mark 1 2024-03-04 1 10
";

#[test]
fn held_orders_are_reported_on_their_due_dates(rt: HostRuntime) -> Result<(), Fail> {
    let text = report(rt.alloc(), TUESDAY, book_of(rt.alloc(), DUE)?)?;
    ensure(
        text.as_str()
            == "report 2024-03-05
ALFA                               0.00                           0.00                           0.00
BETA                               0.00                           0.00                           0.00
settled            0                           0.00
queued             0                           0.00
held               2                           4.60
withdrawn          1                           0.07
rejected           0                           0.00
marks              0
",
    )
}

#[test]
fn orders_that_entered_are_reported_on_the_day_they_did(rt: HostRuntime) -> Result<(), Fail> {
    let text = report(rt.alloc(), MONDAY, book_of(rt.alloc(), DUE)?)?;
    ensure(
        text.as_str()
            == "report 2024-03-04
ALFA                               0.00                           0.10                           0.00
BETA                               0.00                           0.00                           0.10
settled            1                           0.10
queued             2                           0.89
held               0                           0.00
withdrawn          0                           0.00
rejected           0                           0.00
marks              1
",
    )
}

#[test]
fn a_hundred_participants_have_a_line_each(rt: HostRuntime) -> Result<(), Fail> {
    let mut records = String::new(rt.alloc());
    for number in 100..200u32 {
        records.push_str(format!(in rt.alloc(); "participant B{number}\n")?.as_str())?;
    }
    records.push_str("order 1 B100 B199 A-1 1000000000000 2024-03-04 1")?;
    let text = report(rt.alloc(), MONDAY, book_of(rt.alloc(), records.as_str())?)?;
    ensure(text.as_str().lines().count() == 107)?;
    ensure(
        text.as_str().contains(
            "\nB100                               0.00                 10000000000.00                           0.00\n",
        ),
    )?;
    ensure(
        text.as_str().contains(
            "\nB199                               0.00                           0.00                 10000000000.00\n",
        ),
    )
}
