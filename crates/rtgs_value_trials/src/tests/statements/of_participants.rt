//! Statements, line by line.
use super::super::setting::{MONDAY, TUESDAY};
use super::statement;
use rtgs_tests_desks::ensure;
use std::test::Fail;

/// An order that is settled, and one that is queued.
const TWO_ORDERS: &str = "
order 1 ALFA BETA A-1 100 2024-03-04 1
order 2 ALFA BETA A-2 1 2024-03-04 queued
";

#[test]
fn one_order_is_sent_and_one_is_queued(rt: HostRuntime) -> Result<(), Fail> {
    let text = statement(rt.alloc(), "ALFA", MONDAY, TWO_ORDERS)?;
    ensure(
        text.as_str()
            == "statement ALFA 2024-03-04
sent       000000001 A-1              BETA                     1.00         1
queued     000000002 A-2              BETA                     0.01         -
sum-posted                           0.00
sum-sent                             1.00
sum-recv                             0.00
net                                 -1.00
",
    )
}

#[test]
fn date_without_rows_has_a_title_and_four_sums(rt: HostRuntime) -> Result<(), Fail> {
    let records = "order 1 ALFA BETA A-1 100 2024-03-04 1";
    let text = statement(rt.alloc(), "ALFA", TUESDAY, records)?;
    ensure(
        text.as_str()
            == "statement ALFA 2024-03-05
sum-posted                           0.00
sum-sent                             0.00
sum-recv                             0.00
net                                  0.00
",
    )
}

/// Postings of Monday, one of another date, and one from before the first day.
const POSTINGS: &str = "
posting 4 ALFA P-4 900 -
posting 1 ALFA P-1 250 2024-03-04
posting 2 BETA P-2 40 2024-03-04
posting 5 ALFA P-5 -5 2024-03-04
posting 3 ALFA P-3 700 2024-03-05
";

#[test]
fn postings_count_to_their_date_with_their_sign(rt: HostRuntime) -> Result<(), Fail> {
    let text = statement(rt.alloc(), "ALFA", MONDAY, POSTINGS)?;
    ensure(
        text.as_str()
            == "statement ALFA 2024-03-04
posting    000000001 P-1              -                        2.50         -
posting    000000005 P-5              -                       -0.05         -
sum-posted                           2.45
sum-sent                             0.00
sum-recv                             0.00
net                                  2.45
",
    )
}

/// Orders of each kind, as BETA sees them, with three that it does not see.
const ORDERS_OF_EACH_KIND: &str = "
order 1 BETA ALFA B-1 300 2024-03-04 1
order 2 BETA GAMA B-2 20 2024-03-04 withdrawn
order 3 GAMA BETA G-3 500 2024-03-04 2
order 4 GAMA BETA G-4 7 2024-03-04 queued
order 5 BETA ALFA B-5 40 2024-03-04 rejected
order 6 BETA ALFA B-6 50 2024-03-04 queued
order 7 ALFA GAMA A-7 60 2024-03-04 3
order 9 BETA ALFA B-9 1 2024-03-05 queued
";

#[test]
fn each_order_is_shown_by_its_kind(rt: HostRuntime) -> Result<(), Fail> {
    let text = statement(rt.alloc(), "BETA", MONDAY, ORDERS_OF_EACH_KIND)?;
    ensure(
        text.as_str()
            == "statement BETA 2024-03-04
sent       000000001 B-1              ALFA                     3.00         1
withdrawn  000000002 B-2              GAMA                     0.20         -
received   000000003 G-3              GAMA                     5.00         2
rejected   000000005 B-5              ALFA                     0.40         -
queued     000000006 B-6              ALFA                     0.50         -
sum-posted                           0.00
sum-sent                             3.00
sum-recv                             5.00
net                                  2.00
",
    )
}

/// Orders with due dates: two are held until Tuesday, one of them to ALFA, and one was taken back before it. One that
/// was due on Friday entered on Monday, and one that was due on Monday has settled.
const DUE: &str = "
order 1 ALFA BETA A-1 60 2024-03-05 held due 2024-03-05
order 2 BETA ALFA B-2 400 2024-03-05 held due 2024-03-05
order 3 ALFA GAMA A-3 7 2024-03-05 withdrawn due 2024-03-05
order 4 ALFA BETA A-4 80 2024-03-04 queued due 2024-03-01
order 5 BETA ALFA B-5 10 2024-03-04 1 due 2024-03-04
order 6 ALFA BETA A-6 1 2024-03-06 held due 2024-03-06
";

#[test]
fn an_order_is_held_on_its_due_date_and_counts_nothing(rt: HostRuntime) -> Result<(), Fail> {
    let text = statement(rt.alloc(), "ALFA", TUESDAY, DUE)?;
    ensure(
        text.as_str()
            == "statement ALFA 2024-03-05
held       000000001 A-1              BETA                     0.60         -
withdrawn  000000003 A-3              GAMA                     0.07         -
sum-posted                           0.00
sum-sent                             0.00
sum-recv                             0.00
net                                  0.00
",
    )
}

#[test]
fn an_order_that_entered_is_shown_on_that_day(rt: HostRuntime) -> Result<(), Fail> {
    let text = statement(rt.alloc(), "ALFA", MONDAY, DUE)?;
    ensure(
        text.as_str()
            == "statement ALFA 2024-03-04
queued     000000004 A-4              BETA                     0.80         -
received   000000005 B-5              BETA                     0.10         1
sum-posted                           0.00
sum-sent                             0.00
sum-recv                             0.10
net                                  0.10
",
    )
}

/// The largest postings and the largest order, with the longest codes and references.
const LARGEST: &str = "
posting 999999998 ALFA1234 ABCDEFGHIJKLMNOP 1000000000000000 2024-03-04
posting 999999999 ALFA1234 ABCDEFGHIJKLMNO- -1000000000000000 2024-03-04
order 999999999 ALFA1234 BETA5678 0123456789ABCDEF 1000000000000 2024-03-04 999999999
";

#[test]
fn largest_amounts_fit_their_columns(rt: HostRuntime) -> Result<(), Fail> {
    let text = statement(rt.alloc(), "ALFA1234", MONDAY, LARGEST)?;
    ensure(
        text.as_str()
            == "statement ALFA1234 2024-03-04
posting    999999998 ABCDEFGHIJKLMNOP -           10000000000000.00         -
posting    999999999 ABCDEFGHIJKLMNO- -          -10000000000000.00         -
sent       999999999 0123456789ABCDEF BETA5678       10000000000.00 999999999
sum-posted                           0.00
sum-sent                   10000000000.00
sum-recv                             0.00
net                       -10000000000.00
",
    )?;
    for line in text.lines().skip(1) {
        ensure(line.len() == 77 || line.len() == 41)?;
    }
    Ok(())
}
