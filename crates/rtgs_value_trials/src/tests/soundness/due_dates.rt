//! Books with orders for later days, and the rule that each breaks.
use super::super::script::{lines_of, sides};
use super::judged::{BANKS, are_judged, judged};
use rtgs_tests_desks::{ensure, is};
use std::alloc::Global;
use std::fmt::Write;
use std::test::Fail;

/// The day is Monday.
const HELD: &str = "
order 1 ALFA BETA A-1 5 2024-03-05 held due 2024-03-05 => sound
order 1 ALFA BETA A-1 5 2024-03-05 held due 2024-03-05; closed 2024-03-04 => sound
order 1 ALFA BETA A-1 5 2024-03-05 held due 2024-03-05; closed - => sound
order 1 ALFA BETA A-1 5 2024-03-04 held due 2024-03-04 => 11
order 1 ALFA BETA A-1 5 2024-03-01 held due 2024-03-01 => 11
order 1 ALFA BETA A-1 5 2024-03-06 held due 2024-03-05 => 11
order 1 ALFA BETA A-1 5 2024-03-05 held due 2024-03-06 => 11
order 1 ALFA BETA A-1 5 2024-03-09 held due 2024-03-09 => 11
order 1 ALFA BETA A-1 5 2024-03-05 held => 11
order 1 ALFA BETA A-1 5 2024-03-04 held => 11
";

#[test]
fn a_held_order_is_of_its_due_date_which_is_a_later_weekday(rt: HostRuntime) -> Result<(), Fail> {
    are_judged(rt.alloc(), HELD, 10)
}

/// A queued order of another day breaks a lower rule.
const ENTERED: &str = "
order 1 ALFA BETA A-1 5 2024-03-04 queued due 2024-03-04 => sound
order 1 ALFA BETA A-1 5 2024-03-04 queued due 2024-03-01 => sound
order 1 ALFA BETA A-1 5 2024-03-04 queued due 2024-03-05 => 11
order 1 ALFA BETA A-1 5 2024-03-04 queued due 2024-03-02 => 11
order 1 ALFA BETA A-1 5 2024-03-05 queued due 2024-03-05 => 10
order 1 ALFA BETA A-1 5 2024-03-01 queued due 2024-03-01 => 10
order 1 ALFA BETA A-1 5 2024-03-04 queued due 2024-03-04; closed 2024-03-04 => 10
order 1 ALFA BETA A-1 5 2024-03-04 1 due 2024-03-04; mark 1 2024-03-04 1 5 => sound
order 1 ALFA BETA A-1 5 2024-03-04 1 due 2024-03-01; mark 1 2024-03-04 1 5 => sound
order 1 ALFA BETA A-1 5 2024-03-01 1 due 2024-03-01; mark 1 2024-03-01 1 5 => sound
order 1 ALFA BETA A-1 5 2024-03-01 1 due 2024-03-04; mark 1 2024-03-01 1 5 => 11
order 1 ALFA BETA A-1 5 2024-03-04 1 due 2024-03-02; mark 1 2024-03-04 1 5 => 11
order 1 ALFA BETA A-1 5 2024-03-05 1 due 2024-03-05; mark 1 2024-03-05 1 5 => 11
order 1 ALFA BETA A-1 5 2024-03-01 rejected due 2024-03-01 => sound
order 1 ALFA BETA A-1 5 2024-03-04 rejected due 2024-03-01; closed 2024-03-04 => sound
order 1 ALFA BETA A-1 5 2024-03-01 rejected due 2024-03-04 => 11
order 1 ALFA BETA A-1 5 2024-03-05 rejected due 2024-03-05 => 11
";

#[test]
fn an_order_that_entered_is_of_a_day_from_its_due_date_on(rt: HostRuntime) -> Result<(), Fail> {
    are_judged(rt.alloc(), ENTERED, 17)
}

/// It was taken back while it was held, or once it had entered.
const WITHDRAWN: &str = "
order 1 ALFA BETA A-1 5 2024-03-05 withdrawn due 2024-03-05 => sound
order 1 ALFA BETA A-1 5 2024-03-04 withdrawn due 2024-03-04 => sound
order 1 ALFA BETA A-1 5 2024-03-04 withdrawn due 2024-03-01 => sound
order 1 ALFA BETA A-1 5 2024-03-01 withdrawn due 2024-03-01 => sound
order 1 ALFA BETA A-1 5 2024-03-05 withdrawn due 2024-03-05; closed - => sound
order 1 ALFA BETA A-1 5 2024-03-05 withdrawn due 2024-03-04 => 11
order 1 ALFA BETA A-1 5 2024-03-05 withdrawn due 2024-03-06 => 11
order 1 ALFA BETA A-1 5 2024-03-04 withdrawn due 2024-03-05 => 11
order 1 ALFA BETA A-1 5 2024-03-04 withdrawn due 2024-03-03 => 11
order 1 ALFA BETA A-1 5 2024-03-09 withdrawn due 2024-03-09 => 11
order 1 ALFA BETA A-1 5 2024-03-05 withdrawn => 11
";

#[test]
fn a_withdrawn_order_is_of_its_due_date_or_of_a_day_that_was_opened(
    rt: HostRuntime,
) -> Result<(), Fail> {
    are_judged(rt.alloc(), WITHDRAWN, 11)
}

/// Orders without a due date follow each other by their dates, whatever stands between them.
const BETWEEN: &str = "
order 1 ALFA BETA A-1 5 2024-03-04 queued; order 2 ALFA BETA A-2 5 2024-03-01 rejected due 2024-03-01; \
order 3 ALFA BETA A-3 5 2024-03-04 queued => sound
order 1 ALFA BETA A-1 5 2024-03-01 rejected; order 2 ALFA BETA A-2 5 2024-03-05 held due 2024-03-05; \
order 3 ALFA BETA A-3 5 2024-03-01 rejected => sound
order 1 ALFA BETA A-1 5 2024-03-06 held due 2024-03-06; order 2 ALFA BETA A-2 5 2024-03-05 held due 2024-03-05 => sound
order 1 ALFA BETA A-1 5 2024-03-04 queued; order 2 ALFA BETA A-2 5 2024-03-05 held due 2024-03-05; \
order 3 ALFA BETA A-3 5 2024-03-01 rejected => 11
order 1 ALFA BETA A-1 5 2024-03-04 queued; order 2 ALFA BETA A-2 5 2024-03-01 rejected => 11
order 1 ALFA BETA A-1 5 2024-03-05 withdrawn; order 2 ALFA BETA A-2 5 2024-03-05 withdrawn due 2024-03-05 => 11
order 1 ALFA BETA A-1 5 2024-03-02 rejected due 2024-03-01 => 11
";

#[test]
fn dates_never_fall_along_the_orders_without_a_due_date(rt: HostRuntime) -> Result<(), Fail> {
    are_judged(rt.alloc(), BETWEEN, 7)
}

/// A number of orders of one sender are queued, and then a number held. The other sender has as many as it may.
const FULL: &str = "
0 500 => sound
1 499 => sound
499 1 => sound
500 0 => sound
0 501 => 10
1 500 => 10
500 1 => 10
501 0 => 10
";

// Adds an order, which is queued or held.
fn add(records: &mut String, number: u32, sender: &str, to: &str, held: bool) -> Result<(), Fail> {
    let rest = if held {
        "2024-03-05 held due 2024-03-05"
    } else {
        "2024-03-04 queued"
    };
    write!(
        records,
        "\norder {number} {sender} {to} R-{number} 5 {rest}"
    )?;
    Ok(())
}

// A book in which this many orders of ALFA are queued and this many held, and BETA has 500 that are held.
fn waiting(alloc: Global, queued: u32, held: u32) -> Result<String, Fail> {
    let mut records = String::from_str(alloc, BANKS)?;
    let all = queued.saturating_add(held);
    for number in 1..=all {
        add(&mut records, number, "ALFA", "BETA", number > queued)?;
    }
    for number in 1..=500u32 {
        add(
            &mut records,
            all.saturating_add(number),
            "BETA",
            "ALFA",
            true,
        )?;
    }
    Ok(records)
}

// A line's numbers of orders are judged as the line tells.
fn is_full(alloc: Global, line: &str) -> Result<(), Fail> {
    let (numbers, expected) = sides(line, " => ")?;
    let (queued, held) = sides(numbers, " ")?;
    let records = waiting(alloc, queued.parse::<u32>()?, held.parse::<u32>()?)?;
    is(judged(alloc, records.as_str())?.as_str(), expected)
}

#[test]
fn queued_and_held_orders_of_a_sender_are_500_together(rt: HostRuntime) -> Result<(), Fail> {
    let mut judged = 0usize;
    for line in lines_of(FULL)? {
        is_full(rt.alloc(), line)?;
        judged = judged.saturating_add(1);
    }
    ensure(judged == 8)
}
