//! Readings over tables: those that look into them, and that of all accounts, which asks for memory alone.
use super::super::scarce::setting::{MONDAY, TUESDAY, code, date, reference};
use super::super::scarce::{Asks, Question, for_each_refusal};
use super::over_sql::{BLOCKS, OverSql};
use rtgs_book::Reading;
use std::test::Fail;

// Tries a reading of a desk over tables. The name is that of the test.
fn tries(rt: &HostRuntime, name: &str, reading: Reading) -> Result<(), Fail> {
    let asks = Asks {
        store: OverSql,
        question: Question::Reading(reading),
    };
    for_each_refusal(rt, name, &asks, BLOCKS)
}

#[test]
fn accounts(rt: HostRuntime) -> Result<(), Fail> {
    tries(
        &rt,
        "tests::over_tables::readings::accounts",
        Reading::Accounts,
    )
}

#[test]
fn order_of(rt: HostRuntime) -> Result<(), Fail> {
    let reading = Reading::Order {
        sender: code("ALFA")?,
        reference: reference("A-2")?,
    };
    tries(&rt, "tests::over_tables::readings::order_of", reading)
}

#[test]
fn statement(rt: HostRuntime) -> Result<(), Fail> {
    let reading = Reading::Statement {
        code: code("ALFA")?,
        date: date(MONDAY)?,
    };
    tries(&rt, "tests::over_tables::readings::statement", reading)
}

#[test]
fn report(rt: HostRuntime) -> Result<(), Fail> {
    let reading = Reading::Report {
        date: date(MONDAY)?,
    };
    tries(&rt, "tests::over_tables::readings::report", reading)
}

// Of a day after all records, which are passed over: of postings and marks by halvings, and of orders by leaps.
#[test]
fn statement_of_a_later_day(rt: HostRuntime) -> Result<(), Fail> {
    let reading = Reading::Statement {
        code: code("ALFA")?,
        date: date(TUESDAY)?,
    };
    tries(
        &rt,
        "tests::over_tables::readings::statement_of_a_later_day",
        reading,
    )
}

#[test]
fn report_of_a_later_day(rt: HostRuntime) -> Result<(), Fail> {
    let reading = Reading::Report {
        date: date(TUESDAY)?,
    };
    tries(
        &rt,
        "tests::over_tables::readings::report_of_a_later_day",
        reading,
    )
}
