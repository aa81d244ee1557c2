//! Readings.
use super::super::scarce::setting::{ALFAS_KEY, MONDAY, code, date, reference};
use super::super::scarce::{Asks, InMemory, Question, for_each_refusal, for_no_request};
use rtgs_book::Reading;
use rtgs_money::Key;
use std::test::Fail;

// Tries a reading of a desk in memory. The name is that of the test.
fn tries(rt: &HostRuntime, name: &str, reading: Reading) -> Result<(), Fail> {
    let asks = Asks {
        store: InMemory,
        question: Question::Reading(reading),
    };
    for_each_refusal(rt, name, &asks, 1)
}

#[test]
fn account(rt: HostRuntime) -> Result<(), Fail> {
    let reading = Reading::Account {
        code: code("ALFA")?,
    };
    tries(&rt, "tests::in_memory::readings::account", reading)
}

#[test]
fn accounts(rt: HostRuntime) -> Result<(), Fail> {
    tries(
        &rt,
        "tests::in_memory::readings::accounts",
        Reading::Accounts,
    )
}

#[test]
fn queue_of(rt: HostRuntime) -> Result<(), Fail> {
    let reading = Reading::Queue {
        code: code("ALFA")?,
    };
    tries(&rt, "tests::in_memory::readings::queue_of", reading)
}

#[test]
fn held_of(rt: HostRuntime) -> Result<(), Fail> {
    let reading = Reading::Held {
        code: code("ALFA")?,
    };
    tries(&rt, "tests::in_memory::readings::held_of", reading)
}

#[test]
fn waiting_of(rt: HostRuntime) -> Result<(), Fail> {
    let reading = Reading::Waiting {
        code: code("ALFA")?,
    };
    tries(&rt, "tests::in_memory::readings::waiting_of", reading)
}

#[test]
fn status(rt: HostRuntime) -> Result<(), Fail> {
    let asks = Asks {
        store: InMemory,
        question: Question::Reading(Reading::Status),
    };
    for_no_request(&rt, "tests::in_memory::readings::status", &asks)
}

#[test]
fn order_of(rt: HostRuntime) -> Result<(), Fail> {
    let reading = Reading::Order {
        sender: code("ALFA")?,
        reference: reference("A-2")?,
    };
    let asks = Asks {
        store: InMemory,
        question: Question::Reading(reading),
    };
    for_no_request(&rt, "tests::in_memory::readings::order_of", &asks)
}

#[test]
fn statement(rt: HostRuntime) -> Result<(), Fail> {
    let reading = Reading::Statement {
        code: code("ALFA")?,
        date: date(MONDAY)?,
    };
    tries(&rt, "tests::in_memory::readings::statement", reading)
}

#[test]
fn report(rt: HostRuntime) -> Result<(), Fail> {
    let reading = Reading::Report {
        date: date(MONDAY)?,
    };
    tries(&rt, "tests::in_memory::readings::report", reading)
}

#[test]
fn code_of(rt: HostRuntime) -> Result<(), Fail> {
    let asks = Asks {
        store: InMemory,
        question: Question::CodeOf(Key::read(ALFAS_KEY.as_bytes())?.digest()),
    };
    for_no_request(&rt, "tests::in_memory::readings::code_of", &asks)
}
