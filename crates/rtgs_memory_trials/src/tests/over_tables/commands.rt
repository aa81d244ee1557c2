//! Commands of every kind.
use super::super::scarce::{Submits, Worked, for_each_refusal};
use super::over_sql::{BLOCKS, OverSql};
use std::test::Fail;

// Tries the command of this name to a desk over tables. So is the test called.
fn tries(rt: &HostRuntime, name: &str) -> Result<(), Fail> {
    let call = Submits {
        store: OverSql,
        worked: Worked::named(name)?,
    };
    let test = format!(in rt.alloc(); "tests::over_tables::commands::{name}")?;
    for_each_refusal(rt, test.as_str(), &call, BLOCKS)
}

#[test]
fn add(rt: HostRuntime) -> Result<(), Fail> {
    tries(&rt, "add")
}

#[test]
fn set_credit(rt: HostRuntime) -> Result<(), Fail> {
    tries(&rt, "set_credit")
}

#[test]
fn post(rt: HostRuntime) -> Result<(), Fail> {
    tries(&rt, "post")
}

#[test]
fn open_day(rt: HostRuntime) -> Result<(), Fail> {
    tries(&rt, "open_day")
}

#[test]
fn order_that_settles(rt: HostRuntime) -> Result<(), Fail> {
    tries(&rt, "order_that_settles")
}

#[test]
fn order_that_waits(rt: HostRuntime) -> Result<(), Fail> {
    tries(&rt, "order_that_waits")
}

#[test]
fn order_that_is_held(rt: HostRuntime) -> Result<(), Fail> {
    tries(&rt, "order_that_is_held")
}

#[test]
fn open_day_that_lets_in(rt: HostRuntime) -> Result<(), Fail> {
    tries(&rt, "open_day_that_lets_in")
}

#[test]
fn withdraw(rt: HostRuntime) -> Result<(), Fail> {
    tries(&rt, "withdraw")
}

#[test]
fn resolve(rt: HostRuntime) -> Result<(), Fail> {
    tries(&rt, "resolve")
}

#[test]
fn cut_off(rt: HostRuntime) -> Result<(), Fail> {
    tries(&rt, "cut_off")
}

#[test]
fn close_day(rt: HostRuntime) -> Result<(), Fail> {
    tries(&rt, "close_day")
}

#[test]
fn order_that_frees(rt: HostRuntime) -> Result<(), Fail> {
    tries(&rt, "order_that_frees")
}

#[test]
fn order_that_settles_and_frees(rt: HostRuntime) -> Result<(), Fail> {
    tries(&rt, "order_that_settles_and_frees")
}

#[test]
fn post_that_frees(rt: HostRuntime) -> Result<(), Fail> {
    tries(&rt, "post_that_frees")
}

#[test]
fn set_credit_that_frees(rt: HostRuntime) -> Result<(), Fail> {
    tries(&rt, "set_credit_that_frees")
}

#[test]
fn withdraw_that_frees(rt: HostRuntime) -> Result<(), Fail> {
    tries(&rt, "withdraw_that_frees")
}

#[test]
fn open_day_that_frees(rt: HostRuntime) -> Result<(), Fail> {
    tries(&rt, "open_day_that_frees")
}
