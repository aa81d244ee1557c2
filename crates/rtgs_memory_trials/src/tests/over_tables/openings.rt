//! Desks that are opened.
use super::super::scarce::setting::{AUTOMATIC_DAY, DAY};
use super::super::scarce::{Opens, for_each_refusal};
use super::over_sql::{BLOCKS, OverSql};
use std::test::Fail;

// Tries the opening of a desk over tables after the commands of a script. The test has this name.
fn tries(rt: &HostRuntime, name: &str, before: &str) -> Result<(), Fail> {
    let opens = Opens {
        store: OverSql,
        before,
    };
    let test = format!(in rt.alloc(); "tests::over_tables::openings::{name}")?;
    for_each_refusal(rt, test.as_str(), &opens, BLOCKS)
}

#[test]
fn of_a_day(rt: HostRuntime) -> Result<(), Fail> {
    tries(&rt, "of_a_day", DAY)
}

#[test]
fn of_an_automatic_day(rt: HostRuntime) -> Result<(), Fail> {
    tries(&rt, "of_an_automatic_day", AUTOMATIC_DAY)
}
