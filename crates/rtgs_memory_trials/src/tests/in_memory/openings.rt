//! Desks that are opened.
use super::super::scarce::setting::{AUTOMATIC_DAY, DAY};
use super::super::scarce::{InMemory, Opens, for_each_refusal};
use std::test::Fail;

// Tries the opening of a desk in memory after the commands of a script. The test has this name.
fn tries(rt: &HostRuntime, name: &str, before: &str) -> Result<(), Fail> {
    let opens = Opens {
        store: InMemory,
        before,
    };
    let test = format!(in rt.alloc(); "tests::in_memory::openings::{name}")?;
    for_each_refusal(rt, test.as_str(), &opens, 1)
}

#[test]
fn of_a_day(rt: HostRuntime) -> Result<(), Fail> {
    tries(&rt, "of_a_day", DAY)
}

#[test]
fn of_an_automatic_day(rt: HostRuntime) -> Result<(), Fail> {
    tries(&rt, "of_an_automatic_day", AUTOMATIC_DAY)
}
