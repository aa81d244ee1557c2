//! Commands of an automatic day that free no order. The resolver is not asked after them, and the ledger is not copied:
//! so they ask for no more memory than on a plain day.
use super::super::scarce::{InMemory, Submits, Worked, for_no_more_requests};
use std::alloc::Global;
use std::test::Fail;

/// What comes first on a day, which is automatic or not: ALFA has 10 cents, and two orders of it wait.
const TWO_WAIT: &str = "\
post ALFA P-1 10
order ALFA A-1 BETA 60
order ALFA A-2 GAMA 10
";

// The script of a day that is opened so, with these lines behind what comes first.
fn script(alloc: Global, opening: &str, lines: &str) -> Result<String, Fail> {
    Ok(format!(in alloc; "{opening}\n{TWO_WAIT}{lines}")?)
}

// The command of a script, submitted to a desk in memory.
fn submits(script: &str) -> Submits<'_, InMemory> {
    Submits {
        store: InMemory,
        worked: Worked::of(script),
    }
}

// Tries a command behind these lines on a plain day, and on an automatic one. The test has this name.
fn tries(rt: &HostRuntime, name: &str, lines: &str) -> Result<(), Fail> {
    let plain = script(rt.alloc(), "open 2024-03-04", lines)?;
    let automatic = script(rt.alloc(), "open 2024-03-04 automatic", lines)?;
    let test = format!(in rt.alloc(); "tests::in_memory::freeing_none::{name}")?;
    let first = submits(plain.as_str());
    let second = submits(automatic.as_str());
    for_no_more_requests(rt, test.as_str(), &first, &second)
}

// It settles between two banks of which no order waits.
#[test]
fn order_between_others(rt: HostRuntime) -> Result<(), Fail> {
    let lines = "post GAMA P-2 5\norder GAMA G-1 BETA 5 => Ok(Settled { number: 3, mark: 1 })";
    tries(&rt, "order_between_others", lines)
}

// It waits behind two, and its sender could not pay it whatever came in.
#[test]
fn order_behind_two(rt: HostRuntime) -> Result<(), Fail> {
    tries(
        &rt,
        "order_behind_two",
        "order ALFA A-3 BETA 7 => Ok(Queued { number: 3, place: 3 })",
    )
}

// No order of the bank waits.
#[test]
fn post_to_another(rt: HostRuntime) -> Result<(), Fail> {
    tries(
        &rt,
        "post_to_another",
        "post BETA P-2 50 => Ok(Posted { number: 2 })",
    )
}

// It does not cover the first of two orders.
#[test]
fn post_that_covers_none(rt: HostRuntime) -> Result<(), Fail> {
    tries(
        &rt,
        "post_that_covers_none",
        "post ALFA P-2 1 => Ok(Posted { number: 2 })",
    )
}

// No order of the bank waits.
#[test]
fn set_credit_of_another(rt: HostRuntime) -> Result<(), Fail> {
    tries(
        &rt,
        "set_credit_of_another",
        "credit BETA 50 => Ok(CreditSet)",
    )
}

// It is the last of its queue.
#[test]
fn withdraw_the_last(rt: HostRuntime) -> Result<(), Fail> {
    tries(
        &rt,
        "withdraw_the_last",
        "withdraw ALFA A-2 => Ok(Withdrawn { number: 2 })",
    )
}
