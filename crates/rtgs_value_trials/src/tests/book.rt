//! Values from outside: rows, the numbers of rules, and those of refusals.
use super::refusals::row_of;
use super::setting::code;
use rtgs_book::{Fault, Refusal, Rows, Rule};
use rtgs_soundness::RULES_OF_A_BOOK;
use rtgs_tests_desks::{ensure, is};
use std::alloc::Global;
use std::test::Fail;

// Whether rows have no number.
fn is_none(rows: &Rows<u8>) -> bool {
    rows.len() == 0 && rows.is_empty()
}

// Whether rows have these three numbers.
fn is_list(rows: &Rows<u8>, numbers: [u8; 3]) -> bool {
    rows.len() == 3 && !rows.is_empty() && rows.as_slice() == numbers.as_slice()
}

#[test]
fn rows_are_lists(rt: HostRuntime) -> Result<(), Fail> {
    ensure(is_none(&Rows::new(rt.alloc())))?;
    let rows = Rows::from_vec(Vec::from_slice(rt.alloc(), &[2, 3, 5])?);
    ensure(is_list(&rows, [2, 3, 5]))?;
    ensure(rows.into_vec().as_slice() == [2, 3, 5].as_slice())
}

// The rules about a book are tested in the order of their numbers, among which those of the two others are missing.
#[test]
fn rules_are_numbered(_rt: HostRuntime) -> Result<(), Fail> {
    let mut number = 0u8;
    for rule in RULES_OF_A_BOOK {
        number = number.saturating_add(if number == 13 { 2 } else { 1 });
        ensure(rule.number() == number)?;
    }
    ensure(number == 15)?;
    ensure(Rule::StoredBalances.number() == 14 && Rule::Calm.number() == 16)
}

// What a refusal is known by.
fn is_known_by(alloc: Global, refusal: Refusal, known: &str) -> Result<(), Fail> {
    is(row_of(alloc, refusal.kind())?.as_str(), known)
}

// The refusals of a participant and of an order that are not there, and of a close.
fn refusals_of_commands(alloc: Global) -> Result<(), Fail> {
    let unknown = "UnknownParticipant = 1 UnknownParticipant Some(404) Some(1)";
    is_known_by(alloc, Refusal::UnknownParticipant, unknown)?;
    let unknown = "UnknownOrder = 9 UnknownOrder Some(404) Some(1)";
    is_known_by(alloc, Refusal::UnknownOrder, unknown)?;
    let (first, count) = (code("ALFA")?, 1);
    let overdrawn = "Overdrawn = 19 Overdrawn Some(409) Some(1)";
    is_known_by(alloc, Refusal::Overdrawn { first, count }, overdrawn)
}

// The refusals of a desk that cannot go on.
fn refusals_of_desks(alloc: Global) -> Result<(), Fail> {
    let full = "OutOfMemory = 90 OutOfMemory Some(503) Some(3)";
    is_known_by(alloc, Refusal::OutOfMemory, full)?;
    let failed = "Failed = 92 Failed Some(503) Some(3)";
    is_known_by(alloc, Refusal::Failed, failed)
}

#[test]
fn refusals_are_numbered(rt: HostRuntime) -> Result<(), Fail> {
    refusals_of_commands(rt.alloc())?;
    refusals_of_desks(rt.alloc())?;
    let rule = Rule::StoredBalances;
    let fault = row_of(rt.alloc(), Fault::Inconsistent { rule }.kind())?;
    is(
        fault.as_str(),
        "Inconsistent = 94 Inconsistent None Some(3)",
    )
}
