//! What inputs ask for, or the faults with which they are answered.
use super::ALFA;
use super::requests::{WrittenRequest, spelled};
use super::test_desk::TestDesk;
use rtgs_tests_desks::Trouble;
use std::alloc::Global;
use std::test::Fail;

/// A desk that has one participant, ALFA.
pub fn alfas_desk(alloc: Global) -> Result<TestDesk, Fail> {
    let mut desk = TestDesk::new(alloc, usize::MAX, Trouble::Lost)?;
    desk.add("ALFA", "Alfa Bank", ALFA)?;
    Ok(desk)
}

// The bytes of a request, which are spelled where the caller is RAW. A GET has no length.
fn input_of(alloc: Global, asked: &str) -> Result<String, Fail> {
    if let Some(text) = asked.strip_prefix("RAW ") {
        return Ok(spelled(alloc, text)?);
    }
    WrittenRequest::read(asked)?.short_input(alloc)
}

/// The request asks for this, in words, or has a fault of this status, number and name.
pub fn is_answered(
    alloc: Global,
    desk: &TestDesk,
    asked: &str,
    expected: &str,
) -> Result<(), Fail> {
    let input = input_of(alloc, asked)?;
    let said = desk.asks(&mut input.as_bytes())?;
    if said.as_str() == expected {
        return Ok(());
    }
    let said = format!(in alloc; "{asked}: {said}, not {expected}")?;
    Err(Fail::from(said))
}

/// Each request asks for what stands behind its arrow, or has that fault. Between two steps is a line without text.
pub fn tells_faults(alloc: Global, script: &str) -> Result<(), Fail> {
    let desk = alfas_desk(alloc)?;
    for step in script.trim().split("\n\n") {
        let (asked, expected) = step.split_once("\n-> ").ok_or("a step without an answer")?;
        is_answered(alloc, &desk, asked, expected)?;
    }
    Ok(())
}
