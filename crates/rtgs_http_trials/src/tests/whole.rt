//! A whole request, cut anywhere.
use super::GOOD;
use super::drip::Drip;
use super::faults::alfas_desk;
use super::test_desk::TestDesk;
use std::io::Read;
use std::test::Fail;

// What ALFA's good order asks for.
const ORDER: &str = "order ALFA A-1 BETA 100";

// A reader's input has this answer.
fn is_answered<R: Read>(desk: &TestDesk, reader: &mut R, expected: &str) -> Result<(), Fail> {
    let said = desk.asks(reader)?;
    if said.as_str() == expected {
        return Ok(());
    }
    Err(Fail::from(said))
}

#[test]
fn a_request_is_the_same_wherever_it_is_cut(rt: HostRuntime) -> Result<(), Fail> {
    let desk = alfas_desk(rt.alloc())?;
    for cut in 0..=GOOD.len() {
        let (first, second) = GOOD.as_bytes().split_at_checked(cut).ok_or("no cut")?;
        is_answered(&desk, &mut first.chain(second), ORDER)?;
    }
    Ok(())
}

#[test]
fn single_bytes_make_the_same_request(rt: HostRuntime) -> Result<(), Fail> {
    let desk = alfas_desk(rt.alloc())?;
    is_answered(&desk, &mut Drip::new(GOOD.as_bytes()), ORDER)
}

#[test]
fn each_beginning_of_a_request_is_truncated(rt: HostRuntime) -> Result<(), Fail> {
    let desk = alfas_desk(rt.alloc())?;
    for cut in 0..GOOD.len() {
        let (mut first, _) = GOOD.as_bytes().split_at_checked(cut).ok_or("no cut")?;
        is_answered(&desk, &mut first, "400 64 Truncated")?;
    }
    Ok(())
}
