//! The heads that each route refuses, whatever its body.
use super::super::requests::WrittenRequest;
use super::super::test_desk::TestDesk;
use super::steps::COMMANDS;
use super::troubles::READINGS;
use std::alloc::Global;
use std::test::Fail;

const BAD_HEAD: &str = r#"400 Bad Request {"code":60,"name":"BadHead"}"#;

// The line and the key of each of these requests, with this end of a head behind them, have this answer.
fn each_end_is_answered(
    alloc: Global,
    desk: &mut TestDesk,
    requests: &str,
    end: &str,
    expected: &str,
) -> Result<(), Fail> {
    for request in requests.trim().split("\n\n") {
        let input = WrittenRequest::read(request)?.with_rest(alloc, end)?;
        desk.tells(input.as_str(), expected)?;
    }
    Ok(())
}

// Each route's head with this end has this answer.
fn each_is_answered(alloc: Global, end: &str, expected: &str) -> Result<(), Fail> {
    let mut desk = TestDesk::open(alloc)?;
    each_end_is_answered(alloc, &mut desk, COMMANDS, end, expected)?;
    each_end_is_answered(alloc, &mut desk, READINGS, end, expected)
}

#[test]
fn transfer_encodings_on_each_route(rt: HostRuntime) -> Result<(), Fail> {
    let end = "Transfer-Encoding: chunked\r\n\r\n0\r\n\r\n";
    each_is_answered(rt.alloc(), end, BAD_HEAD)
}

#[test]
fn two_lengths_on_each_route(rt: HostRuntime) -> Result<(), Fail> {
    let end = "Content-Length: 0\r\nContent-Length: 0\r\n\r\n";
    each_is_answered(rt.alloc(), end, BAD_HEAD)
}

#[test]
fn a_head_that_ends_early_on_each_route(rt: HostRuntime) -> Result<(), Fail> {
    let expected = r#"400 Bad Request {"code":64,"name":"Truncated"}"#;
    each_is_answered(rt.alloc(), "Content-Length: 0\r\n", expected)
}

#[test]
fn too_long_a_head_on_each_route(rt: HostRuntime) -> Result<(), Fail> {
    let alloc = rt.alloc();
    let end = format!(in alloc; "X: {}\r\n\r\n", "x".repeat(alloc, 8192)?)?;
    let expected = r#"413 Content Too Large {"code":61,"name":"HeadTooLong"}"#;
    each_is_answered(alloc, end.as_str(), expected)
}
