//! The longest body, one that is longer, and long ones that are no order.
use super::super::test_desk::TestDesk;
use rtgs_tests_desks::ensure;
use std::alloc::{AllocError, Global};
use std::test::Fail;

/// ALFA's request of an order of 44 bytes, with this many spaces behind it.
pub fn spaced(alloc: Global, spaces: usize) -> Result<String, AllocError> {
    let spaces = " ".repeat(alloc, spaces)?;
    format!(in alloc;
        "ALFA POST /orders {{\"amount\":100,\"reference\":\"A-1\",\"to\":\"BETA\"}}{spaces}"
    )
}

#[test]
fn a_body_has_65536_bytes_at_most(rt: HostRuntime) -> Result<(), Fail> {
    let more = spaced(rt.alloc(), 65537 - 44)?;
    let most = spaced(rt.alloc(), 65536 - 44)?;
    // 18 bytes say the caller, the method and the target
    ensure((most.len(), more.len()) == (18 + 65536, 18 + 65537))?;
    let mut desk = TestDesk::open(rt.alloc())?;
    desk.is_answered(
        more.as_str(),
        r#"413 Content Too Large {"code":63,"name":"BodyTooLong"}"#,
    )?;
    desk.is_answered(
        most.as_str(),
        r#"200 OK {"answer":"queued","number":1,"place":1}"#,
    )
}

const BAD_JSON: &str = r#"400 Bad Request {"code":65,"name":"BadJson"}"#;

// ALFA's order whose body of 40960 bytes begins like this, and then has this part N times, is answered as no
// JSON.
fn is_bad(
    alloc: Global,
    desk: &mut TestDesk,
    begin: &str,
    part: &str,
    count: usize,
) -> Result<(), Fail> {
    let parts = part.repeat(alloc, count)?;
    let asked = format!(in alloc; "ALFA POST /orders {begin}{parts}")?;
    if asked.len() != 18 + 40960 {
        return Err(Fail::from("another length"));
    }
    desk.is_answered(asked.as_str(), BAD_JSON)
}

// A list, a text and an object that do not end.
#[test]
fn a_long_body_may_be_no_json(rt: HostRuntime) -> Result<(), Fail> {
    let mut desk = TestDesk::open(rt.alloc())?;
    is_bad(rt.alloc(), &mut desk, "[", " ", 40959)?;
    is_bad(rt.alloc(), &mut desk, "[0", ",0", 20479)?;
    is_bad(rt.alloc(), &mut desk, "\"", "x", 40959)?;
    is_bad(rt.alloc(), &mut desk, "{\"due\":0", ",\"due\":0", 5119)
}

// ALFA's order with this many keys more.
fn with_keys(alloc: Global, count: u32) -> Result<String, Fail> {
    let mut asked = String::from_str(alloc, "ALFA POST /orders {\"amount\":100")?;
    for number in 0..count {
        let key = format!(in alloc; ",\"k{number:04}\":0")?;
        asked.push_str(key.as_str())?;
    }
    asked.push_str("}")?;
    Ok(asked)
}

#[test]
fn a_long_body_may_have_wrong_fields(rt: HostRuntime) -> Result<(), Fail> {
    let asked = with_keys(rt.alloc(), 4000)?;
    ensure(asked.len() == 18 + 40014)?;
    let mut desk = TestDesk::open(rt.alloc())?;
    desk.is_answered(
        asked.as_str(),
        r#"400 Bad Request {"code":66,"name":"WrongFields"}"#,
    )
}
