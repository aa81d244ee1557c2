//! The lengths and the contents that each route of a command refuses, and the dates of a day that ends.
use super::super::requests::WrittenRequest;
use super::super::test_desk::{TestDesk, follows};
use rtgs_tests_desks::ensure;
use std::alloc::Global;
use std::test::Fail;

/// The routes of commands, each with its caller and a good body.
pub const COMMANDS: &str = r#"
ALFA POST /orders {"amount":100,"reference":"A-1","to":"BETA"}

ALFA POST /orders/A-1/withdraw {}

ALFA POST /batches
reference,to,amount
A-1,BETA,100

OPERATOR POST /desk/post {"cents":10,"code":"ALFA","reference":"P-1"}

OPERATOR POST /desk/credit {"code":"ALFA","credit":100}

OPERATOR POST /desk/open {"date":"2024-03-05"}

OPERATOR POST /desk/resolve {}

OPERATOR POST /desk/cutoff {"date":"2024-03-04"}

OPERATOR POST /desk/close {"date":"2024-03-04"}

OPERATOR POST /desk/orders/ALFA/A-1/withdraw {}

OPERATOR POST /desk/batches/ALFA
reference,to,amount
A-1,BETA,100
"#;

// Each route's command, with this line of a length or none, has this answer.
fn each_is_answered(alloc: Global, length: &str, expected: &str) -> Result<(), Fail> {
    let mut desk = TestDesk::open(alloc)?;
    for command in COMMANDS.trim().split("\n\n") {
        let input = WrittenRequest::read(command)?.with_fields(alloc, length)?;
        desk.tells(input.as_str(), expected)?;
    }
    Ok(())
}

#[test]
fn no_length_on_each_route(rt: HostRuntime) -> Result<(), Fail> {
    let expected = r#"411 Length Required {"code":62,"name":"NoLength"}"#;
    each_is_answered(rt.alloc(), "", expected)
}

#[test]
fn too_long_a_body_on_each_route(rt: HostRuntime) -> Result<(), Fail> {
    let expected = r#"413 Content Too Large {"code":63,"name":"BodyTooLong"}"#;
    each_is_answered(rt.alloc(), "Content-Length: 65537\r\n", expected)
}

#[test]
fn a_body_that_ends_early_on_each_route(rt: HostRuntime) -> Result<(), Fail> {
    let expected = r#"400 Bad Request {"code":64,"name":"Truncated"}"#;
    each_is_answered(rt.alloc(), "Content-Length: 1000\r\n", expected)
}

// Each route's command but that of a batch, with this content, has this answer.
fn each_content_is_answered(
    alloc: Global,
    desk: &mut TestDesk,
    content: &str,
    expected: &str,
) -> Result<(), Fail> {
    for command in COMMANDS.trim().split("\n\n") {
        if let Some((route, _)) = command.split_once(" {") {
            let asked = format!(in alloc; "{route} {content}")?;
            desk.is_answered(asked.as_str(), expected)?;
        }
    }
    Ok(())
}

#[test]
fn contents_of_each_route(rt: HostRuntime) -> Result<(), Fail> {
    let bad_json = r#"400 Bad Request {"code":65,"name":"BadJson"}"#;
    let wrong_fields = r#"400 Bad Request {"code":66,"name":"WrongFields"}"#;
    let mut desk = TestDesk::open(rt.alloc())?;
    each_content_is_answered(rt.alloc(), &mut desk, "[", bad_json)?;
    each_content_is_answered(rt.alloc(), &mut desk, r#"{"amount":1e400}"#, bad_json)?;
    each_content_is_answered(rt.alloc(), &mut desk, "[]", wrong_fields)
}

// A list that does not end, on the second line of a body.
#[test]
fn a_content_of_two_lines_on_each_route(rt: HostRuntime) -> Result<(), Fail> {
    let bad_json = r#"400 Bad Request {"code":65,"name":"BadJson"}"#;
    let mut desk = TestDesk::open(rt.alloc())?;
    let mut count = 0usize;
    for command in COMMANDS.trim().split("\n\n") {
        let request = WrittenRequest::read(command)?;
        if !request.target.contains("/batches") {
            let input = request.with_rest(rt.alloc(), "Content-Length: 3\r\n\r\n\n[\n")?;
            desk.tells(input.as_str(), bad_json)?;
            count = count.saturating_add(1);
        }
    }
    ensure(count == 9)
}

const DATES: &str = r#"
OPERATOR POST /desk/cutoff {"date":"2024-03-04"}
-> 200 OK {"answer":"cut off"}

OPERATOR POST /desk/close {"date":"2024-03-05"}
-> 409 Conflict {"code":15,"name":"WrongDate"}

OPERATOR POST /desk/close {"date":"2024-03-04"}
-> 200 OK {"answer":"closed","rejected":0}

ALFA GET /account
-> 200 OK {"balance":0,"code":"ALFA","credit":0,"date":"2024-03-04","name":"Alfa Bank","phase":"CLOSED","queued":0,
"queued_value":0}

OPERATOR POST /desk/cutoff {"date":"2024-03-04"}
-> 409 Conflict {"code":14,"name":"WrongPhase"}
"#;

#[test]
fn dates_of_cut_off_and_close(rt: HostRuntime) -> Result<(), Fail> {
    follows(rt.alloc(), DATES)
}
