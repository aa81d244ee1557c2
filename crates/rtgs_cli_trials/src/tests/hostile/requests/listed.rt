//! Hostile inputs one by one, and the number with which each is answered.
use super::serving::{before, serve};
use std::alloc::Global;
use std::test::Fail;

// Inputs, each below the number with which it is answered. Each line but the last of one ends as lines of a head do.
const HEADS: &str = r#"60
POST /orders HTTP/1.0
desk-key: 0000000000000000000000000000000a
Content-Length: 44

{"amount":100,"reference":"A-9","to":"BETA"}
= 60
POST /orders HTTP/1.1
desk-key: 0000000000000000000000000000000a
Content-Length: 44
Transfer-Encoding: identity

{"amount":100,"reference":"A-9","to":"BETA"}
= 60
POST /orders HTTP/1.1
desk-key: 0000000000000000000000000000000a
Content-Length: 44
Content-Length: 44

{"amount":100,"reference":"A-9","to":"BETA"}
= 60
POST /orders HTTP/1.1
desk-key: 0000000000000000000000000000000a
Content-Length: +5


= 60
GET /account HTTP/1.1
desk-key: 0000000000000000000000000000000a
Content-Length: 1


= 67
DELETE /orders HTTP/1.1
desk-key: 0000000000000000000000000000000a


= 68
POST /orders HTTP/1.1
desk-key: 0000000000000000000000000000000a
Content-Length: 44
desk-key: 0000000000000000000000000000000a

{"amount":100,"reference":"A-9","to":"BETA"}
= 63
POST /orders HTTP/1.1
desk-key: 0000000000000000000000000000000a
Content-Length: 65537

"#;

// The input is refused by this number.
fn is_refused(alloc: Global, before: &str, input: &str, number: &str) -> Result<(), Fail> {
    let word = serve(alloc, before, input.as_bytes())?;
    if word == number {
        return Ok(());
    }
    Err(Fail::new(format_args!("{input} is answered {word}, not {number}")))
}

// The input below a number is refused by it.
fn case_is_refused(alloc: Global, before: &str, case: &str) -> Result<(), Fail> {
    let (number, lines) = case.split_once('\n').unwrap_or((case, ""));
    let input = lines.replace(alloc, "\n", "\r\n")?;
    is_refused(alloc, before, input.as_str(), number)
}

// Each input is refused by the number above it.
fn are_refused(alloc: Global, before: &str, cases: &str) -> Result<(), Fail> {
    for case in cases.split("\n= ") {
        case_is_refused(alloc, before, case)?;
    }
    Ok(())
}

// This many of one letter, and no end, are refused by this number.
fn letters_are_refused(
    alloc: Global,
    before: &str,
    length: usize,
    number: &str,
) -> Result<(), Fail> {
    let input = "A".repeat(alloc, length)?;
    is_refused(alloc, before, input.as_str(), number)
}

// Heads that have no end.
fn endless_heads_are_refused(alloc: Global, before: &str) -> Result<(), Fail> {
    letters_are_refused(alloc, before, 0, "64")?;
    letters_are_refused(alloc, before, 8191, "64")?;
    letters_are_refused(alloc, before, 8192, "61")
}

#[test]
fn heads_that_are_refused(rt: HostRuntime) -> Result<(), Fail> {
    let before = before(rt.alloc())?;
    endless_heads_are_refused(rt.alloc(), before.as_str())?;
    are_refused(rt.alloc(), before.as_str(), HEADS)
}

// Requests of ALFA and of the operator, each below the number with which it is answered.
const BODIES: &str = r#"65
POST /orders HTTP/1.1
desk-key: 0000000000000000000000000000000a
Content-Length: 1

[
= 66
POST /orders HTTP/1.1
desk-key: 0000000000000000000000000000000a
Content-Length: 43

{"amount":-5,"reference":"A-9","to":"BETA"}
= 66
POST /orders HTTP/1.1
desk-key: 0000000000000000000000000000000a
Content-Length: 44

{"amount":1e2,"reference":"A-9","to":"BETA"}
= 66
POST /orders HTTP/1.1
desk-key: 0000000000000000000000000000000a
Content-Length: 50

{"amount":100,"reference":"A-9","to":"BETA","x":1}
= 66
POST /desk/open HTTP/1.1
desk-key: 0000000000000000000000000000000f
Content-Length: 35

{"automatic":1,"date":"2024-03-04"}
= 14
POST /desk/open HTTP/1.1
desk-key: 0000000000000000000000000000000f
Content-Length: 39

{"automatic":false,"date":"2024-03-04"}
= 32
POST /orders HTTP/1.1
desk-key: 0000000000000000000000000000000a
Content-Length: 42

{"amount":0,"reference":"A-9","to":"BETA"}
= 31
GET /orders/a-1 HTTP/1.1
desk-key: 0000000000000000000000000000000a
Content-Length: 0

"#;

#[test]
fn bodies_and_targets_that_are_refused(rt: HostRuntime) -> Result<(), Fail> {
    let before = before(rt.alloc())?;
    are_refused(rt.alloc(), before.as_str(), BODIES)
}
