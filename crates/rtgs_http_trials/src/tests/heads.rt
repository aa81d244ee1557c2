//! Heads that are served, and heads that are not.
use super::faults::{alfas_desk, tells_faults};
use std::alloc::{AllocError, Global};
use std::test::Fail;

const ACCOUNT: &str = "read account ALFA";

// The input has this answer of ALFA's desk.
fn is_answered(alloc: Global, input: &str, expected: &str) -> Result<(), Fail> {
    let said = alfas_desk(alloc)?.asks(&mut input.as_bytes())?;
    if said.as_str() == expected {
        return Ok(());
    }
    let length = input.len();
    Err(Fail::from(format!(in alloc; "{length} bytes are answered {said}, not {expected}")?))
}

#[test]
fn regions_that_do_not_end(rt: HostRuntime) -> Result<(), Fail> {
    let most = "A".repeat(rt.alloc(), 8191)?;
    let more = "A".repeat(rt.alloc(), 8192)?;
    is_answered(rt.alloc(), "", "400 64 Truncated")?;
    is_answered(rt.alloc(), most.as_str(), "400 64 Truncated")?;
    is_answered(rt.alloc(), more.as_str(), "413 61 HeadTooLong")
}

const NOT_SERVED: &str = r#"
RAW GET /account HTTP/1.0\r\n
\r\n
-> 400 60 BadHead

RAW \r\n
GET /account HTTP/1.1\r\n
\r\n
-> 400 60 BadHead

RAW \n
GET /account HTTP/1.1\r\n
\r\n
-> 400 60 BadHead

RAW POST /orders HTTP/1.1\r\n
Transfer-Encoding: chunked\r\n
\r\n
-> 400 60 BadHead

RAW POST /orders HTTP/1.1\r\n
Content-Length: 5\r\n
content-length: 5\r\n
\r\n
-> 400 60 BadHead

RAW POST /orders HTTP/1.1\r\n
Content-Length: +5\r\n
\r\n
-> 400 60 BadHead

RAW POST /orders HTTP/1.1\r\n
Content-Length: \r\n
\r\n
-> 400 60 BadHead

RAW POST /orders HTTP/1.1\r\n
Content-Length: 1234567890\r\n
\r\n
-> 400 60 BadHead

RAW GET /account HTTP/1.1\r\n
Content-Length: 1\r\n
\r\n
-> 400 60 BadHead

RAW GET /account\r\n
\r\n
-> 400 60 BadHead
"#;

#[test]
fn heads_that_are_not_served(rt: HostRuntime) -> Result<(), Fail> {
    tells_faults(rt.alloc(), NOT_SERVED)
}

const SERVED: &str = r#"
RAW GET /account HTTP/1.1\r\n
DESK-KEY: 0000000000000000000000000000000a\r\n
\r\n
-> read account ALFA

RAW GET /account HTTP/1.1\r\n
desk-key:\t 0000000000000000000000000000000a \t\r\n
\r\n
-> read account ALFA

RAW GET /account HTTP/1.1\r\n
desk-key: 0000000000000000000000000000000a\r\n
Content-Length: 0\r\n
\r\n
-> read account ALFA

RAW GET /account HTTP/1.1\r\n
desk-key: 0000000000000000000000000000000a\r\n
Content-Length: 000\r\n
\r\n
-> read account ALFA

RAW GET /account HTTP/1.1\n
desk-key: 0000000000000000000000000000000a\n
Host: desk\r\n
\r\n
-> read account ALFA

RAW POST /orders HTTP/1.1\r\n
Desk-Key: 0000000000000000000000000000000a\r\n
CONTENT-LENGTH: 000000044\r\n
\r\n
{"amount":100,"reference":"A-1","to":"BETA"}
behind
-> order ALFA A-1 BETA 100
"#;

#[test]
fn heads_that_are_served(rt: HostRuntime) -> Result<(), Fail> {
    tells_faults(rt.alloc(), SERVED)
}

// ALFA's GET of its account, with these bytes behind the key.
fn with_behind(alloc: Global, behind: &str) -> Result<String, AllocError> {
    format!(in alloc;
        "GET /account HTTP/1.1\r\ndesk-key: 0000000000000000000000000000000a\r\n{behind}\r\n"
    )
}

// The same, with this many fields beside the key.
fn with_fields(alloc: Global, count: usize) -> Result<String, AllocError> {
    let fields = "x: y\r\n".repeat(alloc, count)?;
    with_behind(alloc, fields.as_str())
}

#[test]
fn a_head_has_32_fields_at_most(rt: HostRuntime) -> Result<(), Fail> {
    let most = with_fields(rt.alloc(), 31)?;
    is_answered(rt.alloc(), most.as_str(), ACCOUNT)?;
    let more = with_fields(rt.alloc(), 32)?;
    is_answered(rt.alloc(), more.as_str(), "400 60 BadHead")
}

// The same, with one more field whose value has this many bytes.
fn with_long_field(alloc: Global, count: usize) -> Result<String, AllocError> {
    let value = "y".repeat(alloc, count)?;
    let field = format!(in alloc; "x: {value}\r\n")?;
    with_behind(alloc, field.as_str())
}

// The same, with a field that makes it this many bytes long.
fn of_length(alloc: Global, length: usize) -> Result<String, Fail> {
    let shortest = with_long_field(alloc, 0)?.len();
    let count = length.checked_sub(shortest).ok_or("too few bytes")?;
    let head = with_long_field(alloc, count)?;
    if head.len() == length {
        Ok(head)
    } else {
        Err(Fail::from("another length"))
    }
}

#[test]
fn a_head_has_8192_bytes_at_most(rt: HostRuntime) -> Result<(), Fail> {
    let most = of_length(rt.alloc(), 8192)?;
    is_answered(rt.alloc(), most.as_str(), ACCOUNT)?;
    let more = of_length(rt.alloc(), 8193)?;
    is_answered(rt.alloc(), more.as_str(), "413 61 HeadTooLong")?;
    let line_of_8192 = with_long_field(rt.alloc(), 8189)?;
    is_answered(rt.alloc(), line_of_8192.as_str(), "413 61 HeadTooLong")
}
