//! Hostile inputs, and the whole reply to each. None of them gives a command.
use super::super::test_desk::{TestDesk, follows_after};
use std::alloc::Global;
use std::test::Fail;

const HEADS: &str = r#"
RAW POST /orders HTTP/1.0\r\n
desk-key: 0000000000000000000000000000000a\r\n
Content-Length: 44\r\n
\r\n
{"amount":100,"reference":"A-1","to":"BETA"}
-> 400 Bad Request {"code":60,"name":"BadHead"}

RAW POST /orders HTTP/1.1\r\n
desk-key: 0000000000000000000000000000000a\r\n
Content-Length: 44\r\n
Transfer-Encoding: identity\r\n
\r\n
{"amount":100,"reference":"A-1","to":"BETA"}
-> 400 Bad Request {"code":60,"name":"BadHead"}

RAW POST /orders HTTP/1.1\r\n
desk-key: 0000000000000000000000000000000a\r\n
Content-Length: 44\r\n
Content-Length: 44\r\n
\r\n
{"amount":100,"reference":"A-1","to":"BETA"}
-> 400 Bad Request {"code":60,"name":"BadHead"}

RAW POST /orders HTTP/1.1\r\n
desk-key: 0000000000000000000000000000000a\r\n
Content-Length: +5\r\n
\r\n
-> 400 Bad Request {"code":60,"name":"BadHead"}

RAW GET /account HTTP/1.1\r\n
desk-key: 0000000000000000000000000000000a\r\n
Content-Length: 1\r\n
\r\n
-> 400 Bad Request {"code":60,"name":"BadHead"}

RAW DELETE /orders HTTP/1.1\r\n
desk-key: 0000000000000000000000000000000a\r\n
\r\n
-> 404 Not Found {"code":67,"name":"NoSuchRoute"}

RAW POST /orders HTTP/1.1\r\n
desk-key: 0000000000000000000000000000000a\r\n
Content-Length: 44\r\n
desk-key: 0000000000000000000000000000000a\r\n
\r\n
{"amount":100,"reference":"A-1","to":"BETA"}
-> 403 Forbidden {"code":68,"name":"NoKey"}
"#;

const BODIES: &str = r#"
ALFA POST /orders {"amount":-5,"reference":"A-1","to":"BETA"}
-> 400 Bad Request {"code":66,"name":"WrongFields"}

ALFA POST /orders {"amount":1e2,"reference":"A-1","to":"BETA"}
-> 400 Bad Request {"code":66,"name":"WrongFields"}

ALFA POST /orders {"amount":100,"reference":"A-1","to":"BETA","x":1}
-> 400 Bad Request {"code":66,"name":"WrongFields"}

ALFA GET /orders/A-1
-> 404 Not Found {"code":9,"name":"UnknownOrder"}
"#;

// This many bytes of no line have this answer.
fn is_answered(
    alloc: Global,
    desk: &mut TestDesk,
    count: usize,
    expected: &str,
) -> Result<(), Fail> {
    let input = "A".repeat(alloc, count)?;
    desk.tells(input.as_str(), expected)
}

#[test]
fn heads_without_an_end(rt: HostRuntime) -> Result<(), Fail> {
    let truncated = r#"400 Bad Request {"code":64,"name":"Truncated"}"#;
    let too_long = r#"413 Content Too Large {"code":61,"name":"HeadTooLong"}"#;
    let mut desk = TestDesk::open(rt.alloc())?;
    is_answered(rt.alloc(), &mut desk, 0, truncated)?;
    is_answered(rt.alloc(), &mut desk, 8191, truncated)?;
    is_answered(rt.alloc(), &mut desk, 8192, too_long)
}

#[test]
fn hostile_requests(rt: HostRuntime) -> Result<(), Fail> {
    follows_after(rt.alloc(), HEADS, BODIES)
}
