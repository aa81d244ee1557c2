//! What may be answered to an input, and whether the bytes of a reply tell it.
use super::super::met::{column, row_of};
use std::alloc::{AllocError, Global};
use std::test::Fail;

/// What may be answered: the number of a refusal, or what was read or done, by how the body begins and ends. Then the
/// status with its reason, and the type of the body.
pub const REPLIES: &str = r#"read | {"amount": |  | 200 OK | application/json
= read | {"balance": |  | 200 OK | application/json
= read | {"orders":[ |  | 200 OK | application/json
= read | statement ALFA 2 |  | 200 OK | text/plain
= read | report 2 |  | 200 OK | text/plain
= 1 | {"code":1, | "name":"UnknownParticipant"} | 404 Not Found | application/json
= 2 | {"code":2, | "name":"UnknownReceiver"} | 409 Conflict | application/json
= 3 | {"code":3, | "name":"SameParty"} | 409 Conflict | application/json
= 4 | {"code":4, | "name":"ReferenceUsed"} | 409 Conflict | application/json
= 5 | {"code":5, | "name":"NotOpen"} | 409 Conflict | application/json
= 6 | {"code":6, | "name":"NoCover"} | 409 Conflict | application/json
= 7 | {"code":7, | "name":"QueueFull"} | 409 Conflict | application/json
= 8 | {"code":8, | "name":"NumbersUsedUp"} | 409 Conflict | application/json
= 9 | {"code":9, | "name":"UnknownOrder"} | 404 Not Found | application/json
= 13 | {"code":13, | "name":"TotalTooLarge"} | 409 Conflict | application/json
= 14 | {"code":14, | "name":"WrongPhase"} | 409 Conflict | application/json
= 15 | {"code":15, | "name":"WrongDate"} | 409 Conflict | application/json
= 16 | {"code":16, | "name":"Weekend"} | 409 Conflict | application/json
= 17 | {"code":17, | "name":"NotQueued"} | 409 Conflict | application/json
= 18 | {"code":18, | "name":"Resolvable"} | 409 Conflict | application/json
= 19 | {"code":19, | "name":"Overdrawn"} | 409 Conflict | application/json
= 30 | {"code":30, | "name":"BadCode"} | 400 Bad Request | application/json
= 31 | {"code":31, | "name":"BadReference"} | 400 Bad Request | application/json
= 32 | {"code":32, | "name":"BadAmount"} | 400 Bad Request | application/json
= 35 | {"code":35, | "name":"BadDate"} | 400 Bad Request | application/json
= 40 | {"code":40, | "name":"BadHeader"} | 400 Bad Request | application/json
= 41 | {"code":41, | "name":"BadRow"} | 400 Bad Request | application/json
= 41 | {"code":41,"name":"BadRow","row": | } | 400 Bad Request | application/json
= 42 | {"code":42, | "name":"BadCount"} | 400 Bad Request | application/json
= 60 | {"code":60, | "name":"BadHead"} | 400 Bad Request | application/json
= 61 | {"code":61, | "name":"HeadTooLong"} | 413 Content Too Large | application/json
= 62 | {"code":62, | "name":"NoLength"} | 411 Length Required | application/json
= 63 | {"code":63, | "name":"BodyTooLong"} | 413 Content Too Large | application/json
= 64 | {"code":64, | "name":"Truncated"} | 400 Bad Request | application/json
= 65 | {"code":65, | "name":"BadJson"} | 400 Bad Request | application/json
= 66 | {"code":66, | "name":"WrongFields"} | 400 Bad Request | application/json
= 67 | {"code":67, | "name":"NoSuchRoute"} | 404 Not Found | application/json
= 68 | {"code":68, | "name":"NoKey"} | 403 Forbidden | application/json
= 90 | {"code":90, | "name":"OutOfMemory"} | 503 Service Unavailable | application/json
= done | {"answer":" |  | 200 OK | application/json
= done | reference,result,number,detail
 |  | 200 OK | text/csv"#;

// The whole reply that has this body, by its row.
fn reply_of(alloc: Global, row: &'static str, body: &str) -> Result<String, AllocError> {
    let line = column(row, 3);
    let content = column(row, 4);
    let length = body.len();
    format!(in alloc;
        "HTTP/1.1 {line}\r\nContent-Type: {content}\r\nContent-Length: {length}\r\n\
         Connection: close\r\n\r\n{body}"
    )
}

/// The row that tells what a whole reply tells, which has this status. Each of its bytes is as its body wants it.
pub fn row_of_reply(alloc: Global, status: &str, reply: &[u8]) -> Result<&'static str, Fail> {
    let text = std::str::from_utf8(reply)?;
    let (_, body) = text.split_once("\r\n\r\n").unwrap_or((text, ""));
    let row = row_of(REPLIES, body)?;
    let whole = reply_of(alloc, row, body)?;
    if whole.as_str() == text && column(row, 3).starts_with(status) {
        return Ok(row);
    }
    Err(Fail::new(format_args!("{status}: {text:?}, not {whole:?}")))
}
