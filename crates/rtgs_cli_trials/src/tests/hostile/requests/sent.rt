//! Requests as rows: the caller, the method with the target, and the body, between ` | `.
use super::super::bytes::part;
use std::alloc::{AllocError, Global};

/// How many routes there are.
pub const ROUTES: usize = 14;

// One good request of each route.
const GOOD: &str = r#"ALFA | POST /orders | {"amount":100,"reference":"A-9","to":"BETA"}
= ALFA | GET /orders/A-1
= ALFA | POST /orders/A-2/withdraw | {}
= ALFA | POST /batches | reference,to,amount
A-7,BETA,100
"A-8",GAMA,25
A-9,BETA,3

= ALFA | GET /account
= ALFA | GET /queue
= ALFA | GET /statements/2024-03-04
= OPERATOR | POST /desk/post | {"cents":-10,"code":"ALFA","reference":"P-9"}
= OPERATOR | POST /desk/credit | {"code":"ALFA","credit":100}
= OPERATOR | POST /desk/open | {"automatic":true,"date":"2024-03-04"}
= OPERATOR | POST /desk/resolve | {}
= OPERATOR | POST /desk/cutoff | {"date":"2024-03-04"}
= OPERATOR | POST /desk/close | {"date":"2024-03-04"}
= OPERATOR | GET /desk/report/2024-03-04"#;

/// The good request of a route.
pub fn good(route: usize) -> &'static str {
    part(GOOD, "\n= ", route % ROUTES)
}

pub fn body(request: &'static str) -> &'static str {
    part(request, " | ", 2)
}

/// All bytes of a request, with this length of its body, and this body in place of its own.
pub fn with_length(
    alloc: Global,
    request: &'static str,
    length: &str,
    body: &[u8],
) -> Result<Vec<u8>, AllocError> {
    let line = part(request, " | ", 1);
    let last = if request.starts_with("ALFA") {
        "a"
    } else {
        "f"
    };
    let head = format!(in alloc;
        "{line} HTTP/1.1\r\ndesk-key: 0000000000000000000000000000000{last}\r\nContent-Length: {length}\r\n\r\n"
    )?;
    let mut bytes = head.into_bytes();
    bytes.extend_from_slice(body)?;
    Ok(bytes)
}

/// All bytes of a request, with this body in place of its own.
pub fn with_body(alloc: Global, request: &'static str, body: &[u8]) -> Result<Vec<u8>, AllocError> {
    let length = format!(in alloc; "{}", body.len())?;
    with_length(alloc, request, length.as_str(), body)
}
