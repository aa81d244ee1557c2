//! Callers whom no route takes, and which fault comes first.
use super::faults::tells_faults;
use std::test::Fail;

const NOT_TAKEN: &str = r#"
RAW GET /account HTTP/1.1\r\n
\r\n
-> 403 68 NoKey

RAW GET /account HTTP/1.1\r\n
desk-key: 0000000000000000000000000000000b\r\n
\r\n
-> 403 68 NoKey

RAW GET /account HTTP/1.1\r\n
desk-key: 0000000000000000000000000000000A\r\n
\r\n
-> 403 68 NoKey

RAW GET /account HTTP/1.1\r\n
desk-key: 0000000000000000000000000000000a\r\n
Desk-Key: 0000000000000000000000000000000a\r\n
\r\n
-> 403 68 NoKey

RAW GET /account HTTP/1.1\r\n
desk-key: 0000000000000000000000000000000f\r\n
\r\n
-> 403 68 NoKey

RAW POST /desk/resolve HTTP/1.1\r\n
desk-key: 0000000000000000000000000000000a\r\n
\r\n
-> 403 68 NoKey
"#;

#[test]
fn keys_that_are_not_taken(rt: HostRuntime) -> Result<(), Fail> {
    tells_faults(rt.alloc(), NOT_TAKEN)
}

const MISSING: &str = r#"
RAW POST /desk/resolve HTTP/1.1\r\n
Content-Length: 2\r\n
\r\n
{}
-> 403 68 NoKey
"#;

#[test]
fn a_missing_key_is_nobodys(rt: HostRuntime) -> Result<(), Fail> {
    tells_faults(rt.alloc(), MISSING)
}

// No route; a bad head and no route; no key and no length; a bad parameter and a bad body; and the route of another
// caller with bad parameters, or with a bad body.
const FIRST_FAULTS: &str = r#"
RAW GET /account?x=1 HTTP/1.1\r\n
\r\n
-> 404 67 NoSuchRoute

RAW GET /nothing HTTP/1.0\r\n
\r\n
-> 400 60 BadHead

RAW POST /orders HTTP/1.1\r\n
\r\n
-> 403 68 NoKey

ALFA POST /orders/a-1/withdraw [
-> 400 31 BadReference

OPERATOR GET /orders/a-1
-> 403 68 NoKey

ALFA GET /desk/orders/alfa/a-1
-> 403 68 NoKey

ALFA POST /desk/batches/ALFA [
-> 403 68 NoKey
"#;

#[test]
fn the_first_fault_is_answered(rt: HostRuntime) -> Result<(), Fail> {
    tells_faults(rt.alloc(), FIRST_FAULTS)
}
