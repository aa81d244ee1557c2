//! Single requests and all bytes of their replies.
use super::super::test_desk::follows;
use std::test::Fail;

const TWICE: &str = r#"
OPERATOR POST /desk/credit {"code":"ALFA","credit":100}
-> 200 OK {"answer":"credit set"}

RAW POST /orders HTTP/1.1\r\n
desk-key: 0000000000000000000000000000000a\r\n
Content-Length: 44\r\n
\r\n
{"amount":100,"reference":"A-1","to":"BETA"}
-> RAW HTTP/1.1 200 OK\r\n
Content-Type: application/json\r\n
Content-Length: 40\r\n
Connection: close\r\n
\r\n
{"answer":"settled","mark":1,"number":1}

RAW POST /orders HTTP/1.1\r\n
desk-key: 0000000000000000000000000000000a\r\n
Content-Length: 44\r\n
\r\n
{"amount":100,"reference":"A-1","to":"BETA"}
-> RAW HTTP/1.1 200 OK\r\n
Content-Type: application/json\r\n
Content-Length: 59\r\n
Connection: close\r\n
\r\n
{"answer":"repeated","mark":1,"number":1,"state":"settled"}
"#;

#[test]
fn a_good_request_and_the_same_again(rt: HostRuntime) -> Result<(), Fail> {
    follows(rt.alloc(), TWICE)
}

const NO_COMMAND: &str = r#"
RAW POST /orders HTTP/1.1\r\n
desk-key: 0000000000000000000000000000000a\r\n
Content-Length: 50\r\n
\r\n
{"amount":100,"refer
-> RAW HTTP/1.1 400 Bad Request\r\n
Content-Type: application/json\r\n
Content-Length: 30\r\n
Connection: close\r\n
\r\n
{"code":64,"name":"Truncated"}

RAW POST /orders HTTP/1.1\r\n
desk-key: 0000000000000000000000000000000a\r\n
\r\n
{"amount":100,"reference":"A-1","to":"BETA"}
-> RAW HTTP/1.1 411 Length Required\r\n
Content-Type: application/json\r\n
Content-Length: 29\r\n
Connection: close\r\n
\r\n
{"code":62,"name":"NoLength"}

RAW POST /orders HTTP/1.1\r\n
desk-key: 00000000000000000000000000000000\r\n
Content-Length: 44\r\n
\r\n
{"amount":100,"reference":"A-1","to":"BETA"}
-> RAW HTTP/1.1 403 Forbidden\r\n
Content-Type: application/json\r\n
Content-Length: 26\r\n
Connection: close\r\n
\r\n
{"code":68,"name":"NoKey"}

RAW GET /account?x=1 HTTP/1.1\r\n
\r\n
-> RAW HTTP/1.1 404 Not Found\r\n
Content-Type: application/json\r\n
Content-Length: 32\r\n
Connection: close\r\n
\r\n
{"code":67,"name":"NoSuchRoute"}

ALFA GET /orders/A-1
-> 404 Not Found {"code":9,"name":"UnknownOrder"}
"#;

#[test]
fn requests_that_give_no_command(rt: HostRuntime) -> Result<(), Fail> {
    follows(rt.alloc(), NO_COMMAND)
}
