//! Lengths of bodies, and what their bytes spell.
use super::faults::{alfas_desk, is_answered, tells_faults};
use rtgs_tests_desks::ensure;
use std::alloc::{AllocError, Global};
use std::test::Fail;

const LENGTHS: &str = r#"
RAW POST /orders HTTP/1.1\r\n
desk-key: 0000000000000000000000000000000a\r\n
\r\n
-> 411 62 NoLength

RAW POST /orders HTTP/1.1\r\n
desk-key: 0000000000000000000000000000000a\r\n
Content-Length: 65537\r\n
\r\n
-> 413 63 BodyTooLong

RAW POST /orders HTTP/1.1\r\n
desk-key: 0000000000000000000000000000000a\r\n
Content-Length: 65536\r\n
\r\n
-> 400 64 Truncated

RAW POST /orders HTTP/1.1\r\n
desk-key: 0000000000000000000000000000000a\r\n
Content-Length: 50\r\n
\r\n
{"amount":100,"refer
-> 400 64 Truncated
"#;

#[test]
fn lengths(rt: HostRuntime) -> Result<(), Fail> {
    tells_faults(rt.alloc(), LENGTHS)
}

const TEXTS_AND_KEYS: &str = r#"
ALFA POST /orders
-> 400 65 BadJson

ALFA POST /orders [
-> 400 65 BadJson

ALFA POST /orders {"amount":100}}
-> 400 65 BadJson

ALFA POST /orders []
-> 400 66 WrongFields

ALFA POST /orders null
-> 400 66 WrongFields

ALFA POST /orders {}
-> 400 66 WrongFields

ALFA POST /orders {"amount":100,"reference":"A-1"}
-> 400 66 WrongFields

ALFA POST /orders {"amount":100,"reference":"A-1","to":"BETA","x":1}
-> 400 66 WrongFields

ALFA POST /orders {"amount":100,"reference":"A-1","sender":"BETA","to":"BETA"}
-> 400 66 WrongFields

ALFA POST /orders {"Amount":100,"reference":"A-1","to":"BETA"}
-> 400 66 WrongFields

ALFA POST /orders {"amount":100,"reference":1,"to":"BETA"}
-> 400 66 WrongFields

ALFA POST /orders {"amount":0,"reference":"a","to":"beta"}
-> 400 31 BadReference

ALFA POST /orders {"amount":0,"reference":"A-1","to":"beta"}
-> 400 30 BadCode

ALFA POST /orders {"amount":0,"reference":"A-1","to":"BETA"}
-> 400 32 BadAmount
"#;

#[test]
fn texts_and_keys(rt: HostRuntime) -> Result<(), Fail> {
    tells_faults(rt.alloc(), TEXTS_AND_KEYS)
}

// The due date is judged last, and may be left out.
const DUE_DATES: &str = r#"
ALFA POST /orders {"amount":100,"due":null,"reference":"A-1","to":"BETA"}
-> 400 66 WrongFields

ALFA POST /orders {"amount":100,"due":20240305,"reference":"A-1","to":"BETA"}
-> 400 66 WrongFields

ALFA POST /orders {"amount":100,"due":"2024-03-05","reference":"A-1","to":"BETA","x":1}
-> 400 66 WrongFields

ALFA POST /orders {"amount":100,"due":"2024-03-05","reference":"A-1"}
-> 400 66 WrongFields

ALFA POST /orders {"amount":0,"due":"","reference":"A-1","to":"BETA"}
-> 400 32 BadAmount

ALFA POST /orders {"amount":100,"due":"","reference":"A-1","to":"BETA"}
-> 400 35 BadDate

ALFA POST /orders {"amount":100,"due":"2024-02-30","reference":"A-1","to":"BETA"}
-> 400 35 BadDate

ALFA POST /orders {"amount":100,"due":"2024-03-05","reference":"A-1","to":"BETA"}
-> order ALFA A-1 BETA 100 due 2024-03-05

ALFA POST /orders {"due":"2024-03-06","to":"BETA","reference":"A-1","due":"2024-03-05","amount":100}
-> order ALFA A-1 BETA 100 due 2024-03-05

ALFA POST /batches
reference,to,amount,due
A-1,BETA,100,2024-03-05
A-2,GAMA,50,
-> batch ALFA, A-1 BETA 100 due 2024-03-05, A-2 GAMA 50
"#;

#[test]
fn due_dates(rt: HostRuntime) -> Result<(), Fail> {
    tells_faults(rt.alloc(), DUE_DATES)
}

const WITHOUT_CONTENT: &str = r#"
ALFA POST /orders/A-1/withdraw
-> 400 65 BadJson

OPERATOR POST /desk/resolve
-> 400 65 BadJson

ALFA POST /orders/A-1/withdraw []
-> 400 66 WrongFields

OPERATOR POST /desk/resolve []
-> 400 66 WrongFields

ALFA POST /orders/A-1/withdraw {"x":1}
-> 400 66 WrongFields

OPERATOR POST /desk/resolve {"x":1}
-> 400 66 WrongFields

ALFA POST /orders/A-1/withdraw {}
-> withdraw ALFA A-1

OPERATOR POST /desk/resolve {}
-> resolve
"#;

#[test]
fn commands_without_content(rt: HostRuntime) -> Result<(), Fail> {
    tells_faults(rt.alloc(), WITHOUT_CONTENT)
}

const ORDER_FILES: &str = r#"
ALFA POST /batches
-> 400 40 BadHeader

ALFA POST /batches
reference,to
-> 400 40 BadHeader

ALFA POST /batches
reference,to,amount
-> 400 42 BadCount

ALFA POST /batches
reference,to,amount
A-1,BETA
-> 400 41 BadRow

ALFA POST /batches
reference,to,amount
A-1,BETA,100
-> batch ALFA, A-1 BETA 100
"#;

#[test]
fn order_files(rt: HostRuntime) -> Result<(), Fail> {
    tells_faults(rt.alloc(), ORDER_FILES)
}

// ALFA's order with this many lists, each in the one before.
fn nested(alloc: Global, levels: usize) -> Result<String, AllocError> {
    let (open, close) = ("[".repeat(alloc, levels)?, "]".repeat(alloc, levels)?);
    format!(in alloc; "ALFA POST /orders {open}{close}")
}

#[test]
fn values_nest_127_levels_at_most(rt: HostRuntime) -> Result<(), Fail> {
    let most = nested(rt.alloc(), 127)?;
    let more = nested(rt.alloc(), 128)?;
    let desk = alfas_desk(rt.alloc())?;
    is_answered(rt.alloc(), &desk, most.as_str(), "400 66 WrongFields")?;
    is_answered(rt.alloc(), &desk, more.as_str(), "400 65 BadJson")
}

// An order whose reference is a byte that no text has.
const NO_TEXT: &[u8] =
    b"POST /orders HTTP/1.1\r\ndesk-key: 0000000000000000000000000000000a\r\nContent-Length: 42\r\n\r\n\
      {\"amount\":100,\"reference\":\"\xff\",\"to\":\"BETA\"}";

#[test]
fn a_body_that_is_no_text(rt: HostRuntime) -> Result<(), Fail> {
    let desk = alfas_desk(rt.alloc())?;
    let mut input = NO_TEXT;
    let fault = desk.asks(&mut input)?;
    ensure(fault.as_str() == "400 65 BadJson")
}
