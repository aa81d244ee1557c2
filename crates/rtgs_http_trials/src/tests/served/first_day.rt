//! A desk before its first day.
use super::super::test_desk::{TestDesk, follows_before_a_day};
use rtgs_tests_desks::Trouble;
use std::test::Fail;

const BEFORE: &str = r#"
ALFA GET /account
-> 200 OK {"balance":0,"code":"ALFA","credit":0,"name":"Alfa Bank","phase":"CLOSED","queued":0,"queued_value":0}

OPERATOR GET /desk/accounts
-> 200 OK {"accounts":[{"balance":0,"code":"ALFA","credit":0,"lacking":0,"name":"Alfa Bank","queued":0,
"queued_value":0},{"balance":0,"code":"BETA","credit":0,"lacking":0,"name":"Beta Bank","queued":0,"queued_value":0},
{"balance":0,"code":"GAMA","credit":0,"lacking":0,"name":"Gama Bank","queued":0,"queued_value":0}],"phase":"CLOSED"}

OPERATOR POST /desk/close {"date":"2024-03-04"}
-> 409 Conflict {"code":14,"name":"WrongPhase"}

OPERATOR POST /desk/resolve {}
-> 409 Conflict {"code":14,"name":"WrongPhase"}

ALFA POST /orders {"amount":1,"reference":"A-1","to":"BETA"}
-> 409 Conflict {"code":5,"name":"NotOpen"}

OPERATOR POST /desk/open {"date":"2024-03-04"}
-> 200 OK {"answer":"opened"}
"#;

#[test]
fn a_desk_without_a_day(rt: HostRuntime) -> Result<(), Fail> {
    follows_before_a_day(rt.alloc(), BEFORE)
}

const NO_BANKS: &str = r#"
OPERATOR GET /desk/accounts
-> 200 OK {"accounts":[],"phase":"CLOSED"}

OPERATOR POST /desk/open {"date":"2024-03-04"}
-> 200 OK {"answer":"opened"}

OPERATOR GET /desk/accounts
-> 200 OK {"accounts":[],"date":"2024-03-04","phase":"OPEN"}
"#;

#[test]
fn a_desk_without_banks(rt: HostRuntime) -> Result<(), Fail> {
    let mut desk = TestDesk::new(rt.alloc(), usize::MAX, Trouble::Lost)?;
    desk.follow(NO_BANKS)
}
