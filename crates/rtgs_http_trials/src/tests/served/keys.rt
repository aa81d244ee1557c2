//! Each route takes one caller alone, and tells every other that it has no key.
use super::super::OPERATOR;
use super::super::test_desk::TestDesk;
use std::alloc::Global;
use std::test::Fail;

// The operator's routes, each with a good body.
const OPERATORS: &str = r#"
POST /desk/post {"cents":10,"code":"ALFA","reference":"P-1"}

POST /desk/credit {"code":"ALFA","credit":100}

POST /desk/open {"date":"2024-03-05"}

POST /desk/resolve {}

POST /desk/cutoff {"date":"2024-03-04"}

POST /desk/close {"date":"2024-03-04"}

GET /desk/report/2024-03-04

GET /desk/accounts

GET /desk/status

GET /desk/queues

GET /desk/queue/ALFA

GET /desk/held/ALFA

GET /desk/orders/ALFA/A-1

GET /desk/orders/2024-03-04

GET /desk/marks/2024-03-04

GET /desk/statements/ALFA/2024-03-04

POST /desk/orders/ALFA/A-1/withdraw {}

POST /desk/batches/ALFA
reference,to,amount
A-1,BETA,100
"#;

// The banks' routes, each with a good body.
const BANKS: &str = r#"
POST /orders {"amount":100,"reference":"A-1","to":"BETA"}

GET /orders/A-1

POST /orders/A-1/withdraw {}

POST /batches
reference,to,amount
A-1,BETA,100

GET /account

GET /queue

GET /held

GET /waiting

GET /statements/2024-03-04
"#;

const NO_KEY: &str = r#"403 Forbidden {"code":68,"name":"NoKey"}"#;

// Each of these routes tells this caller that it has no key.
fn none_is_taken(
    alloc: Global,
    desk: &mut TestDesk,
    routes: &str,
    caller: &str,
) -> Result<(), Fail> {
    for route in routes.trim().split("\n\n") {
        let asked = format!(in alloc; "{caller} {route}")?;
        desk.is_answered(asked.as_str(), NO_KEY)?;
    }
    Ok(())
}

// What ALFA and the operator read of a day on which nothing was done.
const NOTHING_DONE: &str = r#"
ALFA GET /account
-> 200 OK {"balance":0,"code":"ALFA","credit":0,"date":"2024-03-04","name":"Alfa Bank","phase":"OPEN","queued":0,
"queued_value":0}

ALFA GET /orders/A-1
-> 404 Not Found {"code":9,"name":"UnknownOrder"}

OPERATOR POST /desk/post {"cents":10,"code":"ALFA","reference":"P-1"}
-> 200 OK {"answer":"posted","number":1}
"#;

// This caller has none of these routes, nor has a key that nobody has, an empty one or none.
fn are_not_taken(alloc: Global, routes: &str, caller: &str) -> Result<(), Fail> {
    let mut desk = TestDesk::open(alloc)?;
    none_is_taken(alloc, &mut desk, routes, caller)?;
    none_is_taken(alloc, &mut desk, routes, "NOBODY")?;
    none_is_taken(alloc, &mut desk, routes, "EMPTY")?;
    none_is_taken(alloc, &mut desk, routes, "KEYLESS")?;
    desk.follow(NOTHING_DONE)
}

#[test]
fn the_operators_routes_take_no_bank(rt: HostRuntime) -> Result<(), Fail> {
    are_not_taken(rt.alloc(), OPERATORS, "ALFA")
}

#[test]
fn the_banks_routes_take_no_operator(rt: HostRuntime) -> Result<(), Fail> {
    are_not_taken(rt.alloc(), BANKS, "OPERATOR")
}

// The operator's key is the operator's, whoever else has it.
const OPERATOR_FIRST: &str = r#"
OPERATOR GET /account
-> 403 Forbidden {"code":68,"name":"NoKey"}

OPERATOR POST /desk/credit {"code":"DELT","credit":1}
-> 200 OK {"answer":"credit set"}
"#;

#[test]
fn a_bank_with_the_operators_key_is_the_operator(rt: HostRuntime) -> Result<(), Fail> {
    let mut desk = TestDesk::open(rt.alloc())?;
    desk.add("DELT", "Delta Bank", OPERATOR)?;
    desk.follow(OPERATOR_FIRST)
}
