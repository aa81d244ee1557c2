//! Good requests that the rules of the desk refuse.
use super::super::test_desk::{follows, follows_after};
use std::test::Fail;

const PARTIES: &str = r#"
ALFA POST /orders {"amount":1,"reference":"A-1","to":"ALFA"}
-> 409 Conflict {"code":3,"name":"SameParty"}

ALFA POST /orders {"amount":1,"reference":"A-1","to":"ZETA"}
-> 409 Conflict {"code":2,"name":"UnknownReceiver"}

OPERATOR POST /desk/post {"cents":10,"code":"ZETA","reference":"P-1"}
-> 404 Not Found {"code":1,"name":"UnknownParticipant"}

OPERATOR POST /desk/credit {"code":"ZETA","credit":10}
-> 404 Not Found {"code":1,"name":"UnknownParticipant"}

ALFA GET /orders/A-1
-> 404 Not Found {"code":9,"name":"UnknownOrder"}
"#;

// The sum of all balances is at its limit after the first of them.
const MONEY: &str = r#"
OPERATOR POST /desk/post {"cents":1000000000000000,"code":"ALFA","reference":"P-1"}
-> 200 OK {"answer":"posted","number":1}

OPERATOR POST /desk/post {"cents":1,"code":"BETA","reference":"P-2"}
-> 409 Conflict {"code":13,"name":"TotalTooLarge"}

OPERATOR POST /desk/post {"cents":-1,"code":"ALFA","reference":"P-1"}
-> 409 Conflict {"code":4,"name":"ReferenceUsed"}

OPERATOR POST /desk/post {"cents":-1,"code":"BETA","reference":"P-2"}
-> 409 Conflict {"code":6,"name":"NoCover"}

OPERATOR POST /desk/post {"cents":-1,"code":"ALFA","reference":"P-2"}
-> 200 OK {"answer":"posted","number":2}

ALFA POST /orders {"amount":1000000000000,"reference":"A-1","to":"BETA"}
-> 200 OK {"answer":"settled","mark":1,"number":1}

ALFA GET /account
-> 200 OK {"balance":998999999999999,"code":"ALFA","credit":0,"date":"2024-03-04","name":"Alfa Bank","phase":"OPEN",
"queued":0,"queued_value":0}
"#;

// The longest amounts.
const TEXTS: &str = r#"
ALFA GET /statements/2024-03-04
-> 200 OK text/plain
statement ALFA 2024-03-04
posting    000000001 P-1              -           10000000000000.00         -
posting    000000002 P-2              -                       -0.01         -
sent       000000001 A-1              BETA           10000000000.00         1
sum-posted               9999999999999.99
sum-sent                   10000000000.00
sum-recv                             0.00
net                      9989999999999.99

OPERATOR GET /desk/report/2024-03-04
-> 200 OK text/plain
report 2024-03-04
ALFA                   9999999999999.99                 10000000000.00                           0.00
BETA                               0.00                           0.00                 10000000000.00
GAMA                               0.00                           0.00                           0.00
settled            1                 10000000000.00
queued             0                           0.00
held               0                           0.00
withdrawn          0                           0.00
rejected           0                           0.00
marks              1
"#;

#[test]
fn parties_that_are_not_there(rt: HostRuntime) -> Result<(), Fail> {
    follows(rt.alloc(), PARTIES)
}

#[test]
fn money_that_is_not_there(rt: HostRuntime) -> Result<(), Fail> {
    follows_after(rt.alloc(), MONEY, TEXTS)
}

const LIMITS: &str = r#"
OPERATOR POST /desk/credit {"code":"ALFA","credit":100}
-> 200 OK {"answer":"credit set"}

ALFA POST /orders {"amount":100,"reference":"A-1","to":"BETA"}
-> 200 OK {"answer":"settled","mark":1,"number":1}

OPERATOR POST /desk/credit {"code":"ALFA","credit":99}
-> 409 Conflict {"code":6,"name":"NoCover"}

OPERATOR POST /desk/credit {"code":"ALFA","credit":100}
-> 200 OK {"answer":"credit set"}
"#;

// An order without cover, on a day that is then cut off.
const WAITING: &str = r#"
OPERATOR POST /desk/close {"date":"2024-03-04"}
-> 409 Conflict {"code":14,"name":"WrongPhase"}

OPERATOR POST /desk/cutoff {"date":"2024-03-05"}
-> 409 Conflict {"code":15,"name":"WrongDate"}

OPERATOR POST /desk/open {"date":"2024-03-05"}
-> 409 Conflict {"code":14,"name":"WrongPhase"}

OPERATOR POST /desk/open {"date":"2024-03-04"}
-> 200 OK {"answer":"repeated"}

ALFA POST /orders {"amount":100,"reference":"A-1","to":"BETA"}
-> 200 OK {"answer":"queued","number":1,"place":1}

OPERATOR POST /desk/resolve {}
-> 200 OK {"answer":"nothing"}

OPERATOR POST /desk/cutoff {"date":"2024-03-04"}
-> 200 OK {"answer":"cut off"}

ALFA POST /orders {"amount":100,"reference":"A-2","to":"BETA"}
-> 409 Conflict {"code":5,"name":"NotOpen"}
"#;

const CLOSED: &str = r#"
OPERATOR POST /desk/close {"date":"2024-03-04"}
-> 200 OK {"answer":"closed","rejected":1}

ALFA POST /orders {"amount":100,"reference":"A-1","to":"BETA"}
-> 200 OK {"answer":"repeated","number":1,"state":"rejected"}

ALFA POST /orders/A-1/withdraw {}
-> 409 Conflict {"code":17,"name":"NotQueued"}

OPERATOR POST /desk/resolve {}
-> 409 Conflict {"code":14,"name":"WrongPhase"}

OPERATOR POST /desk/open {"date":"2024-03-09"}
-> 409 Conflict {"code":16,"name":"Weekend"}

OPERATOR POST /desk/open {"date":"2024-03-04"}
-> 409 Conflict {"code":15,"name":"WrongDate"}

OPERATOR POST /desk/open {"date":"2024-02-30"}
-> 400 Bad Request {"code":35,"name":"BadDate"}

OPERATOR POST /desk/open {"date":"2024-03-05"}
-> 200 OK {"answer":"opened"}
"#;

#[test]
fn a_limit_lowered_too_far(rt: HostRuntime) -> Result<(), Fail> {
    follows(rt.alloc(), LIMITS)
}

#[test]
fn phases_and_dates(rt: HostRuntime) -> Result<(), Fail> {
    follows_after(rt.alloc(), WAITING, CLOSED)
}
