//! Days, request by request.
use super::super::test_desk::{follows, follows_after};
use std::test::Fail;

// A settled order and a queued one, at the boundary of a credit limit.
const TWO_ORDERS: &str = r#"
OPERATOR POST /desk/credit {"code":"ALFA","credit":100}
-> 200 OK {"answer":"credit set"}

ALFA POST /orders {"amount":100,"reference":"A-1","to":"BETA"}
-> 200 OK {"answer":"settled","mark":1,"number":1}

ALFA POST /orders {"amount":1,"reference":"A-2","to":"BETA"}
-> 200 OK {"answer":"queued","number":2,"place":1}
"#;

const READINGS: &str = r#"
ALFA GET /orders/A-1
-> 200 OK {"amount":100,"date":"2024-03-04","mark":1,"number":1,"reference":"A-1","state":"settled","to":"BETA"}

ALFA GET /orders/A-2
-> 200 OK {"amount":1,"date":"2024-03-04","number":2,"reference":"A-2","state":"queued","to":"BETA"}

ALFA GET /account
-> 200 OK {"balance":-100,"code":"ALFA","credit":100,"date":"2024-03-04","name":"Alfa Bank","phase":"OPEN","queued":1,
"queued_value":1}

ALFA GET /queue
-> 200 OK {"orders":[{"amount":1,"number":2,"place":1,"reference":"A-2","to":"BETA"}]}

BETA GET /queue
-> 200 OK {"orders":[]}

BETA GET /orders/A-1
-> 404 Not Found {"code":9,"name":"UnknownOrder"}

ALFA GET /statements/2024-03-04
-> 200 OK text/plain
statement ALFA 2024-03-04
sent       000000001 A-1              BETA                     1.00         1
queued     000000002 A-2              BETA                     0.01         -
sum-posted                           0.00
sum-sent                             1.00
sum-recv                             0.00
net                                 -1.00

OPERATOR GET /desk/report/2024-03-04
-> 200 OK text/plain
report 2024-03-04
ALFA                               0.00                           1.00                           0.00
BETA                               0.00                           0.00                           1.00
GAMA                               0.00                           0.00                           0.00
settled            1                           1.00
queued             1                           0.01
held               0                           0.00
withdrawn          0                           0.00
rejected           0                           0.00
marks              1

OPERATOR GET /desk/accounts
-> 200 OK {"accounts":[{"balance":-100,"code":"ALFA","credit":100,"lacking":100,"name":"Alfa Bank","queued":1,
"queued_value":1},{"balance":100,"code":"BETA","credit":0,"lacking":0,"name":"Beta Bank","queued":0,"queued_value":0},
{"balance":0,"code":"GAMA","credit":0,"lacking":0,"name":"Gama Bank","queued":0,"queued_value":0}],
"date":"2024-03-04","phase":"OPEN"}
"#;

#[test]
fn what_is_read_after_two_orders(rt: HostRuntime) -> Result<(), Fail> {
    follows_after(rt.alloc(), TWO_ORDERS, READINGS)
}

const REPEATS: &str = r#"
ALFA POST /orders/A-1/withdraw {}
-> 409 Conflict {"code":17,"name":"NotQueued"}

ALFA POST /orders/A-2/withdraw {}
-> 200 OK {"answer":"withdrawn","number":2}

ALFA POST /orders/A-2/withdraw {}
-> 200 OK {"answer":"repeated","number":2,"state":"withdrawn"}

ALFA POST /orders/A-3/withdraw {}
-> 404 Not Found {"code":9,"name":"UnknownOrder"}

ALFA POST /orders {"amount":99,"reference":"A-1","to":"BETA"}
-> 409 Conflict {"code":4,"name":"ReferenceUsed"}

OPERATOR POST /desk/post {"cents":10,"code":"ALFA","reference":"P-1"}
-> 200 OK {"answer":"posted","number":1}

OPERATOR POST /desk/post {"cents":10,"code":"ALFA","reference":"P-1"}
-> 200 OK {"answer":"repeated","number":1}
"#;

#[test]
fn withdrawals_and_repeats(rt: HostRuntime) -> Result<(), Fail> {
    follows_after(rt.alloc(), TWO_ORDERS, REPEATS)
}

const RING: &str = r#"
ALFA POST /orders {"amount":100,"reference":"A-1","to":"BETA"}
-> 200 OK {"answer":"queued","number":1,"place":1}

BETA POST /orders {"amount":100,"reference":"B-1","to":"GAMA"}
-> 200 OK {"answer":"queued","number":2,"place":1}

GAMA POST /orders {"amount":100,"reference":"C-1","to":"ALFA"}
-> 200 OK {"answer":"queued","number":3,"place":1}

OPERATOR POST /desk/cutoff {"date":"2024-03-04"}
-> 200 OK {"answer":"cut off"}

OPERATOR POST /desk/cutoff {"date":"2024-03-04"}
-> 200 OK {"answer":"repeated"}

OPERATOR POST /desk/close {"date":"2024-03-04"}
-> 409 Conflict {"code":18,"name":"Resolvable"}

OPERATOR POST /desk/resolve {}
-> 200 OK {"answer":"resolved","count":3,"mark":1,"value":300}

OPERATOR POST /desk/resolve {}
-> 200 OK {"answer":"nothing"}

OPERATOR POST /desk/close {"date":"2024-03-04"}
-> 200 OK {"answer":"closed","rejected":0}

OPERATOR POST /desk/close {"date":"2024-03-04"}
-> 200 OK {"answer":"repeated"}

OPERATOR POST /desk/open {"date":"2024-03-05"}
-> 200 OK {"answer":"opened"}
"#;

#[test]
fn a_ring_is_settled_and_the_day_closed(rt: HostRuntime) -> Result<(), Fail> {
    follows(rt.alloc(), RING)
}

const OVERDRAWN: &str = r#"
OPERATOR POST /desk/cutoff {"date":"2024-03-04"}
-> 200 OK {"answer":"cut off"}

OPERATOR POST /desk/close {"date":"2024-03-04"}
-> 409 Conflict {"code":19,"count":1,"first":"ALFA","name":"Overdrawn"}

ALFA GET /account
-> 200 OK {"balance":-100,"code":"ALFA","credit":100,"date":"2024-03-04","name":"Alfa Bank","phase":"CUTOFF",
"queued":1,"queued_value":1}

OPERATOR GET /desk/accounts
-> 200 OK {"accounts":[{"balance":-100,"code":"ALFA","credit":100,"lacking":100,"name":"Alfa Bank","queued":1,
"queued_value":1},{"balance":100,"code":"BETA","credit":0,"lacking":0,"name":"Beta Bank","queued":0,"queued_value":0},
{"balance":0,"code":"GAMA","credit":0,"lacking":0,"name":"Gama Bank","queued":0,"queued_value":0}],
"date":"2024-03-04","phase":"CUTOFF"}
"#;

#[test]
fn an_overdrawn_day_is_not_closed(rt: HostRuntime) -> Result<(), Fail> {
    follows_after(rt.alloc(), TWO_ORDERS, OVERDRAWN)
}

const TWO_OVERDRAWN: &str = r#"
OPERATOR POST /desk/credit {"code":"BETA","credit":100}
-> 200 OK {"answer":"credit set"}

BETA POST /orders {"amount":200,"reference":"B-1","to":"GAMA"}
-> 200 OK {"answer":"settled","mark":2,"number":3}

OPERATOR POST /desk/cutoff {"date":"2024-03-04"}
-> 200 OK {"answer":"cut off"}

OPERATOR POST /desk/close {"date":"2024-03-04"}
-> 409 Conflict {"code":19,"count":2,"first":"ALFA","name":"Overdrawn"}
"#;

#[test]
fn two_overdrawn_banks_are_counted(rt: HostRuntime) -> Result<(), Fail> {
    follows_after(rt.alloc(), TWO_ORDERS, TWO_OVERDRAWN)
}
