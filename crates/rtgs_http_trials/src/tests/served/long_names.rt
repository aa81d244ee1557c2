//! A bank with the longest code and name, and an order with the longest reference.
use super::super::requests::ZETA;
use super::super::test_desk::TestDesk;
use std::test::Fail;

// JSON escapes a quote and a backslash.
const ORDERS: &str = r#"
ZETA GET /account
-> 200 OK {"balance":0,"code":"ZETA1234","credit":0,"date":"2024-03-04",
"name":"Zeta \"Z\" \\ Z/Z, a bank with a long name~","phase":"OPEN","queued":0,"queued_value":0}

ZETA POST /orders {"amount":1000000000000,"reference":"Z-34567890123456","to":"ALFA"}
-> 200 OK {"answer":"queued","number":1,"place":1}

ZETA GET /orders/Z-34567890123456
-> 200 OK {"amount":1000000000000,"date":"2024-03-04","number":1,"reference":"Z-34567890123456","state":"queued",
"to":"ALFA"}

ALFA POST /orders {"amount":1,"reference":"A-1","to":"ZETA1234"}
-> 200 OK {"answer":"queued","number":2,"place":1}

ZETA GET /statements/2024-03-04
-> 200 OK text/plain
statement ZETA1234 2024-03-04
queued     000000001 Z-34567890123456 ALFA           10000000000.00         -
sum-posted                           0.00
sum-sent                             0.00
sum-recv                             0.00
net                                  0.00

ALFA GET /statements/2024-03-04
-> 200 OK text/plain
statement ALFA 2024-03-04
queued     000000002 A-1              ZETA1234                 0.01         -
sum-posted                           0.00
sum-sent                             0.00
sum-recv                             0.00
net                                  0.00

OPERATOR GET /desk/report/2024-03-04
-> 200 OK text/plain
report 2024-03-04
ALFA                               0.00                           0.00                           0.00
BETA                               0.00                           0.00                           0.00
GAMA                               0.00                           0.00                           0.00
ZETA1234                           0.00                           0.00                           0.00
settled            0                           0.00
queued             2                 10000000000.01
held               0                           0.00
withdrawn          0                           0.00
rejected           0                           0.00
marks              0
"#;

#[test]
fn the_longest_names_are_shown_whole(rt: HostRuntime) -> Result<(), Fail> {
    let mut desk = TestDesk::open(rt.alloc())?;
    desk.add(
        "ZETA1234",
        r#"Zeta "Z" \ Z/Z, a bank with a long name~"#,
        ZETA,
    )?;
    desk.follow(ORDERS)
}
