//! Orders that wait for each other, request by request; and the texts of a day with a gridlock of which a part settles.
use super::super::test_desk::{follows, follows_after};
use super::scenarios::script_of;
use rtgs_tests_desks::{GRIDLOCKS, ensure};
use std::test::Fail;

#[test]
fn a_served_desk_does_what_each_scenario_says(rt: HostRuntime) -> Result<(), Fail> {
    let mut count = 0usize;
    for scenario in GRIDLOCKS {
        let script = script_of(rt.alloc(), scenario)?;
        follows(rt.alloc(), script.as_str())?;
        count = count.saturating_add(1);
    }
    ensure(count == 8)
}

const ORDERS: &str = r#"
OPERATOR POST /desk/post {"cents":10,"code":"ALFA","reference":"P-1"}
-> 200 OK {"answer":"posted","number":1}

ALFA POST /orders {"amount":60,"reference":"A-1","to":"BETA"}
-> 200 OK {"answer":"queued","number":1,"place":1}

ALFA POST /orders {"amount":10,"reference":"A-2","to":"GAMA"}
-> 200 OK {"answer":"queued","number":2,"place":2}

BETA POST /orders {"amount":50,"reference":"B-1","to":"ALFA"}
-> 200 OK {"answer":"queued","number":3,"place":1}

BETA POST /orders {"amount":20,"reference":"B-2","to":"GAMA"}
-> 200 OK {"answer":"queued","number":4,"place":2}

GAMA POST /orders {"amount":5,"reference":"C-1","to":"ALFA"}
-> 200 OK {"answer":"queued","number":5,"place":1}

OPERATOR POST /desk/resolve {}
-> 200 OK {"answer":"resolved","count":2,"mark":1,"value":110}
"#;

const RESOLVED: &str = r#"
BETA GET /account
-> 200 OK {"balance":10,"code":"BETA","credit":0,"date":"2024-03-04","name":"Beta Bank","phase":"OPEN","queued":1,
"queued_value":20}

ALFA GET /queue
-> 200 OK {"orders":[{"amount":10,"number":2,"place":1,"reference":"A-2","to":"GAMA"}]}

ALFA POST /orders {"amount":60,"reference":"A-1","to":"BETA"}
-> 200 OK {"answer":"repeated","mark":1,"number":1,"state":"settled"}

BETA GET /orders/B-1
-> 200 OK {"amount":50,"date":"2024-03-04","mark":1,"number":3,"reference":"B-1","state":"settled","to":"ALFA"}

ALFA GET /statements/2024-03-04
-> 200 OK text/plain
statement ALFA 2024-03-04
posting    000000001 P-1              -                        0.10         -
sent       000000001 A-1              BETA                     0.60         1
queued     000000002 A-2              GAMA                     0.10         -
received   000000003 B-1              BETA                     0.50         1
sum-posted                           0.10
sum-sent                             0.60
sum-recv                             0.50
net                                  0.00

OPERATOR GET /desk/report/2024-03-04
-> 200 OK text/plain
report 2024-03-04
ALFA                               0.10                           0.60                           0.50
BETA                               0.00                           0.50                           0.60
GAMA                               0.00                           0.00                           0.00
settled            2                           1.10
queued             3                           0.35
held               0                           0.00
withdrawn          0                           0.00
rejected           0                           0.00
marks              1
"#;

#[test]
fn a_part_of_a_gridlock_settles(rt: HostRuntime) -> Result<(), Fail> {
    follows_after(rt.alloc(), ORDERS, RESOLVED)
}

// What is posted after the close is of the last day.
const CLOSING: &str = r#"
OPERATOR POST /desk/cutoff {"date":"2024-03-04"}
-> 200 OK {"answer":"cut off"}

ALFA POST /orders/A-2/withdraw {}
-> 200 OK {"answer":"withdrawn","number":2}

OPERATOR POST /desk/close {"date":"2024-03-04"}
-> 200 OK {"answer":"closed","rejected":2}

OPERATOR POST /desk/post {"cents":5,"code":"GAMA","reference":"P-2"}
-> 200 OK {"answer":"posted","number":2}

OPERATOR POST /desk/post {"cents":-5,"code":"GAMA","reference":"P-3"}
-> 200 OK {"answer":"posted","number":3}

BETA GET /statements/2024-03-04
-> 200 OK text/plain
statement BETA 2024-03-04
received   000000001 A-1              ALFA                     0.60         1
sent       000000003 B-1              ALFA                     0.50         1
rejected   000000004 B-2              GAMA                     0.20         -
sum-posted                           0.00
sum-sent                             0.50
sum-recv                             0.60
net                                  0.10

GAMA GET /statements/2024-03-04
-> 200 OK text/plain
statement GAMA 2024-03-04
posting    000000002 P-2              -                        0.05         -
posting    000000003 P-3              -                       -0.05         -
rejected   000000005 C-1              ALFA                     0.05         -
sum-posted                           0.00
sum-sent                             0.00
sum-recv                             0.00
net                                  0.00

ALFA GET /statements/2024-03-05
-> 200 OK text/plain
statement ALFA 2024-03-05
sum-posted                           0.00
sum-sent                             0.00
sum-recv                             0.00
net                                  0.00

OPERATOR GET /desk/report/2024-03-04
-> 200 OK text/plain
report 2024-03-04
ALFA                               0.10                           0.60                           0.50
BETA                               0.00                           0.50                           0.60
GAMA                               0.00                           0.00                           0.00
settled            2                           1.10
queued             0                           0.00
held               0                           0.00
withdrawn          1                           0.10
rejected           2                           0.25
marks              1
"#;

#[test]
fn what_is_read_after_the_close(rt: HostRuntime) -> Result<(), Fail> {
    follows_after(rt.alloc(), ORDERS, CLOSING)
}
