//! An order for a later day, request by request.
use super::super::test_desk::follows;
use std::test::Fail;

// ALFA's order is held over a close, enters its queue, and is settled by a resolution.
const HELD: &str = r#"
OPERATOR POST /desk/post {"cents":100,"code":"ALFA","reference":"P-1"}
-> 200 OK {"answer":"posted","number":1}

ALFA POST /orders {"amount":60,"due":"2024-03-05","reference":"A-1","to":"BETA"}
-> 200 OK {"answer":"held","due":"2024-03-05","number":1}

ALFA POST /orders {"amount":50,"reference":"A-2","to":"BETA"}
-> 200 OK {"answer":"settled","mark":1,"number":2}

ALFA GET /account
-> 200 OK {"balance":50,"code":"ALFA","credit":0,"date":"2024-03-04","name":"Alfa Bank","phase":"OPEN","queued":0,
"queued_value":0}

ALFA POST /orders {"amount":60,"due":"2024-03-05","reference":"A-1","to":"BETA"}
-> 200 OK {"answer":"repeated","number":1,"state":"held"}

ALFA POST /orders {"amount":60,"reference":"A-1","to":"BETA"}
-> 409 Conflict {"code":4,"name":"ReferenceUsed"}

ALFA POST /orders {"amount":60,"due":"2024-03-04","reference":"A-4","to":"BETA"}
-> 409 Conflict {"code":20,"name":"DueNotLater"}

ALFA POST /orders {"amount":60,"due":"2024-03-09","reference":"A-4","to":"BETA"}
-> 409 Conflict {"code":16,"name":"Weekend"}

ALFA GET /orders/A-1
-> 200 OK {"amount":60,"date":"2024-03-05","due":"2024-03-05","number":1,"reference":"A-1","state":"held","to":"BETA"}

BETA GET /orders/A-1
-> 404 Not Found {"code":9,"name":"UnknownOrder"}

ALFA GET /queue
-> 200 OK {"orders":[]}

OPERATOR POST /desk/cutoff {"date":"2024-03-04"}
-> 200 OK {"answer":"cut off"}

OPERATOR POST /desk/close {"date":"2024-03-04"}
-> 200 OK {"answer":"closed","rejected":0}

ALFA GET /statements/2024-03-05
-> 200 OK text/plain
statement ALFA 2024-03-05
held       000000001 A-1              BETA                     0.60         -
sum-posted                           0.00
sum-sent                             0.00
sum-recv                             0.00
net                                  0.00

OPERATOR POST /desk/open {"date":"2024-03-05"}
-> 200 OK {"answer":"opened"}

ALFA GET /queue
-> 200 OK {"orders":[{"amount":60,"number":1,"place":1,"reference":"A-1","to":"BETA"}]}

ALFA POST /orders {"amount":10,"reference":"A-3","to":"GAMA"}
-> 200 OK {"answer":"queued","number":3,"place":2}

OPERATOR POST /desk/resolve {}
-> 200 OK {"answer":"nothing"}

OPERATOR POST /desk/post {"cents":10,"code":"ALFA","reference":"P-2"}
-> 200 OK {"answer":"posted","number":2}

OPERATOR POST /desk/resolve {}
-> 200 OK {"answer":"resolved","count":1,"mark":2,"value":60}

ALFA GET /orders/A-1
-> 200 OK {"amount":60,"date":"2024-03-05","due":"2024-03-05","mark":2,"number":1,"reference":"A-1","state":"settled",
"to":"BETA"}

ALFA GET /account
-> 200 OK {"balance":0,"code":"ALFA","credit":0,"date":"2024-03-05","name":"Alfa Bank","phase":"OPEN","queued":1,
"queued_value":10}

BETA GET /account
-> 200 OK {"balance":110,"code":"BETA","credit":0,"date":"2024-03-05","name":"Beta Bank","phase":"OPEN","queued":0,
"queued_value":0}
"#;

#[test]
fn a_held_order_enters_its_queue_when_its_day_opens(rt: HostRuntime) -> Result<(), Fail> {
    follows(rt.alloc(), HELD)
}

// ALFA's order enters its queue on its day, and is rejected as that day closes.
const REJECTED: &str = r#"
ALFA POST /orders {"amount":60,"due":"2024-03-05","reference":"A-1","to":"BETA"}
-> 200 OK {"answer":"held","due":"2024-03-05","number":1}

OPERATOR POST /desk/cutoff {"date":"2024-03-04"}
-> 200 OK {"answer":"cut off"}

OPERATOR POST /desk/close {"date":"2024-03-04"}
-> 200 OK {"answer":"closed","rejected":0}

OPERATOR POST /desk/open {"date":"2024-03-05"}
-> 200 OK {"answer":"opened"}

OPERATOR POST /desk/cutoff {"date":"2024-03-05"}
-> 200 OK {"answer":"cut off"}

OPERATOR POST /desk/close {"date":"2024-03-05"}
-> 200 OK {"answer":"closed","rejected":1}

ALFA GET /orders/A-1
-> 200 OK {"amount":60,"date":"2024-03-05","due":"2024-03-05","number":1,"reference":"A-1","state":"rejected",
"to":"BETA"}

ALFA GET /statements/2024-03-05
-> 200 OK text/plain
statement ALFA 2024-03-05
rejected   000000001 A-1              BETA                     0.60         -
sum-posted                           0.00
sum-sent                             0.00
sum-recv                             0.00
net                                  0.00
"#;

#[test]
fn a_rejected_order_with_a_due_date_is_read(rt: HostRuntime) -> Result<(), Fail> {
    follows(rt.alloc(), REJECTED)
}

// A held order is withdrawn while no day is open, and again; its file comes again too.
const WITHDRAWN: &str = r#"
ALFA POST /batches
reference,to,amount,due
A-1,BETA,60,2024-03-05
A-2,BETA,5,
-> 200 OK text/csv
reference,result,number,detail
A-1,held,1,2024-03-05
A-2,queued,2,1

OPERATOR POST /desk/cutoff {"date":"2024-03-04"}
-> 200 OK {"answer":"cut off"}

OPERATOR POST /desk/close {"date":"2024-03-04"}
-> 200 OK {"answer":"closed","rejected":1}

ALFA POST /orders/A-1/withdraw {}
-> 200 OK {"answer":"withdrawn","number":1}

ALFA POST /orders/A-1/withdraw {}
-> 200 OK {"answer":"repeated","number":1,"state":"withdrawn"}

ALFA POST /batches
reference,to,amount,due
A-1,BETA,60,2024-03-05
A-2,BETA,5,
-> 200 OK text/csv
reference,result,number,detail
A-1,repeated,1,withdrawn
A-2,repeated,2,rejected

OPERATOR POST /desk/open {"date":"2024-03-05"}
-> 200 OK {"answer":"opened"}

ALFA GET /queue
-> 200 OK {"orders":[]}
"#;

#[test]
fn a_held_order_is_withdrawn_while_no_day_is_open(rt: HostRuntime) -> Result<(), Fail> {
    follows(rt.alloc(), WITHDRAWN)
}
