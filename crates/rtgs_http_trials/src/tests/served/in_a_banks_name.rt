//! What the operator asks for in a bank's name has the reply that the bank gets, and the bank's order is meant.
use super::super::test_desk::follows;
use std::test::Fail;

// ALFA and BETA have each an order of the same reference.
const SAME_REFERENCE: &str = r#"
OPERATOR POST /desk/batches/ALFA
reference,to,amount
X-1,GAMA,100
X-2,ALFA,5
-> 200 OK text/csv
reference,result,number,detail
X-1,queued,1,1
X-2,refused,,3

BETA POST /orders {"amount":90,"reference":"X-1","to":"GAMA"}
-> 200 OK {"answer":"queued","number":2,"place":1}

ALFA GET /queue
-> 200 OK {"orders":[{"amount":100,"number":1,"place":1,"reference":"X-1","to":"GAMA"}]}

OPERATOR GET /desk/queue/ALFA
-> 200 OK {"orders":[{"amount":100,"number":1,"place":1,"reference":"X-1","to":"GAMA"}]}

OPERATOR GET /desk/queue/BETA
-> 200 OK {"orders":[{"amount":90,"number":2,"place":1,"reference":"X-1","to":"GAMA"}]}

OPERATOR GET /desk/orders/BETA/X-1
-> 200 OK {"amount":90,"date":"2024-03-04","number":2,"reference":"X-1","state":"queued","to":"GAMA"}

OPERATOR POST /desk/orders/BETA/X-1/withdraw {}
-> 200 OK {"answer":"withdrawn","number":2}

BETA POST /orders/X-1/withdraw {}
-> 200 OK {"answer":"repeated","number":2,"state":"withdrawn"}

OPERATOR POST /desk/orders/BETA/X-1/withdraw {}
-> 200 OK {"answer":"repeated","number":2,"state":"withdrawn"}

ALFA GET /orders/X-1
-> 200 OK {"amount":100,"date":"2024-03-04","number":1,"reference":"X-1","state":"queued","to":"GAMA"}

OPERATOR GET /desk/statements/ALFA/2024-03-04
-> 200 OK text/plain
statement ALFA 2024-03-04
queued     000000001 X-1              GAMA                     1.00         -
sum-posted                           0.00
sum-sent                             0.00
sum-recv                             0.00
net                                  0.00

OPERATOR GET /desk/queue/GAMA
-> 200 OK {"orders":[]}
"#;

#[test]
fn the_operator_acts_for_one_bank(rt: HostRuntime) -> Result<(), Fail> {
    follows(rt.alloc(), SAME_REFERENCE)
}

// GAMA has no order, and nobody has the code ZETA.
const UNKNOWN: &str = r#"
OPERATOR GET /desk/orders/GAMA/X-1
-> 404 Not Found {"code":9,"name":"UnknownOrder"}

OPERATOR POST /desk/orders/GAMA/X-1/withdraw {}
-> 404 Not Found {"code":9,"name":"UnknownOrder"}

OPERATOR GET /desk/orders/ZETA/X-1
-> 404 Not Found {"code":1,"name":"UnknownParticipant"}

OPERATOR POST /desk/orders/ZETA/X-1/withdraw {}
-> 404 Not Found {"code":1,"name":"UnknownParticipant"}

OPERATOR GET /desk/queue/ZETA
-> 404 Not Found {"code":1,"name":"UnknownParticipant"}

OPERATOR GET /desk/held/ZETA
-> 404 Not Found {"code":1,"name":"UnknownParticipant"}

OPERATOR GET /desk/statements/ZETA/2024-03-04
-> 404 Not Found {"code":1,"name":"UnknownParticipant"}

OPERATOR POST /desk/batches/ZETA
reference,to,amount
X-1,ALFA,100
-> 200 OK text/csv
reference,result,number,detail
X-1,refused,,1
"#;

#[test]
fn orders_and_banks_that_are_not_there(rt: HostRuntime) -> Result<(), Fail> {
    follows(rt.alloc(), UNKNOWN)
}
