//! A bank acts on its own orders alone, whatever their references are.
use super::super::test_desk::follows;
use std::test::Fail;

// ALFA and BETA have each an order of the same reference.
const SAME_REFERENCE: &str = r#"
ALFA POST /orders {"amount":100,"reference":"X-1","to":"GAMA"}
-> 200 OK {"answer":"queued","number":1,"place":1}

BETA GET /orders/X-1
-> 404 Not Found {"code":9,"name":"UnknownOrder"}

BETA POST /orders/X-1/withdraw {}
-> 404 Not Found {"code":9,"name":"UnknownOrder"}

GAMA GET /orders/X-1
-> 404 Not Found {"code":9,"name":"UnknownOrder"}

BETA POST /orders {"amount":90,"reference":"X-1","to":"GAMA"}
-> 200 OK {"answer":"queued","number":2,"place":1}

BETA POST /orders/X-1/withdraw {}
-> 200 OK {"answer":"withdrawn","number":2}

ALFA GET /orders/X-1
-> 200 OK {"amount":100,"date":"2024-03-04","number":1,"reference":"X-1","state":"queued","to":"GAMA"}

BETA GET /orders/X-1
-> 200 OK {"amount":90,"date":"2024-03-04","number":2,"reference":"X-1","state":"withdrawn","to":"GAMA"}

ALFA POST /orders/X-1/withdraw {}
-> 200 OK {"answer":"withdrawn","number":1}
"#;

#[test]
fn two_orders_of_one_reference(rt: HostRuntime) -> Result<(), Fail> {
    follows(rt.alloc(), SAME_REFERENCE)
}
