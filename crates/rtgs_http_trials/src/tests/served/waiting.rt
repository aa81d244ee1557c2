//! Orders that wait, and how the desk stands, request by request.
use super::super::test_desk::{follows, follows_before_a_day};
use std::test::Fail;

// ALFA has a floor of -40. Of its held orders the second is due first.
const WAITING: &str = r#"
OPERATOR POST /desk/credit {"code":"ALFA","credit":40}
-> 200 OK {"answer":"credit set"}

ALFA GET /waiting
-> 200 OK {"headroom":40,"held":0,"held_value":0,"queued":0,"queued_value":0,"short":0}

ALFA POST /orders {"amount":60,"due":"2024-03-06","reference":"A-1","to":"BETA"}
-> 200 OK {"answer":"held","due":"2024-03-06","number":1}

ALFA POST /orders {"amount":7,"due":"2024-03-05","reference":"A-2","to":"GAMA"}
-> 200 OK {"answer":"held","due":"2024-03-05","number":2}

ALFA GET /held
-> 200 OK {"orders":[{"amount":7,"due":"2024-03-05","number":2,"reference":"A-2","to":"GAMA"},
{"amount":60,"due":"2024-03-06","number":1,"reference":"A-1","to":"BETA"}]}

BETA GET /held
-> 200 OK {"orders":[]}

OPERATOR GET /desk/held/ALFA
-> 200 OK {"orders":[{"amount":7,"due":"2024-03-05","number":2,"reference":"A-2","to":"GAMA"},
{"amount":60,"due":"2024-03-06","number":1,"reference":"A-1","to":"BETA"}]}

OPERATOR GET /desk/held/ABLE
-> 404 Not Found {"code":1,"name":"UnknownParticipant"}

ALFA POST /orders {"amount":30,"reference":"A-3","to":"BETA"}
-> 200 OK {"answer":"settled","mark":1,"number":3}

ALFA POST /orders {"amount":100,"reference":"A-4","to":"BETA"}
-> 200 OK {"answer":"queued","number":4,"place":1}

ALFA POST /orders {"amount":1,"reference":"A-5","to":"GAMA"}
-> 200 OK {"answer":"queued","number":5,"place":2}

ALFA GET /waiting
-> 200 OK {"first":{"amount":100,"number":4,"reference":"A-4","to":"BETA"},"headroom":10,"held":2,"held_value":67,
"queued":2,"queued_value":101,"short":90}

OPERATOR GET /desk/status
-> 200 OK {"automatic":false,"date":"2024-03-04","held":2,"held_value":67,"next_mark":2,"next_order":6,
"next_posting":1,"participants":3,"phase":"OPEN","queued":2,"queued_value":101,"sum":0,"tables":3,"version":"0.14.0"}

OPERATOR POST /desk/post {"cents":90,"code":"ALFA","reference":"P-1"}
-> 200 OK {"answer":"posted","number":1}

ALFA GET /waiting
-> 200 OK {"first":{"amount":100,"number":4,"reference":"A-4","to":"BETA"},"headroom":100,"held":2,"held_value":67,
"queued":2,"queued_value":101,"short":0}

ALFA GET /desk/status
-> 403 Forbidden {"code":68,"name":"NoKey"}
"#;

#[test]
fn orders_wait_for_a_reason(rt: HostRuntime) -> Result<(), Fail> {
    follows(rt.alloc(), WAITING)
}

const BEFORE: &str = r#"
OPERATOR GET /desk/status
-> 200 OK {"automatic":false,"held":0,"held_value":0,"next_mark":1,"next_order":1,"next_posting":1,"participants":3,
"phase":"CLOSED","queued":0,"queued_value":0,"sum":0,"tables":3,"version":"0.14.0"}

ALFA GET /waiting
-> 200 OK {"headroom":0,"held":0,"held_value":0,"queued":0,"queued_value":0,"short":0}

ALFA GET /held
-> 200 OK {"orders":[]}

OPERATOR POST /desk/open {"automatic":true,"date":"2024-03-04"}
-> 200 OK {"answer":"opened"}

OPERATOR GET /desk/status
-> 200 OK {"automatic":true,"date":"2024-03-04","held":0,"held_value":0,"next_mark":1,"next_order":1,"next_posting":1,
"participants":3,"phase":"OPEN","queued":0,"queued_value":0,"sum":0,"tables":3,"version":"0.14.0"}

OPERATOR POST /desk/cutoff {"date":"2024-03-04"}
-> 200 OK {"answer":"cut off"}

OPERATOR POST /desk/close {"date":"2024-03-04"}
-> 200 OK {"answer":"closed","rejected":0}

OPERATOR GET /desk/status
-> 200 OK {"automatic":false,"date":"2024-03-04","held":0,"held_value":0,"next_mark":1,"next_order":1,"next_posting":1,
"participants":3,"phase":"CLOSED","queued":0,"queued_value":0,"sum":0,"tables":3,"version":"0.14.0"}
"#;

#[test]
fn the_status_is_told_before_the_first_day(rt: HostRuntime) -> Result<(), Fail> {
    follows_before_a_day(rt.alloc(), BEFORE)
}
