//! Queues that wait for others, and a queue that is full.
use super::super::test_desk::{TestDesk, follows};
use std::alloc::Global;
use std::test::Fail;

const DEADLOCK: &str = r#"
ALFA POST /orders {"amount":100,"reference":"A-1","to":"BETA"}
-> 200 OK {"answer":"queued","number":1,"place":1}

BETA POST /orders {"amount":90,"reference":"B-1","to":"GAMA"}
-> 200 OK {"answer":"queued","number":2,"place":1}

OPERATOR POST /desk/resolve {}
-> 200 OK {"answer":"nothing"}

OPERATOR POST /desk/cutoff {"date":"2024-03-04"}
-> 200 OK {"answer":"cut off"}

OPERATOR POST /desk/close {"date":"2024-03-04"}
-> 200 OK {"answer":"closed","rejected":2}

OPERATOR POST /desk/close {"date":"2024-03-04"}
-> 200 OK {"answer":"repeated"}

BETA GET /orders/B-1
-> 200 OK {"amount":90,"date":"2024-03-04","number":2,"reference":"B-1","state":"rejected","to":"GAMA"}
"#;

#[test]
fn a_deadlock_is_rejected_at_the_close(rt: HostRuntime) -> Result<(), Fail> {
    follows(rt.alloc(), DEADLOCK)
}

// The second order would be covered, and waits for the first until that is withdrawn.
const NO_BYPASS: &str = r#"
OPERATOR POST /desk/post {"cents":100,"code":"ALFA","reference":"P-1"}
-> 200 OK {"answer":"posted","number":1}

ALFA POST /orders {"amount":150,"reference":"A-1","to":"BETA"}
-> 200 OK {"answer":"queued","number":1,"place":1}

ALFA POST /orders {"amount":20,"reference":"A-2","to":"BETA"}
-> 200 OK {"answer":"queued","number":2,"place":2}

OPERATOR POST /desk/resolve {}
-> 200 OK {"answer":"nothing"}

ALFA POST /orders/A-1/withdraw {}
-> 200 OK {"answer":"withdrawn","number":1}

ALFA GET /queue
-> 200 OK {"orders":[{"amount":20,"number":2,"place":1,"reference":"A-2","to":"BETA"}]}

OPERATOR POST /desk/resolve {}
-> 200 OK {"answer":"resolved","count":1,"mark":1,"value":20}
"#;

#[test]
fn no_order_passes_another(rt: HostRuntime) -> Result<(), Fail> {
    follows(rt.alloc(), NO_BYPASS)
}

/// ALFA's request of a file of this many orders.
pub fn file_of(alloc: Global, count: u32) -> Result<String, Fail> {
    let mut file = String::from_str(alloc, "ALFA POST /batches\nreference,to,amount")?;
    for number in 1..=count {
        let row = format!(in alloc; "\nQ-{number},BETA,2")?;
        file.push_str(row.as_str())?;
    }
    Ok(file)
}

/// The reply with the results of this many orders that are queued.
pub fn results_of(alloc: Global, count: u32) -> Result<String, Fail> {
    let mut results = String::from_str(alloc, "200 OK text/csv\nreference,result,number,detail")?;
    for number in 1..=count {
        let row = format!(in alloc; "\nQ-{number},queued,{number},{number}")?;
        results.push_str(row.as_str())?;
    }
    Ok(results)
}

#[test]
fn a_file_has_500_rows_at_most(rt: HostRuntime) -> Result<(), Fail> {
    let file = file_of(rt.alloc(), 501)?;
    let mut desk = TestDesk::open(rt.alloc())?;
    desk.is_answered(
        file.as_str(),
        r#"400 Bad Request {"code":42,"name":"BadCount"}"#,
    )?;
    desk.is_answered("ALFA GET /queue", r#"200 OK {"orders":[]}"#)
}

// What a queue of 500 orders takes.
const FULL: &str = r#"
ALFA POST /orders {"amount":1,"reference":"A-1","to":"BETA"}
-> 409 Conflict {"code":7,"name":"QueueFull"}

ALFA POST /orders/Q-1/withdraw {}
-> 200 OK {"answer":"withdrawn","number":1}

ALFA POST /orders {"amount":1,"reference":"A-1","to":"BETA"}
-> 200 OK {"answer":"queued","number":501,"place":500}

ALFA GET /account
-> 200 OK {"balance":0,"code":"ALFA","credit":0,"date":"2024-03-04","name":"Alfa Bank","phase":"OPEN","queued":500,
"queued_value":999}
"#;

#[test]
fn a_queue_has_500_orders_at_most(rt: HostRuntime) -> Result<(), Fail> {
    let file = file_of(rt.alloc(), 500)?;
    let results = results_of(rt.alloc(), 500)?;
    let mut desk = TestDesk::open(rt.alloc())?;
    desk.is_answered(file.as_str(), results.as_str())?;
    desk.follow(FULL)
}
