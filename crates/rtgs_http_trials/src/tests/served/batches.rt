//! Batches, their result files, and a store that fails in one.
use super::super::test_desk::{TestDesk, follows_after};
use rtgs_tests_desks::Trouble;
use std::alloc::Global;
use std::test::Fail;

// How many calls of its keeper a desk makes for a posting and two orders.
const BEFORE_THE_THIRD: usize = 6;

// ALFA can pay two of three orders.
const MONEY: &str = r#"
OPERATOR POST /desk/post {"cents":150,"code":"ALFA","reference":"P-1"}
-> 200 OK {"answer":"posted","number":1}
"#;

const TWICE: &str = r#"
ALFA POST /batches
reference,to,amount
A-1,BETA,100
A-2,GAMA,50
A-3,BETA,25
-> 200 OK text/csv
reference,result,number,detail
A-1,settled,1,1
A-2,settled,2,2
A-3,queued,3,1

ALFA POST /batches
reference,to,amount
A-1,BETA,100
A-2,GAMA,50
A-3,BETA,25
-> 200 OK text/csv
reference,result,number,detail
A-1,repeated,1,settled
A-2,repeated,2,settled
A-3,repeated,3,queued
"#;

#[test]
fn a_batch_and_the_same_again(rt: HostRuntime) -> Result<(), Fail> {
    follows_after(rt.alloc(), MONEY, TWICE)
}

const REFUSED: &str = r#"
ALFA POST /batches
reference,to,amount
A-1,BETA,100
A-2,ALFA,5
A-3,ZETA,5
A-1,BETA,99
"A-4",BETA,50
-> 200 OK text/csv
reference,result,number,detail
A-1,settled,1,1
A-2,refused,,3
A-3,refused,,2
A-1,refused,,4
A-4,settled,2,2
"#;

#[test]
fn refused_rows_stop_no_other(rt: HostRuntime) -> Result<(), Fail> {
    follows_after(rt.alloc(), MONEY, REFUSED)
}

// The store fails at the third row. A desk that has failed tells it to a bank and to the operator, and faults that need
// no book come before.
const STOPPED: &str = r#"
ALFA POST /batches
reference,to,amount
A-1,BETA,100
A-2,GAMA,50
A-3,BETA,25
-> 503 Service Unavailable text/csv
reference,result,number,detail
A-1,settled,1,1
A-2,settled,2,2
A-3,stopped,,91

ALFA POST /batches
reference,to,amount
A-1,BETA,100
A-2,GAMA,50
A-3,BETA,25
-> 503 Service Unavailable {"code":92,"name":"Failed"}

ALFA GET /account
-> 503 Service Unavailable {"code":92,"name":"Failed"}

OPERATOR POST /desk/resolve {}
-> 503 Service Unavailable {"code":92,"name":"Failed"}

OPERATOR POST /desk/resolve [
-> 400 Bad Request {"code":65,"name":"BadJson"}

ALFA GET /nothing
-> 404 Not Found {"code":67,"name":"NoSuchRoute"}
"#;

const RESTARTED: &str = r#"
ALFA POST /batches
reference,to,amount
A-1,BETA,100
A-2,GAMA,50
A-3,BETA,25
-> 200 OK text/csv
reference,result,number,detail
A-1,repeated,1,settled
A-2,repeated,2,settled
A-3,queued,3,1
"#;

// The store fails at the batch's third row, at this call of it, and the batch is sent again.
fn stops_at(alloc: Global, call: usize) -> Result<(), Fail> {
    let calls = BEFORE_THE_THIRD.saturating_add(call);
    let mut desk = TestDesk::troubled(alloc, calls, Trouble::Lost)?;
    desk.follow(MONEY)?;
    desk.follow(STOPPED)?;
    let mut desk = desk.restarted()?;
    desk.follow(RESTARTED)
}

// The row is looked up, and then kept.
#[test]
fn a_batch_that_stops_is_sent_again(rt: HostRuntime) -> Result<(), Fail> {
    stops_at(rt.alloc(), 0)?;
    stops_at(rt.alloc(), 1)
}
