//! Days on which a resolution follows each command that may let orders settle, request by request.
use super::super::test_desk::{TestDesk, add_banks, follows, follows_before_a_day};
use rtgs_tests_desks::Trouble;
use std::alloc::Global;
use std::test::Fail;

const OPENED: &str = r#"
OPERATOR POST /desk/open {"automatic":true,"date":"2024-03-04"}
-> 200 OK {"answer":"opened"}
"#;

// A desk of three banks on a Monday that is automatic. After this many calls of its keeper one meets this trouble.
fn troubled(alloc: Global, calls: usize, trouble: Trouble) -> Result<TestDesk, Fail> {
    let mut desk = TestDesk::new(alloc, calls, trouble)?;
    add_banks(&mut desk.desk)?;
    desk.follow(OPENED)?;
    Ok(desk)
}

// A desk of three banks on a Monday that is automatic follows this script.
fn follows_on(alloc: Global, script: &str) -> Result<(), Fail> {
    let mut desk = troubled(alloc, usize::MAX, Trouble::Lost)?;
    desk.follow(script)
}

// Two orders of a ring, none of which is covered.
const TWO_OF_A_RING: &str = r#"
ALFA POST /orders {"amount":100,"reference":"A-1","to":"BETA"}
-> 200 OK {"answer":"queued","number":1,"place":1}

BETA POST /orders {"amount":100,"reference":"B-1","to":"GAMA"}
-> 200 OK {"answer":"queued","number":2,"place":1}
"#;

// The third one closes the ring. Its answer is its own, with what was settled right after it.
const RING: &str = r#"
ALFA POST /orders {"amount":100,"reference":"A-1","to":"BETA"}
-> 200 OK {"answer":"queued","number":1,"place":1}

BETA POST /orders {"amount":100,"reference":"B-1","to":"GAMA"}
-> 200 OK {"answer":"queued","number":2,"place":1}

RAW POST /orders HTTP/1.1\r\n
desk-key: 0000000000000000000000000000000c\r\n
Content-Length: 44\r\n
\r\n
{"amount":100,"reference":"C-1","to":"ALFA"}
-> RAW HTTP/1.1 200 OK\r\n
Content-Type: application/json\r\n
Content-Length: 80\r\n
Connection: close\r\n
\r\n
{"answer":"queued","auto":{"count":3,"mark":1,"value":300},"number":3,"place":1}

RAW POST /orders HTTP/1.1\r\n
desk-key: 0000000000000000000000000000000c\r\n
Content-Length: 44\r\n
\r\n
{"amount":100,"reference":"C-1","to":"ALFA"}
-> RAW HTTP/1.1 200 OK\r\n
Content-Type: application/json\r\n
Content-Length: 59\r\n
Connection: close\r\n
\r\n
{"answer":"repeated","mark":1,"number":3,"state":"settled"}

ALFA GET /orders/A-1
-> 200 OK {"amount":100,"date":"2024-03-04","mark":1,"number":1,"reference":"A-1","state":"settled","to":"BETA"}

GAMA GET /queue
-> 200 OK {"orders":[]}

OPERATOR POST /desk/resolve {}
-> 200 OK {"answer":"nothing"}
"#;

#[test]
fn an_order_that_closes_a_ring(rt: HostRuntime) -> Result<(), Fail> {
    follows_on(rt.alloc(), RING)
}

// The third order frees the first, and itself. What is left is a deadlock, and the orders after it free nothing.
const CASCADE: &str = r#"
OPERATOR POST /desk/post {"cents":10,"code":"ALFA","reference":"P-1"}
-> 200 OK {"answer":"posted","number":1}

ALFA POST /orders {"amount":60,"reference":"A-1","to":"BETA"}
-> 200 OK {"answer":"queued","number":1,"place":1}

ALFA POST /orders {"amount":10,"reference":"A-2","to":"GAMA"}
-> 200 OK {"answer":"queued","number":2,"place":2}

BETA POST /orders {"amount":50,"reference":"B-1","to":"ALFA"}
-> 200 OK {"answer":"queued","auto":{"count":2,"mark":1,"value":110},"number":3,"place":1}

ALFA GET /account
-> 200 OK {"balance":0,"code":"ALFA","credit":0,"date":"2024-03-04","name":"Alfa Bank","phase":"OPEN","queued":1,
"queued_value":10}

BETA GET /account
-> 200 OK {"balance":10,"code":"BETA","credit":0,"date":"2024-03-04","name":"Beta Bank","phase":"OPEN","queued":0,
"queued_value":0}

GAMA GET /account
-> 200 OK {"balance":0,"code":"GAMA","credit":0,"date":"2024-03-04","name":"Gama Bank","phase":"OPEN","queued":0,
"queued_value":0}

BETA POST /orders {"amount":20,"reference":"B-2","to":"GAMA"}
-> 200 OK {"answer":"queued","number":4,"place":1}

GAMA POST /orders {"amount":5,"reference":"C-1","to":"ALFA"}
-> 200 OK {"answer":"queued","number":5,"place":1}

OPERATOR POST /desk/resolve {}
-> 200 OK {"answer":"nothing"}

OPERATOR GET /desk/report/2024-03-04
-> 200 OK text/plain
report 2024-03-04
ALFA                               0.10                           0.60                           0.50
BETA                               0.00                           0.50                           0.60
GAMA                               0.00                           0.00                           0.00
settled            2                           1.10
queued             3                           0.35
held               0                           0.00
withdrawn          0                           0.00
rejected           0                           0.00
marks              1
"#;

#[test]
fn an_order_that_frees_another(rt: HostRuntime) -> Result<(), Fail> {
    follows_on(rt.alloc(), CASCADE)
}

// BETA's order settles at once, and frees ALFA's under a mark of its own.
const TWO_MARKS: &str = r#"
OPERATOR POST /desk/post {"cents":30,"code":"BETA","reference":"P-1"}
-> 200 OK {"answer":"posted","number":1}

ALFA POST /orders {"amount":20,"reference":"A-1","to":"GAMA"}
-> 200 OK {"answer":"queued","number":1,"place":1}

BETA POST /orders {"amount":30,"reference":"B-1","to":"ALFA"}
-> 200 OK {"answer":"settled","auto":{"count":1,"mark":2,"value":20},"mark":1,"number":2}

BETA POST /orders {"amount":30,"reference":"B-1","to":"ALFA"}
-> 200 OK {"answer":"repeated","mark":1,"number":2,"state":"settled"}

ALFA GET /account
-> 200 OK {"balance":10,"code":"ALFA","credit":0,"date":"2024-03-04","name":"Alfa Bank","phase":"OPEN","queued":0,
"queued_value":0}

BETA GET /account
-> 200 OK {"balance":0,"code":"BETA","credit":0,"date":"2024-03-04","name":"Beta Bank","phase":"OPEN","queued":0,
"queued_value":0}

GAMA GET /account
-> 200 OK {"balance":20,"code":"GAMA","credit":0,"date":"2024-03-04","name":"Gama Bank","phase":"OPEN","queued":0,
"queued_value":0}
"#;

#[test]
fn an_order_that_settles_and_frees_another(rt: HostRuntime) -> Result<(), Fail> {
    follows_on(rt.alloc(), TWO_MARKS)
}

// A posting, a credit limit and a withdrawal free orders. Each again, a refusal, and one that frees none tell nothing
// more.
const FREED: &str = r#"
ALFA POST /orders {"amount":100,"reference":"A-1","to":"BETA"}
-> 200 OK {"answer":"queued","number":1,"place":1}

OPERATOR POST /desk/post {"cents":100,"code":"ALFA","reference":"P-1"}
-> 200 OK {"answer":"posted","auto":{"count":1,"mark":1,"value":100},"number":1}

OPERATOR POST /desk/post {"cents":100,"code":"ALFA","reference":"P-1"}
-> 200 OK {"answer":"repeated","number":1}

OPERATOR POST /desk/post {"cents":-100,"code":"BETA","reference":"P-2"}
-> 200 OK {"answer":"posted","number":2}

GAMA POST /orders {"amount":7,"reference":"C-1","to":"ALFA"}
-> 200 OK {"answer":"queued","number":2,"place":1}

OPERATOR POST /desk/credit {"code":"GAMA","credit":6}
-> 200 OK {"answer":"credit set"}

OPERATOR POST /desk/credit {"code":"GAMA","credit":7}
-> 200 OK {"answer":"credit set","auto":{"count":1,"mark":2,"value":7}}

OPERATOR POST /desk/credit {"code":"GAMA","credit":7}
-> 200 OK {"answer":"credit set"}

OPERATOR POST /desk/credit {"code":"GAMA","credit":6}
-> 409 Conflict {"code":6,"name":"NoCover"}

ALFA POST /orders {"amount":50,"reference":"A-2","to":"BETA"}
-> 200 OK {"answer":"queued","number":3,"place":1}

ALFA POST /orders {"amount":7,"reference":"A-3","to":"GAMA"}
-> 200 OK {"answer":"queued","number":4,"place":2}

ALFA POST /orders/A-2/withdraw {}
-> 200 OK {"answer":"withdrawn","auto":{"count":1,"mark":3,"value":7},"number":3}

ALFA POST /orders/A-2/withdraw {}
-> 200 OK {"answer":"repeated","number":3,"state":"withdrawn"}

ALFA POST /orders/A-3/withdraw {}
-> 409 Conflict {"code":17,"name":"NotQueued"}
"#;

#[test]
fn what_a_posting_a_limit_and_a_withdrawal_free(rt: HostRuntime) -> Result<(), Fail> {
    follows_on(rt.alloc(), FREED)
}

// After the cut-off too. What is left at the close is no gridlock.
const CUT_OFF: &str = r#"
OPERATOR POST /desk/post {"cents":50,"code":"ALFA","reference":"P-1"}
-> 200 OK {"answer":"posted","number":1}

ALFA POST /orders {"amount":100,"reference":"A-1","to":"BETA"}
-> 200 OK {"answer":"queued","number":1,"place":1}

ALFA POST /orders {"amount":50,"reference":"A-2","to":"BETA"}
-> 200 OK {"answer":"queued","number":2,"place":2}

GAMA POST /orders {"amount":5,"reference":"C-1","to":"ALFA"}
-> 200 OK {"answer":"queued","number":3,"place":1}

OPERATOR POST /desk/cutoff {"date":"2024-03-04"}
-> 200 OK {"answer":"cut off"}

OPERATOR POST /desk/open {"automatic":true,"date":"2024-03-04"}
-> 409 Conflict {"code":14,"name":"WrongPhase"}

ALFA POST /orders/A-1/withdraw {}
-> 200 OK {"answer":"withdrawn","auto":{"count":1,"mark":1,"value":50},"number":1}

OPERATOR POST /desk/close {"date":"2024-03-04"}
-> 200 OK {"answer":"closed","rejected":1}

OPERATOR POST /desk/post {"cents":5,"code":"GAMA","reference":"P-2"}
-> 200 OK {"answer":"posted","number":2}

GAMA GET /orders/C-1
-> 200 OK {"amount":5,"date":"2024-03-04","number":3,"reference":"C-1","state":"rejected","to":"ALFA"}
"#;

#[test]
fn what_is_freed_after_the_cut_off(rt: HostRuntime) -> Result<(), Fail> {
    follows_on(rt.alloc(), CUT_OFF)
}

// Held orders enter their queues as an automatic day opens, and those that can settle do. The day after is as it is
// opened: in it the orders of the ring wait.
const HELD: &str = r#"
ALFA POST /orders {"amount":60,"due":"2024-03-05","reference":"A-1","to":"BETA"}
-> 200 OK {"answer":"held","due":"2024-03-05","number":1}

BETA POST /orders {"amount":60,"due":"2024-03-05","reference":"B-1","to":"ALFA"}
-> 200 OK {"answer":"held","due":"2024-03-05","number":2}

GAMA POST /orders {"amount":1,"due":"2024-03-05","reference":"C-1","to":"ALFA"}
-> 200 OK {"answer":"held","due":"2024-03-05","number":3}

OPERATOR POST /desk/cutoff {"date":"2024-03-04"}
-> 200 OK {"answer":"cut off"}

OPERATOR POST /desk/close {"date":"2024-03-04"}
-> 200 OK {"answer":"closed","rejected":0}

OPERATOR POST /desk/open {"automatic":true,"date":"2024-03-05"}
-> 200 OK {"answer":"opened","auto":{"count":2,"mark":1,"value":120}}

OPERATOR POST /desk/open {"automatic":true,"date":"2024-03-05"}
-> 200 OK {"answer":"repeated"}

ALFA GET /orders/A-1
-> 200 OK {"amount":60,"date":"2024-03-05","due":"2024-03-05","mark":1,"number":1,"reference":"A-1","state":"settled",
"to":"BETA"}

GAMA GET /queue
-> 200 OK {"orders":[{"amount":1,"number":3,"place":1,"reference":"C-1","to":"ALFA"}]}

OPERATOR POST /desk/cutoff {"date":"2024-03-05"}
-> 200 OK {"answer":"cut off"}

OPERATOR POST /desk/close {"date":"2024-03-05"}
-> 200 OK {"answer":"closed","rejected":1}

OPERATOR POST /desk/open {"date":"2024-03-06"}
-> 200 OK {"answer":"opened"}

ALFA POST /orders {"amount":60,"reference":"A-2","to":"BETA"}
-> 200 OK {"answer":"queued","number":4,"place":1}

BETA POST /orders {"amount":60,"reference":"B-2","to":"ALFA"}
-> 200 OK {"answer":"queued","number":5,"place":1}

OPERATOR POST /desk/resolve {}
-> 200 OK {"answer":"resolved","count":2,"mark":2,"value":120}
"#;

#[test]
fn held_orders_that_settle_as_their_day_opens(rt: HostRuntime) -> Result<(), Fail> {
    follows_on(rt.alloc(), HELD)
}

// The choice of a day that is open stands.
const OTHER_CHOICE: &str = r#"
OPERATOR POST /desk/open {"automatic":false,"date":"2024-03-04"}
-> 409 Conflict {"code":14,"name":"WrongPhase"}

OPERATOR POST /desk/open {"date":"2024-03-04"}
-> 409 Conflict {"code":14,"name":"WrongPhase"}

OPERATOR POST /desk/open {"automatic":true,"date":"2024-03-05"}
-> 409 Conflict {"code":14,"name":"WrongPhase"}

OPERATOR POST /desk/open {"automatic":true,"date":"2024-03-04"}
-> 200 OK {"answer":"repeated"}
"#;

const OTHER_CHOICE_ON_A_PLAIN_DAY: &str = r#"
OPERATOR POST /desk/open {"automatic":true,"date":"2024-03-04"}
-> 409 Conflict {"code":14,"name":"WrongPhase"}

OPERATOR POST /desk/open {"automatic":false,"date":"2024-03-04"}
-> 200 OK {"answer":"repeated"}

OPERATOR POST /desk/open {"date":"2024-03-04"}
-> 200 OK {"answer":"repeated"}
"#;

#[test]
fn an_open_day_keeps_its_choice(rt: HostRuntime) -> Result<(), Fail> {
    follows_on(rt.alloc(), OTHER_CHOICE)?;
    follows(rt.alloc(), OTHER_CHOICE_ON_A_PLAIN_DAY)
}

// On a plain day nothing follows a command, whether the choice is said or not.
const PLAIN: &str = r#"
OPERATOR POST /desk/open {"automatic":false,"date":"2024-03-04"}
-> 200 OK {"answer":"opened"}

OPERATOR POST /desk/open {"date":"2024-03-04"}
-> 200 OK {"answer":"repeated"}

ALFA POST /orders {"amount":10,"reference":"A-1","to":"BETA"}
-> 200 OK {"answer":"queued","number":1,"place":1}

OPERATOR POST /desk/post {"cents":10,"code":"ALFA","reference":"P-1"}
-> 200 OK {"answer":"posted","number":1}

OPERATOR POST /desk/resolve {}
-> 200 OK {"answer":"resolved","count":1,"mark":1,"value":10}
"#;

#[test]
fn nothing_follows_on_a_plain_day(rt: HostRuntime) -> Result<(), Fail> {
    follows_before_a_day(rt.alloc(), PLAIN)
}

// A result file has what each order is answered by itself. Sent again, it tells what became of them.
const BATCHES: &str = r#"
ALFA POST /batches
reference,to,amount
A-1,BETA,100
-> 200 OK text/csv
reference,result,number,detail
A-1,queued,1,1

BETA POST /batches
reference,to,amount
B-1,ALFA,100
B-2,ALFA,30
-> 200 OK text/csv
reference,result,number,detail
B-1,queued,2,1
B-2,queued,3,1

BETA POST /batches
reference,to,amount
B-1,ALFA,100
B-2,ALFA,30
-> 200 OK text/csv
reference,result,number,detail
B-1,repeated,2,settled
B-2,repeated,3,queued

OPERATOR POST /desk/post {"cents":40,"code":"BETA","reference":"P-1"}
-> 200 OK {"answer":"posted","auto":{"count":1,"mark":2,"value":30},"number":1}

BETA POST /batches
reference,to,amount
B-2,ALFA,30
B-3,ALFA,10
-> 200 OK text/csv
reference,result,number,detail
B-2,repeated,3,settled
B-3,settled,4,3
"#;

#[test]
fn what_a_batch_is_answered(rt: HostRuntime) -> Result<(), Fail> {
    follows_on(rt.alloc(), BATCHES)
}

const THIRD: &str = r#"GAMA POST /orders {"amount":100,"reference":"C-1","to":"ALFA"}"#;

const CLOSES_THE_RING: &str =
    r#"200 OK {"answer":"queued","auto":{"count":3,"mark":1,"value":300},"number":3,"place":1}"#;

const SETTLED: &str = r#"200 OK {"answer":"repeated","mark":1,"number":3,"state":"settled"}"#;

const FAULT: &str = r#"503 Service Unavailable {"code":91,"name":"StoreFault"}"#;

const NO_MEMORY: &str = r#"503 Service Unavailable {"code":90,"name":"OutOfMemory"}"#;

// How many calls of its keeper a desk makes before it keeps the third order of the ring.
const BEFORE_THE_THIRD: usize = 10;

// The desk at whose third order there is this trouble, and how the order is answered.
fn troubled_at_the_third(
    alloc: Global,
    trouble: Trouble,
    expected: &str,
) -> Result<TestDesk, Fail> {
    let mut desk = troubled(alloc, BEFORE_THE_THIRD, trouble)?;
    desk.follow(TWO_OF_A_RING)?;
    desk.is_answered(THIRD, expected)?;
    Ok(desk)
}

// After a restart the order is there with all that followed it, or nothing is.
#[test]
fn an_order_stands_with_what_followed_it_or_not_at_all(rt: HostRuntime) -> Result<(), Fail> {
    let mut lost = troubled_at_the_third(rt.alloc(), Trouble::Lost, FAULT)?.restarted()?;
    lost.is_answered("GAMA GET /queue", r#"200 OK {"orders":[]}"#)?;
    lost.is_answered(THIRD, CLOSES_THE_RING)?;
    let mut kept = troubled_at_the_third(rt.alloc(), Trouble::Kept, FAULT)?.restarted()?;
    kept.is_answered("GAMA GET /queue", r#"200 OK {"orders":[]}"#)?;
    kept.is_answered(THIRD, SETTLED)
}

#[test]
fn an_order_without_memory_is_followed_when_it_comes_again(rt: HostRuntime) -> Result<(), Fail> {
    let mut desk = troubled_at_the_third(rt.alloc(), Trouble::OutOfMemory, NO_MEMORY)?;
    desk.is_answered(THIRD, CLOSES_THE_RING)?;
    desk.is_answered(THIRD, SETTLED)
}
