//! How each command is answered where the store fails or memory is refused, and each request once the store has
//! failed.
use super::super::test_desk::TestDesk;
use super::steps::COMMANDS;
use rtgs_tests_desks::Trouble;
use std::alloc::Global;
use std::test::Fail;

const NO_MEMORY: &str = r#"503 Service Unavailable {"code":90,"name":"OutOfMemory"}"#;

const FAULT: &str = r#"503 Service Unavailable {"code":91,"name":"StoreFault"}"#;

const FAILED: &str = r#"503 Service Unavailable {"code":92,"name":"Failed"}"#;

/// The routes of readings, each with its caller.
pub const READINGS: &str = "
ALFA GET /orders/A-1

ALFA GET /account

ALFA GET /queue

ALFA GET /held

ALFA GET /waiting

ALFA GET /statements/2024-03-04

OPERATOR GET /desk/report/2024-03-04

OPERATOR GET /desk/accounts

OPERATOR GET /desk/status

OPERATOR GET /desk/queues

OPERATOR GET /desk/queue/ALFA

OPERATOR GET /desk/held/ALFA

OPERATOR GET /desk/orders/ALFA/A-1

OPERATOR GET /desk/orders/2024-03-04

OPERATOR GET /desk/marks/2024-03-04

OPERATOR GET /desk/statements/ALFA/2024-03-04
";

// Commands of each route but that of batches, each of which changes something. The last ones are of an automatic day.
const CHANGES: &str = r#"
OPERATOR POST /desk/post {"cents":10,"code":"ALFA","reference":"P-1"}
-> 200 OK {"answer":"posted","number":1}

OPERATOR POST /desk/credit {"code":"ALFA","credit":5}
-> 200 OK {"answer":"credit set"}

ALFA POST /orders {"amount":100,"reference":"A-1","to":"BETA"}
-> 200 OK {"answer":"queued","number":1,"place":1}

BETA POST /orders {"amount":100,"reference":"B-1","to":"ALFA"}
-> 200 OK {"answer":"queued","number":2,"place":1}

OPERATOR POST /desk/resolve {}
-> 200 OK {"answer":"resolved","count":2,"mark":1,"value":200}

ALFA POST /orders {"amount":100,"reference":"A-2","to":"BETA"}
-> 200 OK {"answer":"queued","number":3,"place":1}

ALFA POST /orders/A-2/withdraw {}
-> 200 OK {"answer":"withdrawn","number":3}

OPERATOR POST /desk/cutoff {"date":"2024-03-04"}
-> 200 OK {"answer":"cut off"}

OPERATOR POST /desk/close {"date":"2024-03-04"}
-> 200 OK {"answer":"closed","rejected":0}

OPERATOR POST /desk/open {"automatic":true,"date":"2024-03-05"}
-> 200 OK {"answer":"opened"}

ALFA POST /orders {"amount":100,"reference":"A-3","to":"BETA"}
-> 200 OK {"answer":"queued","number":4,"place":1}

BETA POST /orders {"amount":100,"reference":"B-2","to":"ALFA"}
-> 200 OK {"answer":"queued","auto":{"count":2,"mark":2,"value":200},"number":5,"place":1}

GAMA POST /orders {"amount":7,"reference":"C-1","to":"ALFA"}
-> 200 OK {"answer":"queued","number":6,"place":1}

OPERATOR POST /desk/credit {"code":"GAMA","credit":7}
-> 200 OK {"answer":"credit set","auto":{"count":1,"mark":3,"value":7}}
"#;

// How many calls of its keeper a desk makes for a command: it looks up what has the reference, where one is given,
// and keeps the change.
fn calls_of(step: &str) -> usize {
    let looks_up = step.starts_with("OPERATOR POST /desk/post ") || step.contains(" POST /orders");
    if looks_up { 2 } else { 1 }
}

// A desk that has made this many of the changes. After this many calls more one meets this trouble.
fn desk_before(
    alloc: Global,
    changes: usize,
    call: usize,
    trouble: Trouble,
) -> Result<TestDesk, Fail> {
    let mut calls = call;
    for step in CHANGES.trim().split("\n\n").take(changes) {
        calls = calls.saturating_add(calls_of(step));
    }
    let mut desk = TestDesk::troubled(alloc, calls, trouble)?;
    for step in CHANGES.trim().split("\n\n").take(changes) {
        desk.step(step)?;
    }
    Ok(desk)
}

// The store fails at each call of a change, after this many changes before it.
fn fails_at(alloc: Global, changes: usize, step: &str) -> Result<(), Fail> {
    let (asked, _) = step.split_once("\n-> ").ok_or("a step without a reply")?;
    for call in 0..calls_of(step) {
        let mut desk = desk_before(alloc, changes, call, Trouble::Lost)?;
        desk.is_answered(asked, FAULT)?;
        desk.is_answered(asked, FAILED)?;
    }
    Ok(())
}

// Memory is refused at each call of a change, after this many changes before it, and not when it comes again.
fn waits_at(alloc: Global, changes: usize, step: &str) -> Result<(), Fail> {
    let (asked, _) = step.split_once("\n-> ").ok_or("a step without a reply")?;
    for call in 0..calls_of(step) {
        let mut desk = desk_before(alloc, changes, call, Trouble::OutOfMemory)?;
        desk.is_answered(asked, NO_MEMORY)?;
        desk.step(step)?;
    }
    Ok(())
}

#[test]
fn each_command_at_which_the_store_fails(rt: HostRuntime) -> Result<(), Fail> {
    for (changes, step) in CHANGES.trim().split("\n\n").enumerate() {
        fails_at(rt.alloc(), changes, step)?;
    }
    Ok(())
}

#[test]
fn each_command_without_memory_is_done_when_it_comes_again(rt: HostRuntime) -> Result<(), Fail> {
    for (changes, step) in CHANGES.trim().split("\n\n").enumerate() {
        waits_at(rt.alloc(), changes, step)?;
    }
    Ok(())
}

#[test]
fn a_failed_desk_says_so_on_each_route(rt: HostRuntime) -> Result<(), Fail> {
    let mut desk = TestDesk::troubled(rt.alloc(), 0, Trouble::Lost)?;
    desk.is_answered(r#"OPERATOR POST /desk/cutoff {"date":"2024-03-04"}"#, FAULT)?;
    desk.each_is_answered(COMMANDS, FAILED)?;
    desk.each_is_answered(READINGS, FAILED)
}

// The readings for which the store is read.
const STORED: &str = "
ALFA GET /orders/A-1

ALFA GET /statements/2024-03-04

OPERATOR GET /desk/report/2024-03-04
";

// The store fails at a reading.
fn is_not_read(alloc: Global, reading: &str) -> Result<(), Fail> {
    let mut desk = TestDesk::troubled(alloc, 0, Trouble::Lost)?;
    desk.is_answered(reading, FAULT)?;
    desk.is_answered(reading, FAILED)
}

#[test]
fn each_reading_at_which_the_store_fails(rt: HostRuntime) -> Result<(), Fail> {
    for reading in STORED.trim().split("\n\n") {
        is_not_read(rt.alloc(), reading)?;
    }
    Ok(())
}

// Memory is refused at a reading, and a change after it is made.
fn is_not_answered(alloc: Global, reading: &str) -> Result<(), Fail> {
    let mut desk = TestDesk::troubled(alloc, 0, Trouble::OutOfMemory)?;
    desk.is_answered(reading, NO_MEMORY)?;
    let (change, _) = CHANGES.trim().split_once("\n\n").ok_or("no change")?;
    desk.step(change)
}

#[test]
fn each_reading_without_memory_leaves_the_desk(rt: HostRuntime) -> Result<(), Fail> {
    for reading in STORED.trim().split("\n\n") {
        is_not_answered(rt.alloc(), reading)?;
    }
    Ok(())
}

const FIRST_STOPS: &str = "
ALFA POST /batches
reference,to,amount
A-1,BETA,100
A-2,GAMA,50
-> 503 Service Unavailable text/csv
reference,result,number,detail
A-1,stopped,,90
";

const SECOND_STOPS: &str = "
ALFA POST /batches
reference,to,amount
A-1,BETA,100
A-2,GAMA,50
-> 503 Service Unavailable text/csv
reference,result,number,detail
A-1,queued,1,1
A-2,stopped,,90
";

// A desk that has no memory at the call after this many follows this script.
fn stops(alloc: Global, calls: usize, script: &str) -> Result<(), Fail> {
    let mut desk = TestDesk::troubled(alloc, calls, Trouble::OutOfMemory)?;
    desk.follow(script)
}

// Each row is looked up, and then kept.
#[test]
fn a_batch_without_memory_for_a_row_stops_there(rt: HostRuntime) -> Result<(), Fail> {
    stops(rt.alloc(), 0, FIRST_STOPS)?;
    stops(rt.alloc(), 1, FIRST_STOPS)?;
    stops(rt.alloc(), 2, SECOND_STOPS)?;
    stops(rt.alloc(), 3, SECOND_STOPS)
}
