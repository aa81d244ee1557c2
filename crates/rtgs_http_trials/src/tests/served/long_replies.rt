//! Long replies, to the byte, and that to a long resolution: they are sent, and no lack of memory is.
use super::super::test_desk::TestDesk;
use super::queues::{file_of, results_of};
use rtgs_tests_desks::{Trouble, ensure};
use std::alloc::Global;
use std::test::Fail;

// A desk at which ALFA has this many orders of two cents in its queue.
fn desk_with(alloc: Global, count: u32) -> Result<TestDesk, Fail> {
    let file = file_of(alloc, count)?;
    let results = results_of(alloc, count)?;
    let mut desk = TestDesk::open(alloc)?;
    desk.is_answered(file.as_str(), results.as_str())?;
    Ok(desk)
}

// The reply with the queue of this many orders.
fn queue_of(alloc: Global, count: u32) -> Result<String, Fail> {
    let mut queue = String::from_str(alloc, "200 OK {\"orders\":[")?;
    for number in 1..=count {
        let gap = if number == 1 { "" } else { "," };
        let order = format!(in alloc;
            "{gap}{{\"amount\":2,\"number\":{number},\"place\":{number},\"reference\":\"Q-{number}\",\"to\":\"BETA\"}}"
        )?;
        queue.push_str(order.as_str())?;
    }
    queue.push_str("]}")?;
    Ok(queue)
}

#[test]
fn a_queue_of_500_orders_is_shown(rt: HostRuntime) -> Result<(), Fail> {
    let queue = queue_of(rt.alloc(), 500)?;
    // 7 bytes say the status
    ensure(queue.len() == 7 + 34688)?;
    let mut desk = desk_with(rt.alloc(), 500)?;
    desk.is_answered("ALFA GET /queue", queue.as_str())
}

// The sums of a day on which nothing was posted or has settled. The line of the last one ends in the reply.
const SUMS: &str = "
sum-posted                           0.00
sum-sent                             0.00
sum-recv                             0.00
net                                  0.00";

// The reply with the statement of a day on which this many orders are queued.
fn statement_of(alloc: Global, count: u32) -> Result<String, Fail> {
    let mut statement = String::from_str(alloc, "200 OK text/plain\nstatement ALFA 2024-03-04")?;
    for number in 1..=count {
        let line = format!(in alloc;
            "\nqueued     {number:09} Q-{number:<14} BETA                     0.02         -"
        )?;
        statement.push_str(line.as_str())?;
    }
    statement.push_str(SUMS)?;
    Ok(statement)
}

#[test]
fn a_statement_of_500_orders_is_shown(rt: HostRuntime) -> Result<(), Fail> {
    let statement = statement_of(rt.alloc(), 500)?;
    // 18 bytes say the status and the type, and the last line has no end
    ensure(statement.len() == 18 + 39194 - 1)?;
    let mut desk = desk_with(rt.alloc(), 500)?;
    desk.is_answered("ALFA GET /statements/2024-03-04", statement.as_str())
}

// Adds the bank of this number, which has three digits.
fn add_bank(alloc: Global, desk: &mut TestDesk, number: u32) -> Result<(), Fail> {
    let code = format!(in alloc; "BANK{number:03}")?;
    let name = format!(in alloc; "Bank {number:03}")?;
    let key = format!(in alloc; "00000000000000000000000000000{number:03}")?;
    desk.add(code.as_str(), name.as_str(), key.as_str())
}

// A desk without a day that has this many banks.
fn desk_of_banks(alloc: Global, count: u32) -> Result<TestDesk, Fail> {
    let mut desk = TestDesk::new(alloc, usize::MAX, Trouble::Lost)?;
    for number in 1..=count {
        add_bank(alloc, &mut desk, number)?;
    }
    Ok(desk)
}

// The reply with the accounts of this many banks, which have no money.
fn accounts_of(alloc: Global, count: u32) -> Result<String, Fail> {
    let mut accounts = String::from_str(alloc, "200 OK {\"accounts\":[")?;
    for number in 1..=count {
        let gap = if number == 1 { "" } else { "," };
        let begin = format!(in alloc;
            "{gap}{{\"balance\":0,\"code\":\"BANK{number:03}\",\"credit\":0,"
        )?;
        accounts.push_str(begin.as_str())?;
        let end = format!(in alloc;
            "\"lacking\":0,\"name\":\"Bank {number:03}\",\"queued\":0,\"queued_value\":0}}"
        )?;
        accounts.push_str(end.as_str())?;
    }
    accounts.push_str("],\"phase\":\"CLOSED\"}")?;
    Ok(accounts)
}

#[test]
fn a_book_of_100_accounts_is_shown(rt: HostRuntime) -> Result<(), Fail> {
    let accounts = accounts_of(rt.alloc(), 100)?;
    // 7 bytes say the status
    ensure(accounts.len() == 7 + 10031)?;
    let mut desk = desk_of_banks(rt.alloc(), 100)?;
    desk.is_answered("OPERATOR GET /desk/accounts", accounts.as_str())
}

// A bank's request of a file of 100 orders of two cents to another one.
fn hundred(alloc: Global, sender: &str, receiver: &str) -> Result<String, Fail> {
    let mut file = format!(in alloc; "{sender} POST /batches\nreference,to,amount")?;
    for number in 1..=100u32 {
        let row = format!(in alloc; "\nQ-{number},{receiver},2")?;
        file.push_str(row.as_str())?;
    }
    Ok(file)
}

// The reply to it where as many orders as this came before them, and all of its own are queued.
fn hundred_queued(alloc: Global, before: u32) -> Result<String, Fail> {
    let mut results = String::from_str(alloc, "200 OK text/csv\nreference,result,number,detail")?;
    for place in 1..=100u32 {
        let number = before.saturating_add(place);
        let row = format!(in alloc; "\nQ-{place},queued,{number},{place}")?;
        results.push_str(row.as_str())?;
    }
    Ok(results)
}

// A hundred orders of a bank to another wait, where as many as this wait already.
fn hundred_wait(
    alloc: Global,
    desk: &mut TestDesk,
    (sender, receiver): (&str, &str),
    before: u32,
) -> Result<(), Fail> {
    let file = hundred(alloc, sender, receiver)?;
    let results = hundred_queued(alloc, before)?;
    desk.is_answered(file.as_str(), results.as_str())
}

const RESOLVED: &str = r#"
OPERATOR POST /desk/resolve {}
-> 200 OK {"answer":"resolved","count":300,"mark":1,"value":600}

GAMA GET /orders/Q-100
-> 200 OK {"amount":2,"date":"2024-03-04","mark":1,"number":300,"reference":"Q-100","state":"settled","to":"ALFA"}

OPERATOR GET /desk/report/2024-03-04
-> 200 OK text/plain
report 2024-03-04
ALFA                               0.00                           2.00                           2.00
BETA                               0.00                           2.00                           2.00
GAMA                               0.00                           2.00                           2.00
settled          300                           6.00
queued             0                           0.00
held               0                           0.00
withdrawn          0                           0.00
rejected           0                           0.00
marks              1
"#;

// A hundred rings of three orders wait, and settle together.
#[test]
fn a_resolution_of_300_orders_is_answered(rt: HostRuntime) -> Result<(), Fail> {
    let mut desk = TestDesk::open(rt.alloc())?;
    hundred_wait(rt.alloc(), &mut desk, ("ALFA", "BETA"), 0)?;
    hundred_wait(rt.alloc(), &mut desk, ("BETA", "GAMA"), 100)?;
    hundred_wait(rt.alloc(), &mut desk, ("GAMA", "ALFA"), 200)?;
    desk.follow(RESOLVED)
}
