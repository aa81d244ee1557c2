//! Calls that make no request for memory: they go well where there is none.
use super::super::scarce::setting::code;
use super::super::scarce::{Held, had_none, in_a_process, is_limited, is_none_left};
use rtgs_book::{Command, Found, NewOrder};
use rtgs_gridlock::{Payment, Position, Positions, Queues, Workspace, greatest};
use rtgs_http_bodies::Reply;
use rtgs_keeper::Keeper;
use rtgs_ledger::Ledger;
use rtgs_money::BusinessDate;
use rtgs_output::WriterFailed;
use rtgs_tests_desks::{MemoryKeeper, command, ensure};
use std::alloc::Global;
use std::process::Abort;
use std::test::Fail;

// Two participants, of which the first can pay one of its three payments.
fn positions_and_queues(alloc: Global) -> Result<(Positions, Queues), Fail> {
    let mut positions = Positions::new(alloc);
    for floor in [-30, 0] {
        positions.push(Position { balance: 0, floor })?;
    }
    let payment = Payment {
        receiver: 1,
        amount: 20,
    };
    let mut queues = Queues::new(alloc);
    queues.push(vec![in alloc; payment, payment, payment]?)?;
    queues.push(Vec::new(alloc))?;
    Ok((positions, queues))
}

// What is chosen of three payments of two participants, while there is no memory.
fn chosen(
    rt: &impl Abort,
    alloc: Global,
    positions: &Positions,
    queues: &Queues,
) -> Result<Workspace, Fail> {
    assert_eq!(rt; positions.len(), 2);
    assert_eq!(rt; queues.len(), 2);
    assert!(rt; positions.are_floored());
    assert!(rt; queues.are_in_range());
    assert!(rt; queues.payment_count() == Some(3));
    let mut workspace = Workspace::reserve(alloc, 2, 3)?;
    let held = Held::all_but(alloc, 0)?;
    let is_none = is_none_left(alloc);
    greatest(positions, queues, &mut workspace);
    held.free();
    had_none(is_none)?;
    Ok(workspace)
}

#[test]
fn greatest_choice(rt: HostRuntime) -> Result<(), Fail> {
    if !is_limited(&rt) {
        return in_a_process(&rt, "tests::in_memory::nothing::greatest_choice");
    }
    let (positions, queues) = positions_and_queues(rt.alloc())?;
    let workspace = chosen(&rt, rt.alloc(), &positions, &queues)?;
    ensure(workspace.lengths() == [1, 0].as_slice())
}

// The ledger of the book that a keeper has.
fn ledger_of<K: Keeper>(alloc: Global, keeper: &mut K) -> Result<Ledger, Fail> {
    let core = match keeper.core(alloc) {
        Ok(core) => core,
        Err(fault) => return Err(Fail::from(fault)),
    };
    Ok(Ledger::load(alloc, core)?)
}

// What a bank has in cents, and how many of its orders wait.
fn standing(ledger: &Ledger, bank: &str) -> Result<(i64, usize), Fail> {
    let bank = code(bank)?;
    let account = ledger.account(&bank).ok_or("a participant")?;
    Ok((account.balance.cents(), ledger.queue(&bank)?.len()))
}

// Prepares a command for which nothing was found, and adopts it while there is no memory.
fn adopt_without_memory(alloc: Global, ledger: &mut Ledger, command: &Command) -> Result<(), Fail> {
    let (_, change) = ledger.prepare(command, &Found::NOTHING)?;
    let held = Held::all_but(alloc, 0)?;
    let is_none = is_none_left(alloc);
    ledger.adopt(change);
    held.free();
    had_none(is_none)
}

// How ALFA and BETA stand once the commands of a script are adopted so, in a new book.
fn script_adopted(alloc: Global, script: &str) -> Result<[(i64, usize); 2], Fail> {
    // Names the types of orders and of due dates for the borrow checker: they stand nowhere else in this function.
    let (_no_order, _no_date): (Option<NewOrder>, Option<BusinessDate>) = (None, None);
    let mut ledger = ledger_of(alloc, &mut MemoryKeeper::new(alloc))?;
    for line in script.lines() {
        adopt_without_memory(alloc, &mut ledger, &command(line)?)?;
    }
    Ok([standing(&ledger, "ALFA")?, standing(&ledger, "BETA")?])
}

// The same after two banks are added, of which ALFA has a limit of this many cents.
fn adopted(alloc: Global, limit: &str, lines: &str) -> Result<[(i64, usize); 2], Fail> {
    let script = format!(in alloc; "{TWO_BANKS}credit ALFA {limit}\n{lines}")?;
    script_adopted(alloc, script.as_str())
}

/// Two banks.
const TWO_BANKS: &str = "\
add ALFA 0000000000000000000000000000000a
add BETA 0000000000000000000000000000000b
";

/// Two orders for the next day, and then the end of the day and the next one, which lets them in.
const HELD_ORDERS: &str = "\
open 2024-03-04
order ALFA A-1 BETA 100 due 2024-03-05
order ALFA A-2 BETA 7 due 2024-03-05
cutoff 2024-03-04
close 2024-03-04
open 2024-03-05";

/// An order of BETA that frees one of ALFA on an automatic day.
const FREEING_ORDER: &str = "\
open 2024-03-04 automatic
order ALFA A-1 BETA 60
order BETA B-1 ALFA 50";

#[test]
fn adopt(rt: HostRuntime) -> Result<(), Fail> {
    if !is_limited(&rt) {
        return in_a_process(&rt, "tests::in_memory::nothing::adopt");
    }
    let settled = "open 2024-03-04\norder ALFA A-1 BETA 100";
    let queued = "open 2024-03-04\norder ALFA A-1 BETA 101";
    ensure(adopted(rt.alloc(), "100", settled)? == [(-100, 0), (100, 0)])?;
    ensure(adopted(rt.alloc(), "100", queued)? == [(0, 1), (0, 0)])?;
    ensure(adopted(rt.alloc(), "100", HELD_ORDERS)? == [(0, 2), (0, 0)])?;
    ensure(adopted(rt.alloc(), "10", FREEING_ORDER)? == [(-10, 0), (10, 0)])
}

const FIXED: &str =
    "HTTP/1.1 503 Service Unavailable\r\nContent-Type: application/json\r\nContent-Length: 32\r\n\
            Connection: close\r\n\r\n{\"code\":90,\"name\":\"OutOfMemory\"}\
            HTTP/1.1 503 Service Unavailable\r\nContent-Type: application/json\r\nContent-Length: 31\r\n\
            Connection: close\r\n\r\n{\"code\":69,\"name\":\"AnswerLost\"}";

// Sends the two replies that are always the same.
fn send_fixed(written: &mut Vec<u8>) -> Result<(), WriterFailed> {
    Reply::out_of_memory().send(written)?;
    Reply::answer_lost().send(written)
}

// What is written of them while there is no memory.
fn fixed_without_memory(alloc: Global) -> Result<Vec<u8>, Fail> {
    let mut written = Vec::with_capacity(alloc, 1024)?;
    let held = Held::all_but(alloc, 0)?;
    let is_none = is_none_left(alloc);
    let sent = send_fixed(&mut written);
    held.free();
    had_none(is_none)?;
    sent?;
    Ok(written)
}

#[test]
fn fixed_replies(rt: HostRuntime) -> Result<(), Fail> {
    if !is_limited(&rt) {
        return in_a_process(&rt, "tests::in_memory::nothing::fixed_replies");
    }
    let written = fixed_without_memory(rt.alloc())?;
    ensure(std::str::from_utf8(written.as_slice())? == FIXED)
}
