//! What follows a command on an automatic day, row for row: one change, in which each balance that moves is set once.
use super::super::scripts::ledgers::{
    automatic_ledger_follows, funded_ledger_follows, new_ledger_follows,
};
use std::test::Fail;

// BETA's order pays ALFA, whose first order settles with it. The second waits for more.
#[test]
fn an_order_frees_another(rt: HostRuntime) -> Result<(), Fail> {
    automatic_ledger_follows(
        &rt,
        "
rows post ALFA P-1 10 => posting 1, balance ALFA 10
rows order ALFA A-1 BETA 60 => order 1 Queued
rows order ALFA A-2 GAMA 10 => order 2 Queued
rows order BETA B-1 ALFA 50 => order 3 Queued, state 1 Settled(1), state 3 Settled(1), mark 1 2 110, \
balance ALFA 0, balance BETA 10
balance ALFA => 0 cents
balance BETA => 10 cents
balance GAMA => 0 cents
in-memory => [2]
kept BETA B-1 => 3 BETA B-1 ALFA 50 2024-03-04 Settled(1)
order BETA B-1 ALFA 50 => Repeated(Order { number: 3, state: Settled(1) })
rows order BETA B-2 GAMA 20 => order 4 Queued
rows order GAMA G-1 ALFA 5 => order 5 Queued
resolve => Nothing
",
    )
}

// The own mark of the order comes first. ALFA's balance rises by 30 and falls by 20, and is set once.
#[test]
fn a_settled_order_frees_another_under_a_mark_of_its_own(rt: HostRuntime) -> Result<(), Fail> {
    automatic_ledger_follows(
        &rt,
        "
post BETA P-1 30 => Posted { number: 1 }
order ALFA A-1 GAMA 20 => Queued { number: 1, place: 1 }
rows order BETA B-1 ALFA 30 => order 2 Settled(1), mark 1 1 30, state 1 Settled(2), mark 2 1 20, \
balance ALFA 10, balance BETA 0, balance GAMA 20
kept ALFA A-1 => 1 ALFA A-1 GAMA 20 2024-03-04 Settled(2)
kept BETA B-1 => 2 BETA B-1 ALFA 30 2024-03-04 Settled(1)
in-memory => []
",
    )
}

// ALFA passes on all that it gets, so that its balance is what it was, and is not set.
#[test]
fn a_balance_that_comes_back_is_not_set(rt: HostRuntime) -> Result<(), Fail> {
    automatic_ledger_follows(
        &rt,
        "
post BETA P-1 30 => Posted { number: 1 }
order ALFA A-1 GAMA 30 => Queued { number: 1, place: 1 }
rows order BETA B-1 ALFA 30 => order 2 Settled(1), mark 1 1 30, state 1 Settled(2), mark 2 1 30, \
balance BETA 0, balance GAMA 30
balance ALFA => 0 cents
",
    )
}

// A posting, a limit and a withdrawal free orders each, past the cut-off too. What frees none sets its own rows alone.
#[test]
fn other_commands_are_followed(rt: HostRuntime) -> Result<(), Fail> {
    automatic_ledger_follows(
        &rt,
        "
order ALFA A-1 BETA 60 => Queued { number: 1, place: 1 }
order ALFA A-2 BETA 50 => Queued { number: 2, place: 2 }
order ALFA A-3 GAMA 90 => Queued { number: 3, place: 3 }
order ALFA A-4 GAMA 5 => Queued { number: 4, place: 4 }
order ALFA A-5 GAMA 7 => Queued { number: 5, place: 5 }
rows post ALFA P-1 60 => posting 1, state 1 Settled(1), mark 1 1 60, balance BETA 60
rows credit ALFA 55 => credit ALFA 55, state 2 Settled(2), mark 2 1 50, balance ALFA -50, balance BETA 110
cutoff 2024-03-04 => CutOffDone
day => day CutOff automatic
rows withdraw ALFA A-5 => state 5 Withdrawn
rows withdraw ALFA A-3 => state 3 Withdrawn, state 4 Settled(3), mark 3 1 5, balance ALFA -55, balance GAMA 5
rows post ALFA P-2 54 => posting 2, balance ALFA -1
rows post ALFA P-3 -1 => posting 3, balance ALFA -2
rows credit ALFA 2 => credit ALFA 2
resolve => Nothing
post ALFA P-4 2 => Posted { number: 4 }
rows close 2024-03-04 => day Closed on request
",
    )
}

// An order behind others can free them: what it pays lets its receiver pay on, and that reaches its sender.
#[test]
fn an_order_behind_others_frees_them(rt: HostRuntime) -> Result<(), Fail> {
    automatic_ledger_follows(
        &rt,
        "
post GAMA P-1 50 => Posted { number: 1 }
order ALFA A-1 BETA 100 => Queued { number: 1, place: 1 }
order BETA B-1 ALFA 50 => Queued { number: 2, place: 1 }
order GAMA G-1 ALFA 60 => Queued { number: 3, place: 1 }
rows order ALFA A-2 GAMA 10 => order 4 Queued, state 1 Settled(1), state 4 Settled(1), state 2 Settled(1), \
state 3 Settled(1), mark 1 4 220, balance BETA 50, balance GAMA 0
",
    )
}

// What entered a queue at the opening settles at once where it can.
#[test]
fn an_opening_is_followed(rt: HostRuntime) -> Result<(), Fail> {
    funded_ledger_follows(
        &rt,
        "
order ALFA A-1 BETA 70 due 2024-03-05 => Held { number: 1, due: BusinessDate { number: 20240305 } }
order BETA B-1 GAMA 90 due 2024-03-05 => Held { number: 2, due: BusinessDate { number: 20240305 } }
order ALFA A-2 GAMA 5 due 2024-03-06 => Held { number: 3, due: BusinessDate { number: 20240306 } }
cutoff 2024-03-04 => CutOffDone
close 2024-03-04 => Closed { rejected: 0 }
rows open 2024-03-05 automatic => enter 1 2024-03-05, enter 2 2024-03-05, day Open automatic, \
state 1 Settled(1), mark 1 1 70, balance ALFA 30, balance BETA 70
day => day Open automatic
open 2024-03-05 automatic => Repeated(Nothing)
open 2024-03-05 => refused: WrongPhase
in-memory => [2, 3]
",
    )
}

// On another day nothing follows, nor where a command is refused or comes again.
#[test]
fn nothing_follows_on_a_day_on_request(rt: HostRuntime) -> Result<(), Fail> {
    new_ledger_follows(
        &rt,
        "
add ALFA 0000000000000000000000000000000a => Added
add BETA 0000000000000000000000000000000b => Added
open 2024-03-04 => Opened
open 2024-03-04 automatic => refused: WrongPhase
open 2024-03-04 => Repeated(Nothing)
order ALFA A-1 BETA 60 => Queued { number: 1, place: 1 }
rows order BETA B-1 ALFA 60 => order 2 Queued
rows credit ALFA 60 => credit ALFA 60
resolve => Resolved { mark: 1, count: 2, value: Cents(120) }
",
    )
}
