//! A ledger on its happy path, and the refusals of its commands.
mod follow_up;

use super::scripts::command;
use super::scripts::ledgers::{funded_ledger_follows, new_ledger, new_ledger_follows};
use super::scripts::scenarios::script_of;
use super::setting::change;
use rtgs_book::{Answer, Day, Fault, Found, NewOrder, Phase, Refusal, RowChange};
use rtgs_keeper::Keeper;
use rtgs_tests_desks::{GRIDLOCKS, MemoryKeeper, ensure};
use std::alloc::Global;
use std::test::Fail;

#[test]
fn a_participant_is_prepared_and_adopted(rt: HostRuntime) -> Result<(), Fail> {
    // Names the type of orders for the borrow checker, which finds it nowhere else in this function.
    let _no_order: Option<NewOrder> = None;
    let command = command(rt.alloc(), "add ALFA 0000000000000000000000000000000a")?;
    let mut ledger = new_ledger(rt.alloc())?;
    match ledger.prepare(&command, &Found::NOTHING) {
        Ok((answer, change)) => {
            ensure((answer.own, change.len()) == (Answer::Added, 1))?;
            ledger.adopt(change);
        }
        Err(_) => return Err(Fail::new("refused")),
    }
    Ok(())
}

#[test]
fn an_unknown_participant_gets_no_posting(rt: HostRuntime) -> Result<(), Fail> {
    // Names the type of orders for the borrow checker, which finds it nowhere else in this function.
    let _no_order: Option<NewOrder> = None;
    let command = command(rt.alloc(), "post ALFA P-1 1")?;
    let mut ledger = new_ledger(rt.alloc())?;
    let refused = ledger.prepare(&command, &Found::NOTHING).err();
    ensure(refused == Some(Refusal::UnknownParticipant))
}

/// What a keeper fails with whose day is open, and has no date.
fn fault_without_a_date<K: Keeper>(alloc: Global, keeper: &mut K) -> Result<Option<Fault>, Fail> {
    let open = Day {
        date: None,
        phase: Phase::Open,
        automatic: false,
    };
    keeper.commit(&change(alloc, &[RowChange::SetDay(open)])?)?;
    Ok(keeper.core(alloc).err())
}

#[test]
fn a_book_that_is_not_sound_has_no_core_to_load(rt: HostRuntime) -> Result<(), Fail> {
    let fault = fault_without_a_date(rt.alloc(), &mut MemoryKeeper::new(rt.alloc()))?;
    ensure(matches!(fault, Some(Fault::Inconsistent { .. })))
}

#[test]
fn an_order_with_cover_settles(rt: HostRuntime) -> Result<(), Fail> {
    funded_ledger_follows(
        &rt,
        "
order ALFA A-1 BETA 60 => Settled { number: 1, mark: 1 }
order ALFA A-1 BETA 60 => Repeated(Order { number: 1, state: Settled(1) })
order ALFA A-1 BETA 61 => refused: ReferenceUsed
balance ALFA => 40 cents
balance BETA => 60 cents
balance ZETA => no participant
",
    )
}

// What the keeper finds of the second order is what the ledger has last in its queue.
#[test]
fn an_order_waits_behind_the_queue(rt: HostRuntime) -> Result<(), Fail> {
    funded_ledger_follows(
        &rt,
        "
order ALFA A-1 BETA 101 => Queued { number: 1, place: 1 }
order ALFA A-2 BETA 1 => Queued { number: 2, place: 2 }
queue ALFA => 1 ALFA A-1 BETA 101 2024-03-04 Queued, 2 ALFA A-2 BETA 1 2024-03-04 Queued
kept ALFA A-2 => 2 ALFA A-2 BETA 1 2024-03-04 Queued
",
    )
}

#[test]
fn a_ledger_does_what_each_scenario_says(rt: HostRuntime) -> Result<(), Fail> {
    let mut count = 0usize;
    for scenario in GRIDLOCKS {
        let script = script_of(rt.alloc(), scenario)?;
        new_ledger_follows(&rt, script.as_str())?;
        count = count.saturating_add(1);
    }
    ensure(count == 8)
}

#[test]
fn orders_that_wait_no_more_are_not_in_memory(rt: HostRuntime) -> Result<(), Fail> {
    funded_ledger_follows(
        &rt,
        "
order ALFA A-1 BETA 60 => Settled { number: 1, mark: 1 }
order ALFA A-2 BETA 100 => Queued { number: 2, place: 1 }
order BETA B-1 GAMA 90 => Queued { number: 3, place: 1 }
order BETA B-2 ALFA 70 => Queued { number: 4, place: 2 }
order GAMA G-1 ALFA 500 => Queued { number: 5, place: 1 }
withdraw BETA B-1 => Withdrawn { number: 3 }
in-memory => [2, 4, 5]
resolve => Resolved { mark: 2, count: 2, value: Cents(170) }
in-memory => [5]
",
    )
}

#[test]
fn nothing_is_resolved_while_closed(rt: HostRuntime) -> Result<(), Fail> {
    new_ledger_follows(&rt, "resolve => refused: WrongPhase")
}

#[test]
fn the_open_day_is_cut_off(rt: HostRuntime) -> Result<(), Fail> {
    new_ledger_follows(
        &rt,
        "
cutoff 2024-03-04 => refused: WrongPhase
open 2024-03-04 => Opened
cutoff 2024-03-05 => refused: WrongDate
cutoff 2024-03-04 => CutOffDone
cutoff 2024-03-04 => Repeated(Nothing)
cutoff 2024-03-05 => refused: WrongPhase
day => day CutOff on request
",
    )
}

// A held order is in memory and in no queue, and moves nothing. What is due when a day is opened stands in its queue by
// its number, and what is queued on the day comes behind it.
#[test]
fn held_orders_enter_their_queues_by_number(rt: HostRuntime) -> Result<(), Fail> {
    funded_ledger_follows(
        &rt,
        "
order ALFA A-1 BETA 60 due 2024-03-06 => Held { number: 1, due: BusinessDate { number: 20240306 } }
order ALFA A-2 BETA 70 due 2024-03-05 => Held { number: 2, due: BusinessDate { number: 20240305 } }
order ALFA A-3 BETA 80 due 2024-03-07 => Held { number: 3, due: BusinessDate { number: 20240307 } }
order BETA B-1 ALFA 5 due 2024-03-06 => Held { number: 4, due: BusinessDate { number: 20240306 } }
order ALFA A-4 BETA 50 due 2024-03-06 => Held { number: 5, due: BusinessDate { number: 20240306 } }
withdraw ALFA A-4 => Withdrawn { number: 5 }
queue ALFA => empty
in-memory => [1, 2, 3, 4]
resolve => Nothing
balance ALFA => 100 cents
cutoff 2024-03-04 => CutOffDone
close 2024-03-04 => Closed { rejected: 0 }
in-memory => [1, 2, 3, 4]
open 2024-03-06 => Opened
order ALFA A-5 BETA 1 => Queued { number: 6, place: 3 }
queue ALFA => 1 ALFA A-1 BETA 60 2024-03-06 Queued due 2024-03-06, \
2 ALFA A-2 BETA 70 2024-03-06 Queued due 2024-03-05, 6 ALFA A-5 BETA 1 2024-03-06 Queued
queue BETA => 4 BETA B-1 ALFA 5 2024-03-06 Queued due 2024-03-06
kept ALFA A-2 => 2 ALFA A-2 BETA 70 2024-03-06 Queued due 2024-03-05
kept ALFA A-3 => 3 ALFA A-3 BETA 80 2024-03-07 Held due 2024-03-07
kept ALFA A-4 => 5 ALFA A-4 BETA 50 2024-03-06 Withdrawn due 2024-03-06
in-memory => [1, 2, 3, 4, 6]
resolve => Resolved { mark: 1, count: 2, value: Cents(65) }
in-memory => [2, 3, 6]
balance ALFA => 45 cents
",
    )
}
