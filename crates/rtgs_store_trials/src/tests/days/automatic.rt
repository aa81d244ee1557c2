//! Automatic days: what is resolved after a command, and what the day's choice is.
use super::super::scripts::desks::desk_follows;
use std::test::Fail;

#[test]
fn an_order_closes_a_ring(rt: HostRuntime) -> Result<(), Fail> {
    desk_follows(
        &rt,
        "
open 2024-03-04 automatic => Opened
order ALFA A-1 BETA 100 => Queued { number: 1, place: 1 }
order BETA B-1 GAMA 100 => Queued { number: 2, place: 1 }
order GAMA G-1 ALFA 100 => Queued { number: 3, place: 1 } auto 1 3 300
order GAMA G-1 ALFA 100 => Repeated(Order { number: 3, state: Settled(1) })
order ALFA A-1 BETA 100 => Repeated(Order { number: 1, state: Settled(1) })
withdraw ALFA A-1 => refused: NotQueued
account ALFA => 0 cents, 0 queued
account BETA => 0 cents, 0 queued
account GAMA => 0 cents, 0 queued
next-mark 2024-03-04 0 => 1 2024-03-04 3 300
next-mark 2024-03-04 1 => none
",
    )
}

#[test]
fn an_order_frees_another(rt: HostRuntime) -> Result<(), Fail> {
    desk_follows(
        &rt,
        "
open 2024-03-04 automatic => Opened
post ALFA P-1 10 => Posted { number: 1 }
order ALFA A-1 BETA 60 => Queued { number: 1, place: 1 }
order ALFA A-2 GAMA 10 => Queued { number: 2, place: 2 }
order BETA B-1 ALFA 50 => Queued { number: 3, place: 1 } auto 1 2 110
account ALFA => 0 cents, 1 queued
account BETA => 10 cents, 0 queued
account GAMA => 0 cents, 0 queued
order BETA B-2 GAMA 20 => Queued { number: 4, place: 1 }
order GAMA G-1 ALFA 5 => Queued { number: 5, place: 1 }
order BETA B-1 ALFA 50 => Repeated(Order { number: 3, state: Settled(1) })
resolve => Nothing
",
    )
}

#[test]
fn an_order_that_settles_frees_another_under_a_mark_of_its_own(
    rt: HostRuntime,
) -> Result<(), Fail> {
    desk_follows(
        &rt,
        "
open 2024-03-04 automatic => Opened
post BETA P-1 30 => Posted { number: 1 }
order ALFA A-1 GAMA 20 => Queued { number: 1, place: 1 }
order BETA B-1 ALFA 30 => Settled { number: 2, mark: 1 } auto 2 1 20
account ALFA => 10 cents, 0 queued
account BETA => 0 cents, 0 queued
account GAMA => 20 cents, 0 queued
next-order 2024-03-04 0 => 1 ALFA A-1 GAMA 20 2024-03-04 Settled(2)
next-order 2024-03-04 1 => 2 BETA B-1 ALFA 30 2024-03-04 Settled(1)
next-mark 2024-03-04 0 => 1 2024-03-04 1 30
next-mark 2024-03-04 1 => 2 2024-03-04 1 20
",
    )
}

#[test]
fn other_commands_free_orders(rt: HostRuntime) -> Result<(), Fail> {
    desk_follows(
        &rt,
        "
open 2024-03-01 => Opened
order ALFA A-1 BETA 60 due 2024-03-04 => Held { number: 1, due: BusinessDate { number: 20240304 } }
cutoff 2024-03-01 => CutOffDone
close 2024-03-01 => Closed { rejected: 0 }
post ALFA P-1 60 => Posted { number: 1 }
open 2024-03-04 automatic => Opened auto 1 1 60
order ALFA A-2 GAMA 40 => Queued { number: 2, place: 1 }
order ALFA A-3 GAMA 90 => Queued { number: 3, place: 2 }
order ALFA A-4 GAMA 5 => Queued { number: 4, place: 3 }
post ALFA P-2 40 => Posted { number: 2 } auto 2 1 40
credit ALFA 5 => CreditSet
cutoff 2024-03-04 => CutOffDone
withdraw ALFA A-3 => Withdrawn { number: 3 } auto 3 1 5
withdraw ALFA A-3 => Repeated(Order { number: 3, state: Withdrawn })
credit ALFA 4 => refused: NoCover
post ALFA P-2 40 => Repeated(Posting { number: 2 })
account ALFA => -5 cents, 0 queued
account BETA => 60 cents, 0 queued
account GAMA => 45 cents, 0 queued
",
    )
}

#[test]
fn a_limit_frees_an_order(rt: HostRuntime) -> Result<(), Fail> {
    desk_follows(
        &rt,
        "
open 2024-03-04 automatic => Opened
order ALFA A-1 BETA 60 => Queued { number: 1, place: 1 }
credit ALFA 59 => CreditSet
credit ALFA 60 => CreditSet auto 1 1 60
credit ALFA 60 => CreditSet
account ALFA => -60 cents, 0 queued
",
    )
}

#[test]
fn the_choice_stands_until_the_close(rt: HostRuntime) -> Result<(), Fail> {
    desk_follows(
        &rt,
        "
open 2024-03-04 automatic => Opened
open 2024-03-04 automatic => Repeated(Nothing)
open 2024-03-04 => refused: WrongPhase
open 2024-03-05 automatic => refused: WrongPhase
cutoff 2024-03-04 => CutOffDone
cutoff 2024-03-04 => Repeated(Nothing)
open 2024-03-04 automatic => refused: WrongPhase
close 2024-03-04 => Closed { rejected: 0 }
open 2024-03-04 automatic => refused: WrongDate
open 2024-03-09 automatic => refused: Weekend
open 2024-03-05 => Opened
open 2024-03-05 => Repeated(Nothing)
open 2024-03-05 automatic => refused: WrongPhase
order ALFA A-1 BETA 100 => Queued { number: 1, place: 1 }
order BETA B-1 ALFA 100 => Queued { number: 2, place: 1 }
credit BETA 100 => CreditSet
resolve => Resolved { mark: 1, count: 2, value: Cents(200) }
",
    )
}

// What waits at the end is a deadlock, so that there is nothing to resolve first.
#[test]
fn an_automatic_day_can_be_closed_at_once(rt: HostRuntime) -> Result<(), Fail> {
    desk_follows(
        &rt,
        "
open 2024-03-04 automatic => Opened
order ALFA A-1 BETA 100 => Queued { number: 1, place: 1 }
order BETA B-1 GAMA 100 => Queued { number: 2, place: 1 }
order GAMA G-1 ALFA 100 => Queued { number: 3, place: 1 } auto 1 3 300
order ALFA A-2 BETA 100 => Queued { number: 4, place: 1 }
order BETA B-2 GAMA 90 => Queued { number: 5, place: 1 }
cutoff 2024-03-04 => CutOffDone
resolve => Nothing
close 2024-03-04 => Closed { rejected: 2 }
order ALFA A-2 BETA 100 => Repeated(Order { number: 4, state: Rejected })
",
    )
}
