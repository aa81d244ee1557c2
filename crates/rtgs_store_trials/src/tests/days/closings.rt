//! Credit and its limits, withdrawals, and the end of a day.
use super::super::scripts::desks::desk_follows;
use std::test::Fail;

#[test]
fn credit_is_used_to_its_limit(rt: HostRuntime) -> Result<(), Fail> {
    desk_follows(
        &rt,
        "
open 2024-03-04 => Opened
credit ALFA 100 => CreditSet
order ALFA A-1 BETA 100 => Settled { number: 1, mark: 1 }
order ALFA A-2 BETA 1 => Queued { number: 2, place: 1 }
account ALFA => -100 cents, 1 queued
account BETA => 100 cents, 0 queued
account GAMA => 0 cents, 0 queued
credit ALFA 99 => refused: NoCover
credit ALFA 100 => CreditSet
credit ZETA 1 => refused: UnknownParticipant
post ALFA P-1 -1 => refused: NoCover
credit ALFA 101 => CreditSet
resolve => Resolved { mark: 2, count: 1, value: Cents(1) }
account ALFA => -101 cents, 0 queued
account BETA => 101 cents, 0 queued
account GAMA => 0 cents, 0 queued
",
    )
}

#[test]
fn what_has_settled_is_final(rt: HostRuntime) -> Result<(), Fail> {
    desk_follows(
        &rt,
        "
open 2024-03-04 => Opened
credit ALFA 100 => CreditSet
order ALFA A-1 BETA 100 => Settled { number: 1, mark: 1 }
order ALFA A-2 BETA 1 => Queued { number: 2, place: 1 }
withdraw ALFA A-1 => refused: NotQueued
withdraw ALFA A-2 => Withdrawn { number: 2 }
withdraw ALFA A-2 => Repeated(Order { number: 2, state: Withdrawn })
order ALFA A-2 BETA 1 => Repeated(Order { number: 2, state: Withdrawn })
withdraw ALFA A-3 => refused: UnknownOrder
withdraw ZETA A-3 => refused: UnknownParticipant
account ALFA => -100 cents, 0 queued
account BETA => 100 cents, 0 queued
account GAMA => 0 cents, 0 queued
",
    )
}

#[test]
fn a_gridlock_is_resolved_before_the_close(rt: HostRuntime) -> Result<(), Fail> {
    desk_follows(
        &rt,
        "
open 2024-03-04 => Opened
order ALFA A-1 BETA 100 => Queued { number: 1, place: 1 }
order BETA B-1 GAMA 100 => Queued { number: 2, place: 1 }
order GAMA G-1 ALFA 100 => Queued { number: 3, place: 1 }
close 2024-03-04 => refused: WrongPhase
cutoff 2024-03-05 => refused: WrongDate
cutoff 2024-03-04 => CutOffDone
cutoff 2024-03-04 => Repeated(Nothing)
order ALFA A-2 BETA 1 => refused: NotOpen
close 2024-03-04 => refused: Resolvable
close 2024-03-05 => refused: WrongDate
resolve => Resolved { mark: 1, count: 3, value: Cents(300) }
close 2024-03-04 => Closed { rejected: 0 }
close 2024-03-04 => Repeated(Nothing)
account ALFA => 0 cents, 0 queued
account BETA => 0 cents, 0 queued
account GAMA => 0 cents, 0 queued
",
    )
}

#[test]
fn a_deadlock_is_rejected_at_the_close(rt: HostRuntime) -> Result<(), Fail> {
    desk_follows(
        &rt,
        "
open 2024-03-04 => Opened
order ALFA A-1 BETA 100 => Queued { number: 1, place: 1 }
order BETA B-1 GAMA 90 => Queued { number: 2, place: 1 }
cutoff 2024-03-04 => CutOffDone
close 2024-03-04 => Closed { rejected: 2 }
close 2024-03-04 => Repeated(Nothing)
order ALFA A-1 BETA 100 => Repeated(Order { number: 1, state: Rejected })
withdraw ALFA A-1 => refused: NotQueued
account ALFA => 0 cents, 0 queued
account BETA => 0 cents, 0 queued
account GAMA => 0 cents, 0 queued
",
    )
}

#[test]
fn nobody_is_overdrawn_at_the_close(rt: HostRuntime) -> Result<(), Fail> {
    desk_follows(
        &rt,
        "
open 2024-03-04 => Opened
credit ALFA 100 => CreditSet
order ALFA A-1 BETA 100 => Settled { number: 1, mark: 1 }
order ALFA A-2 BETA 1 => Queued { number: 2, place: 1 }
cutoff 2024-03-04 => CutOffDone
close 2024-03-04 => refused: Overdrawn { first: Code { text: \"ALFA\" }, count: 1 }
post ALFA P-1 100 => Posted { number: 1 }
close 2024-03-04 => refused: Resolvable
withdraw ALFA A-2 => Withdrawn { number: 2 }
close 2024-03-04 => Closed { rejected: 0 }
credit ALFA 0 => CreditSet
account ALFA => 0 cents, 0 queued
account BETA => 100 cents, 0 queued
account GAMA => 0 cents, 0 queued
",
    )
}

#[test]
fn a_day_without_orders_is_closed(rt: HostRuntime) -> Result<(), Fail> {
    desk_follows(
        &rt,
        "
open 2024-03-04 => Opened
cutoff 2024-03-04 => CutOffDone
open 2024-03-05 => refused: WrongPhase
close 2024-03-04 => Closed { rejected: 0 }
open 2024-03-09 => refused: Weekend
open 2024-03-04 => refused: WrongDate
open 2024-03-05 => Opened
",
    )
}

#[test]
fn a_new_desk_has_nothing_to_close(rt: HostRuntime) -> Result<(), Fail> {
    desk_follows(
        &rt,
        "
close 2024-03-04 => refused: WrongPhase
cutoff 2024-03-04 => refused: WrongPhase
resolve => refused: WrongPhase
order ALFA A-1 BETA 1 => refused: NotOpen
credit ALFA 5 => CreditSet
",
    )
}
