//! What a desk says of all queues.
use super::super::scripts::desks::desk_follows;
use std::test::Fail;

// Nobody has anything, and both orders settle together. A closed desk has no queues.
const RING: &str = "
queues => none
open 2024-03-04 => Opened
queues => none
order BETA B-1 ALFA 100 => Queued { number: 1, place: 1 }
order ALFA A-1 BETA 100 => Queued { number: 2, place: 1 }
queues => [ALFA A-1 0 100|1 1.00|1 1.00|BETA 1 1.00][BETA B-1 0 100|1 1.00|1 1.00|ALFA 1 1.00]
resolve => Resolved { mark: 1, count: 2, value: Cents(200) }
queues => none
";

#[test]
fn a_ring_would_settle(rt: HostRuntime) -> Result<(), Fail> {
    desk_follows(&rt, RING)
}

// Nobody pays ALFA, so its order stays, and that of BETA with it.
const DEADLOCK: &str = "
open 2024-03-04 => Opened
order ALFA A-1 BETA 100 => Queued { number: 1, place: 1 }
order BETA B-1 GAMA 90 => Queued { number: 2, place: 1 }
queues => [ALFA A-1 0 100|1 1.00|0 0.00|BETA 1 1.00][BETA B-1 0 90|1 0.90|0 0.00|GAMA 1 0.90]
resolve => Nothing
";

#[test]
fn a_deadlock_stays(rt: HostRuntime) -> Result<(), Fail> {
    desk_follows(&rt, DEADLOCK)
}

// ALFA pays two banks, and only its first order would settle. The receivers come in the order of their codes.
const PARTIAL: &str = "
open 2024-03-04 => Opened
order ALFA A-1 GAMA 100 => Queued { number: 1, place: 1 }
order ALFA A-2 BETA 50 => Queued { number: 2, place: 2 }
order ALFA A-3 GAMA 7 => Queued { number: 3, place: 3 }
order GAMA G-1 ALFA 100 => Queued { number: 4, place: 1 }
queues => [ALFA A-1 0 100|3 1.57|1 1.00|BETA 1 0.50|GAMA 2 1.07][GAMA G-1 0 100|1 1.00|1 1.00|ALFA 1 1.00]
withdraw ALFA A-2 => Withdrawn { number: 2 }
queues => [ALFA A-1 0 100|2 1.07|1 1.00|GAMA 2 1.07][GAMA G-1 0 100|1 1.00|1 1.00|ALFA 1 1.00]
";

#[test]
fn a_part_of_a_queue_would_settle(rt: HostRuntime) -> Result<(), Fail> {
    desk_follows(&rt, PARTIAL)
}

// A credit limit gives headroom: at first to one order of three, and then to none.
const CREDIT: &str = "
open 2024-03-04 => Opened
order ALFA A-1 BETA 20 => Queued { number: 1, place: 1 }
order ALFA A-2 BETA 20 => Queued { number: 2, place: 2 }
order ALFA A-3 BETA 20 => Queued { number: 3, place: 3 }
credit ALFA 30 => CreditSet
queues => [ALFA A-1 30 0|3 0.60|1 0.20|BETA 3 0.60]
resolve => Resolved { mark: 1, count: 1, value: Cents(20) }
queues => [ALFA A-2 10 10|2 0.40|0 0.00|BETA 2 0.40]
";

#[test]
fn a_credit_limit_gives_headroom(rt: HostRuntime) -> Result<(), Fail> {
    desk_follows(&rt, CREDIT)
}
