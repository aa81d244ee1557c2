//! What a desk says of orders that wait, and of itself.
use super::super::scripts::desks::{desk_after, desk_follows};
use super::super::scripts::follows;
use rtgs_book::Order;
use rtgs_keeper::Keeper;
use rtgs_money::BusinessDate;
use rtgs_tests_desks::ensure;
use std::alloc::Global;
use std::test::Fail;

const NO_DAY: &str = "
status => Day { date: None, phase: Closed, automatic: false }, 3 have 0.00, 0 queued of 0.00, 0 held of 0.00, next 1 1 1
waiting ALFA => first 0, 0.00 free, 0.00 short, 0 queued of 0.00, 0 held of 0.00
held ALFA => empty
";

#[test]
fn nothing_waits_before_the_first_day(rt: HostRuntime) -> Result<(), Fail> {
    desk_follows(&rt, NO_DAY)
}

// ALFA has a floor of -40 and pays down to it. Of its held orders the later is due first.
const WAITING: &str = "
post ALFA P-1 100 => Posted { number: 1 }
credit ALFA 40 => CreditSet
open 2024-03-04 => Opened
order ALFA H-1 BETA 7 due 2024-03-06 => Held { number: 1, due: BusinessDate { number: 20240306 } }
order ALFA H-2 GAMA 5 due 2024-03-05 => Held { number: 2, due: BusinessDate { number: 20240305 } }
order ALFA H-3 BETA 3 due 2024-03-06 => Held { number: 3, due: BusinessDate { number: 20240306 } }
order BETA H-1 ALFA 1 due 2024-03-05 => Held { number: 4, due: BusinessDate { number: 20240305 } }
order ALFA O-1 BETA 90 => Settled { number: 5, mark: 1 }
waiting ALFA => first 0, 0.50 free, 0.00 short, 0 queued of 0.00, 3 held of 0.15
order ALFA O-2 BETA 60 => Queued { number: 6, place: 1 }
order ALFA O-3 GAMA 2 => Queued { number: 7, place: 2 }
waiting ALFA => first 6, 0.50 free, 0.10 short, 2 queued of 0.62, 3 held of 0.15
waiting BETA => first 0, 0.90 free, 0.00 short, 0 queued of 0.00, 1 held of 0.01
post ALFA P-2 10 => Posted { number: 2 }
waiting ALFA => first 6, 0.60 free, 0.00 short, 2 queued of 0.62, 3 held of 0.15
";

const HELD: &str = "
held ALFA => 2 ALFA H-2 GAMA 5 2024-03-05 Held due 2024-03-05, 1 ALFA H-1 BETA 7 2024-03-06 Held due 2024-03-06, \
3 ALFA H-3 BETA 3 2024-03-06 Held due 2024-03-06
held BETA => 4 BETA H-1 ALFA 1 2024-03-05 Held due 2024-03-05
held GAMA => empty
";

const STANDS: &str = "
status => Day { date: Some(BusinessDate { number: 20240304 }), phase: Open, automatic: false }, \
3 have 1.10, 2 queued of 0.62, 4 held of 0.16, next 3 8 2
";

#[test]
fn orders_wait_for_a_reason(rt: HostRuntime) -> Result<(), Fail> {
    let mut desk = desk_after(rt.alloc(), WAITING)?;
    follows(rt.alloc(), &mut desk, HELD)?;
    follows(rt.alloc(), &mut desk, STANDS)
}

// The lines of 500 held orders of ALFA. Those with even numbers are due a day before the others.
fn many_held(alloc: Global) -> Result<String, Fail> {
    let mut script = String::from_str(alloc, "open 2024-03-04 => Opened\n")?;
    for number in 1..=500u32 {
        let day = 6 - (number + 1) % 2;
        let asked = format!(in alloc; "order ALFA H-{number} BETA 1 due 2024-03-0{day}")?;
        let due = format!(in alloc; "BusinessDate {{ number: 2024030{day} }}")?;
        let line = format!(in alloc; "{asked} => Held {{ number: {number}, due: {due} }}\n")?;
        script.push_str(line.as_str())?;
    }
    Ok(script)
}

// The number of the order at this place.
fn number_at(orders: &[Order], index: usize) -> Option<u64> {
    match orders.get(index) {
        Some(order) => Some(order.number),
        None => None,
    }
}

#[test]
fn a_sender_has_500_held_orders(rt: HostRuntime) -> Result<(), Fail> {
    // Names the type of due dates for the borrow checker, which finds it nowhere else in this function.
    let _no_date: Option<BusinessDate> = None;
    let script = many_held(rt.alloc())?;
    let desk = desk_after(rt.alloc(), script.as_str())?;
    let held = desk.held_of(&super::super::setting::code("ALFA")?)?;
    let orders = held.as_slice();
    ensure(orders.len() == 500)?;
    ensure(number_at(orders, 0) == Some(2) && number_at(orders, 249) == Some(500))?;
    ensure(number_at(orders, 250) == Some(1) && number_at(orders, 499) == Some(499))
}
