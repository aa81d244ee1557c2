//! What is shown of all queues: to the byte, and how long it may be.
use super::is_same;
use rtgs_book::{Day, Order, OrderState, Phase, QueueReading, ReceiverReading, Rows};
use rtgs_http_bodies::queues_text;
use rtgs_money::{Amount, BusinessDate, Cents, Code, Reference, Units};
use rtgs_tests_desks::ensure;
use std::alloc::Global;
use std::test::Fail;

fn code(text: &str) -> Result<Code, Fail> {
    Ok(Code::read(text.as_bytes())?)
}

// An automatic day that is open.
fn today() -> Result<Day, Fail> {
    Ok(Day {
        date: Some(BusinessDate::read(b"2024-03-04")?),
        phase: Phase::Open,
        automatic: true,
    })
}

// The queued order of this sender with this number, reference and amount.
fn order(sender: &str, number: u64, name: &str, cents: u64) -> Result<Order, Fail> {
    Ok(Order {
        number,
        sender: code(sender)?,
        reference: Reference::read(name.as_bytes())?,
        receiver: code("BETAFOUR")?,
        amount: Amount::from_cents(cents).ok_or("an amount")?,
        date: BusinessDate::read(b"2024-03-04")?,
        due: None,
        state: OrderState::Queued,
    })
}

// A queue of this first order alone. Nothing of it would settle.
fn alone(alloc: Global, first: Order) -> Result<QueueReading, Fail> {
    let mut receivers = Vec::new(alloc);
    receivers.push(ReceiverReading {
        queued: 1,
        queued_value: Units::new(i128::from(first.amount.cents())),
        to: first.receiver,
    })?;
    Ok(QueueReading {
        code: first.sender,
        first,
        headroom: Cents::new(30),
        queued: 1,
        queued_value: Units::new(i128::from(first.amount.cents())),
        receivers: Rows::from_vec(receivers),
        settling: 0,
        settling_value: Units::new(0),
        short: 70,
    })
}

const SHOWN: &str =
    "{\"automatic\":true,\"date\":\"2024-03-04\",\"phase\":\"OPEN\",\"queues\":[{\"code\":\"ALFA\",\
    \"first\":{\"amount\":100,\"number\":7,\"reference\":\"A-1\",\"to\":\"BETAFOUR\"},\"headroom\":30,\"queued\":1,\
    \"queued_value\":100,\"receivers\":[{\"queued\":1,\"queued_value\":100,\"to\":\"BETAFOUR\"}],\"settling\":0,\
    \"settling_value\":0,\"short\":70}]}";

#[test]
fn a_queue_is_shown_to_the_byte(rt: HostRuntime) -> Result<(), Fail> {
    let mut queues = Vec::new(rt.alloc());
    queues.push(alone(rt.alloc(), order("ALFA", 7, "A-1", 100)?)?)?;
    let text = String::from_utf8(queues_text(rt.alloc(), today()?, &queues)?)?;
    is_same(text.as_str(), SHOWN)
}

#[test]
fn no_queue_is_shown_before_the_first_day(rt: HostRuntime) -> Result<(), Fail> {
    let day = Day {
        date: None,
        phase: Phase::Closed,
        automatic: false,
    };
    let text = String::from_utf8(queues_text(rt.alloc(), day, &[])?)?;
    is_same(
        text.as_str(),
        "{\"automatic\":false,\"phase\":\"CLOSED\",\"queues\":[]}",
    )
}

// A queue of which each number and each name is as long as may be, with 99 receivers.
fn longest(alloc: Global) -> Result<QueueReading, Fail> {
    let name = "ABCDEFGHIJKLMNOP";
    let first = order("ALFAFOUR", 999_999_999, name, Amount::MAX)?;
    let most = Units::new(500_000_000_000_000);
    let mut receivers = Vec::new(alloc);
    for _ in 0..99 {
        receivers.push(ReceiverReading {
            queued: 500,
            queued_value: most,
            to: first.receiver,
        })?;
    }
    Ok(QueueReading {
        code: first.sender,
        first,
        headroom: Cents::new(11_000_000_000_000_000),
        queued: 500,
        queued_value: most,
        receivers: Rows::from_vec(receivers),
        settling: 500,
        settling_value: most,
        short: Amount::MAX,
    })
}

#[test]
fn a_hundred_queues_take_less_than_650000_bytes(rt: HostRuntime) -> Result<(), Fail> {
    let mut queues = Vec::new(rt.alloc());
    for _ in 0..100 {
        queues.push(longest(rt.alloc())?)?;
    }
    let text = queues_text(rt.alloc(), today()?, &queues)?;
    ensure(text.len() > 600_000 && text.len() < 650_000)
}
