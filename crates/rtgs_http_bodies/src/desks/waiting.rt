//! What is shown of orders that wait.
ghost use Rattle.std.specs.Prelude.{◌≡◌, map, IfOk};
ghost use Rattle.serde_json.specs.View.{members_view, view};
ghost use Rattle.serde_json.specs.Written.{compact_text};
ghost use Rattle.rtgs_http_bodies.specs.desks.Waiting.{WaitingFits, first_data, held_data, held_list_data};
ghost use Rattle.rtgs_http_bodies.specs.desks.Waiting.{waiting_data, with_first};
ghost use Rattle.rtgs_http_bodies.specs.replies.Messages.{json_message};

use crate::members::{Members, with_sum, with_text, with_value, with_whole};
use crate::replies::{ContentType, Reply};
use http::StatusCode;
use rtgs_book::{Order, WaitingReading};
use rtgs_money::BusinessDate;
use serde_json::{Map, Value};
use std::alloc::{AllocError, Global};

/// The reply that tells these held orders, in their order. The only error is lack of memory.
pub fn held_reply(alloc: Global, orders: &[Order]) -> Result<Reply, AllocError>
    ensures { IfOk result (λ reply. reply ≡ json_message 200 (held_list_data orders.now)) }
{
    let text = held_text(alloc, orders)?;
    Reply::new(alloc, StatusCode::OK, ContentType::Json, text.as_slice())
}

/// What is shown of these held orders, as JSON, in their order. The only error is lack of memory.
pub fn held_text(alloc: Global, orders: &[Order]) -> Result<Vec<u8>, AllocError>
    ensures { IfOk result (λ text. text.items ≡ compact_text (held_list_data orders.now)) }
{
    let value = held_list_value(alloc, orders)?;
    value.to_vec(alloc)
}

// The JSON value of held orders.
fn held_list_value(alloc: Global, orders: &[Order]) -> Result<Value, AllocError>
    ensures { IfOk result (λ value. view value ≡ held_list_data orders.now) }
{
    let items = held_values(alloc, orders)?;
    let members = with_value(alloc, Map::new(alloc), "orders", Value::Array(items))?;
    Ok(Value::Object(members))
}

// The JSON value of each held order, in order.
fn held_values(alloc: Global, orders: &[Order]) -> Result<Vec<Value>, AllocError>
    ensures { IfOk result (λ items. map view items.items ≡ map held_data orders.now) }
{
    let mut items = Vec::new(alloc);
    for order in orders {
        items.push(held_value(alloc, order)?)?;
    }
    Ok(items)
}

// The JSON value of a held order.
fn held_value(alloc: Global, order: &Order) -> Result<Value, AllocError>
    ensures { IfOk result (λ value. view value ≡ held_data order.now) }
{
    let due = order.date.text();
    let members = with_whole(alloc, Map::new(alloc), "amount", order.amount.cents())?;
    let members = with_text(alloc, members, "due", due.as_str())?;
    let members = with_whole(alloc, members, "number", order.number)?;
    let members = with_text(alloc, members, "reference", order.reference.as_str())?;
    let members = with_text(alloc, members, "to", order.receiver.as_str())?;
    Ok(Value::Object(members))
}

/// The reply that tells a participant why its orders wait. The only error is lack of memory.
pub fn waiting_reply(alloc: Global, reading: &WaitingReading) -> Result<Reply, AllocError>
    ensures { WaitingFits reading.now
        → IfOk result (λ reply. reply ≡ json_message 200 (waiting_data reading.now)) }
{
    let text = waiting_text(alloc, reading)?;
    Reply::new(alloc, StatusCode::OK, ContentType::Json, text.as_slice())
}

/// What a participant is shown of why its orders wait, as JSON, with the first order of its queue if there is one.
/// Sums of cents are shown up to 2^63 - 1, and those of a desk are no larger. The only error is lack of memory.
pub fn waiting_text(alloc: Global, reading: &WaitingReading) -> Result<Vec<u8>, AllocError>
    ensures { WaitingFits reading.now
        → IfOk result (λ text. text.items ≡ compact_text (waiting_data reading.now)) }
{
    let value = waiting_value(alloc, reading)?;
    value.to_vec(alloc)
}

// The JSON value of why orders wait.
fn waiting_value(alloc: Global, reading: &WaitingReading) -> Result<Value, AllocError>
    ensures { WaitingFits reading.now → IfOk result (λ value. view value ≡ waiting_data reading.now) }
{
    let members = with_sum(alloc, Map::new(alloc), "headroom", reading.headroom)?;
    let members = with_whole(alloc, members, "held", reading.held.count as u64)?;
    let members = with_sum(alloc, members, "held_value", reading.held.value)?;
    let members = with_whole(alloc, members, "queued", reading.queued.count as u64)?;
    let members = with_sum(alloc, members, "queued_value", reading.queued.value)?;
    let members = with_sum(alloc, members, "short", reading.short)?;
    Ok(Value::Object(with_first(alloc, members, &reading.first)?))
}

// The members with the first order of a queue, if there is one, as one more.
fn with_first(alloc: Global, members: Members, first: &Option<Order>) -> Result<Members, AllocError>
    ensures { IfOk result (λ added. members_view added.entries
        ≡ with_first first.now (members_view members.entries)) }
{
    // Names the type of due dates for the borrow checker, which finds it nowhere else in this function.
    let _no_date: Option<BusinessDate> = None;
    match first {
        Some(order) => {
            let value = first_value(alloc, order)?;
            with_value(alloc, members, "first", value)
        }
        None => Ok(members),
    }
}

// The JSON value of the first order of a queue.
fn first_value(alloc: Global, order: &Order) -> Result<Value, AllocError>
    ensures { IfOk result (λ value. view value ≡ first_data order.now) }
{
    let members = with_whole(alloc, Map::new(alloc), "amount", order.amount.cents())?;
    let members = with_whole(alloc, members, "number", order.number)?;
    let members = with_text(alloc, members, "reference", order.reference.as_str())?;
    let members = with_text(alloc, members, "to", order.receiver.as_str())?;
    Ok(Value::Object(members))
}
