//! What a participant is shown of its queue.
ghost use Rattle.std.specs.Prelude.{◌≡◌, map, IfOk};
ghost use Rattle.serde_json.specs.View.{view};
ghost use Rattle.serde_json.specs.Written.{compact_text};
ghost use Rattle.rtgs_http_bodies.specs.Readings.{queue_data, queued_data, queued_from};
ghost use Rattle.rtgs_http_bodies.specs.replies.Messages.{json_message};

use crate::members::{with_text, with_value, with_whole};
use crate::replies::{ContentType, Reply};
use http::StatusCode;
use rtgs_book::Order;
use serde_json::{Map, Value};
use std::alloc::{AllocError, Global};

/// The reply that tells a participant its queue, in order. The only error is lack of memory.
pub fn queue_reply(alloc: Global, orders: &[Order]) -> Result<Reply, AllocError>
    ensures { IfOk result (λ reply. reply ≡ json_message 200 (queue_data orders.now)) }
{
    let text = queue_text(alloc, orders)?;
    Reply::new(alloc, StatusCode::OK, ContentType::Json, text.as_slice())
}

/// What a participant is shown of its queue, as JSON, in order. The only error is lack of memory.
pub fn queue_text(alloc: Global, orders: &[Order]) -> Result<Vec<u8>, AllocError>
    ensures { IfOk result (λ text. text.items ≡ compact_text (queue_data orders.now)) }
{
    let value = queue_value(alloc, orders)?;
    value.to_vec(alloc)
}

// The JSON value of a queue.
fn queue_value(alloc: Global, orders: &[Order]) -> Result<Value, AllocError>
    ensures { IfOk result (λ value. view value ≡ queue_data orders.now) }
{
    let items = queued_values(alloc, orders)?;
    let members = with_value(alloc, Map::new(alloc), "orders", Value::Array(items))?;
    Ok(Value::Object(members))
}

// The JSON value of each order of a queue, in order.
fn queued_values(alloc: Global, orders: &[Order]) -> Result<Vec<Value>, AllocError>
    ensures { IfOk result (λ items. map view items.items ≡ queued_from 1 orders.now) }
{
    let mut items = Vec::new(alloc);
    for (index, order) in orders.iter().enumerate() {
        let item = queued_value(alloc, order, index + 1)?;
        items.push(item)?;
    }
    Ok(items)
}

// The JSON value of an order at this place of its queue.
fn queued_value(alloc: Global, order: &Order, place: usize) -> Result<Value, AllocError>
    ensures { IfOk result (λ value. view value ≡ queued_data place order.now) }
{
    let members = with_whole(alloc, Map::new(alloc), "amount", order.amount.cents())?;
    let members = with_whole(alloc, members, "number", order.number)?;
    let members = with_whole(alloc, members, "place", place as u64)?;
    let members = with_text(alloc, members, "reference", order.reference.as_str())?;
    let members = with_text(alloc, members, "to", order.receiver.as_str())?;
    Ok(Value::Object(members))
}
